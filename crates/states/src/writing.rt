//! Writes the lines of a state, in words and in digits.
//!
//! Each call puts a text after what stands in `out`. `NoMemory` comes if memory was refused.

ghost use Rattle.std.specs.Prelude.{◌≡◌, ◌<◌, ◌++◌, length, codes, decimal, OnOk};
ghost use Rattle.state_codec.specs.Shapes.{fields_at};
ghost use Rattle.state_codec.specs.Ranges.{InRange};
ghost use Rattle.states.specs.StateTexts.{value_text, register_text, registers_text};
ghost use Rattle.states.specs.StateTexts.{number_text, worded, in_digits, had};

use crate::shaped::NodeShape;
use itoa::Buffer;
use sync_types::{NoMemory, NodeState, Reg};

/// No state has more digits.
const MOST_DIGITS: usize = 256;

pub fn push_text(text: &[u8], out: &mut Vec<u8>) -> Result<(), NoMemory>
    ensures { OnOk result (out.new.items ≡ out.old.items ++ text.now) }
{
    out.extend_from_slice(text)?;
    Ok(())
}

fn push_number(value: u64, out: &mut Vec<u8>) -> Result<(), NoMemory>
    ensures { OnOk result (out.new.items ≡ out.old.items ++ decimal value) }
{
    let mut buffer = Buffer::new();
    push_text(buffer.format(value).as_bytes(), out)
}

fn push_value(value: Option<u64>, out: &mut Vec<u8>) -> Result<(), NoMemory>
    ensures { OnOk result (out.new.items ≡ out.old.items ++ value_text value) }
{
    match value {
        Some(value) => push_number(value, out),
        None => push_text(b"infinite", out),
    }
}

fn push_register(register: Reg, out: &mut Vec<u8>) -> Result<(), NoMemory>
    ensures { OnOk result (out.new.items ≡ out.old.items ++ register_text register) }
{
    push_text(b" ", out)?;
    push_value(register.a, out)?;
    if register.d {
        push_text(b" marked", out)?;
    }
    Ok(())
}

impl NodeShape<'_> {
    /// Puts the registers that the node has.
    fn push_registers(&self, state: &NodeState, out: &mut Vec<u8>) -> Result<(), NoMemory>
        requires { length state.now.registers ≡ self.now.shape.now.depth }
        ensures { OnOk result (out.new.items ≡ out.old.items
            ++ registers_text (codes " registers")
            (had (fields_at self.now.shape.now self.now.node).moduli state.now.registers)) }
    {
        let mut before = b" registers".as_slice();
        for i in 0..self.shape.depth() {
            if self.modulus(i) > 0 {
                push_text(before, out)?;
                push_register(state.reg(i), out)?;
                before = b",".as_slice();
            }
        }
        Ok(())
    }

    /// Puts the number, if it has more than one value.
    fn push_number(&self, x: u64, out: &mut Vec<u8>) -> Result<(), NoMemory>
        ensures { OnOk result (out.new.items ≡ out.old.items
            ++ number_text (fields_at self.now.shape.now self.now.node).base x) }
    {
        if self.has_number() {
            push_text(b" number ", out)?;
            push_number(x, out)?;
        }
        Ok(())
    }

    /// Puts a state in words.
    pub fn push_words(&self, state: &NodeState, out: &mut Vec<u8>) -> Result<(), NoMemory>
        requires { length state.now.registers ≡ self.now.shape.now.depth }
        ensures { OnOk result (out.new.items ≡ out.old.items
            ++ worded (fields_at self.now.shape.now self.now.node) self.now.node state.now) }
    {
        push_text(b"node ", out)?;
        push_number(u64::from(self.node), out)?;
        self.push_number(state.x(), out)?;
        self.push_registers(state, out)
    }

    /// Puts a state in hex digits.
    pub fn push_digits(&self, state: &NodeState, out: &mut Vec<u8>) -> Result<(), NoMemory>
        requires { InRange (fields_at self.now.shape.now self.now.node) state.now }
        ensures { OnOk result (out.new.items ≡ out.old.items
            ++ in_digits (fields_at self.now.shape.now self.now.node) self.now.node state.now) }
    {
        let mut buffer = [0; MOST_DIGITS];
        let digits = &mut buffer[..2 * self.shape.bytes_of(self.node)];
        self.shape.write_hex(self.node, state, digits);
        push_text(b"node ", out)?;
        push_number(u64::from(self.node), out)?;
        push_text(b" ", out)?;
        push_text(digits, out)
    }
}
