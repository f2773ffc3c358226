ghost use Rattle.std.specs.Prelude.{◌≡◌, ◌<◌, ◌≤◌, ◌+◌, ◌*◌, ◌^◌, ◌++◌, length, take};
ghost use Rattle.std.specs.Prelude.{slice_index_or, IfOk, true, false, ◌≢◌};
ghost use Rattle.std.specs.Int.{div_ceil};
ghost use Rattle.sync_types.specs.States.{register_at};
ghost use Rattle.state_codec.specs.Shapes.{Fields, register_bits, registers_bits, bits_in};
ghost use Rattle.state_codec.specs.Shapes.{bytes_in, IsFields};
ghost use Rattle.state_codec.specs.Ranges.{InRange};
ghost use Rattle.state_codec.specs.Writing.{written, bits_of_registers};
ghost use Rattle.state_codec.specs.Waiting.{said_so_far, bits_so_far};
ghost use Rattle.state_codec.specs.Reading.{read};

use crate::pieces::{Pending, SizedNumber, Waiting};
use crate::registers::{RegisterField, below, set_zero};
use crate::widths::bit_length;
use crate::writer::{append, put};
use byteorder::{BigEndian, ByteOrder};
use std::alloc::Global;
use std::marker::Model;
use sync_types::{NoMemory, NodeState, Reg};

/// No state has more bytes.
pub const MOST_BYTES: usize = 128;

/// Eight more bytes are read with a state.
pub const ROOM: usize = MOST_BYTES + 8;

/// The fields of a node's state, and so which bits it takes: the modulus of the number, and that of
/// each register, the lowest first. A number that the node lacks has the modulus 1, and a register
/// that it lacks has 0.
#[derive(Debug, Drop)]
pub struct Fields {
    base: u64,
    moduli: Vec<u64>,
    // How many bits the number has, how many stand before each register and how many it has itself,
    // and how many all are.
    front: u32,
    offsets: Vec<u32>,
    sizes: Vec<u32>,
    size: u32,
}

impl Model for Fields {
    ghost use Rattle.state_codec.specs.Shapes.{Fields};
    ghost use Rattle.state_codec.specs.Kept.{IsValidFields};

    ghost Value = { Fields };

    ghost view = { λ s. record { base = s.base; moduli = s.moduli.items } };

    ghost invariant = { λ s.
        IsValidFields s.base s.moduli.items s.offsets.items s.sizes.items s.front s.size };
}

/// How many bits a register has; one that is lacking has none.
fn size_of_register(modulus: u64) -> u32
    requires { modulus ≤ 2 ^ 40 }
    ensures value { result ≡ register_bits modulus }
    ensures most { result ≤ 42 }
{
    if modulus == 0 {
        0
    } else {
        bit_length(modulus) + 1
    }
}

impl Fields {
    /// Fields of these moduli, whose states have at most 128 bytes. The only error is want of
    /// memory.
    pub fn new(alloc: Global, base: u64, moduli: Vec<u64>) -> Result<Fields, NoMemory>
        requires limits { IsFields (record { base = base; moduli = moduli.items }) }
        requires few { bits_in (record { base = base; moduli = moduli.items }) ≤ 1024 }
        ensures { IfOk result (λ fields.
            fields ≡ record { base = base; moduli = moduli.items }) }
    {
        let front = bit_length(base - 1);
        let mut offsets = vec![in alloc; 0; moduli.len()]?;
        let mut sizes = vec![in alloc; 0; moduli.len()]?;
        let mut size = front;
        for i in 0..moduli.len() {
            let own = size_of_register(moduli[i]);
            offsets[i] = size;
            sizes[i] = own;
            size += own;
        }
        Ok(Fields {
            base,
            moduli,
            front,
            offsets,
            sizes,
            size,
        })
    }

    /// The same fields. The only error is want of memory.
    pub fn try_clone(&self, alloc: Global) -> Result<Fields, NoMemory>
        ensures { IfOk result (λ made. made ≡ self.now) }
    {
        let moduli = self.moduli.clone()?;
        Fields::new(alloc, self.base, moduli)
    }

    /// Whether they are the same fields.
    pub fn is_same(&self, other: &Fields) -> bool
        ensures same { result ≡ true → self.now ≡ other.now }
        ensures other { result ≡ false → self.now ≢ other.now }
    {
        self.base == other.base && self.moduli == other.moduli
    }

    /// How many bits a state has, without padding.
    pub fn bits(&self) -> u32
        ensures { result ≡ bits_in self.now }
    {
        self.size
    }

    /// How many bytes a state has, at most 128.
    pub fn bytes(&self) -> usize
        ensures value { result ≡ bytes_in self.now }
        ensures most { result ≤ 128 }
    {
        self.size.div_ceil(8) as usize
    }

    /// The modulus of the number.
    pub fn base(&self) -> u64
        ensures value { result ≡ self.now.base }
        ensures least { 1 ≤ result }
        ensures most { result ≤ 2 ^ 40 }
    {
        self.base
    }

    /// Tells a caller's proof that the moduli are within the limits. It does nothing when it runs.
    pub fn facts(&self)
        ensures { IsFields self.now }
    {
        let _size = self.size;
    }

    /// The bits of register `i`, the lowest being 0.
    pub fn register(&self, i: usize) -> RegisterField
        requires { i < length self.now.moduli }
        ensures { result.modulus ≡ slice_index_or self.now.moduli i 0 }
    {
        RegisterField {
            modulus: self.moduli[i],
            size: self.sizes[i],
        }
    }

    /// Puts the registers of a state after what waits.
    fn put_registers(&self, out: &mut [u8], start: Waiting, state: &NodeState) -> Waiting
        requires range { InRange self.now state.now }
        requires space { bits_so_far start + registers_bits self.now.moduli
            ≤ 8 * length out.old }
        ensures length { length out.new ≡ length out.old }
        ensures text { said_so_far out.new result
            ≡ said_so_far out.old start
            ++ bits_of_registers self.now.moduli state.now.registers }
        ensures place { bits_so_far result
            ≡ bits_so_far start + registers_bits self.now.moduli }
    {
        let mut waiting = start;
        for i in 0..self.moduli.len() {
            let number = self.register(i).bits(state.reg(i));
            waiting = append(out, waiting, number);
        }
        waiting
    }

    /// Writes the bytes of a state into `out`, which has just their length.
    pub fn write_state(&self, state: &NodeState, out: &mut [u8])
        requires range { InRange self.now state.now }
        requires length { length out.old ≡ bytes_in self.now }
        ensures { out.new ≡ written self.now state.now }
    {
        let nothing = Pending {
            at: 0,
            held: 0,
            count: 0,
        };
        let number = SizedNumber {
            size: self.front,
            value: state.x(),
        };
        let front = Waiting {
            pending: nothing,
            number,
        };
        let end = self.put_registers(out, front, state);
        let padding = self.size.div_ceil(8) * 8 - self.size;
        let zeros = SizedNumber {
            size: padding,
            value: 0,
        };
        let whole = append(out, end, zeros);
        let _none = put(out, whole.pending, whole.number);
    }

    /// Reads a state from any bytes into `out`, which has the fields' depth. Bytes that are not
    /// exactly as many as a state has stand for the zero state. A number of its modulus or more is
    /// read as 0, and a value as infinity; padding is ignored.
    pub fn read_state(&self, bytes: &[u8], out: &mut NodeState)
        requires { length out.old.registers ≡ length self.now.moduli }
        ensures value { out.new ≡ read self.now bytes.now }
        ensures range { InRange self.now out.new }
    {
        self.facts();
        if bytes.len() == self.bytes() {
            let mut room = [0; ROOM];
            room[..bytes.len()].copy_from_slice(bytes);
            self.read_front(&room, out);
        } else {
            set_zero(out);
        }
    }

    /// The number of the state at the beginning of bytes, by one load of eight bytes; so many more
    /// stand after it.
    pub(crate) fn number_of(&self, bytes: &[u8]) -> u64
        requires { bytes_in self.now + 8 ≤ length bytes.now }
        ensures { result ≡ (read self.now (take (bytes_in self.now) bytes.now)).x }
    {
        if self.front == 0 {
            return 0;
        }
        let number = BigEndian::read_u64(&bytes[..8]) >> (64 - self.front);
        below(self.base, number).unwrap_or(0)
    }

    /// Register `i` of the state at the beginning of bytes; eight more stand after it.
    pub(crate) fn register_of(&self, bytes: &[u8], i: usize) -> Reg
        requires within { bytes_in self.now + 8 ≤ length bytes.now }
        requires register { i < length self.now.moduli }
        ensures { result ≡ register_at i (read self.now (take (bytes_in self.now) bytes.now)) }
    {
        self.register(i).read(bytes, self.offsets[i] as usize)
    }

    /// Reads the number and the lowest registers of the state at the beginning of bytes into `out`,
    /// as many as that has; eight more bytes stand after the state.
    pub(crate) fn read_lowest(&self, bytes: &[u8], out: &mut NodeState)
        requires within { bytes_in self.now + 8 ≤ length bytes.now }
        requires depth { length out.old.registers ≤ length self.now.moduli }
        ensures { let state = read self.now (take (bytes_in self.now) bytes.now) in
            out.new ≡ record {
              x = state.x;
              registers = take (length out.old.registers) state.registers;
            } }
    {
        self.facts();
        out.set_x(self.number_of(bytes));
        for i in 0..out.depth() {
            out.set_reg(i, self.register_of(bytes, i));
        }
    }

    /// Reads the state at the beginning of bytes into `out`, which has the fields' depth; eight
    /// more bytes stand after it.
    pub fn read_front(&self, bytes: &[u8], out: &mut NodeState)
        requires within { bytes_in self.now + 8 ≤ length bytes.now }
        requires depth { length out.old.registers ≡ length self.now.moduli }
        ensures value { out.new ≡ read self.now (take (bytes_in self.now) bytes.now) }
        ensures range { InRange self.now out.new }
    {
        self.facts();
        self.read_lowest(bytes, out);
    }
}
