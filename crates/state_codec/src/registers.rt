ghost use Rattle.std.specs.Prelude.{◌≡◌, ◌≤◌, ◌<◌, ◌+◌, ◌*◌, ◌^◌, length, drop};
ghost use Rattle.sync_types.specs.States.{zero_state};
ghost use Rattle.state_codec.specs.Bits.{bits, bits_of_bytes};
ghost use Rattle.state_codec.specs.Shapes.{register_bits};
ghost use Rattle.state_codec.specs.Ranges.{IsField};
ghost use Rattle.state_codec.specs.Writing.{bits_of_register};
ghost use Rattle.state_codec.specs.Reading.{below, register_from};

use crate::pieces::SizedNumber;
use byteorder::{BigEndian, ByteOrder};
use sync_types::{NodeState, Reg};

/// The zero register.
const ZERO: Reg = Reg {
    a: Some(0),
    d: false,
};

/// A number of no bits.
const NOTHING: SizedNumber = SizedNumber { size: 0, value: 0 };

/// The bits of a register: its modulus, which is 0 if the register is lacking, and how many bits it
/// has.
#[derive(Clone, Copy)]
pub struct RegisterField {
    pub modulus: u64,
    pub size: u32,
    ghost most: { modulus ≤ 2 ^ 40 },
    ghost short: { size ≤ 42 },
    ghost sized: { size ≡ register_bits modulus },
}

impl RegisterField {
    /// The bits of a register, as a number; one that is lacking has none.
    pub fn bits(self, register: Reg) -> SizedNumber
        requires { IsField self.modulus register }
        ensures size { result.size ≡ self.size }
        ensures text { bits result.size result.value ≡ bits_of_register self.modulus register }
    {
        if self.modulus == 0 {
            return NOTHING;
        }
        let value = register.a.unwrap_or(self.modulus);
        SizedNumber {
            size: self.size,
            value: (value << 1) | register.d as u64,
        }
    }

    /// The register whose bits begin at bit `from`, by one load of eight bytes; so many more stand
    /// after it. One that is lacking is zero.
    pub fn read(self, bytes: &[u8], from: usize) -> Reg
        requires { from + self.size + 64 ≤ 8 * length bytes.now }
        ensures { result ≡ register_from self.modulus (drop from (bits_of_bytes bytes.now)) }
    {
        if self.modulus == 0 {
            return ZERO;
        }
        let first = from / 8;
        let word = BigEndian::read_u64(&bytes[first..first + 8]);
        let both = (word << (from % 8) as u32) >> (64 - self.size);
        Reg {
            a: below(self.modulus, both / 2),
            d: both % 2 == 1,
        }
    }
}

/// A number, if it is below the modulus.
pub fn below(modulus: u64, n: u64) -> Option<u64>
    ensures { result ≡ below modulus n }
{
    if n < modulus { Some(n) } else { None }
}

/// Makes a state the zero state of its depth.
pub fn set_zero(state: &mut NodeState)
    ensures { state.new ≡ zero_state (length state.old.registers) }
{
    state.set_x(0);
    for i in 0..state.depth() {
        state.set_reg(i, ZERO);
    }
}
