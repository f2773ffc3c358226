//! States of nodes, and how bytes are read as one.

use crate::bits::{Bits, NO_BITS, number};
use crate::numbers::{remainder, width};

/// Where the registers of a layer stand: after those of eight levels of halves, of two registers
/// each. No plan of at most 256 nodes has more.
pub const LAYER: usize = 16;

/// How many registers there is room for: a layer has two at most.
pub const ROOM: usize = 18;

/// A register: a finite value, or None if it is infinite, and its mark.
#[derive(Clone, Copy)]
pub struct Register {
    pub value: Option<u64>,
    pub mark: bool,
}

/// A number, the registers of a counter, and those of a layer. What a node lacks is 0, with no
/// mark. Beside them, what a node of a layer decided last, which it says to nobody.
#[derive(Clone, Copy)]
pub struct State {
    pub x: u64,
    pub registers: [Register; ROOM],
    pub kept: u64,
}

/// Below what the number of a node's state is, 1 if it has none, and below what the values of its
/// registers are, 0 of one that it lacks. Bits stand in this order.
#[derive(Clone, Copy)]
pub struct Fields {
    pub base: u64,
    pub moduli: [u64; ROOM],
}

/// A register that a node lacks, or that it starts with.
pub const ZERO: Register = Register {
    value: Some(0),
    mark: false,
};

/// The state of zeros.
pub const ZERO_STATE: State = State {
    x: 0,
    registers: [ZERO; ROOM],
    kept: 0,
};

/// A state that has nothing.
pub const NO_FIELDS: Fields = Fields {
    base: 1,
    moduli: [0; ROOM],
};

/// The value that a number is read as, which is infinite if it is too large.
fn value_of(number: u64, modulus: u64) -> Option<u64> {
    if number < modulus { Some(number) } else { None }
}

impl Register {
    /// The register with its finite value raised by `by`. One that is too large is infinite.
    pub fn raised(self, by: u64, modulus: u64) -> Register {
        let mut value = self.value;
        if let Some(finite) = value {
            value = value_of(finite, modulus);
        }
        if let Some(finite) = value {
            value = Some(remainder(finite.wrapping_add(by), modulus));
        }
        Register {
            value,
            mark: self.mark,
        }
    }
}

impl State {
    /// The register at a place.
    pub fn register(&self, place: usize) -> Register {
        self.registers.get(place).copied().unwrap_or(ZERO)
    }

    /// Puts a register at a place.
    pub fn put(&mut self, place: usize, register: Register) {
        if let Some(old) = self.registers.get_mut(place) {
            *old = register;
        }
    }
}

/// How many bits a register has whose values are below a modulus.
fn bits_of(modulus: u64) -> u64 {
    if modulus == 0 {
        0
    } else {
        width(modulus.wrapping_add(1)).wrapping_add(1)
    }
}

/// The register of a modulus that stands in some bytes after `at` bits.
fn read_register(bytes: &[u8], at: u64, modulus: u64) -> Register {
    let bits = width(modulus.wrapping_add(1));
    Register {
        value: value_of(number(bytes, at, bits), modulus),
        mark: number(bytes, at.wrapping_add(bits), 1) == 1,
    }
}

impl Fields {
    /// Says below what the values of the register at a place are.
    pub fn put(&mut self, place: usize, modulus: u64) {
        if let Some(old) = self.moduli.get_mut(place) {
            *old = modulus;
        }
    }

    /// How many bytes a state has.
    pub fn bytes(&self) -> u64 {
        let mut bits = width(self.base);
        for modulus in &self.moduli {
            bits = bits.wrapping_add(bits_of(*modulus));
        }
        bits.wrapping_add(7) / 8
    }

    /// The state that some bytes are read as: a number that is too large is 0, and a value that is
    /// too large is infinite. Bytes of another length are the state of zeros.
    pub fn read(&self, bytes: &[u8]) -> State {
        let mut state = ZERO_STATE;
        if bytes.len() as u64 != self.bytes() {
            return state;
        }
        let mut at = width(self.base);
        state.x = value_of(number(bytes, 0, at), self.base).unwrap_or(0);
        for (register, modulus) in state.registers.iter_mut().zip(&self.moduli) {
            if *modulus > 0 {
                *register = read_register(bytes, at, *modulus);
                at = at.wrapping_add(bits_of(*modulus));
            }
        }
        state
    }

    /// The bits of a state: an infinite value stands as the first that is too large.
    pub fn written(&self, state: &State) -> Bits {
        let mut bits = NO_BITS;
        bits.put(state.x, width(self.base));
        for (register, modulus) in state.registers.iter().zip(&self.moduli) {
            if *modulus > 0 {
                let value = register.value.unwrap_or(*modulus);
                bits.put(value, width(modulus.wrapping_add(1)));
                bits.put(u64::from(register.mark), 1);
            }
        }
        bits
    }

    /// Of a state whose number and finite values are all raised by `by`, each in its modulus, what
    /// a node of these fields has. A number that is too large is 0, and a value that is too large
    /// is infinite, as they are read.
    pub fn shifted(&self, state: &State, by: u64) -> State {
        let mut shifted = ZERO_STATE;
        if state.x < self.base {
            shifted.x = remainder(state.x.wrapping_add(by), self.base);
        }
        for (place, modulus) in self.moduli.iter().enumerate() {
            if *modulus > 0 {
                shifted.put(place, state.register(place).raised(by, *modulus));
            }
        }
        shifted
    }
}

/// The state of a node in a configuration.
pub fn state_of(config: &[State], node: u64) -> State {
    config.get(node as usize).copied().unwrap_or(ZERO_STATE)
}
