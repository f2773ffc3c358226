//! States that are drawn.

use crate::draws::Draws;
use reference::constructions::Shape;
use reference::numbers::remainder;
use reference::states::{Fields, Register, State, ZERO_STATE};
use std::alloc::AllocError;

/// Two states that others are near to: nodes in turn, so many together, to the one and the other.
#[derive(Clone, Copy)]
pub struct Near {
    together: u64,
    states: [State; 2],
}

/// A state whose number and finite values are taken modulo what they count by.
fn wrapped(fields: &Fields, state: &State) -> State {
    let mut wrapped = *state;
    wrapped.x = remainder(state.x, fields.base);
    for (register, modulus) in wrapped.registers.iter_mut().zip(&fields.moduli) {
        if let Some(value) = register.value {
            register.value = Some(remainder(value, *modulus));
        }
    }
    fields.shifted(&wrapped, 0)
}

impl Near {
    /// The state to which a node is near.
    fn centre(&self, node: u64) -> State {
        let turn = node.checked_div(self.together).unwrap_or(0);
        let [first, second] = self.states;
        if turn % 2 == 0 { first } else { second }
    }
}

impl Draws {
    /// A number that is often 0.
    fn number(&mut self) -> u64 {
        if self.once_in(2) {
            0
        } else {
            self.below(1 << 40)
        }
    }

    /// A register of any kind.
    fn register(&mut self) -> Register {
        let number = self.number();
        Register {
            value: if self.once_in(3) { None } else { Some(number) },
            mark: self.once_in(2),
        }
    }

    /// A register near to another: mostly that, else any, or the value above.
    fn near_register(&mut self, other: &Register) -> Register {
        match self.below(12) {
            0 => self.register(),
            1 => Register {
                value: other.value.map(|value| value.wrapping_add(1)),
                mark: other.mark,
            },
            2 | 3 => Register {
                value: other.value,
                mark: self.once_in(2),
            },
            _ => *other,
        }
    }

    /// A state of nodes that have counted so many rounds: a register in two holds what was a round
    /// ago, so that halves show what they did.
    fn counted(&mut self, rounds: u64) -> State {
        let mut state = ZERO_STATE;
        state.x = rounds;
        for (place, register) in state.registers.iter_mut().enumerate() {
            let before = (place % 2) as u64;
            *register = Register {
                value: Some(rounds.wrapping_sub(before)),
                mark: !self.once_in(4),
            };
        }
        state
    }

    /// A state of any kind, or one that was counted.
    fn centre(&mut self) -> State {
        let rounds = self.between(1, 1 << 40);
        let mut state = self.counted(rounds);
        if self.once_in(2) {
            for register in &mut state.registers {
                *register = self.register();
            }
        }
        state
    }

    /// What states are near to: mostly all to one.
    pub fn near(&mut self, shape: &Shape) -> Near {
        let mut near = Near {
            together: shape.numbers.nodes,
            states: [self.centre(), self.centre()],
        };
        if self.once_in(3) {
            near.together = self.between(1, shape.numbers.nodes);
        }
        near
    }

    /// A state of a node near to others.
    pub fn state(&mut self, shape: &Shape, near: &Near, node: u64) -> State {
        let mut state = near.centre(node);
        if self.once_in(10) {
            state.x = self.number();
        }
        for register in &mut state.registers {
            *register = self.near_register(register);
        }
        wrapped(&shape.fields(node), &state)
    }

    /// The bytes of a state of a node near to others, or any bytes.
    pub fn state_bytes(
        &mut self,
        shape: &Shape,
        near: &Near,
        node: u64,
    ) -> Result<Vec<u8>, AllocError> {
        let fields = shape.fields(node);
        if self.once_in(8) {
            return self.bytes(fields.bytes());
        }
        let state = self.state(shape, near, node);
        Vec::from_slice(self.alloc, fields.written(&state).bytes(fields.bytes()))
    }
}
