//! States of nodes that are drawn, as bench/tools/halving_steps.py draws them.

ghost use Rattle.std.specs.Prelude.{◌<◌};

use counter_core::clear;
use halving_plan::{Group, HalvingPlan, LevelState};
use std::process::Abort;
use sync_types::{NodeState, Reg};

/// Numbers that are drawn by a shift register, whose first ones are left out.
pub(crate) struct Numbers {
    word: u64,
}

impl Drop for Numbers {
    fn drop(self) {
        let Numbers { word: _ } = self;
    }
}

impl Numbers {
    pub(crate) fn new(seed: u64) -> Numbers {
        let mut numbers = Numbers {
            word: seed.wrapping_mul(0x9e37_79b9_7f4a_7c15),
        };
        for _ in 0..4 {
            numbers.draw();
        }
        numbers
    }

    pub(crate) fn draw(&mut self) -> u64 {
        let a = self.word ^ self.word.wrapping_shl(13);
        let b = a ^ a.wrapping_shr(7);
        self.word = b ^ b.wrapping_shl(17);
        self.word.wrapping_shr(16)
    }

    /// What a node shows of a group that has counted to the clock, or, one time in `strays`, another
    /// number.
    fn number(&mut self, clock: u64, strays: u64, modulus: u64) -> u64 {
        let drawn = self.draw();
        if modulus == 0 || strays == 0 {
            0
        } else if drawn % strays == 0 {
            drawn / strays % modulus
        } else {
            clock % modulus
        }
    }

    /// A value of a register of the phase king, which is such a number or infinite.
    fn value(&mut self, clock: u64, strays: u64, modulus: u64) -> Option<u64> {
        let number = self.number(clock, strays, modulus);
        let drawn = self.draw();
        if drawn % 3 == 0 && strays != 0 && drawn / 4 % strays == 0 {
            None
        } else {
            Some(number)
        }
    }

    fn level_state(&mut self, group: &Group, clock: u64, strays: u64) -> LevelState
        requires { 0 < group.now.faults }
    {
        let before = clock.wrapping_add(group.left_period()).wrapping_sub(1);
        LevelState {
            register: Reg {
                a: self.value(clock, strays, group.modulus()),
                d: self.draw() % 2 == 0,
            },
            seen: self.number(before, strays, group.left_period()),
            trusted: self.draw() % 4 != 0,
        }
    }

    /// Draws the level states of a node in a group, and in the halves in which it is.
    fn fill(
        &mut self,
        rt: &impl Abort,
        group: &Group,
        node: u32,
        clock: u64,
        strays: u64,
        state: &mut NodeState,
    ) {
        group.facts();
        if group.faults() == 0 {
            state.set_x(self.number(clock, strays, group.modulus()));
            return;
        }
        let level_state = self.level_state(group, clock, strays);
        assert!(rt; group.register() + 2 <= state.depth() && group.first() <= node);
        level_state.write(state, group);
        if let Some(half) = group.half_of(node) {
            self.fill(rt, &half, node, clock, strays, state);
        }
    }

    /// Draws a state of a node.
    pub(crate) fn state(
        &mut self,
        rt: &impl Abort,
        plan: &HalvingPlan,
        node: u32,
        clock: u64,
        strays: u64,
        state: &mut NodeState,
    ) {
        clear(state.depth(), state);
        self.fill(rt, &plan.whole(), node, clock, strays, state);
    }
}

/// One time in how many a number is another than that of the common clock.
pub(crate) const STRAYS: [u64; 4] = [1, 2, 8, 1_000_003];

/// Draws a state of each node, one after another, all near to one clock.
pub(crate) fn draw_all(
    rt: &impl Abort,
    numbers: &mut Numbers,
    plan: &HalvingPlan,
    strays: u64,
    states: &mut [NodeState],
) {
    let clock = numbers.draw();
    let mut node: u32 = 0;
    for state in states.iter_mut() {
        numbers.state(rt, plan, node, clock, strays, state);
        node = node.wrapping_add(1);
    }
}

fn put(digest: u64, number: u64) -> u64 {
    (digest ^ number).wrapping_mul(0x100_0000_01b3)
}

/// A number that tells this state, and what was digested before, from others.
pub(crate) fn digested(digest: u64, state: &NodeState) -> u64 {
    let mut digest = put(digest, state.x());
    for i in 0..state.depth() {
        let reg = state.reg(i);
        let value = match reg.a {
            Some(a) => a.wrapping_add(1),
            None => 0,
        };
        digest = put(put(digest, value), u64::from(reg.d));
    }
    digest
}
