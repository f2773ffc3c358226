//! The step of a node of a boosting plan.

use crate::agreement::{agreed, part};
use crate::numbers::{quotient, remainder};
use crate::plans::{Level, Plan};
use crate::states::{Register, State, state_of};

/// What a state shows at a depth: its number, or the value of the register on top, 0 if that is
/// infinite.
fn shown_at(state: &State, depth: usize) -> u64 {
    match depth.checked_sub(1) {
        None => state.x,
        Some(top) => state.register(top).value.unwrap_or(0),
    }
}

/// A pointer of a state: what it shows at a depth, divided by `interval`, modulo `count`.
#[derive(Clone, Copy)]
struct Pointer {
    depth: usize,
    interval: u64,
    count: u64,
}

impl Pointer {
    /// The pointer of a state.
    fn of(&self, state: &State) -> u64 {
        let turn = quotient(shown_at(state, self.depth), self.interval);
        remainder(turn, self.count)
    }

    /// The pointer that more than half of some states have, 0 if there is none.
    fn majority(&self, states: &[State]) -> u64 {
        for state in states {
            let pointer = self.of(state);
            let mut same = 0usize;
            for other in states {
                if self.of(other) == pointer {
                    same = same.wrapping_add(1);
                }
            }
            if same > states.len() / 2 {
                return pointer;
            }
        }
        0
    }
}

/// The block for which more than half of the blocks of a group vote, 0 if there is none. The vote
/// of a block is the majority of the pointers of its nodes.
fn leader(level: &Level, depth: usize, nodes: u64, group: &[State]) -> u64 {
    for leader in 0..level.leaders() {
        let mut votes = 0u64;
        for block in 0..level.blocks {
            let pointer = Pointer {
                depth,
                interval: level.interval(block),
                count: level.leaders(),
            };
            let states = part(group, block.wrapping_mul(nodes), nodes);
            if pointer.majority(states) == leader {
                votes = votes.wrapping_add(1);
            }
        }
        if votes > level.blocks / 2 {
            return leader;
        }
    }
    0
}

/// The new register of a node on the level above `depth`, from the states that it hears. The place
/// in its beat at which a group is: the majority of the parts of the nodes of the leading block.
fn new_register(plan: &Plan, level: &Level, depth: usize, node: u64, heard: &[State]) -> Register {
    let nodes = plan.group(depth);
    let above = depth.wrapping_add(1);
    let group = part(heard, plan.first_of_group(node, above), plan.group(above));
    let leader = leader(level, depth, nodes, group);
    let part_of_beat = Pointer {
        depth,
        interval: 1,
        count: level.beat(),
    };
    let place = part_of_beat.majority(part(group, leader.wrapping_mul(nodes), nodes));
    let own = state_of(heard, node).register(depth);
    agreed(own, group, depth, level.faults, place).raised(1, level.modulus)
}

/// The state of a node after a round in which it hears these states, its own among them.
pub fn stepped(plan: &Plan, node: u64, heard: &[State]) -> State {
    let mut state = state_of(heard, node);
    state.x = remainder(state.x.wrapping_add(1), plan.base_of(node));
    for (depth, level) in plan.levels.iter().enumerate() {
        if plan.has_register(node, depth) {
            state.put(depth, new_register(plan, level, depth, node, heard));
        }
    }
    state
}
