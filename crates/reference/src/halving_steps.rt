//! The step of a node of a halving plan.

use crate::agreement::{agreed, part};
use crate::halving_groups::{Group, MOST_LEVELS, king_at, seen_at};
use crate::numbers::remainder;
use crate::states::{Register, State, state_of};

/// What a state shows of a group that is at a depth: its number, or the value of the king's
/// register, 0 if that is infinite.
fn shown_in(group: &Group, depth: usize, state: &State) -> u64 {
    if group.is_single() {
        state.x
    } else {
        state.register(king_at(depth)).value.unwrap_or(0)
    }
}

/// The states of the nodes of a group.
fn nodes_of<'a>(group: &Group, states: &'a [State]) -> &'a [State] {
    part(states, group.first, group.nodes)
}

/// What more than half of the nodes of a half at a depth show, 0 if they show no one number.
fn shown_by(half: &Group, depth: usize, heard: &[State]) -> u64 {
    let nodes = nodes_of(half, heard);
    for state in nodes {
        let output = shown_in(half, depth, state);
        let mut same = 0u64;
        for other in nodes {
            same = same.wrapping_add(u64::from(shown_in(half, depth, other) == output));
        }
        if same > half.nodes / 2 {
            return remainder(output, half.modulus);
        }
    }
    0
}

/// What a state says that the left half of a group at a depth showed a round ago.
fn seen(state: &State, depth: usize) -> u64 {
    state.register(seen_at(depth)).value.unwrap_or(0)
}

/// Whether so many nodes of a group at a depth say what a node does of its left half that only
/// those that may be faulty do not.
fn is_backed(group: &Group, depth: usize, own: &State, heard: &[State]) -> bool {
    let mut same = 0u64;
    for state in nodes_of(group, heard) {
        same = same.wrapping_add(u64::from(seen(state, depth) == seen(own, depth)));
    }
    same.wrapping_add(group.faults) >= group.nodes
}

/// Whether a node of a group at a depth takes its instructions from the left half.
fn follows_left(group: &Group, depth: usize, own: &State, heard: &[State]) -> bool {
    let is_trusted = own.register(seen_at(depth)).mark;
    let is_left_share = seen(own, depth) >= group.right_share();
    is_trusted && is_left_share && is_backed(group, depth, own, heard)
}

/// The instruction that a node of a group takes, if each of the group's nodes had three: those of
/// the king at its place in the group.
fn turn_of(group: &Group, depth: usize, own: &State, heard: &[State]) -> u64 {
    if follows_left(group, depth, own, heard) {
        return seen(own, depth).wrapping_sub(group.right_share());
    }
    let before = group.left().nodes.wrapping_mul(3);
    let below = depth.wrapping_add(1);
    before.wrapping_add(shown_by(&group.right(), below, heard))
}

/// The register of the king after the instruction that a node takes.
fn king_after(group: &Group, depth: usize, own: &State, heard: &[State]) -> Register {
    let turn = turn_of(group, depth, own, heard);
    let place = king_at(depth);
    let king = agreed(
        own.register(place),
        nodes_of(group, heard),
        place,
        group.faults,
        turn,
    );
    king.raised(1, group.modulus)
}

/// What the left half of a group at a depth shows now, with a mark if that is trusted: a node
/// trusts it from 0 on, while it goes on by one and what it showed is backed.
fn seen_after(group: &Group, depth: usize, own: &State, heard: &[State]) -> Register {
    let before = seen(own, depth);
    let now = shown_by(&group.left(), depth.wrapping_add(1), heard);
    let goes_on = now == before.wrapping_add(1);
    let was_trusted = before == 0 || own.register(seen_at(depth)).mark;
    Register {
        value: Some(now),
        mark: goes_on && was_trusted && is_backed(group, depth, own, heard),
    }
}

/// Puts what a node has of a group at a depth after a round in which it hears these states.
fn put_level(group: &Group, depth: usize, own: &State, heard: &[State], state: &mut State) {
    if group.is_single() {
        state.x = remainder(own.x.wrapping_add(1), group.modulus);
    } else {
        state.put(king_at(depth), king_after(group, depth, own, heard));
        state.put(seen_at(depth), seen_after(group, depth, own, heard));
    }
}

/// The state of a node of a plan after a round in which it hears these states, its own among them.
pub fn stepped(plan: &Group, node: u64, heard: &[State]) -> State {
    let own = state_of(heard, node);
    let mut state = own;
    let mut half = Some(*plan);
    for depth in 0..=MOST_LEVELS {
        if let Some(group) = half {
            put_level(&group, depth, &own, heard, &mut state);
            half = group.half_of(node);
        }
    }
    state
}
