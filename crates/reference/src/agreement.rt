//! The instructions by which nodes agree on the value of a register.

use crate::states::{Register, State, state_of};

/// How many of some states have that value in a register.
fn count(states: &[State], place: usize, wanted: Option<u64>) -> u64 {
    let mut same = 0u64;
    for state in states {
        if state.register(place).value == wanted {
            same = same.wrapping_add(1);
        }
    }
    same
}

/// The least finite value that more than `faults` of some states have in a register.
fn least(states: &[State], place: usize, faults: u64) -> Option<u64> {
    let mut least: Option<u64> = None;
    for state in states {
        let value = state.register(place).value;
        let is_first = least.is_none() || value < least;
        if value.is_some() && is_first && count(states, place, value) > faults {
            least = value;
        }
    }
    least
}

/// What a register of a node becomes by instruction `turn`, without increment, in a group of these
/// states of which so many may be faulty.
pub fn agreed(own: Register, group: &[State], place: usize, faults: u64, turn: u64) -> Register {
    let many = (group.len() as u64).saturating_sub(faults);
    let have = count(group, place, own.value) >= many;
    let king = state_of(group, turn / 3).register(place).value;
    let (value, mark) = match turn % 3 {
        0 if have => (own.value, own.mark),
        0 => (None, own.mark),
        1 => (least(group, place, faults), have),
        _ if own.value.is_none() || !own.mark => (Some(king.unwrap_or(0)), true),
        _ => (own.value, true),
    };
    Register { value, mark }
}

/// Some states of a list: `length` of them from place `first` on.
pub fn part(states: &[State], first: u64, length: u64) -> &[State] {
    let first = first as usize;
    let end = first.saturating_add(length as usize);
    states.get(first..end).unwrap_or(&[])
}
