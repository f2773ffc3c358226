ghost use Rattle.std.specs.Prelude.{◌≡◌, ◌+◌, ◌≤◌, length, count_by, All, nat_eq, unwrap_or};
ghost use Rattle.std.specs.Prelude.{if◌then◌else◌};
ghost use Rattle.sync_types.specs.States.{register_at};
ghost use Rattle.counting.specs.Values.{count_of};
ghost use Rattle.halving_plan.specs.GroupStates.{section};
ghost use Rattle.halving_plan.specs.GroupHearing.{values_in};

use crate::{Group, LevelState};
use counter_core::Heard;

/// What is counted of the registers of a group.
#[derive(Clone, Copy, Debug)]
pub struct Counts {
    /// How many nodes saw the same of the left half.
    pub saw: usize,
    /// How many have the same value of the phase king.
    pub same: usize,
}

/// 1 or 0.
pub(crate) fn one_if(is_so: bool) -> usize
    ensures { result ≡ (if is_so then 1 else 0) }
{
    if is_so { 1 } else { 0 }
}

/// Goes once over a group, and counts those who saw what a node saw, and those who have its value
/// of the phase king.
pub fn count_group(group: &Group, own: &LevelState, heard: &Heard<'_>) -> Counts
    requires within { group.now.first + group.now.nodes ≤ length heard.now }
    requires deep { All (λ s. group.now.register + 2 ≤ length s.registers) heard.now }
    ensures saw { let seen = group.now.register + 1 in result.saw
        ≡ count_by (λ s. nat_eq own.now.seen (unwrap_or (register_at seen s).a 0))
        (section group.now.first group.now.nodes heard.now) }
    ensures same { result.same ≡ count_of (values_in group.now heard.now) own.now.register.a }
{
    group.facts();
    let first = group.first();
    let register = group.register();
    let seen = own.seen;
    let value = own.register.a;
    let mut saw = 0;
    let mut same = 0;
    for i in 0..group.nodes() {
        let state = heard.state(first + i);
        saw += one_if(seen == state.reg(register + 1).a.unwrap_or(0));
        same += one_if(value == state.reg(register).a);
    }
    Counts { saw, same }
}
