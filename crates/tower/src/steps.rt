ghost use Rattle.std.specs.Prelude.{◌≡◌, ◌≤◌, ◌<◌, length};
ghost use Rattle.construction.specs.Plans.{nodes_of};
ghost use Rattle.construction.specs.Steps.{step_in};
ghost use Rattle.plan_numbers.specs.Numbers.{levels_in};
ghost use Rattle.plan_numbers.specs.Stacked.{AreLevels, AreSomeLevels};
ghost use Rattle.counter_core.specs.Meanings.{written};
ghost use Rattle.counter_core.specs.Working.{IsWorkFor, IsAsRoomy};
ghost use Rattle.tower.specs.GroupStates.{AreGroupStates};

use crate::registers::set_outputs;
use boost_step::level_step;
use counter_core::{Heard, Work, clear};
use plan_numbers::LevelNums;
use sync_types::NodeState;

/// How many nodes a group of these levels has, the lowest of which stands first.
pub(crate) fn nodes_over(levels: &[LevelNums]) -> u32
    requires { AreSomeLevels levels.now }
    ensures { result ≡ nodes_of (levels_in levels.now) }
{
    match levels.split_last() {
        Some((top, _)) => top.nodes,
        None => 1,
    }
}

/// The step of the node at a place of a group of these levels, the lowest of which stands first, by
/// what the node hears of the group: its register at the group's level, and below that its step in
/// its block, or nothing if it is a spare.
pub(crate) fn step_in(
    base: u64,
    levels: &[LevelNums],
    place: u32,
    group: &Heard<'_>,
    work: &mut Work,
    out: &mut NodeState,
)
    requires levels { AreLevels base levels.now }
    requires place { place < nodes_of (levels_in levels.now) }
    requires group { AreGroupStates base (levels_in levels.now) group.now }
    requires work { IsWorkFor (length group.now) work.old }
    requires out { length levels.now ≤ length out.old.registers }
    ensures work { IsAsRoomy work.old work.new }
    ensures out { out.new ≡ written (length levels.now)
        (step_in base (levels_in levels.now) place group.now) out.old }
{
    let Some((nums, below)) = levels.split_last() else {
        let own = group.state(place).x();
        out.set_x((own + 1) % base);
        return;
    };
    set_outputs(below.len(), nums.nodes - nums.spares, group, work);
    let register = level_step(nums, place, group, below.len(), work);
    let n = nodes_over(below);
    if place < nums.blocks * n {
        let block = group.block(place / n, n);
        step_in(base, below, place % n, &block, work, out);
    } else {
        clear(below.len(), out);
    }
    out.set_reg(below.len(), register);
}
