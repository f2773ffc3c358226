ghost use Rattle.std.specs.Prelude.{◌≡◌, ◌+◌, ◌-◌, ◌≤◌, ◌<◌, length, All};
ghost use Rattle.halving_plan.specs.Steps.{step_in};
ghost use Rattle.halving_plan.specs.Groups.{tree_in};
ghost use Rattle.halving_plan.specs.GroupStates.{HasGroup, stretch, overlaid};

use crate::Group;
use crate::hearing::new_level_state;
use counter_core::Heard;
use majority_votes::Tally;
use phase_king::up;
use sync_types::NodeState;

/// The step of a node in a group, by what it hears, and then in the half in which it is. It writes
/// the number, and the registers that the node has in the group.
pub(crate) fn step_group(
    group: &Group,
    node: u32,
    heard: &Heard<'_>,
    tally: &mut Tally,
    out: &mut NodeState,
)
    requires within { group.now.first + group.now.nodes ≤ length heard.now }
    requires first { group.now.first ≤ node }
    requires last { node < group.now.first + group.now.nodes }
    requires deep { All (HasGroup group.now) heard.now }
    requires room { group.now.nodes ≤ tally.old.capacity }
    requires out { HasGroup group.now out.old }
    ensures out { let step = step_in (tree_in group.now) group.now.modulus (node - group.now.first)
        (stretch group.now heard.now) in
        out.new ≡ overlaid group.now.register step out.old }
    ensures capacity { tally.new.capacity ≡ tally.old.capacity }
{
    group.facts();
    if group.faults() == 0 {
        let own = heard.state(node).x();
        out.set_x(up(own, group.modulus()));
        return;
    }
    let level_state = new_level_state(group, node, heard, tally);
    level_state.write(out, group);
    match group.half_of(node) {
        Some(half) => step_group(&half, node, heard, tally, out),
        None => out.set_x(0),
    }
}
