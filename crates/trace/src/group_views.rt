ghost use Rattle.std.specs.Prelude.{◌+◌, ◌<◌, ◌≤◌, length, All};
ghost use Rattle.halving_plan.specs.GroupStates.{HasGroup};

use crate::sides::Side;
use crate::views::View;
use counter_core::Heard;
use halving_plan::Group;

/// A group with halves in which the node of a view is, with what the node hears of all nodes.
#[derive(Clone, Copy)]
pub struct GroupView<'a> {
    /// What the lines of the node are written of.
    pub view: &'a View<'a>,
    /// Which group it is.
    pub side: Side,
    /// The group.
    pub group: Group,
    /// What the node hears of all nodes.
    pub heard: &'a Heard<'a>,
    ghost halves: { 0 < group.faults },
    ghost within: { group.first + group.nodes ≤ length view.now.config.now },
    ghost deep: { All (λ s. group.register + 2 ≤ length s.registers) view.now.config.now },
    ghost among: { group.first + group.nodes ≤ length heard.now },
    ghost hears: { All (λ s. group.register + 2 ≤ length s.registers) heard.now },
    ghost halves_hear: { All (HasGroup group) heard.now },
}
