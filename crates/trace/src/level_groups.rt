ghost use Rattle.std.specs.Prelude.{◌≡◌, ◌+◌, ◌-◌, ◌<◌, ◌≤◌, length, All};
ghost use Rattle.construction.specs.Plans.{nodes_of};
ghost use Rattle.plan_numbers.specs.Numbers.{levels_in};

use crate::views::View;
use counter_core::Heard;
use plan_numbers::LevelNums;

/// A group of some levels in which the node of a view is, with what the node hears of the group.
#[derive(Clone, Copy)]
pub struct LevelGroup<'a> {
    /// What the lines of the node are written of.
    pub view: &'a View<'a>,
    /// The numbers of the levels, the lowest first.
    pub levels: &'a [LevelNums],
    /// The place of the node in the group.
    pub place: u32,
    /// What the node hears of the group.
    pub heard: &'a Heard<'a>,
    ghost before: { place ≤ view.now.heading.node },
    ghost inside: { place < nodes_of (levels_in levels.now) },
    ghost within: { view.now.heading.node - place + nodes_of (levels_in levels.now)
        ≤ length view.now.config.now },
    ghost shallow: { length levels.now ≤ 5 },
    ghost deep: { All (λ s. length levels.now ≤ length s.registers) view.now.config.now },
    ghost size: { length heard.now ≡ nodes_of (levels_in levels.now) },
    ghost hears: { All (λ s. length levels.now ≤ length s.registers) heard.now },
}
