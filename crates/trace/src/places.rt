use crate::views::View;
use counter_core::Heard;
use plan_numbers::LevelNums;
use std::marker::Model;

/// The group of a level in which a node takes part, with what the node hears of it.
#[derive(Drop)]
pub struct Place<'a> {
    /// What the lines of the node are written of.
    pub(crate) view: &'a View<'a>,
    /// The level's numbers.
    pub(crate) nums: &'a LevelNums,
    /// How many levels stand below it.
    pub(crate) below: usize,
    /// The id of the first node of the group.
    pub(crate) first: u32,
    /// What the node hears of the group.
    pub(crate) group: &'a Heard<'a>,
}

impl<'a> Model for Place<'a> {
    ghost use Rattle.trace.specs.Places.{Placed, IsPlace};

    ghost Value = { Placed };

    ghost view = { λ p. record {
      view = p.view.now;
      nums = p.nums.now;
      below = p.below;
      first = p.first;
      group = p.group.now;
    } };

    ghost invariant = { λ p. IsPlace p.view.now p.nums.now p.below p.first p.group.now };
}
