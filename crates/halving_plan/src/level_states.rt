ghost use Rattle.std.specs.Prelude.{◌≡◌, ◌<◌, ◌+◌, ◌≤◌, length};
ghost use Rattle.halving_plan.specs.LevelStates.{trusts, follows_left, instruction_of};
ghost use Rattle.halving_plan.specs.Registers.{level_state_of};
ghost use Rattle.halving_plan.specs.Groups.{sizes_of};
ghost use Rattle.halving_plan.specs.GroupStates.{below};
ghost use Rattle.halving_plan.specs.WrittenLevelStates.{with_level_state_at};

use crate::Group;
use std::marker::Model;
use sync_types::{NodeState, Reg};

/// What a node's state holds of one level over two halves. It stands in two registers.
#[derive(Clone, Copy, Debug, PartialEq, Eq)]
pub struct LevelState {
    /// The register of the phase king.
    pub register: Reg,
    /// What the left half showed a round ago.
    pub seen: u64,
    /// Whether that has been backed since it was 0, and went on by one each round.
    pub trusted: bool,
}

impl Model for LevelState {
    ghost use Rattle.halving_plan.specs.LevelStates.{LevelState};

    ghost Value = { LevelState };

    ghost view = { λ s. record { register = s.register; seen = s.seen; trusted = s.trusted } };

    ghost inverse = { λ v. record { register = v.register; seen = v.seen; trusted = v.trusted } };
}

impl LevelState {
    /// The level state in a group that stands in a state.
    pub fn read(state: &NodeState, group: &Group) -> LevelState
        requires { group.now.register + 2 ≤ length state.now.registers }
        ensures { result ≡ level_state_of (below group.now.register state.now) }
    {
        group.facts();
        let register = group.register();
        let left = state.reg(register + 1);
        LevelState {
            register: state.reg(register),
            seen: left.a.unwrap_or(0),
            trusted: left.d,
        }
    }

    /// Writes the level state in a group to a state.
    pub fn write(&self, state: &mut NodeState, group: &Group)
        requires { group.now.register + 2 ≤ length state.old.registers }
        ensures { state.new ≡ with_level_state_at group.now.register self.now state.old }
    {
        group.facts();
        let register = group.register();
        state.set_reg(register, self.register);
        let left = Reg {
            a: Some(self.seen),
            d: self.trusted,
        };
        state.set_reg(register + 1, left);
    }

    /// Whether the node trusts the left half, which shows this now, if what was seen is backed.
    pub fn trusts(&self, left: u64, is_backed: bool) -> bool
        ensures { result ≡ trusts self.now left is_backed }
    {
        let goes_on = self.seen < left && left - self.seen == 1;
        is_backed && (goes_on && (self.trusted || self.seen == 0))
    }

    /// Whether the node follows the left half in a group that has halves, if what was seen is
    /// backed.
    pub fn follows_left(&self, is_backed: bool, group: &Group) -> bool
        requires { 0 < group.now.faults }
        ensures { result ≡ follows_left (sizes_of group.now) self.now is_backed }
    {
        is_backed && (self.trusted && group.right_share() <= self.seen)
    }

    /// The instruction that the node obeys, of the left half or of the right one, which shows its
    /// instruction.
    pub fn instruction(&self, left: bool, right: u64, group: &Group) -> u64
        requires { 0 < group.now.faults }
        ensures { result ≡ instruction_of (sizes_of group.now) left self.now.seen right }
    {
        if left {
            self.seen.saturating_sub(group.right_share())
        } else {
            right
        }
    }
}
