ghost use Rattle.std.specs.Prelude.{◌≡◌};
ghost use Rattle.run_explanations.specs.Reading.{Reads};
ghost use Rattle.run_explanations.specs.Seeing.{joined};

use crate::tops::TopLevel;
use counter_core::NoOverlay;
use leader_pointers::{part, pointer};
use round_runner::Runner;
use sync_types::FaultSet;

/// What numbers have in common.
#[derive(Clone, Copy, Debug, PartialEq, Eq)]
pub(crate) enum Shared {
    /// There is none yet.
    Nothing,
    /// All are this one.
    One(u64),
    /// They differ.
    Several,
}

/// What a configuration shows: a leader to which all correct nodes of sound blocks point, and the
/// part at which the correct nodes of its block are.
#[derive(Clone, Copy, Debug, PartialEq, Eq)]
pub(crate) struct Observation {
    /// The leader.
    pub leader: u32,
    /// The part of the beat.
    pub part: u64,
}

/// The runner's configuration, as it is read by the numbers of the plan's top level, with these
/// faulty nodes.
#[derive(Clone, Copy)]
pub(crate) struct TopLevelView<'a> {
    /// The top level.
    pub top: TopLevel,
    /// The faulty nodes.
    pub faulty: &'a FaultSet,
    /// The runner.
    pub runner: &'a Runner<NoOverlay>,
    ghost reads: { Reads top.numbers runner.now },
}

/// What numbers have in common, with one more number.
fn joined(shared: Shared, number: u64) -> Shared
    ensures { result ≡ joined shared number }
{
    match shared {
        Shared::Nothing => Shared::One(number),
        Shared::One(known) if known == number => Shared::One(known),
        _ => Shared::Several,
    }
}

impl<'a> TopLevelView<'a> {
    ghost use Rattle.std.specs.Prelude.{◌≡◌, ◌-◌, ◌<◌, ◌≤◌, nat_le};
    ghost use Rattle.construction.specs.Plans.{plan_depth};
    ghost use Rattle.construction.specs.Runs.{is_in};
    ghost use Rattle.plan_laws.specs.Level.{faults_in};
    ghost use Rattle.run_explanations.specs.Explanations.{outputs_in};
    ghost use Rattle.run_explanations.specs.Seeing.{shared_by, is_sound, is_correct, pointer_at};
    ghost use Rattle.run_explanations.specs.Seeing.{part_at, pointed, parted, seen_in};

    /// Whether no more nodes of block `i` are faulty than it tolerates.
    fn is_sound(&self, i: u32) -> bool
        requires { i < self.now.top.numbers.blocks }
        ensures { result ≡ is_sound self.now.top.numbers (is_in self.now.faulty.now.ids) i }
    {
        let top = self.top.numbers;
        let mut count = 0;
        for j in 0..top.nodes {
            if self.faulty.contains(i * top.nodes + j) {
                count += 1;
            }
        }
        count <= top.faults
    }

    /// What so many numbers have in common with the pointers of the correct nodes of block `i`.
    fn join_pointers(&self, begun: Shared, i: u32) -> Shared
        requires { i < self.now.top.numbers.blocks }
        ensures { result ≡ shared_by begun
            (is_correct self.now.top.numbers (is_in self.now.faulty.now.ids) i)
            (pointer_at self.now.top.numbers (outputs_in (plan_depth self.now.runner.now.plan - 1)
            self.now.runner.now.states) i) self.now.top.numbers.nodes }
    {
        let top = self.top.numbers;
        let mut shared = begun;
        for j in 0..top.nodes {
            let v = i * top.nodes + j;
            if !self.faulty.contains(v) {
                let output = self.runner.inner_output(v);
                shared = joined(shared, pointer(top.beat, top.leaders, i, output));
            }
        }
        shared
    }

    /// What the pointers of the correct nodes of all sound blocks have in common.
    fn pointed(&self) -> Shared
        ensures { result ≡ pointed self.now.top.numbers (is_in self.now.faulty.now.ids)
            (outputs_in (plan_depth self.now.runner.now.plan - 1) self.now.runner.now.states)
            self.now.top.numbers.blocks }
    {
        let mut shared = Shared::Nothing;
        for i in 0..self.top.numbers.blocks {
            if self.is_sound(i) {
                shared = self.join_pointers(shared, i);
            }
        }
        shared
    }

    /// What the parts of the correct nodes of block `b` have in common.
    fn parted(&self, b: u32) -> Shared
        requires { b < self.now.top.numbers.blocks }
        ensures { result ≡ parted self.now.top.numbers (is_in self.now.faulty.now.ids)
            (outputs_in (plan_depth self.now.runner.now.plan - 1) self.now.runner.now.states) b }
    {
        let top = self.top.numbers;
        let mut shared = Shared::Nothing;
        for j in 0..top.nodes {
            let v = b * top.nodes + j;
            if !self.faulty.contains(v) {
                shared = joined(shared, part(top.beat, self.runner.inner_output(v)));
            }
        }
        shared
    }

    /// What it shows.
    pub(crate) fn see(&self) -> Option<Observation>
        ensures { result ≡ seen_in self.now.top.numbers (is_in self.now.faulty.now.ids)
            (outputs_in (plan_depth self.now.runner.now.plan - 1) self.now.runner.now.states) }
    {
        let Shared::One(leader) = self.pointed() else {
            return None;
        };
        let leader = leader as u32;
        if !self.is_sound(leader) {
            return None;
        }
        match self.parted(leader) {
            Shared::One(part) => Some(Observation { leader, part }),
            _ => None,
        }
    }
}
