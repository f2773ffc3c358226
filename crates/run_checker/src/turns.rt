ghost use Rattle.std.specs.Prelude.{◌≡◌, ◌<◌, length, not};
ghost use Rattle.sync_types.specs.FaultSets.{is_in};
ghost use Rattle.construction.specs.Plans.{plan_nodes};
ghost use Rattle.round_runner.specs.Locks.{correct_nodes};

use crate::rounds::Round;
use counter_core::Counter;
use majority_votes::Steps;
use round_runner::{Hearer, Lies, StepBuffers, step_told};
use state_codec::Packed;
use std::sync::ledger::Ledger;
use sync_types::{FaultSet, NodeState};

/// A node that steps in a round.
#[derive(Drop)]
pub struct NodeStep<'a> {
    /// The round.
    pub round: &'a Round<'a>,
    /// The node.
    pub v: u32,
    /// Whether it is correct.
    pub is_correct: bool,
    /// How many correct nodes stand before it.
    pub before: usize,
    ghost node: { v < plan_nodes round.now.tower.now },
    ghost correct: { is_correct ≡ not (is_in round.now.faulty.now.ids v) },
    ghost stand: { before ≡ length (correct_nodes v round.now.faulty.now.ids) },
}

// A faulty node is told nothing: the zero state.
impl Lies for NodeStep<'_> {
    ghost use Rattle.construction.specs.Plans.{plan_depth};
    ghost use Rattle.run_checker.specs.Grammar.{pairs_of};
    ghost use Rattle.run_checker.specs.Rounds.{told_for};
    ghost use Rattle.run_checker.specs.Hearing.{IsTo};

    type Noise = ();

    ghost says = { λ turn config u v. told_for (plan_depth turn.round.now.tower.now)
        (pairs_of (plan_nodes turn.round.now.tower.now) turn.round.now.faulty.now.ids)
        turn.round.now.told.now.states u v };

    ghost tells = { λ turn hearer noise. IsTo turn hearer };

    fn tell(&self, hearer: &Hearer<'_>, j: usize, _u: u32, _noise: &mut (), out: &mut NodeState) {
        hearer.tower.tell();
        let told = self.round.told;
        if self.is_correct {
            told.count();
            told.read(j * self.round.correct + self.before, out);
        } else {
            out.copy_from(self.round.zero);
        }
    }
}

impl NodeStep<'_> {
    ghost use Rattle.std.specs.Prelude.{◌≡◌, slice_set};
    ghost use Rattle.run_checker.specs.Rounds.{state_next, IsGathered};

    /// Makes its next state: its step, or the zero state if it is faulty then.
    pub fn step_one<G: Ledger>(
        &self,
        new_faulty: &FaultSet,
        config: &mut Packed,
        room: &mut StepBuffers,
        steps: &mut Steps<G>,
    )
        requires room { IsGathered self.now.round.now.tower.now self.now.round.now.faulty.now.ids
            self.now.round.now.told.now.states config.old room.old }
        ensures config { config.new ≡ record config.old {
          next = slice_set config.old.next self.now.v (state_next self.now.round.now.tower.now
              self.now.round.now.faulty.now.ids new_faulty.now.ids config.old.current
              self.now.round.now.told.now.states self.now.v);
        } }
        ensures room { IsGathered self.now.round.now.tower.now self.now.round.now.faulty.now.ids
            self.now.round.now.told.now.states config.old room.new }
    {
        let round = self.round;
        round.tower.tell();
        config.facts();
        if new_faulty.contains(self.v) {
            config.put(self.v, round.zero);
        } else {
            let hearer = Hearer {
                tower: round.tower,
                faulty: round.faulty,
                states: &*config,
                v: self.v,
            };
            step_told(&hearer, (0, 0), self, &mut (), room, steps);
            config.put(self.v, &room.out);
        }
    }
}
