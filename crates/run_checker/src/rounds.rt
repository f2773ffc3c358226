ghost use Rattle.std.specs.Prelude.{◌≡◌, length};
ghost use Rattle.sync_types.specs.FaultSets.{AreFaulty};
ghost use Rattle.sync_types.specs.States.{zero_state};
ghost use Rattle.construction.specs.Plans.{plan_nodes, plan_depth};
ghost use Rattle.state_codec.specs.Shapes.{shape_of};
ghost use Rattle.round_runner.specs.Locks.{correct_nodes};
ghost use Rattle.round_runner.specs.Ledgers.{IsBlankOf};
ghost use Rattle.round_runner.specs.Rooms.{IsMadeFor};
ghost use Rattle.run_checker.specs.Grammar.{pairs_of};
ghost use Rattle.run_checker.specs.Rounds.{stepped_all, AreStates, IsTold, IsConfig};

use crate::tellings::Tellings;
use crate::turns::NodeStep;
use counter_core::Counter;
use majority_votes::Steps;
use round_runner::StepBuffers;
use state_codec::Packed;
use std::marker::Brand;
use std::sync::ledger::{Blank, Ledger};
use sync_types::{FaultSet, NodeState};
use tower::Tower;

/// A round in which the faulty nodes have told all that they have to: whose counter makes its
/// steps, who is faulty in it, and what these tell.
#[derive(Drop)]
pub struct Round<'a> {
    /// The counter of the plan.
    pub tower: &'a Tower,
    /// The faulty nodes.
    pub faulty: &'a FaultSet,
    /// What they tell.
    pub told: &'a Tellings,
    /// The zero state.
    pub zero: &'a NodeState,
    /// How many nodes are correct.
    pub correct: usize,
    ghost nodes: { faulty.now.nodes ≡ plan_nodes tower.now },
    ghost ids: { AreFaulty faulty.now },
    ghost whole: { length told.now.states
        ≡ length (pairs_of (plan_nodes tower.now) faulty.now.ids) },
    ghost shape: { told.now.shape ≡ shape_of tower.now },
    ghost zeros: { zero.now ≡ zero_state (plan_depth tower.now) },
    ghost count: { correct ≡ length (correct_nodes (plan_nodes tower.now) faulty.now.ids) },
}

impl<'a> Round<'a> {
    /// Makes the next configuration: the steps of all nodes that are correct in it, and the zero
    /// state for each that is faulty.
    fn step_all<G: Ledger>(
        &self,
        new_faulty: &FaultSet,
        config: &mut Packed,
        room: &mut StepBuffers,
        steps: &mut Steps<G>,
    )
        requires said { AreStates self.now.tower.now self.now.told.now.states }
        requires config { IsConfig self.now.tower.now config.old }
        requires room { IsMadeFor self.now.tower.now (plan_depth self.now.tower.now) room.old }
        ensures config { config.new ≡ record config.old {
          next = stepped_all self.now.tower.now self.now.faulty.now.ids
              new_faulty.now.ids config.old.current
              (pairs_of (plan_nodes self.now.tower.now) self.now.faulty.now.ids)
              self.now.told.now.states;
        } }
        ensures room { IsMadeFor self.now.tower.now (plan_depth self.now.tower.now) room.new }
    {
        self.tower.tell();
        config.facts();
        self.tower
            .gather(config, self.faulty, &mut room.shared, steps);
        let mut before = 0;
        for v in 0..self.tower.nodes() {
            let turn = NodeStep {
                round: &*self,
                v,
                is_correct: !self.faulty.contains(v),
                before,
            };
            turn.step_one(new_faulty, config, room, steps);
            before += usize::from(turn.is_correct);
        }
    }

    /// Plays the round, and counts its steps in a ledger of its own.
    fn play_in<G: Ledger>(
        &self,
        new_faulty: &FaultSet,
        config: &mut Packed,
        room: &mut StepBuffers,
        blank: Blank,
    )
        requires blank { IsBlankOf G.name G.parts blank.name blank.parts }
        requires said { AreStates self.now.tower.now self.now.told.now.states }
        requires config { IsConfig self.now.tower.now config.old }
        requires room { IsMadeFor self.now.tower.now (plan_depth self.now.tower.now) room.old }
        ensures shape { config.new.shape ≡ config.old.shape }
        ensures current { config.new.current ≡ stepped_all self.now.tower.now
            self.now.faulty.now.ids new_faulty.now.ids config.old.current
            (pairs_of (plan_nodes self.now.tower.now) self.now.faulty.now.ids)
            self.now.told.now.states }
        ensures room { IsMadeFor self.now.tower.now (plan_depth self.now.tower.now) room.new }
    {
        let mut steps = Steps::<G>::new(blank);
        self.step_all(new_faulty, config, room, &mut steps);
        config.flip();
    }
}

/// Plays a round: makes the configuration after it the current one. The steps of all nodes that are
/// correct in it stand there, and the zero state for each that is faulty.
pub fn play(
    tower: &Tower,
    faulty: &FaultSet,
    new_faulty: &FaultSet,
    told: &Tellings,
    zero: &NodeState,
    config: &mut Packed,
    room: &mut StepBuffers,
)
    requires told { IsTold tower.now faulty.now told.now }
    requires zero { zero.now ≡ zero_state (plan_depth tower.now) }
    requires config { IsConfig tower.now config.old }
    requires room { IsMadeFor tower.now (plan_depth tower.now) room.old }
    ensures shape { config.new.shape ≡ config.old.shape }
    ensures current { config.new.current ≡ stepped_all tower.now faulty.now.ids new_faulty.now.ids
        config.old.current (pairs_of (plan_nodes tower.now) faulty.now.ids) told.now.states }
    ensures room { IsMadeFor tower.now (plan_depth tower.now) room.new }
{
    faulty.facts();
    let correct = faulty.nodes() as usize - faulty.len();
    let round = Round {
        tower,
        faulty,
        told,
        zero,
        correct,
    };
    let blank = Blank::new(1);
    round.play_in::<Brand>(new_faulty, config, room, blank);
}
