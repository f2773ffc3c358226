use crate::plan_machines::PlanMachine;
use majority_votes::Steps;
use rounds::Rounds;
use state_codec::Packed;
use std::alloc::Global;
use std::sync::ledger::Ledger;
use sync_types::{FaultSet, NoMemory, NodeState};
use tower::Shared;

impl Rounds for PlanMachine {
    ghost use Rattle.std.specs.Prelude.{◌≡◌, ◌*◌};
    ghost use Rattle.construction.specs.Plans.{plan_depth};
    ghost use Rattle.plan_machine.specs.PlanRounds.{StandsFor, stands_made};

    type Shared = Shared;

    ghost made = { λ plan depth shared. shared.plan ≡ plan };

    ghost stands = { λ plan sent shared. StandsFor plan sent shared };

    ghost cost = { λ plan. 3 * plan_depth plan };

    fn shared(&self, alloc: Global, _depth: usize) -> Result<Shared, NoMemory> {
        self.tower.shared(alloc)
    }

    fn gather<G: Ledger>(
        &self,
        states: &Packed,
        faulty: &FaultSet,
        shared: &mut Shared,
        steps: &mut Steps<G>,
    ) {
        faulty.facts();
        self.tower.gather(states, faulty, shared, steps);
    }

    fn relevant_liars(
        &self,
        v: u32,
        _states: &Packed,
        _faulty: &FaultSet,
        shared: &Shared,
    ) -> (usize, usize) {
        self.tower.relevant_liars(v, shared)
    }

    fn advance_shared<G: Ledger>(
        &self,
        v: u32,
        lies: &[NodeState],
        states: &Packed,
        _faulty: &FaultSet,
        shared: &mut Shared,
        out: &mut NodeState,
        steps: &mut Steps<G>,
    ) {
        self.tower
            .advance_shared(v, states, lies, shared, out, steps);
    }

    ghost still_made = { λ plan sent shared is. stands_made plan sent shared is };
}
