ghost use Rattle.std.specs.Prelude.{◌≡◌, ◌+◌, ◌-◌, ◌*◌, ◌<◌, ◌≤◌, ℕ, List, length, IfOk};
ghost use Rattle.sync_types.specs.States.{State};
ghost use Rattle.counter_core.specs.Meanings.{written};
ghost use Rattle.counter_core.specs.Heeding.{DependsOnlyOn};
ghost use Rattle.shared_board.specs.Sharing.{heard_with};
ghost use Rattle.machines.specs.Machines.{AreFronts};
ghost use Rattle.rounds.specs.Rounds.{Sent, AreLies};

use machines::Machine;
use majority_votes::Steps;
use state_codec::Packed;
use std::alloc::Global;
use std::sync::ledger::Ledger;
use sync_types::{FaultSet, NoMemory, NodeState};

/// A machine whose rounds are counted once for all receivers. Registers of a layer may stand in
/// states after the machine's own: they do not matter, and stay as they are.
pub trait Rounds: Machine {
    /// What all receivers of a round share.
    type Shared: Drop;

    // It was made for the machine, for states of so many registers.
    ghost made: { Self → (depth : ℕ) → Self.Shared → Type 0 };

    // It stands for what is sent in a round.
    ghost stands: { Self → Sent → Self.Shared → Type 0 };

    // How many steps a correct node takes in a round for all receivers, and a liar for each one.
    ghost cost: { Self → ℕ };

    /// Room for what receivers share, if states have so many registers. It takes all the memory
    /// that rounds ever need.
    fn shared(&self, alloc: Global, depth: usize) -> Result<Self::Shared, NoMemory>
        requires { (Self.machine self.now).depth ≤ depth }
        ensures { IfOk result (λ shared. made self.now depth shared) };

    /// Counts the correct nodes of a configuration once for all receivers.
    fn gather<G: Ledger>(
        &self,
        states: &Packed,
        faulty: &FaultSet,
        shared: &mut Self::Shared,
        steps: &mut Steps<G>,
    )
        requires made { made self.now states.now.shape.depth shared.old }
        requires config { AreFronts (Self.machine self.now) states.now.current }
        requires nodes { faulty.now.nodes ≡ (Self.machine self.now).nodes }
        requires deep { (Self.machine self.now).depth ≤ states.now.shape.depth }
        ensures stands { stands self.now (record {
          depth = states.now.shape.depth;
          faulty = faulty.now.ids;
          config = states.now.current;
        }) shared.new }
        ensures cost { steps.new ≤ steps.old
            + cost self.now * ((Self.machine self.now).nodes - length faulty.now.ids) };

    /// The liars, as a stretch of the faulty set from the first place to before the second, on
    /// whose lies the step of a node hangs: what the others say to it may be anything.
    fn relevant_liars(
        &self,
        v: u32,
        states: &Packed,
        faulty: &FaultSet,
        shared: &Self::Shared,
    ) -> (usize, usize)
        requires node { v < (Self.machine self.now).nodes }
        requires stands { stands self.now (record {
          depth = states.now.shape.depth;
          faulty = faulty.now.ids;
          config = states.now.current;
        }) shared.now }
        ensures within { result.1 ≤ length faulty.now.ids }
        ensures enough { DependsOnlyOn ((Self.machine self.now).step v) faulty.now.ids v
            states.now.current result.0 result.1 };

    /// Makes the step of a node, by what the liars say to it: `lies` has a state of each, in the
    /// order of their ids, that of the node itself being its own. It writes the number and the
    /// machine's registers, and leaves further ones of `out`.
    fn advance_shared<G: Ledger>(
        &self,
        v: u32,
        lies: &[NodeState],
        states: &Packed,
        faulty: &FaultSet,
        shared: &mut Self::Shared,
        out: &mut NodeState,
        steps: &mut Steps<G>,
    )
        requires node { v < (Self.machine self.now).nodes }
        requires nodes { faulty.now.nodes ≡ (Self.machine self.now).nodes }
        requires stands { stands self.now (record {
          depth = states.now.shape.depth;
          faulty = faulty.now.ids;
          config = states.now.current;
        }) shared.old }
        requires lies { AreLies (Self.machine self.now) (record {
          depth = states.now.shape.depth;
          faulty = faulty.now.ids;
          config = states.now.current;
        }) v lies.now }
        requires out { (Self.machine self.now).depth ≤ length out.old.registers }
        ensures out { out.new ≡ written (Self.machine self.now).depth
            ((Self.machine self.now).step v
            (heard_with faulty.now.ids lies.now states.now.current)) out.old }
        ensures stands { stands self.now (record {
          depth = states.now.shape.depth;
          faulty = faulty.now.ids;
          config = states.now.current;
        }) shared.new }
        ensures cost { steps.new ≤ steps.old + cost self.now * length faulty.now.ids };

    // What stands for a round was made for the machine.
    ghost still_made: { (m : Self) (sent : Sent) (shared : Self.Shared) → stands m sent shared
        → made m sent.depth shared };
}
