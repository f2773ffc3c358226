ghost use Rattle.std.specs.Prelude.{◌≡◌, ◌+◌, ◌*◌, ◌<◌, ◌≤◌, ℕ, length, slice_index, IfOk};
ghost use Rattle.construction.specs.Plans.{plan_depth};
ghost use Rattle.construction.specs.Steps.{state_of, step_of};
ghost use Rattle.counter_core.specs.Meanings.{written};
ghost use Rattle.shared_board.specs.Sharing.{stands_for};
ghost use Rattle.round_runner.specs.Hearing.{told_by, heard_of_all};
ghost use Rattle.round_runner.specs.Rooms.{IsMadeFor};

use crate::hearers::Hearer;
use crate::telling::{Lies, fill_lies};
use counter_core::Counter;
use majority_votes::Steps;
use std::alloc::Global;
use std::sync::ledger::Ledger;
use sync_types::{NoMemory, NodeState};
use tower::{Shared, Tower};

/// What the steps of the counter need, made once.
pub struct StepBuffers {
    /// What the faulty nodes tell a node, in the order of their ids.
    pub lies: Vec<NodeState>,
    /// What all nodes share.
    pub shared: Shared,
    /// The new state of a node.
    pub out: NodeState,
}

// Written out, so that code that drops one has a single call.
impl Drop for StepBuffers {
    fn drop(self) {
        let StepBuffers { lies, shared, out } = self;
        drop(lies);
        drop(shared);
        drop(out);
    }
}

impl StepBuffers {
    /// Those for the steps of a plan's nodes, whose states have so many registers.
    pub fn new(alloc: Global, tower: &Tower, depth: usize) -> Result<StepBuffers, NoMemory>
        requires { plan_depth tower.now ≤ depth }
        ensures { IfOk result (IsMadeFor tower.now depth) }
    {
        tower.tell();
        Ok(StepBuffers {
            lies: NodeState::zeros(alloc, tower.nodes(), depth)?,
            shared: tower.shared(alloc)?,
            out: NodeState::zero(alloc, depth)?,
        })
    }
}

/// The shortest stretch of places that has two others.
fn hull(one: (usize, usize), other: (usize, usize)) -> (usize, usize)
    ensures one { (j : ℕ) → one.0 ≤ j → j < one.1 → (result.0 ≤ j) × (j < result.1) }
    ensures other { (j : ℕ) → other.0 ≤ j → j < other.1 → (result.0 ≤ j) × (j < result.1) }
    ensures within { (n : ℕ) → one.1 ≤ n → other.1 ≤ n → result.1 ≤ n }
{
    if one.0 >= one.1 {
        return other;
    }
    if other.0 >= other.1 {
        return one;
    }
    (one.0.min(other.0), one.1.max(other.1))
}

/// The counter's step of a node, by what is shared and what the faulty nodes tell it: those that it
/// heeds, and those of a stretch that a layer heeds.
pub fn step_told<L: Lies, G: Ledger>(
    hearer: &Hearer<'_>,
    layers: (usize, usize),
    lies: &L,
    noise: &mut L::Noise,
    room: &mut StepBuffers,
    steps: &mut Steps<G>,
)
    requires tells { L.tells lies.now hearer.now noise.old }
    requires layers { layers.1 ≤ length hearer.now.faulty.now.ids }
    requires room { IsMadeFor hearer.now.tower.now hearer.now.states.now.shape.depth room.old }
    requires stands { room.old.shared ≡ stands_for hearer.now.tower.now
        hearer.now.states.now.current hearer.now.faulty.now.ids }
    ensures out { room.new.out ≡ written (plan_depth hearer.now.tower.now)
        (step_of hearer.now.tower.now hearer.now.v (heard_of_all hearer.now (L.says lies.now)))
        room.old.out }
    ensures told { (j : ℕ) → layers.0 ≤ j → j < layers.1 → state_of room.new.lies.items j
        ≡ told_by hearer.now (L.says lies.now) (slice_index hearer.now.faulty.now.ids j) }
    ensures room { IsMadeFor hearer.now.tower.now hearer.now.states.now.shape.depth room.new }
    ensures shared { room.new.shared ≡ room.old.shared }
    ensures noise { noise.new ≡ noise.old }
    ensures cost { steps.new ≤ steps.old + 3 * plan_depth hearer.now.tower.now
        * length hearer.now.faulty.now.ids }
{
    let tower = hearer.tower;
    let faulty = hearer.faulty;
    tower.tell();
    faulty.facts();
    let liars = faulty.len();
    let stretch = hull(tower.relevant_liars(hearer.v, &room.shared), layers);
    fill_lies(hearer, stretch, lies, noise, &mut room.lies);
    let told = &room.lies[..liars];
    tower.advance_shared(
        hearer.v,
        hearer.states,
        told,
        &mut room.shared,
        &mut room.out,
        steps,
    );
}
