ghost use Rattle.std.specs.Prelude.{◌≡◌, ◌≢◌, ◌<◌, ◌≤◌, ℕ, List, true, length, slice_index};
ghost use Rattle.sync_types.specs.FaultSets.{is_in};
ghost use Rattle.sync_types.specs.States.{State};
ghost use Rattle.construction.specs.Plans.{plan_nodes};
ghost use Rattle.construction.specs.Steps.{state_of};
ghost use Rattle.plan_laws.specs.PlanMeaning.{IsInRange};
ghost use Rattle.shared_board.specs.Sharing.{place_among};
ghost use Rattle.round_runner.specs.declared.hearers.Hearer.{Hearer};
ghost use Rattle.round_runner.specs.Hearing.{AreLies, TellsItself, told_by};

use crate::hearers::Hearer;
use sync_types::{FaultSet, NodeState};

/// What the faulty nodes of a round tell the others.
pub trait Lies {
    /// Of what the noise is made that they tell.
    type Noise;

    // From a configuration, what u tells v.
    ghost says: { Self → List State → (u v : ℕ) → State };

    // Whether this hearer is told so, with this noise.
    ghost tells: { Self → Hearer → Self.Noise → Type 0 };

    /// Writes what the faulty node `u`, at place `j` of their order, tells another one into `out`.
    fn tell(
        &self,
        hearer: &Hearer<'_>,
        j: usize,
        u: u32,
        noise: &mut Self::Noise,
        out: &mut NodeState,
    )
        requires tells { tells self.now hearer.now noise.old }
        requires place { j < length hearer.now.faulty.now.ids }
        requires id { slice_index hearer.now.faulty.now.ids j ≡ u }
        requires node { u < plan_nodes hearer.now.tower.now }
        requires other { u ≢ hearer.now.v }
        requires depth { length out.old.registers ≡ hearer.now.states.now.shape.depth }
        ensures value { out.new ≡ says self.now hearer.now.states.now.current u hearer.now.v }
        ensures deep { length out.new.registers ≡ hearer.now.states.now.shape.depth }
        ensures range { IsInRange hearer.now.tower.now out.new }
        ensures noise { noise.new ≡ noise.old };
}

/// Where the faulty node `v` stands in the order of the faulty ones.
fn place_of(faulty: &FaultSet, v: u32) -> usize
    requires { is_in faulty.now.ids v ≡ true }
    ensures within { result < length faulty.now.ids }
    ensures id { slice_index faulty.now.ids result ≡ v }
{
    for i in 0..faulty.len() {
        if faulty.at(i) == v {
            return i;
        }
    }
    unreachable!()
}

/// If the node is faulty, puts its own state into its place.
fn tell_itself(hearer: &Hearer<'_>, told: &mut [NodeState])
    requires { AreLies hearer.now.tower.now hearer.now.states.now.shape.depth told.old }
    ensures own { TellsItself hearer.now.faulty.now.ids hearer.now.v hearer.now.states.now.current
        told.new }
    ensures told { AreLies hearer.now.tower.now hearer.now.states.now.shape.depth told.new }
{
    let faulty = hearer.faulty;
    let _few = faulty.len();
    faulty.facts();
    hearer.states.facts();
    if faulty.contains(hearer.v) {
        let own = place_of(faulty, hearer.v);
        hearer.states.old(hearer.v, &mut told[own]);
    }
}

/// Puts what the node hears of the faulty nodes from one place of their set to before another into
/// these places of `told`, and if it is faulty itself, its own state into its place.
pub fn fill_lies<L: Lies>(
    hearer: &Hearer<'_>,
    stretch: (usize, usize),
    lies: &L,
    noise: &mut L::Noise,
    told: &mut [NodeState],
)
    requires tells { L.tells lies.now hearer.now noise.old }
    requires stretch { stretch.1 ≤ length hearer.now.faulty.now.ids }
    requires told { AreLies hearer.now.tower.now hearer.now.states.now.shape.depth told.old }
    ensures each { (j : ℕ) → stretch.0 ≤ j → j < stretch.1 → state_of told.new j
        ≡ told_by hearer.now (L.says lies.now) (slice_index hearer.now.faulty.now.ids j) }
    ensures own { is_in hearer.now.faulty.now.ids hearer.now.v ≡ true
        → state_of told.new (place_among hearer.now.faulty.now.ids hearer.now.v)
        ≡ state_of hearer.now.states.now.current hearer.now.v }
    ensures told { AreLies hearer.now.tower.now hearer.now.states.now.shape.depth told.new }
    ensures noise { noise.new ≡ noise.old }
{
    let faulty = hearer.faulty;
    let _few = faulty.len();
    faulty.facts();
    tell_itself(hearer, told);
    for j in stretch.0..stretch.1 {
        let u = faulty.at(j);
        if u != hearer.v {
            lies.tell(hearer, j, u, noise, &mut told[j]);
        }
    }
}
