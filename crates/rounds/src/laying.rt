ghost use Rattle.std.specs.Prelude.{◌≡◌, ◌<◌, ◌≤◌, ℕ, length, slice_index, All};
ghost use Rattle.construction.specs.Steps.{state_of};
ghost use Rattle.rounds.specs.Laying.{IsSameOrTold};

use state_codec::Packed;
use sync_types::{FaultSet, NodeState};

/// Lays the current states into their places.
pub fn lay(states: &Packed, heard: &mut [NodeState])
    requires size { length heard.old ≡ length states.now.current }
    requires deep { All (λ s. length s.registers ≡ states.now.shape.depth) heard.old }
    ensures states { heard.new ≡ states.now.current }
    ensures deep { All (λ s. length s.registers ≡ states.now.shape.depth) heard.new }
{
    states.facts();
    for v in 0..states.nodes() {
        states.old(v, &mut heard[v as usize]);
    }
}

/// Lays what the faulty nodes of a stretch say into their places. All states have so many
/// registers.
pub fn lay_lies(
    depth: usize,
    faulty: &FaultSet,
    stretch: (usize, usize),
    lies: &[NodeState],
    heard: &mut [NodeState],
)
    requires stretch { stretch.1 ≤ length faulty.now.ids }
    requires lies { length faulty.now.ids ≤ length lies.now }
    requires told { All (λ s. length s.registers ≡ depth) lies.now }
    requires size { length heard.old ≡ faulty.now.nodes }
    requires deep { All (λ s. length s.registers ≡ depth) heard.old }
    ensures size { length heard.new ≡ length heard.old }
    ensures deep { All (λ s. length s.registers ≡ depth) heard.new }
    ensures each { (u : ℕ) → IsSameOrTold faulty.now.ids stretch.0 stretch.1 lies.now
        (state_of heard.old u) u (state_of heard.new u) }
    ensures told { (j : ℕ) → stretch.0 ≤ j → j < stretch.1
        → state_of heard.new (slice_index faulty.now.ids j) ≡ state_of lies.now j }
{
    faulty.facts();
    let _depth = depth;
    for j in stretch.0..stretch.1 {
        heard[faulty.at(j) as usize].copy_from(&lies[j]);
    }
}
