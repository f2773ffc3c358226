ghost use Rattle.std.specs.Prelude.{◌≡◌, ◌<◌, length};
ghost use Rattle.construction.specs.Plans.{plan_nodes};
ghost use Rattle.round_runner.specs.Fits.{TakesStates, takes_prop};

use state_codec::Packed;
use sync_types::FaultSet;
use tower::Tower;

/// A node that hears in a round, from a configuration of its plan's nodes.
#[derive(Drop)]
pub struct Hearer<'a> {
    /// The counter of the plan.
    pub tower: &'a Tower,
    /// The nodes that are faulty in the round.
    pub faulty: &'a FaultSet,
    /// The configuration.
    pub states: &'a Packed,
    /// The node.
    pub v: u32,
    ghost node: { v < plan_nodes tower.now },
    ghost nodes: { faulty.now.nodes ≡ plan_nodes tower.now },
    ghost size: { length states.now.current ≡ plan_nodes tower.now },
    ghost takes: { TakesStates tower.now states.now.shape } by { takes_prop },
}
