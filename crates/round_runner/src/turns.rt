ghost use Rattle.std.specs.Prelude.{◌≡◌, ◌+◌, ◌<◌, length};
ghost use Rattle.construction.specs.Plans.{plan_nodes};
ghost use Rattle.construction.specs.Runs.{IsToleratedBy};
ghost use Rattle.adversary_script.specs.Eras.{faulty_at};
ghost use Rattle.machine_runner.specs.Beginnings.{BeginsAt, is_prop};

use crate::hearers::Hearer;
use crate::telling::Lies;
use adversary_script::Script;
use counter_core::Counter;
use state_codec::Packed;
use sync_types::{FaultSet, NodeState};
use tower::Tower;

/// A round of a script on the counter of its plan, which tolerates the script's faulty nodes.
#[derive(Drop)]
pub struct Round<'a> {
    /// The counter.
    pub tower: &'a Tower,
    /// The script.
    pub script: &'a Script,
    /// The nodes that are faulty in it.
    pub faulty: &'a FaultSet,
    /// Its number.
    pub t: u64,
    /// The further era that begins after it, if one does.
    pub begins: Option<usize>,
    ghost nodes: { script.now.nodes ≡ plan_nodes tower.now },
    ghost borne: { IsToleratedBy tower.now (faulty_at script.now t) },
    ghost liars: { faulty.now
        ≡ record { nodes = script.now.nodes; ids = faulty_at script.now t } },
    ghost left: { t < script.now.rounds },
    ghost behind: { BeginsAt script.now (t + 1) begins } by { is_prop script.now (t + 1) begins },
}

impl Round<'_> {
    ghost use Rattle.round_runner.specs.Turns.{IsRound};

    /// Tells a caller's proof what holds of each round. It does nothing when it runs.
    pub fn facts(&self)
        ensures { IsRound self.now }
    {
        self.tower.tell();
        let _rounds = self.script.rounds();
    }
}

impl Lies for Round<'_> {
    ghost use Rattle.adversary_script.specs.Lies.{lie_of};
    ghost use Rattle.round_runner.specs.Turns.{IsOf};

    type Noise = adversary_script::Noise;

    ghost says = { λ round config u v. lie_of round.script.now round.t u v config };

    ghost tells = { λ round hearer noise. IsOf round hearer noise };

    fn tell(
        &self,
        hearer: &Hearer<'_>,
        _j: usize,
        u: u32,
        noise: &mut adversary_script::Noise,
        out: &mut NodeState,
    ) {
        self.script
            .lie_into(noise, self.t, u, hearer.v, hearer.states, out);
    }
}

/// A node that steps in a round, from a configuration of the script's nodes.
#[derive(Drop)]
pub struct NodeStep<'a> {
    /// The round.
    pub round: &'a Round<'a>,
    /// The configuration.
    pub states: &'a Packed,
    /// The node.
    pub v: u32,
    ghost node: { v < round.now.script.now.nodes },
    ghost shape: { states.now.shape ≡ round.now.script.now.shape },
    ghost size: { length states.now.current ≡ round.now.script.now.nodes },
}
