ghost use Rattle.std.specs.Prelude.{◌≡◌, ◌<◌, length, All};
ghost use Rattle.sync_types.specs.FaultSets.{FaultIds};
ghost use Rattle.adversary_script.specs.Eras.{faulty_at};
ghost use Rattle.machine_runner.specs.Played.{heard_at};
ghost use Rattle.machine_runner.specs.Hearing.{HasRoom, AreHonest};

use adversary_script::{Noise, Script};
use state_codec::Packed;
use sync_types::{FaultSet, NodeState};

/// Lays the current states into their places.
pub fn lay(states: &Packed, heard: &mut [NodeState])
    requires size { length heard.old ≡ length states.now.current }
    requires deep { All (λ s. length s.registers ≡ states.now.shape.depth) heard.old }
    ensures { heard.new ≡ states.now.current }
{
    states.facts();
    for v in 0..states.nodes() {
        states.old(v, &mut heard[v as usize]);
    }
}

/// A node that hears, in a round, the script's nodes in a configuration.
#[derive(Clone, Copy, Drop)]
pub struct Receiver<'a> {
    /// The script.
    pub script: &'a Script,
    /// The nodes that are faulty in the round.
    pub faulty: &'a FaultSet,
    /// The configuration.
    pub states: &'a Packed,
    /// The round's number.
    pub t: u64,
    /// The node.
    pub v: u32,
    ghost liars: { faulty.now
        ≡ record { nodes = script.now.nodes; ids = faulty_at script.now t } },
    ghost left: { t < script.now.rounds },
    ghost node: { v < script.now.nodes },
    ghost shape: { states.now.shape ≡ script.now.shape },
    ghost size: { length states.now.current ≡ script.now.nodes },
}

impl Receiver<'_> {
    /// Lays what it hears of each faulty node into its place: what another one tells it, and its
    /// own state. Those of the correct nodes stand in their places.
    pub fn hear(&self, noise: &mut Noise, heard: &mut [NodeState])
        requires noise { noise.old ≡ self.now.script.now.key }
        requires room { HasRoom self.now.script.now heard.old }
        requires honest { AreHonest self.now.script.now self.now.t self.now.states.now.current
            heard.old }
        ensures heard { heard.new ≡ heard_at self.now.script.now self.now.t
            self.now.states.now.current self.now.v }
        ensures room { HasRoom self.now.script.now heard.new }
        ensures honest { AreHonest self.now.script.now self.now.t self.now.states.now.current
            heard.new }
        ensures noise { noise.new ≡ noise.old }
    {
        self.states.facts();
        self.faulty.facts();
        for i in 0..self.faulty.len() {
            let u = self.faulty.at(i);
            let out = &mut heard[u as usize];
            if u == self.v {
                self.states.old(u, out);
            } else {
                self.script
                    .lie_into(noise, self.t, u, self.v, self.states, out);
            }
        }
    }
}
