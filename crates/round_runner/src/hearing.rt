//! What a node hears in the round that is to be played.

use crate::runners::Runner;
use counter_core::Overlay;
use machine_runner::{Receiver, lay};
use sync_types::NodeState;

impl<O: Overlay> Runner<O> {
    ghost use Rattle.std.specs.Prelude.{◌≡◌, ◌<◌, length, All};
    ghost use Rattle.construction.specs.Plans.{plan_nodes};
    ghost use Rattle.round_runner.specs.Played.{heard_at};

    /// Lays the states of all nodes into their places of `config`, which has states of the depth of
    /// the runner's.
    pub fn lay_states(&self, config: &mut [NodeState])
        requires size { length config.old ≡ plan_nodes self.now.plan }
        requires deep { All (λ s. length s.registers ≡ self.now.script.shape.depth)
            config.old }
        ensures states { config.new ≡ self.now.states }
        ensures deep { All (λ s. length s.registers ≡ self.now.script.shape.depth)
            config.new }
    {
        self.states.facts();
        lay(&self.states, config);
    }

    /// Lays what node `v` hears of each node in round `at` into its place of `heard`, which has
    /// states of the depth of the runner's. There is a round left to play.
    pub fn hear(&mut self, v: u32, heard: &mut [NodeState])
        requires round { self.old.at < self.old.script.rounds }
        requires receiver { v < plan_nodes self.old.plan }
        requires size { length heard.old ≡ plan_nodes self.old.plan }
        requires deep { All (λ s. length s.registers ≡ self.old.script.shape.depth)
            heard.old }
        ensures heard { heard.new ≡ heard_at self.old.script self.old.at self.old.states v }
        ensures deep { All (λ s. length s.registers ≡ self.old.script.shape.depth)
            heard.new }
        ensures same { self.new ≡ self.old }
    {
        self.states.facts();
        lay(&self.states, heard);
        let receiver = Receiver {
            script: &self.script,
            faulty: self.script.era_faulty(self.era),
            states: &self.states,
            t: self.at,
            v,
        };
        receiver.hear(&mut self.room.noise, heard);
    }
}
