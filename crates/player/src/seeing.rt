use crate::players::Player;
use counter_core::Overlay;
use machine_runner::{Receiver, lay};
use rounds::Rounds;
use sync_types::{FaultSet, NodeState};

impl<'a, M: Rounds, O: Overlay> Player<'a, M, O> {
    ghost use Rattle.std.specs.Prelude.{◌≡◌, ◌<◌, ◌≤◌, length};
    ghost use Rattle.construction.specs.Steps.{state_of};
    ghost use Rattle.adversary_script.specs.Eras.{faulty_at};
    ghost use Rattle.adversary_script.specs.Rounds.{heard_at};
    ghost use Rattle.machines.specs.Laws.{IsSound};
    ghost use Rattle.machine_runner.specs.Hearing.{HasRoom};
    ghost use Rattle.player.specs.ReadOver.{IsReadWithLayer};

    /// Tells a caller's proof that the machine is sound, that the script was read for it and the
    /// layer, and that no more rounds were played than there are. It does nothing when it runs.
    pub fn tell(&self)
        ensures sound { IsSound (M.machine self.now.machine) }
        ensures read { IsReadWithLayer (M.machine self.now.machine) (O.layer self.now.overlay)
            self.now.script }
        ensures within { self.now.at ≤ self.now.script.rounds }
    {
        self.machine.facts();
    }

    /// The machine.
    pub fn machine(&self) -> &'a M
        ensures { result.now ≡ self.now.machine }
    {
        self.machine
    }

    /// Puts the state of node `v` into `out`, which has the depth of the player's states.
    pub fn state(&self, v: u32, out: &mut NodeState)
        requires node { v < (M.machine self.now.machine).nodes }
        requires depth { length out.old.registers ≡ self.now.script.shape.depth }
        ensures { out.new ≡ state_of self.now.states v }
    {
        self.states.old(v, out);
    }

    /// Lays the states of all nodes into their places.
    pub fn lay_states(&self, config: &mut [NodeState])
        requires { HasRoom self.now.script config.old }
        ensures states { config.new ≡ self.now.states }
        ensures room { HasRoom self.now.script config.new }
    {
        self.states.facts();
        lay(&self.states, config);
    }

    /// Lays what node `v` hears in the round that follows into its places. There is a round left to
    /// play. It takes no memory and cannot fail.
    pub fn hear(&mut self, v: u32, heard: &mut [NodeState])
        requires node { v < (M.machine self.old.machine).nodes }
        requires left { self.old.at < self.old.script.rounds }
        requires room { HasRoom self.old.script heard.old }
        ensures heard { heard.new ≡ heard_at self.old.script self.old.at self.old.states v }
        ensures room { HasRoom self.old.script heard.new }
        ensures same { self.new ≡ self.old }
    {
        self.states.facts();
        lay(&self.states, heard);
        let receiver = Receiver {
            script: &self.script,
            faulty: self.script.era_faulty(self.era),
            states: &self.states,
            t: self.at,
            v,
        };
        receiver.hear(&mut self.room.noise, heard);
    }

    /// Who is faulty in the configuration, and in the round that begins with it.
    pub fn faulty(&self) -> &FaultSet
        ensures { result.now ≡ record {
          nodes = (M.machine self.now.machine).nodes;
          ids = faulty_at self.now.script self.now.at;
        } }
    {
        self.script.era_faulty(self.era)
    }
}
