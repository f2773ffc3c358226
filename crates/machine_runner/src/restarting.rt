ghost use Rattle.std.specs.Prelude.{◌≡◌};

use crate::era_locks::begin_locks;
use crate::hearing::lay;
use crate::locks::is_locked;
use crate::runners::Runner;
use crate::stepping::start_all;
use machines::Machine;

impl<'a, M: Machine> Runner<'a, M> {
    ghost use Rattle.machine_runner.specs.Runners.{begun};

    /// Begins the script anew, with this key for its noise: what it is then is what a new runner
    /// would be. It takes no memory.
    pub fn restart(&mut self, key: [u8; 32])
        ensures { self.new ≡ begun self.old.machine (record self.old.script { key = key }) }
    {
        self.states.facts();
        self.script.set_key(key);
        self.room.noise.restart(key);
        start_all(
            &self.script,
            &mut self.room.noise,
            &mut self.room.out,
            &mut self.states,
        );
        self.states.facts();
        lay(&self.states, &mut self.room.heard);
        self.at = 0;
        self.era = 0;
        let locked = is_locked(self.machine, self.script.faulty(), &self.states);
        begin_locks(&self.script, locked, &mut self.locks);
    }
}
