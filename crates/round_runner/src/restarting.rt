ghost use Rattle.std.specs.Prelude.{◌≡◌};

use crate::locks::is_locked;
use crate::runners::Runner;
use counter_core::Overlay;
use machine_runner::{begin_locks, start_all};

impl<O: Overlay> Runner<O> {
    ghost use Rattle.round_runner.specs.Runners.{IsPlaying, begun};

    /// Begins the script anew, with this key for its noise: what it is then is what a new runner
    /// would be. It takes no memory.
    pub fn restart(&mut self, key: [u8; 32])
        ensures begun { self.new ≡ begun self.old.plan (record self.old.script { key = key })
            self.old.overlay }
        ensures played { IsPlaying O.layer O.kept (O.kept self.old.overlay) self.new }
    {
        self.states.facts();
        self.script.set_key(key);
        self.room.noise.restart(key);
        start_all(
            &self.script,
            &mut self.room.noise,
            &mut self.room.step.out,
            &mut self.states,
        );
        self.at = 0;
        self.era = 0;
        let locked = is_locked(&self.tower, self.script.faulty(), &self.states);
        begin_locks(&self.script, locked, &mut self.locks);
    }
}
