ghost use Rattle.std.specs.Prelude.{◌≡◌};

use crate::players::Player;
use crate::telling::tell_puppets;
use counter_core::Overlay;
use machine_runner::{begin_locks, is_locked, start_all};
use rounds::Rounds;

impl<'a, M: Rounds, O: Overlay> Player<'a, M, O> {
    ghost use Rattle.machine_runner.specs.Locks.{is_locked};
    ghost use Rattle.layer_laws.specs.Positions.{begun, IsPlayed};
    ghost use Rattle.player.specs.Counters.{machine_counter};
    ghost use Rattle.player.specs.Runners.{position_of};

    /// Begins the script anew, with this key for its noise: what it is then is what a new player
    /// would be, with the layer as it is. It takes no memory.
    pub fn restart(&mut self, key: [u8; 32])
        ensures begun { position_of M.machine O.layer O.kept self.new
            ≡ begun (machine_counter (M.machine self.old.machine))
            (is_locked (M.machine self.old.machine)) (record self.old.script { key = key })
            (O.layer self.old.overlay) (O.kept self.old.overlay) }
        ensures machine { self.new.machine ≡ self.old.machine }
        ensures played { IsPlayed (O.kept self.old.overlay)
            (position_of M.machine O.layer O.kept self.new) }
    {
        self.states.facts();
        self.script.set_key(key);
        self.room.noise.restart(key);
        start_all(
            &self.script,
            &mut self.room.noise,
            &mut self.room.out,
            &mut self.states,
        );
        tell_puppets(&self.script, 0, &self.states, &mut self.room.lies);
        self.at = 0;
        self.era = 0;
        let locked = is_locked(self.machine, self.script.faulty(), &self.states);
        begin_locks(&self.script, locked, &mut self.locks);
    }
}
