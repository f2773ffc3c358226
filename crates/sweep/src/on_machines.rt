//! Plays a script on any machine, and asks for its first locked configurations.

ghost use Rattle.std.specs.Prelude.{◌≡◌, ◌≤◌, length, IfSome};
ghost use Rattle.machine_runner.specs.Counting.{Knows};
ghost use Rattle.machine_runner.specs.ShownTexts.{lock_played};
ghost use Rattle.machine_runner.specs.Runners.{begun};
ghost use Rattle.sweep.specs.Keys.{keyed};
ghost use Rattle.sweep.specs.Tallies.{IsOfEra};

use crate::keys::key_of;
use crate::sweepable::{Sweepable, steps_made};
use adversary_script::Script;
use machine_runner::{Runner, play_to};
use machines::Machine;

/// Plays the script with the key of this number, until its first locked configurations are known.
fn play<M: Machine>(runner: &mut Runner<'_, M>, seed: u64)
    ensures same { runner.new ≡ record (begun runner.old.machine (keyed runner.old.script seed)) {
      at = runner.new.at;
    } }
    ensures knows { Knows M.machine runner.new runner.new.script.rounds }
{
    runner.restart(key_of(seed));
    let end = runner.script().rounds();
    play_to(runner, end);
}

/// The first locked configuration of era `j` of what is played, if it is known.
fn lock_of<M: Machine>(runner: &Runner<'_, M>, j: usize) -> Option<u64>
    requires among { j ≤ length runner.now.script.eras }
    requires known { Knows M.machine runner.now runner.now.script.rounds }
    ensures lock { result ≡ lock_played (M.machine runner.now.machine) runner.now.script j }
    ensures within { IfSome result (IsOfEra runner.now.script j) }
{
    runner.facts();
    runner.lock_of(j)
}

impl<M: Machine> Sweepable for Runner<'_, M> {
    ghost use Rattle.machine_runner.specs.Counting.{Knows};
    ghost use Rattle.sweep.specs.Sweeps.{on_machine};

    ghost swept = { λ r. on_machine (M.machine r.machine) r.script };

    ghost knows = { λ r. Knows M.machine r r.script.rounds };

    fn bound(&self) -> u64 {
        self.machine().bound()
    }

    fn script(&self) -> &Script {
        self.script()
    }

    fn play(&mut self, seed: u64) {
        play(self, seed);
    }

    fn steps(&self) -> u64 {
        steps_made(self.at(), self.nodes())
    }

    fn lock_of(&self, j: usize) -> Option<u64> {
        lock_of(self, j)
    }
}
