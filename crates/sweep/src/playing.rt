//! Plays a script on a plan, and asks for its first locked configurations.

ghost use Rattle.std.specs.Prelude.{◌≡◌, ◌≤◌, [], length, IfSome};
ghost use Rattle.counter_core.specs.NoLayers.{no_layer};
ghost use Rattle.round_runner.specs.Known.{KnowsLocks, known_from};
ghost use Rattle.round_runner.specs.Played.{played_at};
ghost use Rattle.round_runner.specs.Runners.{IsPlaying};
ghost use Rattle.sweep.specs.Keys.{keyed};
ghost use Rattle.sweep.specs.Sweeps.{lock_of};
ghost use Rattle.sweep.specs.Tallies.{IsOfEra};

use crate::keys::key_of;
use crate::sweepable::{Sweepable, steps_made};
use adversary_script::Script;
use counter_core::NoOverlay;
use round_runner::Runner;

/// Plays the script with the key of this number, until its first locked configurations are known
/// and no further.
fn play(runner: &mut Runner<NoOverlay>, seed: u64)
    ensures plan { runner.new.plan ≡ runner.old.plan }
    ensures script { runner.new.script ≡ keyed runner.old.script seed }
    ensures plays { IsPlaying (λ o. no_layer) (λ o. []) [] runner.new }
    ensures known { KnowsLocks runner.new }
    ensures stops { runner.new.at ≡ known_from runner.new.plan runner.new.script
        (played_at runner.new.plan runner.new.script) }
{
    runner.restart(key_of(seed));
    runner.play_until_known();
}

/// The first locked configuration of era `j` of what is played, if it is known.
fn lock_of(runner: &Runner<NoOverlay>, j: usize) -> Option<u64>
    requires among { j ≤ length runner.now.script.eras }
    requires plays { IsPlaying (λ o. no_layer) (λ o. []) [] runner.now }
    requires known { KnowsLocks runner.now }
    ensures lock { result ≡ lock_of runner.now.plan runner.now.script j }
    ensures within { IfSome result (IsOfEra runner.now.script j) }
{
    runner.locked_in(j)
}

impl Sweepable for Runner<NoOverlay> {
    ghost use Rattle.std.specs.Prelude.{[]};
    ghost use Rattle.counter_core.specs.NoLayers.{no_layer};
    ghost use Rattle.round_runner.specs.Known.{KnowsLocks};
    ghost use Rattle.round_runner.specs.Runners.{IsPlaying};
    ghost use Rattle.sweep.specs.Sweeps.{on_plan};

    ghost swept = { λ r. on_plan r.plan r.script };

    ghost knows = { λ r. IsPlaying (λ o. no_layer) (λ o. []) [] r × KnowsLocks r };

    fn bound(&self) -> u64 {
        self.bound()
    }

    fn script(&self) -> &Script {
        self.script()
    }

    fn play(&mut self, seed: u64) {
        play(self, seed);
    }

    fn steps(&self) -> u64 {
        steps_made(self.at(), self.nodes())
    }

    fn lock_of(&self, j: usize) -> Option<u64> {
        lock_of(self, j)
    }
}
