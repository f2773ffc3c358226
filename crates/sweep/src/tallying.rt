//! Counts runs of a script with many keys.

ghost use Rattle.std.specs.Prelude.{◌≡◌, ◌≤◌, ◌<◌, ◌+◌, ◌++◌, ◌∷◌, ◌^◌, List, ℕ, []};
ghost use Rattle.std.specs.Prelude.{length, IfOk};
ghost use Rattle.std.specs.List.{range_with_len};
ghost use Rattle.adversary_script.specs.Scripts.{Script};
ghost use Rattle.adversary_script.specs.Eras.{end_of_era};
ghost use Rattle.sweep.specs.Keys.{keyed};
ghost use Rattle.sweep.specs.Progress.{Says};
ghost use Rattle.sweep.specs.Sweeps.{Locks};
ghost use Rattle.sweep.specs.Tallies.{AreTallied, HasRoom};

use crate::progress::Progress;
use crate::sweepable::Sweepable;
use crate::tallies::EraTally;
use adversary_script::Script;
use edge_io::Sink;
use std::alloc::Global;
use sync_types::NoMemory;

/// The first configuration after era `j`.
fn era_end(script: &Script, j: usize) -> u64
    requires { j ≤ length script.now.eras }
    ensures { result ≡ end_of_era script.now j }
{
    let last = script.eras() - 1;
    if j < last {
        script.era_start(j + 1)
    } else {
        script.rounds() + 1
    }
}

/// No runs of a script. They have room for all that may be counted.
fn no_runs(alloc: Global, script: &Script) -> Result<Vec<EraTally>, NoMemory>
    ensures none { IfOk result (λ tally. (locks : Locks)
        → AreTallied locks script.now [] tally.items) }
    ensures room { IfOk result (λ tally. HasRoom script.now tally.items) }
{
    let _rounds = script.rounds();
    let mut tally = Vec::with_capacity(alloc, script.eras())?;
    for j in 0..script.eras() {
        let first = script.era_start(j);
        let size = (era_end(script, j) - first) as usize;
        let era = EraTally::new(alloc, first, size)?;
        match tally.push(era) {
            Ok(()) => {}
            Err(_) => return Err(NoMemory),
        }
    }
    Ok(tally)
}

/// Notes the first locked configurations of the run with the key of this number.
fn note<R: Sweepable>(runner: &R, seed: u64, tally: &mut [EraTally])
    requires known { R.knows runner.now }
    requires room { HasRoom (R.swept runner.now).script tally.old }
    ensures runs { (script : Script) (seeds : List ℕ)
        → (R.swept runner.now).script ≡ keyed script seed → length seeds + 1 < 2 ^ 64
        → AreTallied (R.swept runner.now).locks script seeds tally.old
        → AreTallied (R.swept runner.now).locks script (seeds ++ seed ∷ []) tally.new }
    ensures room { HasRoom (R.swept runner.now).script tally.new }
{
    for j in 0..tally.len() {
        tally[j].note(runner.lock_of(j), seed);
    }
}

/// Plays a runner's script with the keys of `count` numbers from `first` on, and counts its runs.
/// How far it is, is said if `progress` is on: the runs that are counted do not depend on that.
pub fn count_runs<R: Sweepable, E: Sink>(
    alloc: Global,
    runner: &mut R,
    first: u64,
    count: u64,
    progress: &mut Progress<E>,
) -> Result<Vec<EraTally>, NoMemory>
    requires { first + count < 2 ^ 64 }
    ensures tally { IfOk result (λ tally. AreTallied (R.swept runner.old).locks
        (R.swept runner.old).script (range_with_len first count) tally.items) }
    ensures progress { Says progress.old.name progress.old.is_on count (E.told progress.old.sink)
        (E.told progress.new.sink) }
{
    let mut tally = no_runs(alloc, runner.script())?;
    progress.begin();
    for seed in first..first + count {
        runner.play(seed);
        note(&*runner, seed, &mut tally);
        progress.say(runner.steps(), seed - first + 1, count);
    }
    progress.end();
    Ok(tally)
}
