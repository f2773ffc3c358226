ghost use Rattle.std.specs.Prelude.{◌+◌, ◌<◌, ◌^◌};
ghost use Rattle.std.specs.List.{range_with_len};
ghost use Rattle.program_words.specs.Conduct.{WritesText};
ghost use Rattle.sweep.specs.Progress.{Says};
ghost use Rattle.sweep.specs.SweepTexts.{sweep_text};

use crate::progress::Progress;
use crate::sweepable::Sweepable;
use crate::tallying::count_runs;
use crate::writing::write_tally;
use edge_io::Sink;
use program_words::ProgramError;
use std::alloc::Global;

/// Plays a runner's script with the key of each of `count` numbers from `first` on, and writes the
/// counter's bound, and how soon the script's eras lock: for each era a line for each first locked
/// configuration that occurs, rising, and `none` last, with how many runs have it and the least
/// number of these.
///
/// All memory is taken before the first run. `NoMemory` comes if it was refused, and `WriteFault`
/// if the sink counted one; a prefix of the text was then taken.
///
/// How many runs were played is said while they are, if `progress` is on, and wiped before the
/// first line is written. What becomes of that changes nothing else, and a fault of it is not
/// answered.
pub fn sweep<R: Sweepable, K: Sink, E: Sink, Q>(
    alloc: Global,
    runner: &mut R,
    first: u64,
    count: u64,
    sink: &mut K,
    progress: &mut Progress<E>,
) -> Result<(), ProgramError<Q>>
    requires { first + count < 2 ^ 64 }
    ensures text { WritesText
        (sweep_text (R.swept runner.old) (range_with_len first count)) result
        (K.told sink.old) (K.told sink.new) }
    ensures progress { Says progress.old.name progress.old.is_on count (E.told progress.old.sink)
        (E.told progress.new.sink) }
{
    let bound = runner.bound();
    let tally = count_runs(alloc, runner, first, count, progress)?;
    Ok(write_tally(bound, &tally, sink)?)
}
