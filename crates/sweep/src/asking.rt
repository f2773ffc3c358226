//! Does what the words ask for.

ghost use Rattle.std.specs.Prelude.{◌≡◌, map, string_bytes, IsErrOf};
ghost use Rattle.program_words.specs.Conduct.{LeavesUnread};
ghost use Rattle.sweep.specs.Conduct.{DoesAsked, SaysAsked, asked_of};
ghost use Rattle.sweep.specs.Keys.{KeysDiffer};
ghost use Rattle.sweep.specs.Laws.{SweepsCountRuns};
ghost use Rattle.sweep.specs.Worked.{SweepsAreSpelled};

use crate::calling::sweep_input;
use crate::keys::keys_differ;
use crate::laws::sweeps_count_runs;
use crate::progress::Progress;
use crate::reasons::SweepError;
use crate::requests::request_of;
use crate::worked::sweeps_are_spelled;
use edge_io::{Sink, Source, put_all};
use program_words::{Asked, ProgramError, asked_by};
use std::alloc::Global;

/// How the program is used.
const HELP: &[u8] = b"usage: sweep FIRST COUNT\n\
    Reads a plan and a script from standard input, as counterlab run does,\n\
    or a halving plan and a script, as halvinglab run does,\n\
    plays the script with the keys of COUNT numbers from FIRST on,\n\
    and writes the plan's bound, and for each era how many runs first lock\n\
    with which configuration, and the least number of these. The key of a\n\
    number is the number as 16 hex digits, with 48 zeros behind.\n\
    Where standard error is a terminal, a line there says how far it is.\n";

/// Does what the words ask for. `FIRST COUNT` asks for a sweep over COUNT numbers from FIRST on:
/// both have at most 15 digits, and COUNT is at least 1. `--help` and `--version`, alone, ask for
/// what they say.
///
/// `Usage` comes exactly if the words ask for nothing. When the other errors come, [`sweep_input`]
/// says.
pub fn answer<S: Source, K: Sink, E: Sink>(
    alloc: Global,
    words: &[String],
    source: &mut S,
    sink: &mut K,
    progress: &mut Progress<E>,
) -> Result<(), SweepError>
    // What was read and written, by how it ended: of a sweep, the text that is defined for the
    // plan or the halving plan, the script and the numbers, or the refusal of the first line that
    // fails.
    ensures asked { DoesAsked (map string_bytes words.now) result
        (S.left source.old) (S.left source.new) (S.faults source.old) (S.faults source.new)
        (K.told sink.old) (K.told sink.new) }

    // What was said of how far a sweep is: nothing if progress is off, or no sweep is asked for.
    ensures progress { SaysAsked (asked_of (map string_bytes words.now)) progress.old.name
        progress.old.is_on (E.told progress.old.sink) (E.told progress.new.sink) }
    // If nothing was read the source is as it was, whatever it reports.
    ensures unread { LeavesUnread (asked_of (map string_bytes words.now)) source.old source.new }
    // At `ReadFault` the end of the source was not met.
    ensures unmet { IsErrOf result ProgramError.ReadFault → S.met source.new ≡ S.met source.old }
    // No two numbers have one key.
    ensures keys { KeysDiffer }
    // The runs of an era's lines add up to the numbers that are asked for, and each line has the
    // runs of which its configuration is the first locked one of that era: so it is with the text
    // of each input that has a sweep, and with that of any script on any plan and any machine.
    ensures counts { SweepsCountRuns }
    // A key, and the texts of small sweeps, letter by letter.
    ensures worked { SweepsAreSpelled }
{
    keys_differ();
    sweeps_count_runs();
    sweeps_are_spelled();
    match asked_by(words, request_of(words)) {
        Asked::Help => Ok(put_all(sink, HELP)?),
        Asked::Version => Ok(put_all(sink, b"sweep 2.0\n")?),
        Asked::Request(numbers) => sweep_input(alloc, numbers, source, sink, progress),
        Asked::Nothing => Err(ProgramError::Usage),
    }
}
