//! Does what the words ask for.

ghost use Rattle.std.specs.Prelude.{◌≡◌, map, string_bytes, IsErrOf};
ghost use Rattle.program_words.specs.Conduct.{LeavesUnread};
ghost use Rattle.texts.specs.Growth.{Puts};
ghost use Rattle.trace.specs.Conduct.{DoesAsked, asked_of};
ghost use Rattle.trace.specs.HelpText.{help_text, version_text};
ghost use Rattle.trace.specs.Laws.{LocksAreTold, HalvingLocksAreTold};
ghost use Rattle.trace.specs.Worked.{TracesAreSpelled};

use crate::calling::trace_input;
use crate::laws::{halving_locks_are_told, locks_are_told, traces_are_spelled};
use crate::reasons::TraceError;
use crate::requests::{node_words, request_of};
use edge_io::{Sink, Source, WriteFault, put_all};
use program_words::{Asked, ProgramError, asked_by};
use std::alloc::Global;

/// How the program is used.
const HELP: &[u8] = b"usage: trace FROM TO [NODE ..] < PLAN_AND_SCRIPT\n\
    Plays a script on the counter of its plan, as counterlab run does, or of\n\
    its halving plan, as halvinglab run does, and writes of each configuration\n\
    from FROM to TO what the nodes hold, and what they make of what they\n\
    hear: of all nodes, or of these.\n";

/// Writes how the program is used.
fn write_help<K: Sink>(sink: &mut K) -> Result<(), WriteFault>
    ensures { Puts result help_text (K.told sink.old) (K.told sink.new) }
{
    put_all(sink, HELP)
}

/// Writes the program's name and version.
fn write_version<K: Sink>(sink: &mut K) -> Result<(), WriteFault>
    ensures { Puts result version_text (K.told sink.old) (K.told sink.new) }
{
    put_all(sink, b"trace 2.0\n")
}

/// Does what the words ask for. `FROM TO [NODE ..]` asks for a trace of the configurations from
/// FROM to TO, not above it, and of these nodes, or of all if none is named: each word is a
/// number of at most 15 digits. `--help` and `--version`, alone, ask for what they say.
///
/// `Usage` comes exactly if the words ask for nothing. When the other errors come,
/// [`trace_input`] says.
pub fn answer<S: Source, K: Sink>(
    alloc: Global,
    words: &[String],
    source: &mut S,
    sink: &mut K,
) -> Result<(), TraceError>
    // What was read and written, by how it ended: of a trace, the text that is defined for the
    // plan, the script, the configurations and the nodes.
    ensures asked { DoesAsked (map string_bytes words.now) result
        (S.left source.old) (S.left source.new) (S.faults source.old) (S.faults source.new)
        (K.told sink.old) (K.told sink.new) }
    // If nothing was read the source is as it was, whatever it tells.
    ensures unread { LeavesUnread (asked_of (map string_bytes words.now)) source.old source.new }
    // At `ReadFault` the end of the source was not met.
    ensures unmet { IsErrOf result ProgramError.ReadFault → S.met source.new ≡ S.met source.old }

    // In a trace the line of a correct node at the top level, or of a halving plan in the whole
    // group, says `locked` exactly if the configuration is locked.
    ensures locks { LocksAreTold }
    ensures halving_locks { HalvingLocksAreTold }

    // Traces on a plan of either construction, letter by letter.
    ensures spelled { TracesAreSpelled }
{
    locks_are_told();
    halving_locks_are_told();
    traces_are_spelled();
    match asked_by(words, request_of(words)) {
        Asked::Help => Ok(write_help(sink)?),
        Asked::Version => Ok(write_version(sink)?),
        Asked::Request(want) => trace_input(alloc, want, node_words(words), source, sink),
        Asked::Nothing => Err(ProgramError::Usage),
    }
}
