//! Does what the words ask for.

ghost use Rattle.std.specs.Prelude.{◌≡◌, map, string_bytes, IsErrOf};
ghost use Rattle.program_words.specs.Conduct.{LeavesUnread};
ghost use Rattle.states.specs.Conduct.{DoesAsked, asked_of};
ghost use Rattle.states.specs.Laws.{EachIsTurned, EachIsTurnedAgain};
ghost use Rattle.states.specs.Worked.{StatesAreSpelled};

use crate::calling::turn_input;
use crate::laws::{lines_are_turned, states_are_spelled, turned_lines_are_turned};
use crate::reasons::StateError;
use crate::requests::request_of;
use edge_io::{Sink, Source, put_all};
use program_words::{Asked, ProgramError, asked_by};
use std::alloc::Global;

/// How the program is used.
const HELP: &[u8] = b"usage: states < STATES\n\
    Turns states of nodes from hex digits into words, and back. It reads a\n\
    plan, a line `values V` for each register of a layer, and then lines\n\
    `node V H` or `node V number X registers R, R`, and writes the other\n\
    form of each.\n";

/// Does what the words ask for: without words the states of the input are turned, and `--help` and
/// `--version`, alone, ask for what they say.
///
/// `Usage` comes exactly if the words ask for nothing. When the other errors come,
/// [`turn_input`] says.
pub fn answer<S: Source, K: Sink>(
    alloc: Global,
    words: &[String],
    source: &mut S,
    sink: &mut K,
) -> Result<(), StateError>
    // What was read and written, by how it ended: of states, the other line of each, or the refusal
    // of the first line of the plan, of the values or of the states that fails.
    ensures asked { DoesAsked (map string_bytes words.now) result
        (S.left source.old) (S.left source.new) (S.faults source.old) (S.faults source.new)
        (K.told sink.old) (K.told sink.new) }
    // If nothing was read the source is as it was, whatever it tells.
    ensures unread { LeavesUnread (asked_of (map string_bytes words.now)) source.old source.new }
    // At `ReadFault` the end of the source was not met.
    ensures unmet { IsErrOf result ProgramError.ReadFault → S.met source.new ≡ S.met source.old }
    // Each of the two lines of a state is turned into the other one, if the node has a field, and
    // what a line is turned into is a line that is turned, if each node has one.
    ensures both { EachIsTurned }
    ensures again { EachIsTurnedAgain }
    // An input with its text, letter by letter, and one that is refused for each fault of a line.
    ensures worked { StatesAreSpelled }
{
    lines_are_turned();
    turned_lines_are_turned();
    states_are_spelled();
    match asked_by(words, request_of(words)) {
        Asked::Help => Ok(put_all(sink, HELP)?),
        Asked::Version => Ok(put_all(sink, b"states 2.0\n")?),
        Asked::Request(()) => turn_input(alloc, source, sink),
        Asked::Nothing => Err(ProgramError::Usage),
    }
}
