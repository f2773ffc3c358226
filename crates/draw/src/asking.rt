//! Does what the words ask for.

ghost use Rattle.std.specs.Prelude.{◌≡◌, map, string_bytes, IsErrOf};
ghost use Rattle.program_words.specs.Conduct.{LeavesUnread};
ghost use Rattle.draw.specs.Conduct.{DoesAsked, asked_of};
ghost use Rattle.draw.specs.Echoes.{EchoesArePlain, EchoesAreWorked};

use crate::calling::draw_input;
use crate::echoes::echoes_are_plain;
use crate::reasons::NotDrawn;
use crate::requests::request_of;
use edge_io::{Sink, Source, put_all};
use program_words::{Asked, ProgramError, asked_by};
use std::alloc::Global;

/// How the program is used.
const HELP: &[u8] = b"usage: draw < TEXT > PICTURE.svg\n       draw --page < TEXT > PAGE.html\n\
    Draws what `counterlab run`, `trace`, `sweep` or `choose` writes, in SVG. Of a run\n\
    or a trace: a column for each configuration and a line of cells for each node; of\n\
    a trace each level or group, with the kings' turns. Of a sweep: bars of how many\n\
    runs lock when. Of a choice: a point for each plan, by its nodes and its bound.\n\
    With --page it writes a page for a browser, which says of what is under the\n\
    pointer what the text says of it.\n";

/// Does what the words ask for: without words a picture, and by `--page`, alone, a page. `--help`
/// and `--version`, alone, ask for what they say.
///
/// `Usage` comes exactly if the words ask for nothing. When the other errors come,
/// [`draw_input`] says.
pub fn answer<S: Source, K: Sink>(
    alloc: Global,
    words: &[String],
    source: &mut S,
    sink: &mut K,
) -> Result<(), NotDrawn>
    // What was read and written, by how it ended: of a picture, the defined one of a chart, a
    // trace, a sweep or a choice whose own text is what was read, or the page of it.
    ensures asked { DoesAsked (map string_bytes words.now) result
        (S.left source.old) (S.left source.new) (S.faults source.old) (S.faults source.new)
        (K.told sink.old) (K.told sink.new) }
    // If nothing was read the source is as it was, whatever it tells.
    ensures unread { LeavesUnread (asked_of (map string_bytes words.now)) source.old source.new }
    // At `ReadFault` the end of the source was not met.
    ensures unmet { IsErrOf result ProgramError.ReadFault → S.met source.new ≡ S.met source.old }
    // What is said again of an input has at most 200 bytes, and can be printed.
    ensures plain { EchoesArePlain }
    ensures worked { EchoesAreWorked }
{
    echoes_are_plain();
    match asked_by(words, request_of(words)) {
        Asked::Help => Ok(put_all(sink, HELP)?),
        Asked::Version => Ok(put_all(sink, b"draw 2.0\n")?),
        Asked::Request(form) => draw_input(alloc, form, source, sink),
        Asked::Nothing => Err(ProgramError::Usage),
    }
}
