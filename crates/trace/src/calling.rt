//! Reads an input, and writes its trace.

ghost use Rattle.std.specs.Prelude.{◌≡◌, map, string_bytes, IsErrOf};
ghost use Rattle.trace.specs.Conduct.{TracesInput};

use crate::answering::write_trace;
use crate::reasons::TraceError;
use crate::wants::Want;
use edge_io::{Sink, Source, read_all};
use program_words::ProgramError;
use std::alloc::Global;
use texts::LONGEST_INPUT;

/// Reads a plan and a script, plays the script, and writes of each wanted configuration what the
/// nodes hold that the words name, or all if there is no word, and what they make of what they
/// hear. The plan is a halving plan if the first line that counts is that of one, and else a boosting
/// plan.
///
/// The whole source is read first, at most 2^20 bytes. `Boosting` and `Halving` come exactly if
/// `run` of `counterlab`, or of `halvinglab`, refuses the input; `NotPlayed` if it is a plan and a
/// script of fewer rounds than the last wanted configuration; `NoNode` if that one is played, and a
/// word names no node of the plan. `TooLong` comes only if the byte after the limit was there,
/// `ReadFault` and `WriteFault` only if the source, before its end, or the sink counted a fault,
/// and `NoMemory` if memory was refused. Nothing was written then, but at `WriteFault` a prefix of
/// the text. `Usage` never comes.
pub fn trace_input<S: Source, K: Sink>(
    alloc: Global,
    want: Want,
    words: &[String],
    source: &mut S,
    sink: &mut K,
) -> Result<(), TraceError>
    ensures traces { TracesInput result want (map string_bytes words.now)
        (S.left source.old) (S.left source.new) (S.faults source.old) (S.faults source.new)
        (K.told sink.old) (K.told sink.new) }
    // At `ReadFault` the end of the source was not met.
    ensures unmet { IsErrOf result ProgramError.ReadFault → S.met source.new ≡ S.met source.old }
{
    let input = read_all(alloc, source, LONGEST_INPUT)?;
    write_trace(alloc, want, words, &input, sink)
}
