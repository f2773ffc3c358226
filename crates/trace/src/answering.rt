//! Answers an input: the script after its plan is played, and its trace is written.

ghost use Rattle.std.specs.Prelude.{◌≡◌, map, string_bytes};
ghost use Rattle.program_words.specs.Conduct.{Answers};
ghost use Rattle.trace.specs.Answers.{is_first, fails_at_first, trace_of};

use crate::of_boosting::write_boosting_trace;
use crate::of_halving::write_halving_trace;
use crate::reasons::{TraceError, TraceReason};
use crate::wants::Want;
use edge_io::Sink;
use halving_runs::{PlayError, RunRefusal, read_scripted};
use machine_runner::Runner;
use plan_reader::first_unskipped;
use program_words::ProgramError;
use std::alloc::Global;

/// Whether the line is the first one that counts, or no line does.
fn is_first(first: Option<u64>, line: u64) -> bool
    ensures { result ≡ is_first first line }
{
    match first {
        Some(first) => first == line,
        None => true,
    }
}

/// Whether an input is refused as a halving plan for its first line that counts.
fn fails_at_first(first: Option<u64>, refusal: RunRefusal) -> bool
    ensures { result ≡ fails_at_first first refusal }
{
    match refusal {
        RunRefusal::Plan { line, premise: _ } => is_first(first, line),
        RunRefusal::Part {
            part: _,
            line: _,
            rule: _,
        } => false,
    }
}

/// Writes the trace of an input, a plan of either construction and a script: that of the wanted
/// configurations and of the nodes that the words name, or of all if there is no word.
pub fn write_trace<K: Sink>(
    alloc: Global,
    want: Want,
    words: &[String],
    input: &[u8],
    sink: &mut K,
) -> Result<(), TraceError>
    ensures { Answers (trace_of want (map string_bytes words.now) input.now) result
        (K.told sink.old) (K.told sink.new) }
{
    match read_scripted(alloc, input) {
        Ok((machine, shape, script)) => {
            let mut runner = Runner::new(alloc, &machine, shape, script)?;
            write_halving_trace(alloc, want, words, &mut runner, sink)
        }
        Err(PlayError::Refused(refusal)) => {
            if fails_at_first(first_unskipped(input, 1), refusal) {
                write_boosting_trace(alloc, want, words, input, sink)
            } else {
                Err(ProgramError::Refused(TraceReason::Halving(refusal)))
            }
        }
        Err(PlayError::NoMemory) => Err(ProgramError::NoMemory),
        Err(PlayError::WriteFault) => Err(ProgramError::WriteFault),
    }
}
