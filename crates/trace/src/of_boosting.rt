//! The trace of a boosting plan and a script.

ghost use Rattle.std.specs.Prelude.{map, string_bytes, IfErr, IfOk};
ghost use Rattle.answers.specs.ScriptedRuns.{IsScriptedRun};
ghost use Rattle.outcomes.specs.Inputs.{scripted_of};
ghost use Rattle.program_words.specs.Conduct.{Answers, FailsAs};
ghost use Rattle.trace.specs.Answers.{boosting_read, boosting_trace_or};

use crate::desks::TraceBuffers;
use crate::naming::named_nodes;
use crate::reasons::{TraceError, TraceReason};
use crate::tracing::put_trace;
use crate::wants::Want;
use answers::{Unanswered, read_scripted};
use counter_core::NoOverlay;
use edge_io::Sink;
use plan_numbers::Plan;
use program_words::ProgramError;
use round_runner::Runner;
use std::alloc::Global;

/// The plan of an input, and the runner of its script on it.
fn read_boosting(alloc: Global, input: &[u8]) -> Result<(Plan, Runner<NoOverlay>), TraceError>
    ensures read { IfOk result (IsScriptedRun input.now) }
    ensures fails { IfErr result (FailsAs (boosting_read (scripted_of input.now))) }
{
    match read_scripted(alloc, input) {
        Ok(read) => Ok(read),
        Err(Unanswered::Refused(refusal)) => {
            Err(ProgramError::Refused(TraceReason::Boosting(refusal)))
        }
        Err(Unanswered::NoMemory) => Err(ProgramError::NoMemory),
        Err(Unanswered::WriteFault) => Err(ProgramError::WriteFault),
    }
}

/// Writes the trace of an input that is read as such a plan and a script: that of the wanted
/// configurations and of the nodes that the words name, or of all if there is no word.
pub fn write_boosting_trace<K: Sink>(
    alloc: Global,
    want: Want,
    words: &[String],
    input: &[u8],
    sink: &mut K,
) -> Result<(), TraceError>
    ensures { Answers
        (boosting_trace_or want (map string_bytes words.now) (scripted_of input.now)) result
        (K.told sink.old) (K.told sink.new) }
{
    let (plan, mut runner) = read_boosting(alloc, input)?;
    if want.last() > runner.script().rounds() {
        return Err(ProgramError::Refused(TraceReason::NotPlayed));
    }
    let Some(nodes) = named_nodes(alloc, words, plan.nodes())? else {
        return Err(ProgramError::Refused(TraceReason::NoNode));
    };
    let depth = runner.shape().depth();
    let mut desk = TraceBuffers::new(alloc, &plan, depth)?;
    put_trace(sink, &mut runner, want, &nodes, &mut desk)?;
    Ok(())
}
