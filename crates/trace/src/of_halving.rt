//! The trace of a script that a runner plays on a halving plan.

ghost use Rattle.std.specs.Prelude.{◌≡◌, map, string_bytes};
ghost use Rattle.program_words.specs.Conduct.{Answers};
ghost use Rattle.trace.specs.Answers.{halving_trace};

use crate::halving_desks::HalvingBuffers;
use crate::halving_tracing::put_halving_trace;
use crate::naming::named_nodes;
use crate::reasons::{TraceError, TraceReason};
use crate::wants::Want;
use edge_io::Sink;
use halving_plan::HalvingMachine;
use machine_runner::Runner;
use program_words::ProgramError;
use std::alloc::Global;

/// Writes the trace of the wanted configurations and of the nodes that the words name, or of all
/// if there is no word. The runner is at configuration 0.
pub fn write_halving_trace<K: Sink>(
    alloc: Global,
    want: Want,
    words: &[String],
    runner: &mut Runner<'_, HalvingMachine>,
    sink: &mut K,
) -> Result<(), TraceError>
    requires { runner.old.at ≡ 0 }
    ensures { Answers (halving_trace want (map string_bytes words.now)
        (record { plan = runner.old.machine; script = runner.old.script })) result
        (K.told sink.old) (K.told sink.new) }
{
    if want.last() > runner.script().rounds() {
        return Err(ProgramError::Refused(TraceReason::NotPlayed));
    }
    let Some(nodes) = named_nodes(alloc, words, runner.machine().plan().nodes())? else {
        return Err(ProgramError::Refused(TraceReason::NoNode));
    };
    let mut desk = HalvingBuffers::new(alloc, runner)?;
    put_halving_trace(sink, runner, want, &nodes, &mut desk)?;
    Ok(())
}
