//! What is written of the nodes of a plan while the script after it is played.

ghost use Rattle.std.specs.Prelude.{◌≡◌, IfErr};
ghost use Rattle.halving_runs.specs.RunTexts.{run_of};
ghost use Rattle.halvinglab.specs.Answers.{WritesAnswer};
ghost use Rattle.halvinglab.specs.Conduct.{KeepsSink};

use crate::reasons::{LabError, LabReason};
use edge_io::Sink;
use halving_runs::{PlayError, Shown, play};
use program_words::ProgramError;
use std::alloc::Global;

/// Plays the script of an input, and writes the run with lines of this kind; or the line of a
/// refusal.
pub fn play_script<K: Sink>(
    alloc: Global,
    shown: Shown,
    input: &[u8],
    sink: &mut K,
) -> Result<(), LabError>
    ensures does { WritesAnswer (run_of shown input.now) result
        (K.told sink.old) (K.told sink.new) }
    ensures untouched { IfErr result (KeepsSink sink.old sink.new) }
{
    match play(alloc, shown, input, sink) {
        Ok(()) => Ok(()),
        Err(PlayError::Refused(refusal)) => Err(ProgramError::Refused(LabReason::Input(refusal))),
        Err(PlayError::NoMemory) => Err(ProgramError::NoMemory),
        Err(PlayError::WriteFault) => Err(ProgramError::WriteFault),
    }
}
