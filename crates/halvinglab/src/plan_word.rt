//! The table of a plan.

ghost use Rattle.std.specs.Prelude.{◌≡◌, IfErr};
ghost use Rattle.halving_texts.specs.HalvingPart.{whole_halving_of};
ghost use Rattle.halvinglab.specs.Answers.{table_of, WritesAnswer};
ghost use Rattle.halvinglab.specs.Conduct.{KeepsSink};

use crate::reasons::{LabError, LabReason};
use edge_io::{Sink, WriteFault};
use halving_runs::{RunRefusal, put_refusal};
use halving_texts::{HalvingError, HalvingRefusal, read_whole_halving, write_table};
use program_words::ProgramError;

/// Writes the table of the plan that an input is, or the line of its refusal.
pub fn table_plan<K: Sink>(input: &[u8], sink: &mut K) -> Result<(), LabError>
    ensures does { WritesAnswer (table_of (whole_halving_of input.now)) result
        (K.told sink.old) (K.told sink.new) }
    ensures untouched { IfErr result (KeepsSink sink.old sink.new) }
{
    match read_whole_halving(input) {
        Ok(plan) => match write_table(&plan, sink) {
            Ok(()) => Ok(()),
            Err(WriteFault) => Err(ProgramError::WriteFault),
        },
        Err(HalvingError::Refused(HalvingRefusal { line, premise })) => {
            let refusal = RunRefusal::Plan { line, premise };
            match put_refusal(sink, refusal) {
                Ok(()) => Err(ProgramError::Refused(LabReason::Input(refusal))),
                Err(WriteFault) => Err(ProgramError::WriteFault),
            }
        }
        Err(HalvingError::NoMemory) => Err(ProgramError::NoMemory),
    }
}
