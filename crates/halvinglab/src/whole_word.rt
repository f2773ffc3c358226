//! Words that read all of the input, and answer it.

ghost use Rattle.std.specs.Prelude.{◌≡◌, IfErr, IsErrOf};
ghost use Rattle.program_words.specs.Conduct.{DoesWhole};
ghost use Rattle.halvinglab.specs.Answers.{answer_of, WritesAnswer};
ghost use Rattle.halvinglab.specs.Conduct.{KeepsSink};

use crate::plan_word::table_plan;
use crate::reasons::LabError;
use crate::requests::Whole;
use crate::run_word::play_script;
use edge_io::{Sink, Source, read_all};
use program_words::ProgramError;
use std::alloc::Global;
use texts::LONGEST_INPUT;

/// Answers an input.
fn answer<K: Sink>(alloc: Global, word: Whole, input: &[u8], sink: &mut K) -> Result<(), LabError>
    ensures does { WritesAnswer (answer_of word input.now) result
        (K.told sink.old) (K.told sink.new) }
    ensures untouched { IfErr result (KeepsSink sink.old sink.new) }
{
    match word {
        Whole::Plan => table_plan(input, sink),
        Whole::Play(shown) => play_script(alloc, shown, input, sink),
    }
}

/// Reads all of the input, and answers it.
pub fn answer_all<S: Source, K: Sink>(
    alloc: Global,
    word: Whole,
    source: &mut S,
    sink: &mut K,
) -> Result<(), LabError>
    ensures does { DoesWhole (λ input. WritesAnswer (answer_of word input)) result
        (S.left source.old) (S.left source.new) (S.faults source.old) (S.faults source.new)
        (K.told sink.old) (K.told sink.new) }
    ensures untouched { IfErr result (KeepsSink sink.old sink.new) }
    // At `ReadFault` the end of the source was not met.
    ensures unmet { IsErrOf result ProgramError.ReadFault → S.met source.new ≡ S.met source.old }
{
    let input = read_all(alloc, source, LONGEST_INPUT)?;
    answer(alloc, word, &input, sink)
}
