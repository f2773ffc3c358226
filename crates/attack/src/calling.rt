//! Reads a plan, and writes it with an attack on it.

ghost use Rattle.std.specs.Prelude.{◌≡◌, ◌≤◌, ◌++◌, map, string_bytes, IsErrOf};
ghost use Rattle.texts.specs.Growth.{Puts};
ghost use Rattle.attack.specs.Conduct.{Attacks, AttacksInput};
ghost use Rattle.attack.specs.PlanTexts.{text_of};

use crate::finding::{Found, find};
use crate::plans::AnyPlan;
use crate::reading::read_any_plan;
use crate::reasons::AttackError;
use crate::requests::{Numbers, named_kinds};
use edge_io::{Sink, Source, WriteFault, put_all, read_all};
use program_words::ProgramError;
use std::alloc::Global;
use texts::LONGEST_INPUT;

/// Writes the text of a plan, and a text after it.
fn write_both<K: Sink>(sink: &mut K, plan: &AnyPlan, text: &[u8]) -> Result<(), WriteFault>
    ensures { Puts result (text_of plan.now ++ text.now) (K.told sink.old) (K.told sink.new) }
{
    plan.write(sink)?;
    put_all(sink, text)
}

/// Writes the plan of an input, and the attack that is found on it.
fn attack_text<K: Sink>(
    alloc: Global,
    numbers: Numbers,
    words: &[String],
    input: &[u8],
    sink: &mut K,
) -> Result<Found, AttackError>
    requires { 1 ≤ numbers.runs }
    ensures { Attacks numbers (map string_bytes words.now) input.now result
        (K.told sink.old) (K.told sink.new) }
{
    let kinds = named_kinds(alloc, words)?;
    let plan = read_any_plan(alloc, input)?;
    let (text, found) = find(alloc, &plan, numbers, &kinds)?;
    write_both(sink, &plan, &text)?;
    Ok(found)
}

/// Reads a plan of either construction, tries attacks on it of the kinds that words name, and
/// writes the plan's text and that of the attack which locks latest. The answer is what is said of
/// the attack.
///
/// The whole source is read first, at most 2^20 bytes. `Boosting` and `Halving` come exactly if it
/// is no plan; `TooLong` only if the byte after the limit was there. `ReadFault` and `WriteFault`
/// come only if the source, before its end, or the sink counted a fault, and `NoMemory` if memory
/// was refused. Nothing was written then, but at `WriteFault` a prefix of the text. `Usage` never
/// comes.
pub fn attack_input<S: Source, K: Sink>(
    alloc: Global,
    numbers: Numbers,
    words: &[String],
    source: &mut S,
    sink: &mut K,
) -> Result<Found, AttackError>
    requires { 1 ≤ numbers.runs }
    ensures attacks { AttacksInput result numbers (map string_bytes words.now)
        (S.left source.old) (S.left source.new) (S.faults source.old) (S.faults source.new)
        (K.told sink.old) (K.told sink.new) }
    // At `ReadFault` the end of the source was not met.
    ensures unmet { IsErrOf result ProgramError.ReadFault → S.met source.new ≡ S.met source.old }
{
    let input = read_all(alloc, source, LONGEST_INPUT)?;
    attack_text(alloc, numbers, words, &input, sink)
}
