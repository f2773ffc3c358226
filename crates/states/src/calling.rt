//! Reads an input, and writes the other line of each of its states.

ghost use Rattle.std.specs.Prelude.{◌≡◌, ◌≤◌, Ok, length, IfErr, IfOk, IsErrOf};
ghost use Rattle.plan_reader.specs.PlanPart.{found_in, plan_of};
ghost use Rattle.program_words.specs.Conduct.{Answers, FailsAs};
ghost use Rattle.states.specs.Conduct.{TurnsInput};
ghost use Rattle.states.specs.Inputs.{layer_from, plan_read, states_text};
ghost use Rattle.states.specs.Turned.{states_turned};
ghost use Rattle.states.specs.Values.{IsLayer};

use crate::faults::TurnError;
use crate::layers::{Layer, read_layer};
use crate::reasons::{StateError, StateReason};
use crate::turning::turn;
use crate::writing::push_text;
use edge_io::{Lines, Sink, Source, is_skipped, put_all, read_all};
use plan_numbers::Plan;
use plan_reader::{PlanError, read_plan};
use program_words::ProgramError;
use state_codec::StateShape;
use std::alloc::Global;
use texts::LONGEST_INPUT;

/// Turns the lines after a plan. So many of those that count stand before the first state.
fn turn_lines(
    alloc: Global,
    shape: &StateShape,
    lines: Lines<'_>,
    before: usize,
) -> Result<Vec<u8>, StateError>
    ensures text { IfOk result
        (λ text. states_turned shape.now before lines.entry ≡ Ok text.items) }
    ensures fails { IfErr result (FailsAs (states_turned shape.now before lines.entry)) }
{
    let mut out = Vec::new(alloc);
    let mut left = before;
    for (number, line) in lines {
        if is_skipped(line) {
            continue;
        }
        if left > 0 {
            left -= 1;
            continue;
        }
        match turn(alloc, shape, line, &mut out) {
            Ok(()) => push_text(b"\n", &mut out)?,
            Err(TurnError::Refused(fault)) => {
                return Err(ProgramError::Refused(StateReason::Line(number, fault)));
            }
            Err(TurnError::NoMemory) => return Err(ProgramError::NoMemory),
        }
    }
    Ok(out)
}

/// The plan at the beginning of an input, how many bytes it has, and how many lines.
fn read_front(alloc: Global, input: &[u8]) -> Result<(Plan, usize, u64), StateError>
    ensures read { IfOk result (λ read. plan_of input.now ≡ Ok (found_in input.now read)) }
    ensures within { IfOk result (λ read. read.1 ≤ length input.now) }
    ensures lines { IfOk result (λ read. read.2 ≤ read.1) }
    ensures fails { IfErr result (FailsAs (plan_read (plan_of input.now))) }
{
    match read_plan(alloc, input) {
        Ok(read) => Ok(read),
        Err(PlanError::Refused(refusal)) => Err(ProgramError::Refused(StateReason::Plan(refusal))),
        Err(PlanError::NoMemory) => Err(ProgramError::NoMemory),
    }
}

/// The layer that the lines of values after a plan say.
fn read_values(lines: Lines<'_>) -> Result<Layer, StateError>
    ensures read { IfOk result (λ layer. layer_from lines.entry ≡ Ok layer) }
    ensures range { IfOk result IsLayer }
    ensures fails { IfErr result (FailsAs (layer_from lines.entry)) }
{
    match read_layer(lines) {
        Ok(layer) => Ok(layer),
        Err(refused) => Err(ProgramError::Refused(StateReason::Values(refused))),
    }
}

/// The other lines of all states of an input.
pub fn turned(alloc: Global, input: &[u8]) -> Result<Vec<u8>, StateError>
    ensures text { IfOk result (λ text. states_text input.now ≡ Ok text.items) }
    ensures fails { IfErr result (FailsAs (states_text input.now)) }
{
    let (plan, taken, lines) = read_front(alloc, input)?;
    let text = &input[taken..];
    let layer = read_values(Lines::new(text, 1 + lines))?;
    let shape = StateShape::with_registers(alloc, &plan, layer.values, layer.registers)?;
    let lines = Lines::new(text, 1 + lines);
    turn_lines(alloc, &shape, lines, layer.registers)
}

/// Writes the other lines of all states of an input.
fn turn_text<K: Sink>(alloc: Global, input: &[u8], sink: &mut K) -> Result<(), StateError>
    ensures { Answers (states_text input.now) result (K.told sink.old) (K.told sink.new) }
{
    let text = turned(alloc, input)?;
    Ok(put_all(sink, &text)?)
}

/// Reads a plan, lines of values and lines of states, and writes the other line of each state.
///
/// The whole source is read first, at most 2^20 bytes. `Plan`, `Values` and `Line` come exactly at
/// the first line that fails, of the plan, of the values and of the states; `TooLong` only if the
/// byte after the limit was there. `ReadFault` and `WriteFault` come only if the source, before its
/// end, or the sink counted a fault, and `NoMemory` if memory was refused. Nothing was written
/// then, but at `WriteFault` a prefix of the text. `Usage` never comes.
pub fn turn_input<S: Source, K: Sink>(
    alloc: Global,
    source: &mut S,
    sink: &mut K,
) -> Result<(), StateError>
    ensures turns { TurnsInput result
        (S.left source.old) (S.left source.new) (S.faults source.old) (S.faults source.new)
        (K.told sink.old) (K.told sink.new) }
    // At `ReadFault` the end of the source was not met.
    ensures unmet { IsErrOf result ProgramError.ReadFault → S.met source.new ≡ S.met source.old }
{
    let input = read_all(alloc, source, LONGEST_INPUT)?;
    turn_text(alloc, &input, sink)
}
