//! Inputs of a plan, a part for the plan's counter, and a script for both.

ghost use Rattle.std.specs.Prelude.{◌≡◌, MatchResult, IfOk, IfSome};
ghost use Rattle.layer_parts.specs.CounterParts.{AreFew};
ghost use Rattle.outcomes.specs.Layered.{shape_for, layered_by};
ghost use Rattle.answers.specs.LayeredReads.{IsLayered};
ghost use Rattle.answers.specs.Readings.{Refuses};

use crate::errors::{Unanswered, unread};
use adversary_script::{Script, read_script};
use layer_laws::CounterNumbers;
use layer_parts::{CounterPart, Registers};
use plan_numbers::Plan;
use plan_reader::read_plan;
use state_codec::StateShape;
use std::alloc::Global;
use sync_types::{NoMemory, Part};

/// What is to be played: a plan, the shape of the states, and a script for both.
#[derive(Drop)]
pub struct ToPlay {
    /// The plan.
    pub plan: Plan,
    /// The shape of its states, with the registers of a part after the plan's.
    pub shape: StateShape,
    /// The script.
    pub script: Script,
}

/// The shape of a plan's states, with these registers after the plan's.
fn shape_for(
    alloc: Global,
    plan: &Plan,
    registers: Option<Registers>,
) -> Result<StateShape, NoMemory>
    requires { IfSome registers AreFew }
    ensures { IfOk result (λ shape. shape ≡ shape_for plan.now registers) }
{
    match registers {
        None => StateShape::of(alloc, plan),
        Some(more) => StateShape::with_registers(alloc, plan, more.values, more.count),
    }
}

/// What the part of an input says, and what is to be played with it.
pub fn read_layered<P: CounterPart>(alloc: Global, input: &[u8]) -> Result<(P, ToPlay), Unanswered>
    ensures { MatchResult result
        (λ read. IsLayered P.NAME P.said_in P.registers P.is_made input.now read.0 read.1)
        (λ error. Refuses error (layered_by P.NAME P.said_in P.registers input.now)) }
{
    let (plan, bytes, lines) = read_plan(alloc, input)?;
    let behind = &input[bytes..];
    let numbers = CounterNumbers::of(&plan);
    let (part, part_bytes, part_lines) = match P::read(alloc, &numbers, behind, 1 + lines) {
        Ok(read) => read,
        Err(error) => return Err(unread(P::NAME, error)),
    };
    let shape = shape_for(alloc, &plan, part.registers())?;
    let first = 1 + lines + part_lines;
    let script = match read_script(alloc, &plan, &shape, &behind[part_bytes..], first) {
        Ok(script) => script,
        Err(error) => return Err(unread(Part::Script, error)),
    };
    Ok((
        part,
        ToPlay {
            plan,
            shape,
            script,
        },
    ))
}
