ghost use Rattle.std.specs.Prelude.{◌≡◌, ◌≤◌, ◌<◌, ◌+◌, ◌^◌, length, MatchResult};
ghost use Rattle.texts.specs.Lines.{lines_of};
ghost use Rattle.state_codec.specs.Shapes.{shape_nodes};
ghost use Rattle.halving_runs.specs.LayerInputs.{numbers_of, layered_by, slotted_of};
ghost use Rattle.halving_runs.specs.LayerReadings.{IsLayered};
ghost use Rattle.halving_runs.specs.Readings.{IsReadBehind, FailsBehind, IsReadAs, IsSlotted};
ghost use Rattle.halving_runs.specs.Readings.{Refuses, FailsToRead};

use crate::errors::{PlayError, unread};
use crate::layer_shapes::shape_for;
use adversary_script::{Script, read_script_for};
use halving_plan::{HalvingMachine, HalvingPlan};
use halving_texts::{read_halving, shape_of};
use layer_laws::CounterNumbers;
use layer_parts::CounterPart;
use slot_table::{SlotTable, read_slots_for};
use state_codec::StateShape;
use std::alloc::Global;
use sync_types::Part;

/// What is to be played: the machine of a plan, the shape of its states, and a script for it.
pub type Scripted = (HalvingMachine, StateShape, Script);

/// The machine of a plan, the shape of states, and the script for such states in these lines, the
/// first of which has the number `first_line`. The shape is one of the plan's nodes.
fn read_behind(
    alloc: Global,
    plan: HalvingPlan,
    shape: StateShape,
    bytes: &[u8],
    first_line: u64,
) -> Result<Scripted, PlayError>
    requires nodes { shape_nodes shape ≡ plan.nodes }
    requires first { 1 ≤ first_line }
    requires count { first_line + length bytes.now < 2 ^ 64 }
    ensures { MatchResult result (IsReadBehind plan shape first_line (lines_of bytes.now))
        (FailsBehind plan shape first_line (lines_of bytes.now)) }
{
    let script = match read_script_for(alloc, plan.faults(), &shape, bytes, first_line) {
        Ok(script) => script,
        Err(error) => return Err(unread(Part::Script, error)),
    };
    let machine = HalvingMachine::new(alloc, plan)?;
    Ok((machine, shape, script))
}

/// Reads an input as a halving plan and a script for it: the plan's machine, the shape of its states,
/// and the script.
///
/// `Refused` names the first line that fails, and why. `NoMemory` comes if memory was refused, and
/// `WriteFault` never.
pub fn read_scripted(alloc: Global, input: &[u8]) -> Result<Scripted, PlayError>
    ensures { MatchResult result (IsReadAs input.now) (FailsToRead input.now) }
{
    let (plan, bytes, lines) = read_halving(input)?;
    plan.facts();
    let shape = shape_of(alloc, &plan)?;
    match read_behind(alloc, plan, shape, &input[bytes..], 1 + lines) {
        Ok(scripted) => Ok(scripted),
        Err(error) => Err(error),
    }
}

/// The slot table after the plan of an input, the plan's machine, the shape of its states, and the
/// script after the table.
pub(crate) fn read_slotted(alloc: Global, input: &[u8]) -> Result<(SlotTable, Scripted), PlayError>
    ensures { MatchResult result (IsSlotted input.now)
        (λ error. Refuses error (slotted_of input.now)) }
{
    let (plan, bytes, lines) = read_halving(input)?;
    plan.facts();
    let behind = &input[bytes..];
    let (nodes, modulus) = (plan.nodes(), plan.modulus());
    let (table, taken, part_lines) = match read_slots_for(
        alloc,
        nodes,
        modulus,
        behind,
        1 + lines,
    ) {
        Ok(read) => read,
        Err(error) => return Err(unread(Part::Slots, error)),
    };
    let shape = shape_of(alloc, &plan)?;
    match read_behind(alloc, plan, shape, &behind[taken..], 1 + lines + part_lines) {
        Ok(scripted) => Ok((table, scripted)),
        Err(error) => Err(error),
    }
}

/// The numbers of a plan's counter.
pub(crate) fn numbers_of(plan: &HalvingPlan) -> CounterNumbers
    ensures { result ≡ numbers_of plan.now }
{
    plan.facts();
    CounterNumbers::new(plan.nodes(), plan.faults(), plan.modulus(), plan.depth())
}

/// What the part after the plan of an input says, the plan's machine, the shape of its states with
/// the registers that the part asks for, and the script after the part.
pub(crate) fn read_layered<P: CounterPart>(
    alloc: Global,
    input: &[u8],
) -> Result<(P, Scripted), PlayError>
    ensures { MatchResult result
        (IsLayered P.NAME P.said_in P.registers P.fits P.is_made input.now)
        (λ error. Refuses error (layered_by P.NAME P.said_in P.registers input.now)) }
{
    let (plan, bytes, lines) = read_halving(input)?;
    plan.facts();
    let behind = &input[bytes..];
    let numbers = numbers_of(&plan);
    let (part, taken, part_lines) = match P::read(alloc, &numbers, behind, 1 + lines) {
        Ok(read) => read,
        Err(error) => return Err(unread(P::NAME, error)),
    };
    let shape = shape_for(alloc, &plan, part.registers())?;
    match read_behind(alloc, plan, shape, &behind[taken..], 1 + lines + part_lines) {
        Ok(scripted) => Ok((part, scripted)),
        Err(error) => Err(error),
    }
}
