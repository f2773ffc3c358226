ghost use Rattle.std.specs.Prelude.{◌≤◌, ◌<◌, ◌+◌, ◌^◌, length, IfOk};
ghost use Rattle.slot_table.specs.SlotAnswers.{IsAnswer, IsAnswerFor};

use crate::slot_lines::SlotLines;
use crate::tables::SlotTable;
use edge_io::{PartError, Refused, read_part};
use plan_numbers::Plan;
use std::alloc::Global;
use sync_types::Rule;

/// The line of a slots part that is refused: its number in the whole input, skipped lines counted,
/// and the first rule that it fails. If the part lacks its end, it is the line after the last.
pub type SlotRefusal = Refused<Rule>;

/// Why a slots part was not read: its first line that fails, or memory was refused.
pub type SlotError = PartError<Rule>;

/// Reads the slots part at the beginning of an input: the table for so many nodes and outputs below
/// that modulus, how many bytes there are through the part's `end` line, that line's newline
/// included, and how many lines these are, skipped ones counted. The first line of `bytes` has the
/// number `first_line`, which is at least 1 and whose sum with the length of `bytes` is below 2^64.
///
/// `Refused` is the first line that fails, with the first rule that it fails: `Form`, `Limit` for
/// the 257th line, `Node` for an id that is not that of a node, `Range` for outputs that end before
/// they begin or are not below the modulus, `Overlap` for an output that stands in an earlier line.
/// A part that lacks its `end` is refused `Form` at the line after the last. `NoMemory` comes if
/// memory was refused.
pub fn read_slots_for(
    alloc: Global,
    nodes: u32,
    modulus: u64,
    bytes: &[u8],
    first_line: u64,
) -> Result<(SlotTable, usize, u64), SlotError>
    requires first { 1 ≤ first_line }
    requires count { first_line + length bytes.now < 2 ^ 64 }
    ensures exact { IsAnswerFor nodes modulus first_line bytes.now result }
    ensures within { IfOk result (λ read. read.1 ≤ length bytes.now) }
    ensures lines { IfOk result (λ read. read.2 ≤ read.1) }
{
    let lines = SlotLines::new(alloc, nodes, modulus);
    let read = read_part(lines, Rule::Form, bytes, first_line)?;
    Ok((read.value, read.bytes, read.lines))
}

/// Reads the slots part at the beginning of an input for the nodes and outputs of a plan, as
/// [`read_slots_for`] does.
pub fn read_slots(
    alloc: Global,
    plan: &Plan,
    bytes: &[u8],
    first_line: u64,
) -> Result<(SlotTable, usize, u64), SlotError>
    requires first { 1 ≤ first_line }
    requires count { first_line + length bytes.now < 2 ^ 64 }
    ensures exact { IsAnswer plan.now first_line bytes.now result }
    ensures within { IfOk result (λ read. read.1 ≤ length bytes.now) }
    ensures lines { IfOk result (λ read. read.2 ≤ read.1) }
{
    read_slots_for(alloc, plan.nodes(), plan.modulus(), bytes, first_line)
}
