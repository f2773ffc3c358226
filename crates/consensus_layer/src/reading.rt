ghost use Rattle.std.specs.Prelude.{◌≤◌, ◌<◌, ◌+◌, ◌^◌, length, IfOk};
ghost use Rattle.consensus_layer.specs.AgreeAnswers.{IsAnswer, IsAnswerOver};

use crate::agree_lines::AgreeLines;
use crate::agreement::Agreement;
use edge_io::{PartError, Refused, read_part};
use layer_laws::CounterNumbers;
use plan_numbers::Plan;
use std::alloc::Global;
use sync_types::Rule;

/// The line of an agree part that is refused: its number in the whole input, skipped lines counted,
/// and the first rule that it fails. If the part lacks its end, it is the line after the last.
pub type AgreeRefusal = Refused<Rule>;

/// Why an agree part was not read: its first line that fails, or memory was refused.
pub type AgreeError = PartError<Rule>;

/// Reads the agree part at the beginning of an input: consensus on a counter of these numbers as it
/// says, with 0 as each node's decision, how many bytes there are through the part's `end` line,
/// that line's newline included, and how many lines these are, skipped ones counted. The first line
/// of `bytes` has the number `first_line`, which is at least 1 and whose sum with the length of
/// `bytes` is below 2^64.
///
/// `Refused` is the first line that fails, with the first rule that it fails: `Form`, also for
/// inputs that are not as many as the nodes, `Limit` above 65536 values, `Range` below two values
/// or for an input that is not below them, `Slot` on the first line if the modulus is no multiple
/// of a slot's length. A part that lacks its `end` is refused `Form` at the line after the last.
/// `NoMemory` comes if memory was refused.
pub fn read_agree_over(
    alloc: Global,
    numbers: &CounterNumbers,
    bytes: &[u8],
    first_line: u64,
) -> Result<(Agreement, usize, u64), AgreeError>
    requires first { 1 ≤ first_line }
    requires count { first_line + length bytes.now < 2 ^ 64 }
    ensures exact { IsAnswerOver numbers.now first_line bytes.now result }
    ensures within { IfOk result (λ read. read.1 ≤ length bytes.now) }
    ensures lines { IfOk result (λ read. read.2 ≤ read.1) }
{
    let read = read_part(
        AgreeLines::new(alloc, numbers),
        Rule::Form,
        bytes,
        first_line,
    )?;
    let agreement = Agreement::new(alloc, numbers, read.value)?;
    Ok((agreement, read.bytes, read.lines))
}

/// Reads the agree part at the beginning of an input, as [`read_agree_over`] does, for the counter
/// of a plan.
pub fn read_agree(
    alloc: Global,
    plan: &Plan,
    bytes: &[u8],
    first_line: u64,
) -> Result<(Agreement, usize, u64), AgreeError>
    requires first { 1 ≤ first_line }
    requires count { first_line + length bytes.now < 2 ^ 64 }
    ensures exact { IsAnswer plan.now first_line bytes.now result }
    ensures within { IfOk result (λ read. read.1 ≤ length bytes.now) }
    ensures lines { IfOk result (λ read. read.2 ≤ read.1) }
{
    read_agree_over(alloc, &CounterNumbers::of(plan), bytes, first_line)
}
