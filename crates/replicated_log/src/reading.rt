ghost use Rattle.std.specs.Prelude.{◌≤◌, ◌<◌, ◌+◌, ◌^◌, length, IfOk};
ghost use Rattle.replicated_log.specs.LogReadings.{IsAnswerOver, IsAnswer};

use crate::log_lines::LogLines;
use crate::replica::Replica;
use edge_io::{PartError, Refused, read_part};
use layer_laws::CounterNumbers;
use plan_numbers::Plan;
use std::alloc::Global;
use sync_types::Rule;

/// The line of a log part that is refused: its number in the whole input, skipped lines counted,
/// and the first rule that it fails. If the part lacks its end, it is the line after the last.
pub type LogRefusal = Refused<Rule>;

/// Why a log part was not read: its first line that fails, or memory was refused.
pub type LogError = PartError<Rule>;

/// Reads the log part at the beginning of an input: the log over a counter that it says, with
/// nothing in it, how many bytes there are through the part's `end` line, that line's newline
/// included, and how many lines these are, skipped ones counted. The first line of `bytes` has the
/// number `first_line`, which is at least 1 and whose sum with the length of `bytes` is below 2^64.
///
/// `Refused` is the first line that fails, with the first rule that it fails: `Form`, `Limit` above
/// 65536 values, 1024 entries or 16 commands of a node, `Node` if the commands are not those of the
/// next node, `Range` below two values or one entry, or for a command that is not below the values,
/// `Slot` on the first line if the counter's modulus is no multiple of an entry of each node. A
/// part that lacks its `end` is refused `Form` at the line after the last. `NoMemory` comes if
/// memory was refused.
pub fn read_log_over(
    alloc: Global,
    numbers: &CounterNumbers,
    bytes: &[u8],
    first_line: u64,
) -> Result<(Replica, usize, u64), LogError>
    requires first { 1 ≤ first_line }
    requires count { first_line + length bytes.now < 2 ^ 64 }
    ensures exact { IsAnswerOver numbers.now first_line bytes.now result }
    ensures within { IfOk result (λ read. read.1 ≤ length bytes.now) }
    ensures lines { IfOk result (λ read. read.2 ≤ read.1) }
{
    let read = read_part(LogLines::new(alloc, numbers), Rule::Form, bytes, first_line)?;
    let replica = Replica::new(alloc, numbers, read.value)?;
    Ok((replica, read.bytes, read.lines))
}

/// Reads the log part for a plan's counter, as [`read_log_over`] does.
pub fn read_log(
    alloc: Global,
    plan: &Plan,
    bytes: &[u8],
    first_line: u64,
) -> Result<(Replica, usize, u64), LogError>
    requires first { 1 ≤ first_line }
    requires count { first_line + length bytes.now < 2 ^ 64 }
    ensures exact { IsAnswer plan.now first_line bytes.now result }
    ensures within { IfOk result (λ read. read.1 ≤ length bytes.now) }
    ensures lines { IfOk result (λ read. read.2 ≤ read.1) }
{
    plan.facts();
    read_log_over(alloc, &CounterNumbers::of(plan), bytes, first_line)
}
