ghost use Rattle.std.specs.Prelude.{◌≤◌, ◌<◌, ◌+◌, ◌^◌, length, IfOk};
ghost use Rattle.firing.specs.FireAnswers.{IsAnswerOver, IsAnswer};

use crate::fire_lines::FireLines;
use crate::firing::Firing;
use edge_io::{PartError, Refused, read_part};
use layer_laws::CounterNumbers;
use plan_numbers::Plan;
use std::alloc::Global;
use sync_types::Rule;

/// The line of a fire part that is refused: its number in the whole input, skipped lines counted,
/// and the first rule that it fails. If the part lacks its end, it is the line after the last.
pub type FireRefusal = Refused<Rule>;

/// Why a fire part was not read: its first line that fails, or memory was refused.
pub type FireError = PartError<Rule>;

/// Reads the fire part at the beginning of an input: the firing over a counter that it says, of
/// which nothing was played, how many bytes there are through the part's `end` line, that line's
/// newline included, and how many lines these are, skipped ones counted. The first line of `bytes`
/// has the number `first_line`, which is at least 1 and whose sum with the length of `bytes` is
/// below 2^64.
///
/// `Refused` is the first line that fails, with the first rule that it fails: `Form`, `Limit` for
/// the 257th request, `Node` for an id that is not that of a node, `Range` for a request that ends
/// before it begins, `Slot` on the first line if the counter's modulus is no multiple of a slot's
/// length. A part that lacks its `end` is refused `Form` at the line after the last. `NoMemory`
/// comes if memory was refused.
pub fn read_fire_over(
    alloc: Global,
    numbers: &CounterNumbers,
    bytes: &[u8],
    first_line: u64,
) -> Result<(Firing, usize, u64), FireError>
    requires first { 1 ≤ first_line }
    requires count { first_line + length bytes.now < 2 ^ 64 }
    ensures exact { IsAnswerOver numbers.now first_line bytes.now result }
    ensures within { IfOk result (λ read. read.1 ≤ length bytes.now) }
    ensures lines { IfOk result (λ read. read.2 ≤ read.1) }
{
    let read = read_part(
        FireLines::new(alloc, numbers),
        Rule::Form,
        bytes,
        first_line,
    )?;
    let firing = Firing::new(alloc, numbers, read.value)?;
    Ok((firing, read.bytes, read.lines))
}

/// Reads the fire part for a plan's counter, as [`read_fire_over`] does.
pub fn read_fire(
    alloc: Global,
    plan: &Plan,
    bytes: &[u8],
    first_line: u64,
) -> Result<(Firing, usize, u64), FireError>
    requires first { 1 ≤ first_line }
    requires count { first_line + length bytes.now < 2 ^ 64 }
    ensures exact { IsAnswer plan.now first_line bytes.now result }
    ensures within { IfOk result (λ read. read.1 ≤ length bytes.now) }
    ensures lines { IfOk result (λ read. read.2 ≤ read.1) }
{
    read_fire_over(alloc, &CounterNumbers::of(plan), bytes, first_line)
}
