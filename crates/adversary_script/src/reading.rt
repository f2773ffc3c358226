ghost use Rattle.std.specs.Prelude.{◌≡◌, ◌≤◌, ◌<◌, ◌+◌, ◌^◌, [], length, IfOk};
ghost use Rattle.texts.specs.Lines.{lines_of};
ghost use Rattle.construction.specs.Plans.{plan_nodes};
ghost use Rattle.state_codec.specs.Shapes.{shape_nodes};
ghost use Rattle.adversary_script.specs.ScriptPart.{IsAnswer, IsAnswerFor, IsScriptForPlan};
ghost use Rattle.adversary_script.specs.ScriptPart.{IsScriptFor};

use crate::script_lines::ScriptLines;
use crate::scripts::Script;
use edge_io::{PartError, Refused, read_part};
use plan_numbers::Plan;
use plan_reader::first_unskipped;
use state_codec::StateShape;
use std::alloc::Global;
use sync_types::Rule;

/// The line of a script that is refused: its number in the whole input, skipped lines counted, and
/// the first rule that it fails. If the part lacks its end, it is the line after the last.
pub type ScriptRefusal = Refused<Rule>;

/// Why a script was not read: its first line that fails, or memory was refused.
pub type ScriptError = PartError<Rule>;

/// Reads a script for a plan, to the end of the input. `shape` is the shape of the states, which
/// has as many nodes as the plan: that of the plan's states, or that with registers of a layer
/// above the counter after them. The first line of `bytes` has the number `first_line`, which is at
/// least 1 and whose sum with the length of `bytes` is below 2^64.
///
/// A script of version 1 has no further eras. `Refused` is the first line that fails, with the
/// first rule that it fails. A script that lacks its `end` is refused `Form` at the line after the
/// last, and so is the first line after `end` that is not skipped. `NoMemory` comes if memory was
/// refused.
pub fn read_script(
    alloc: Global,
    plan: &Plan,
    shape: &StateShape,
    bytes: &[u8],
    first_line: u64,
) -> Result<Script, ScriptError>
    requires shape { shape_nodes shape.now ≡ plan_nodes plan.now }
    requires first { 1 ≤ first_line }
    requires count { first_line + length bytes.now < 2 ^ 64 }
    ensures exact { IsAnswer plan.now shape.now first_line (lines_of bytes.now) result }
    ensures borne { IfOk result (λ script. IsScriptForPlan plan.now shape.now script) }
    ensures eras { IfOk result (λ script. script.version ≡ 1 → script.eras ≡ []) }
{
    read_script_for(alloc, plan.faults(), shape, bytes, first_line)
}

/// Reads a script for the nodes of `shape`, of which at most `faults` may be faulty in an era, as
/// [`read_script`] reads one for a plan.
pub fn read_script_for(
    alloc: Global,
    faults: u32,
    shape: &StateShape,
    bytes: &[u8],
    first_line: u64,
) -> Result<Script, ScriptError>
    requires first { 1 ≤ first_line }
    requires count { first_line + length bytes.now < 2 ^ 64 }
    ensures exact { IsAnswerFor (shape_nodes shape.now) faults shape.now first_line
        (lines_of bytes.now) result }
    ensures borne { IfOk result
        (λ script. IsScriptFor (shape_nodes shape.now) faults shape.now script) }
    ensures eras { IfOk result (λ script. script.version ≡ 1 → script.eras ≡ []) }
{
    shape.facts();
    read_exactly(alloc, faults, shape, &Numbered { bytes, first_line })
}

/// Lines of an input, of which the first has a number.
#[derive(Clone, Copy)]
struct Numbered<'a> {
    bytes: &'a [u8],
    first_line: u64,
    ghost first: { 1 ≤ first_line },
    ghost count: { first_line + length bytes.now < 2 ^ 64 },
}

/// Reads a script, exactly as it is defined.
#[tactic(auto, unfolding(crate::specs::ScriptPart::script_for))]
fn read_exactly(
    alloc: Global,
    faults: u32,
    shape: &StateShape,
    input: &Numbered,
) -> Result<Script, ScriptError>
    ensures { IsAnswerFor (shape_nodes shape.now) faults shape.now input.now.first_line
        (lines_of input.now.bytes.now) result }
{
    let lines = ScriptLines::new(alloc, faults, shape);
    let read = read_part(lines, Rule::Form, input.bytes, input.first_line)?;
    match first_unskipped(&input.bytes[read.bytes..], input.first_line + read.lines) {
        Some(line) => Err(ScriptError::Refused(ScriptRefusal {
            line,
            rule: Rule::Form,
        })),
        None => Ok(read.value),
    }
}
