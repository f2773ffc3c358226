ghost use Rattle.std.specs.Prelude.{◌≡◌, Ok, MatchResult, IfOk};
ghost use Rattle.plan_finder.specs.FindPart.{want_of, IsFit};
ghost use Rattle.edge_io.specs.Taking.{FailsAsDefined};

use crate::want_lines::FindLines;
use crate::wants::Want;
use edge_io::{PartError, Refused, read_part};
use plan_reader::first_unskipped;
use sync_types::Rule;

/// The line of a find part that is refused: its number, from 1, skipped lines counted, and the
/// first rule that it fails. If the part lacks its end, it is the line after the last.
pub type FindRefusal = Refused<Rule>;

/// Why a find part was not read: its first line that fails, or memory was refused.
pub type FindError = PartError<Rule>;

/// Reads the whole of an input as a find part, after which only skipped lines stand. What is read
/// meets the conditions of [`crate::find`].
///
/// `Refused` is the first line that fails, with the first rule that it fails: `Form`, `Limit` above
/// 85 faults, a modulus of 2^40 or 256 nodes, `Range` below a modulus of 2 or one node. A part that
/// lacks its `end` is refused `Form` at the line after the last, and so is the first line after
/// `end` that is not skipped. It takes no memory.
pub fn read_find(bytes: &[u8]) -> Result<Want, FindError>
    ensures exact { MatchResult result
        (λ want. want_of bytes.now ≡ Ok want)
        (λ error. FailsAsDefined error (want_of bytes.now)) }
    ensures fits { IfOk result (λ want. IsFit want) }
{
    let read = read_part(FindLines::new(), Rule::Form, bytes, 1)?;
    match first_unskipped(&bytes[read.bytes..], 1 + read.lines) {
        Some(line) => Err(FindError::Refused(FindRefusal {
            line,
            rule: Rule::Form,
        })),
        None => Ok(read.value),
    }
}
