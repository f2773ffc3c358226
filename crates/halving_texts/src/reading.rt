ghost use Rattle.std.specs.Prelude.{◌≡◌, ◌≤◌, length, Ok, MatchResult, IfOk};
ghost use Rattle.halving_texts.specs.HalvingPart.{found_in, halving_of, whole_halving_of};
ghost use Rattle.halving_texts.specs.HalvingRefusals.{FailsAsDefined};

use crate::premises::LinePremise;
use crate::refusals::{HalvingError, HalvingRefusal};
use crate::stages::HalvingLines;
use edge_io::read_part;
use halving_plan::HalvingPlan;
use plan_reader::first_unskipped;

/// Reads the halving plan at the beginning of an input: the plan, how many bytes stand through its
/// `end` line, that line's newline among them, and how many lines these are, skipped ones counted.
///
/// `Refused` is the first line that fails with the first premise that it fails. A part that lacks
/// its `end` is refused `Form` at the line after the last.
pub fn read_halving(bytes: &[u8]) -> Result<(HalvingPlan, usize, u64), HalvingError>
    ensures exact { MatchResult result
        (λ read. halving_of bytes.now ≡ Ok (found_in bytes.now read))
        (λ error. FailsAsDefined error (halving_of bytes.now)) }
    ensures within { IfOk result (λ read. read.1 ≤ length bytes.now) }
    ensures lines { IfOk result (λ read. read.2 ≤ read.1) }
{
    let read = read_part(HalvingLines::new(), LinePremise::Form, bytes, 1)?;
    Ok((read.value, read.bytes, read.lines))
}

/// Reads the whole of an input as a halving plan, after which only skipped lines stand.
///
/// `Refused` is as in [`read_halving`]; the first line after `end` that is not skipped is refused
/// `Form`.
pub fn read_whole_halving(bytes: &[u8]) -> Result<HalvingPlan, HalvingError>
    ensures { MatchResult result
        (λ plan. whole_halving_of bytes.now ≡ Ok plan)
        (λ error. FailsAsDefined error (whole_halving_of bytes.now)) }
{
    let (plan, taken, lines) = read_halving(bytes)?;
    match first_unskipped(&bytes[taken..], 1 + lines) {
        Some(line) => Err(HalvingError::Refused(HalvingRefusal {
            line,
            premise: LinePremise::Form,
        })),
        None => Ok(plan),
    }
}
