ghost use Rattle.std.specs.Prelude.{◌≡◌, position, ◌==◌, Ok, MatchOption, MatchResult};
ghost use Rattle.plan_certificate.specs.TableLines.{table_of};
ghost use Rattle.plan_certificate.specs.EndedLines.{HasNoLine, HasFirstLine};
ghost use Rattle.plan_certificate.specs.TableRefusals.{FailsAsDefined, form_at};

use crate::table_refusals::{TableError, TableRefusal};
use crate::table_stages::TableReader;
use edge_io::{LineReader, TakeError};
use plan_numbers::Plan;
use std::alloc::Global;
use sync_types::{Cause, Premise};

const NEWLINE: u8 = b'\n';

/// Where the first newline stands.
fn newline_in(text: &[u8]) -> Option<usize>
    ensures { result ≡ position (λ b. b == 10) text.now }
{
    text.iter().position(|byte| *byte == NEWLINE)
}

/// The first line that ends with a newline, without it, and what stands after that.
fn first_ended(text: &[u8]) -> Option<(&[u8], &[u8])>
    ensures { MatchOption result (HasNoLine text.now) (λ parts. HasFirstLine text.now parts.0.now
        parts.1.now) }
{
    let end = newline_in(text)?;
    Some((&text[..end], &text[end + 1..]))
}

/// The refusal of a line that may not stand there, or is not there.
fn ill_formed(line: u64) -> TableError
    ensures { result ≡ form_at line }
{
    TableError::Refused(TableRefusal {
        line,
        cause: Cause::Premise(Premise::Form),
    })
}

/// Reads a table text: the plan whose table text it is.
///
/// `Refused` is the first line that fails, for the first cause: `Form` if it is not of its shape,
/// lacks its newline or may not stand there, or if the text ends before its `end`; the first
/// premise that a base or a level fails; `Value` if a number is not the one that the plan has.
/// Memory is taken at the base line alone, that of the plan.
pub fn read_table(alloc: Global, bytes: &[u8]) -> Result<Plan, TableError>
    ensures { MatchResult result
        (λ plan. table_of bytes.now ≡ Ok plan)
        (λ error. FailsAsDefined error (table_of bytes.now)) }
{
    let mut reader = TableReader::new(alloc);
    let mut rest = bytes;
    let mut number: u64 = 1;
    while let Some((line, behind)) = first_ended(rest) {
        match reader.take(line) {
            Err(TakeError::Refused(cause)) => {
                return Err(TableError::Refused(TableRefusal {
                    line: number,
                    cause,
                }));
            }
            Err(TakeError::NoMemory) => return Err(TableError::NoMemory),
            Ok(Some(plan)) => {
                if behind.is_empty() {
                    return Ok(plan);
                }
                return Err(ill_formed(number + 1));
            }
            Ok(None) => {}
        }
        rest = behind;
        number += 1;
    }
    Err(ill_formed(number))
}
