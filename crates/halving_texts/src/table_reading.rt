ghost use Rattle.std.specs.Prelude.{◌≡◌, Ok, IfOk, IfErr, MatchResult};
ghost use Rattle.texts.specs.Lines.{lines_of, words_of};
ghost use Rattle.halving_texts.specs.Reading.{plan_with, stated_by, stated_in, table_of, unstated};
ghost use Rattle.halving_texts.specs.Reading.{FailsAsDefined};
ghost use Rattle.halving_texts.specs.Tables.{table_text};
ghost use Rattle.halving_texts.specs.declared.table_reading.TableError.TheVariants as table;

use crate::buffers::TextBuffer;
use crate::differences::differs_at;
use crate::table_writing::write_table;
use edge_io::{Words, WriteFault, first_line, number};
use halving_plan::HalvingPlan;
use std::alloc::Global;
use thiserror::Error;

/// Why a table was not read.
#[derive(Clone, Copy, Debug, PartialEq, Eq, Error)]
pub enum TableError {
    /// The text is no table: its first line that differs, from 1.
    #[error("line {0} of the table differs")]
    Differs(u64),
    /// Memory was refused.
    #[error("out of memory")]
    NoMemory,
}

/// The accepted plan of these numbers.
fn plan_with(nodes: u64, faults: u64, modulus: u64) -> Option<HalvingPlan>
    ensures { result ≡ plan_with nodes faults modulus }
{
    match HalvingPlan::new(nodes, faults, modulus) {
        Ok(plan) => Some(plan),
        Err(_) => None,
    }
}

/// The plan that a table's second line states.
fn stated_by(line: &[u8]) -> Option<HalvingPlan>
    ensures { result ≡ stated_by (words_of line.now) }
{
    let mut words = Words::new(line);
    words.next()?;
    words.next()?;
    let nodes = words.next()?;
    words.next()?;
    let faults = words.next()?;
    words.next()?;
    let modulus = words.next()?;
    plan_with(number(nodes)?, number(faults)?, number(modulus)?)
}

/// The plan that a table's second line states, if it has one.
fn stated_in(text: &[u8]) -> Option<HalvingPlan>
    ensures { result ≡ stated_in (lines_of text.now) }
{
    if text.is_empty() {
        return None;
    }
    let (_, behind) = first_line(text);
    if behind.is_empty() {
        return None;
    }
    let (second, _) = first_line(behind);
    stated_by(second)
}

/// The first line of a text that differs from each table, if its second line states no plan.
fn unstated(text: &[u8]) -> u64
    ensures { result ≡ unstated text.now }
{
    if text.starts_with(b"table halving 1\n") {
        2
    } else {
        1
    }
}

/// The table of a plan, in memory.
fn table_in(alloc: Global, plan: &HalvingPlan) -> Result<TextBuffer, TableError>
    ensures table { IfOk result (λ buffer. buffer.taken ≡ table_text plan.now) }
    ensures memory { IfErr result (λ error. error ≡ table.NoMemory) }
{
    let mut buffer = TextBuffer::new(alloc);
    match write_table(plan, &mut buffer) {
        Ok(()) => Ok(buffer),
        Err(WriteFault) => Err(TableError::NoMemory),
    }
}

/// Reads a table: the plan whose table it is.
///
/// `Differs` is the first line that differs from the table of the plan that the second line states,
/// or from each table if it states none. `NoMemory` comes if memory was refused.
pub fn read_table(alloc: Global, text: &[u8]) -> Result<HalvingPlan, TableError>
    ensures { MatchResult result
        (λ plan. table_of text.now ≡ Ok plan)
        (λ error. FailsAsDefined error (table_of text.now)) }
{
    let Some(plan) = stated_in(text) else {
        return Err(TableError::Differs(unstated(text)));
    };
    let table = table_in(alloc, &plan)?;
    match differs_at(text, table.taken()) {
        None => Ok(plan),
        Some(line) => Err(TableError::Differs(line)),
    }
}
