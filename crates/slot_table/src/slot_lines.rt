ghost use Rattle.std.specs.Prelude.{◌≡◌};
ghost use Rattle.slot_table.specs.Tables.{meets};
ghost use Rattle.slot_table.specs.SlotPart.{no_lines, line_in};

use crate::lines::SlotLine;
use crate::tables::SlotTable;
use edge_io::{LineReader, TakeError, numbers_after};
use std::alloc::Global;
use std::marker::Model;
use std::mem;
use sync_types::Rule;

/// The most lines that a table may have.
const MOST_LINES: usize = 256;

/// Reads the lines of a slots part that count.
#[derive(Drop)]
pub struct SlotLines {
    alloc: Global,
    nodes: u32,
    modulus: u64,
    begun: bool,
    lines: Vec<SlotLine>,
}

impl Model for SlotLines {
    ghost use Rattle.slot_table.specs.Tables.{AreApart};
    ghost use Rattle.slot_table.specs.SlotPart.{SlotsSoFar};

    ghost Value = { SlotsSoFar };

    ghost view = { λ l. record {
      nodes = l.nodes;
      modulus = l.modulus;
      begun = l.begun;
      lines = l.lines.items;
    } };

    ghost invariant = { λ l. AreApart l.lines.items };
}

impl SlotLines {
    ghost use Rattle.std.specs.List.{list_any};

    /// A reader of a part of which nothing was read, for so many nodes and outputs below that
    /// modulus.
    pub fn new(alloc: Global, nodes: u32, modulus: u64) -> SlotLines
        ensures { result ≡ no_lines nodes modulus }
    {
        SlotLines {
            alloc,
            nodes,
            modulus,
            begun: false,
            lines: Vec::new(alloc),
        }
    }

    /// Whether one of the outputs from the first to the last stands in a line that was read.
    fn overlaps(&self, first: u64, last: u64) -> bool
        ensures { result ≡ list_any (meets first last) self.now.lines }
    {
        self.lines
            .iter()
            .any(|line| line.first <= last && first <= line.last)
    }

    /// The line that these words are, or the first rule that it fails.
    fn line(&self, line: &[u8]) -> Result<SlotLine, Rule>
        ensures { result ≡ line_in self.now line.now }
    {
        let Some(numbers) = numbers_after::<3>(line, b"slot") else {
            return Err(Rule::Form);
        };
        if self.lines.len() >= MOST_LINES {
            return Err(Rule::Limit);
        }
        if numbers[0] >= u64::from(self.nodes) {
            return Err(Rule::Node);
        }
        if numbers[1] > numbers[2] || numbers[2] >= self.modulus {
            return Err(Rule::Range);
        }
        if self.overlaps(numbers[1], numbers[2]) {
            return Err(Rule::Overlap);
        }
        Ok(SlotLine {
            node: numbers[0] as u32,
            first: numbers[1],
            last: numbers[2],
        })
    }
}

impl LineReader for SlotLines {
    type Value = SlotTable;

    type Rule = Rule;

    ghost use Rattle.slot_table.specs.SlotPart.{slots_step};

    ghost step = { slots_step };

    fn take(&mut self, line: &[u8]) -> Result<Option<SlotTable>, TakeError<Rule>> {
        if !self.begun {
            if line != b"slots 1".as_slice() {
                return Err(TakeError::Refused(Rule::Form));
            }
            self.begun = true;
            return Ok(None);
        }
        if line == b"end".as_slice() {
            let lines = mem::replace(&mut self.lines, Vec::new(self.alloc));
            return Ok(Some(SlotTable { lines }));
        }
        let slot = match self.line(line) {
            Ok(slot) => slot,
            Err(rule) => return Err(TakeError::Refused(rule)),
        };
        self.lines.push(slot)?;
        Ok(None)
    }
}
