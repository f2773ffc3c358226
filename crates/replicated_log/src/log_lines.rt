ghost use Rattle.std.specs.Prelude.{◌≡◌};
ghost use Rattle.replicated_log.specs.EntryLength.{entry_length};
ghost use Rattle.replicated_log.specs.LogPart.{nothing_read_over, end_step};

use crate::command_lines::read_commands;
use crate::commands::Commands;
use crate::log_parts::LogPart;
use consensus_layer::{head_tested, number_within, slot_length};
use edge_io::{LineReader, TakeError};
use layer_laws::CounterNumbers;
use std::alloc::Global;
use std::marker::Model;
use std::mem;
use sync_types::Rule;

/// The most values that there may be.
const MOST_VALUES: u64 = 65536;

/// The most entries that a log may keep.
const MOST_KEPT: u64 = 1024;

/// How far a log part was read.
#[derive(Clone, Copy, Debug, PartialEq, Eq)]
pub enum LogStage {
    /// No line of it.
    Unread,
    /// Its first line.
    Begun,
    /// Its line of values: how many there are.
    Valued(u64),
    /// Its line of what is kept, after that of values: how many values there are, and how many
    /// entries a log keeps.
    Keeping(u64, usize),
}

/// How many rounds an entry has: one to hear its owner, and a slot.
pub fn entry_length(faults: u32) -> u64
    ensures { result ≡ entry_length faults }
{
    slot_length(faults) + 1
}

/// Reads the lines of a log part that count.
#[derive(Drop)]
pub struct LogLines {
    alloc: Global,
    nodes: u32,
    whole: bool,
    stage: LogStage,
    commands: Vec<Commands>,
}

impl Model for LogLines {
    ghost use Rattle.replicated_log.specs.LogPart.{LogSoFar};

    ghost Value = { LogSoFar };

    ghost view = { λ l. record {
      nodes = l.nodes;
      whole = l.whole;
      stage = l.stage;
      commands = l.commands.items;
    } };
}

impl LogLines {
    ghost use Rattle.edge_io.specs.Taking.{Takes};

    /// A reader of a part of which nothing was read, for the nodes of a counter.
    pub fn new(alloc: Global, numbers: &CounterNumbers) -> LogLines
        ensures { result ≡ nothing_read_over numbers.now }
    {
        numbers.facts();
        let nodes = numbers.nodes();
        let round = u64::from(nodes) * entry_length(numbers.faults());
        LogLines {
            alloc,
            nodes,
            whole: numbers.modulus() % round == 0,
            stage: LogStage::Unread,
            commands: Vec::new(alloc),
        }
    }

    /// Gives what the part says, if each node has its line.
    fn finish(&mut self, values: u64, keep: usize) -> Result<Option<LogPart>, TakeError<Rule>>
        ensures { Takes (end_step values keep self.old) self.new result }
    {
        if self.commands.len() < self.nodes as usize {
            return Err(TakeError::Refused(Rule::Form));
        }
        let commands = mem::replace(&mut self.commands, Vec::new(self.alloc));
        Ok(Some(LogPart {
            values,
            keep,
            commands,
        }))
    }
}

impl LineReader for LogLines {
    type Value = LogPart;

    type Rule = Rule;

    ghost use Rattle.replicated_log.specs.LogPart.{log_step};

    ghost step = { log_step };

    fn take(&mut self, line: &[u8]) -> Result<Option<LogPart>, TakeError<Rule>> {
        match self.stage {
            LogStage::Unread => {
                head_tested(b"log 1", self.whole, line).map_err(TakeError::Refused)?;
                self.stage = LogStage::Begun;
            }
            LogStage::Begun => {
                let values = number_within(b"values", 2, MOST_VALUES, line).map_err(
                    TakeError::Refused,
                )?;
                self.stage = LogStage::Valued(values);
            }
            LogStage::Valued(values) => {
                let keep = number_within(b"keep", 1, MOST_KEPT, line).map_err(TakeError::Refused)?;
                self.stage = LogStage::Keeping(values, keep as usize);
            }
            LogStage::Keeping(values, keep) => {
                if line == b"end".as_slice() {
                    return self.finish(values, keep);
                }
                let before = self.commands.len();
                let own = read_commands(self.alloc, line, values, self.nodes, before)?;
                self.commands.push(own)?;
            }
        }
        Ok(None)
    }
}
