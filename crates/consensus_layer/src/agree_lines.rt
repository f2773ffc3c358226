ghost use Rattle.std.specs.Prelude.{◌≡◌};
ghost use Rattle.consensus_layer.specs.AgreePart.{nothing_read_over};

use crate::agree_parts::AgreePart;
use crate::agreeing::slot_length;
use crate::input_lines::read_inputs;
use crate::part_lines::{head_tested, number_within};
use edge_io::{LineReader, TakeError};
use layer_laws::CounterNumbers;
use std::alloc::Global;
use std::marker::Model;
use std::mem;
use sync_types::Rule;

/// The most values that there may be.
const MOST_VALUES: u64 = 65536;

/// How far an agree part was read.
#[derive(Clone, Copy, Debug, PartialEq, Eq)]
pub enum AgreeStage {
    /// No line of it.
    Unread,
    /// Its first line.
    Begun,
    /// Its line of values: how many there are.
    Valued(u64),
    /// Its line of inputs, after that of values.
    Given(u64),
}

/// Reads the lines of an agree part that count.
#[derive(Drop)]
pub struct AgreeLines {
    alloc: Global,
    nodes: u32,
    whole: bool,
    stage: AgreeStage,
    inputs: Vec<u64>,
}

impl Model for AgreeLines {
    ghost use Rattle.consensus_layer.specs.AgreePart.{AgreeSoFar};

    ghost Value = { AgreeSoFar };

    ghost view = { λ l. record {
      nodes = l.nodes;
      whole = l.whole;
      stage = l.stage;
      inputs = l.inputs.items;
    } };
}

impl AgreeLines {
    /// A reader of a part of which nothing was read, for a counter of these numbers.
    pub fn new(alloc: Global, numbers: &CounterNumbers) -> AgreeLines
        ensures { result ≡ nothing_read_over numbers.now }
    {
        AgreeLines {
            alloc,
            nodes: numbers.nodes(),
            whole: numbers.modulus() % slot_length(numbers.faults()) == 0,
            stage: AgreeStage::Unread,
            inputs: Vec::new(alloc),
        }
    }
}

impl LineReader for AgreeLines {
    type Value = AgreePart;

    type Rule = Rule;

    ghost use Rattle.consensus_layer.specs.AgreePart.{agree_step};

    ghost step = { agree_step };

    fn take(&mut self, line: &[u8]) -> Result<Option<AgreePart>, TakeError<Rule>> {
        match self.stage {
            AgreeStage::Unread => {
                head_tested(b"agree 1", self.whole, line).map_err(TakeError::Refused)?;
                self.stage = AgreeStage::Begun;
            }
            AgreeStage::Begun => {
                let values = number_within(b"values", 2, MOST_VALUES, line).map_err(
                    TakeError::Refused,
                )?;
                self.stage = AgreeStage::Valued(values);
            }
            AgreeStage::Valued(values) => {
                self.inputs = read_inputs(self.alloc, line, values, self.nodes)?;
                self.stage = AgreeStage::Given(values);
            }
            AgreeStage::Given(values) => {
                if line != b"end".as_slice() {
                    return Err(TakeError::Refused(Rule::Form));
                }
                let inputs = mem::replace(&mut self.inputs, Vec::new(self.alloc));
                return Ok(Some(AgreePart { values, inputs }));
            }
        }
        Ok(None)
    }
}
