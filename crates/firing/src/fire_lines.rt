ghost use Rattle.std.specs.Prelude.{◌≡◌};
ghost use Rattle.firing.specs.FirePart.{nothing_read_over, request_in};

use crate::requests::{Request, Requests};
use consensus_layer::{head_tested, slot_length};
use edge_io::{LineReader, TakeError, numbers_after};
use layer_laws::CounterNumbers;
use std::alloc::Global;
use std::marker::Model;
use std::mem;
use sync_types::Rule;

/// The most lines of requests that a part may have.
const MOST_REQUESTS: usize = 256;

/// Reads the lines of a fire part that count.
#[derive(Drop)]
pub struct FireLines {
    alloc: Global,
    nodes: u32,
    whole: bool,
    begun: bool,
    requests: Vec<Request>,
}

impl Model for FireLines {
    ghost use Rattle.firing.specs.FirePart.{FireSoFar};

    ghost Value = { FireSoFar };

    ghost view = { λ l. record {
      nodes = l.nodes;
      whole = l.whole;
      begun = l.begun;
      requests = l.requests.items;
    } };
}

impl FireLines {
    /// A reader of a part of which nothing was read, for the nodes of a counter.
    pub fn new(alloc: Global, numbers: &CounterNumbers) -> FireLines
        ensures { result ≡ nothing_read_over numbers.now }
    {
        FireLines {
            alloc,
            nodes: numbers.nodes(),
            whole: numbers.modulus() % slot_length(numbers.faults()) == 0,
            begun: false,
            requests: Vec::new(alloc),
        }
    }

    /// The request of a line, or the first rule that it fails.
    fn request(&self, line: &[u8]) -> Result<Request, Rule>
        ensures { result ≡ request_in self.now line.now }
    {
        let Some(numbers) = numbers_after::<3>(line, b"request") else {
            return Err(Rule::Form);
        };
        if self.requests.len() >= MOST_REQUESTS {
            return Err(Rule::Limit);
        }
        if numbers[0] >= u64::from(self.nodes) {
            return Err(Rule::Node);
        }
        if numbers[1] > numbers[2] {
            return Err(Rule::Range);
        }
        Ok(Request {
            node: numbers[0] as u32,
            first: numbers[1],
            last: numbers[2],
        })
    }
}

impl LineReader for FireLines {
    type Value = Requests;

    type Rule = Rule;

    ghost use Rattle.firing.specs.FirePart.{fire_step};

    ghost step = { fire_step };

    fn take(&mut self, line: &[u8]) -> Result<Option<Requests>, TakeError<Rule>> {
        if !self.begun {
            head_tested(b"fire 1", self.whole, line).map_err(TakeError::Refused)?;
            self.begun = true;
            return Ok(None);
        }
        if line == b"end".as_slice() {
            let items = mem::replace(&mut self.requests, Vec::new(self.alloc));
            return Ok(Some(Requests { items }));
        }
        let request = self.request(line).map_err(TakeError::Refused)?;
        self.requests.push(request)?;
        Ok(None)
    }
}
