//! Slots that are drawn, and the parts of layers.

use crate::draws::Draws;
use reference::layers::{Part, Span};
use reference::numbers::Numbers;
use std::alloc::AllocError;

/// What is played of a plan: a counter alone, or with a slot table or a layer.
#[derive(Clone, Copy)]
pub enum Kind {
    Rows,
    Slots,
    Agreement,
    Firing,
    Log,
}

impl Kind {
    /// The word that plays it.
    pub fn word(self) -> &'static str {
        match self {
            Kind::Rows => "run",
            Kind::Slots => "slots",
            Kind::Agreement => "consensus",
            Kind::Firing => "fire",
            Kind::Log => "log",
        }
    }

    /// By a multiple of how many rounds nodes of these numbers have to count.
    pub fn unit(self, numbers: &Numbers) -> u64 {
        match self {
            Kind::Rows | Kind::Slots => 1,
            Kind::Agreement | Kind::Firing => numbers.slot(),
            Kind::Log => numbers.turn(),
        }
    }
}

impl Draws {
    /// Slots that do not overlap, in rising or falling order.
    fn slots(&mut self, numbers: &Numbers) -> Result<Vec<Span>, AllocError> {
        let mut slots = Vec::new(self.alloc);
        let mut first = self.below(3);
        for _ in 0..self.below(12) {
            let last = first.wrapping_add(self.below(4));
            if last >= numbers.modulus {
                break;
            }
            let node = self.below(numbers.nodes);
            slots.push(Span { node, first, last })?;
            first = last.wrapping_add(self.between(1, 3));
        }
        if self.once_in(2) {
            slots.reverse();
        }
        Ok(slots)
    }

    /// How many values there are: two, or more.
    fn values(&mut self) -> u64 {
        match self.below(3) {
            0 => self.between(3, 65536),
            1 => self.between(3, 9),
            _ => 2,
        }
    }

    /// Inputs of the nodes below some number, mostly one.
    fn inputs(&mut self, numbers: &Numbers, values: u64) -> Result<Vec<u64>, AllocError> {
        let common = self.below(values);
        let often = self.between(1, 8);
        let mut inputs = Vec::new(self.alloc);
        for _ in 0..numbers.nodes {
            let other = self.below(values);
            inputs.push(if self.once_in(often) { other } else { common })?;
        }
        Ok(inputs)
    }

    /// Requests, mostly of all nodes in the same rounds.
    fn requests(&mut self, numbers: &Numbers) -> Result<Vec<Span>, AllocError> {
        let mut requests = Vec::new(self.alloc);
        let length = numbers.bound.wrapping_add(numbers.slot().wrapping_mul(4));
        for _ in 0..self.between(1, 4) {
            let first = self.below(length.wrapping_mul(2));
            let last = first.wrapping_add(self.below(length));
            for node in 0..numbers.nodes {
                if !self.once_in(8) && requests.len() < 256 {
                    requests.push(Span { node, first, last })?;
                }
            }
        }
        Ok(requests)
    }

    /// Some commands of each node, below some number.
    fn commands(&mut self, numbers: &Numbers, values: u64) -> Result<Vec<Vec<u64>>, AllocError> {
        let mut commands = Vec::new(self.alloc);
        for _ in 0..numbers.nodes {
            let most = if self.once_in(8) { 16 } else { 4 };
            let count = self.between(1, most);
            commands.push(self.numbers(count, values)?)?;
        }
        Ok(commands)
    }

    /// The part of a kind, of nodes of these numbers.
    pub fn part(&mut self, kind: Kind, numbers: &Numbers) -> Result<Part, AllocError> {
        let values = self.values();
        Ok(match kind {
            Kind::Rows => Part::Rows,
            Kind::Slots => Part::Slots(self.slots(numbers)?),
            Kind::Agreement => Part::Agreement(values, self.inputs(numbers, values)?),
            Kind::Firing => Part::Firing(self.requests(numbers)?),
            Kind::Log => {
                let keep = self.between(1, 4);
                Part::Log(values, keep, self.commands(numbers, values)?)
            }
        })
    }
}
