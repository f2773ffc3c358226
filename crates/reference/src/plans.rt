//! Boosting plans, and which nodes take part on which level.

use crate::constructions::Construction;
use crate::numbers::{Numbers, quotient, remainder};
use crate::states::{Fields, NO_FIELDS, State};
use crate::steps::stepped;
use crate::texts::Text;
use std::alloc::{AllocError, Global};

/// A level of a plan: its blocks, the faults that it tolerates, its modulus, and its spare nodes.
#[derive(Clone, Copy)]
pub struct Level {
    pub blocks: u64,
    pub faults: u64,
    pub modulus: u64,
    pub spares: u64,
}

/// A version, 1 or 2, a base modulus, and levels from the bottom up. Version 1 has no spare nodes.
#[derive(Drop)]
pub struct Plan {
    pub version: u64,
    pub base: u64,
    pub levels: Vec<Level>,
}

impl Level {
    /// How many blocks may lead.
    pub fn leaders(&self) -> u64 {
        self.blocks.wrapping_add(1) / 2
    }

    /// How many rounds a beat has.
    pub fn beat(&self) -> u64 {
        self.faults.wrapping_add(2).wrapping_mul(3)
    }

    /// For how many rounds the pointer of a block stays.
    pub fn interval(&self, block: u64) -> u64 {
        let mut rounds = self.beat();
        for _ in 0..block {
            rounds = rounds.saturating_mul(self.leaders()).saturating_mul(2);
        }
        rounds
    }

    /// For how many rounds the pointers of all blocks together take each course.
    pub fn span(&self) -> u64 {
        self.interval(self.blocks)
    }
}

impl Plan {
    /// A plan of a version and a base without levels.
    pub fn without_levels(alloc: Global, version: u64, base: u64) -> Plan {
        Plan {
            version,
            base,
            levels: Vec::new(alloc),
        }
    }

    /// A plan of a version with these levels, each of blocks, faults, a modulus and spare nodes.
    pub fn of(
        alloc: Global,
        version: u64,
        base: u64,
        lines: &[(u64, u64, u64, u64)],
    ) -> Result<Plan, AllocError> {
        let mut plan = Plan::without_levels(alloc, version, base);
        for (blocks, faults, modulus, spares) in lines {
            plan.levels.push(Level {
                blocks: *blocks,
                faults: *faults,
                modulus: *modulus,
                spares: *spares,
            })?;
        }
        Ok(plan)
    }

    /// How many nodes a group of the lowest `depth` levels has.
    pub fn group(&self, depth: usize) -> u64 {
        let mut nodes = 1u64;
        for level in self.levels.iter().take(depth) {
            nodes = level.blocks.wrapping_mul(nodes).wrapping_add(level.spares);
        }
        nodes
    }

    /// How many faulty nodes the plan tolerates.
    pub fn faults(&self) -> u64 {
        match self.levels.last() {
            Some(level) => level.faults,
            None => 0,
        }
    }

    /// How many nodes there are.
    pub fn nodes(&self) -> u64 {
        self.group(self.levels.len())
    }

    /// The level of which a node is a spare, or 0 if it is none. The node takes part from that
    /// level on.
    fn low(&self, node: u64) -> usize {
        let mut place = node;
        for depth in (0..self.levels.len()).rev() {
            let above = self.group(depth.wrapping_add(1));
            let below = self.group(depth);
            let spares = match self.levels.get(depth) {
                Some(level) => level.spares,
                None => 0,
            };
            if place >= above.wrapping_sub(spares) {
                return depth.wrapping_add(1);
            }
            place = remainder(place, below);
        }
        0
    }

    /// The first node of the group of the lowest `depth` levels in which a node is that takes part
    /// there.
    pub fn first_of_group(&self, node: u64, depth: usize) -> u64 {
        let mut first = 0u64;
        for level in (depth..self.levels.len()).rev() {
            let below = self.group(level);
            let block = quotient(node.wrapping_sub(first), below);
            first = first.wrapping_add(block.wrapping_mul(below));
        }
        first
    }

    /// What the number of a node counts by, 1 if it has none.
    pub fn base_of(&self, node: u64) -> u64 {
        if self.low(node) == 0 { self.base } else { 1 }
    }

    /// Whether a node has a register on the level above the lowest `depth` ones.
    pub fn has_register(&self, node: u64, depth: usize) -> bool {
        self.low(node) <= depth.wrapping_add(1)
    }
}

impl Construction for Plan {
    fn numbers(&self) -> Numbers {
        let mut numbers = Numbers {
            nodes: self.nodes(),
            faults: self.faults(),
            modulus: self.base,
            bound: 0,
        };
        for level in &self.levels {
            numbers.modulus = level.modulus;
            numbers.bound = numbers.bound.wrapping_add(level.span());
        }
        numbers
    }

    fn fields(&self, node: u64) -> Fields {
        let mut fields = NO_FIELDS;
        fields.base = self.base_of(node);
        for (depth, level) in self.levels.iter().enumerate() {
            if self.has_register(node, depth) {
                fields.put(depth, level.modulus);
            }
        }
        fields
    }

    fn top(&self) -> Option<usize> {
        self.levels.len().checked_sub(1)
    }

    fn stepped(&self, node: u64, heard: &[State]) -> State {
        stepped(self, node, heard)
    }

    fn write(&self, out: &mut Text) {
        out.line("plan", &[self.version]);
        out.line("base", &[self.base]);
        for level in &self.levels {
            out.put("level", &[level.blocks, level.faults, level.modulus]);
            if self.version == 2 {
                out.put(" spare", &[level.spares]);
            }
            out.word("\n");
        }
        out.word("end\n");
    }
}
