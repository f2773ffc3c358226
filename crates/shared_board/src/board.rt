ghost use Rattle.std.specs.Prelude.{◌≡◌, ◌<◌, ◌≤◌, ◌+◌, [], length, map, replicate, All, IfOk};
ghost use Rattle.sync_types.specs.States.{zero_state};
ghost use Rattle.construction.specs.Steps.{state_of};
ghost use Rattle.counter_core.specs.Meanings.{cut};
ghost use Rattle.shared_board.specs.Boards.{sent_of, AreLiars};
ghost use Rattle.shared_board.specs.Sharing.{place_among};

use crate::Senders;
use crate::columns::{fill, zero_outputs, zero_registers};
use crate::liars::{take_liars, zero_counts, zero_marks};
use state_codec::Packed;
use std::alloc::Global;
use std::marker::Model;
use sync_types::{FaultSet, NoMemory, Reg};

/// A configuration by columns, and who lies in it. It is seen as the states, each with so many
/// registers, and the ids of the liars.
pub struct Board {
    nodes: usize,
    // What each node shows to each level, and at last to the top.
    outputs: Vec<Vec<u64>>,
    // The register of each node at each level.
    registers: Vec<Vec<Reg>>,
    liars: Vec<u32>,
    // Whether a node lies, and how many liars there are below it.
    marks: Vec<bool>,
    before: Vec<u32>,
}

// Written out, so that code that drops one has a single call.
impl Drop for Board {
    fn drop(self) {
        let Board {
            nodes: _,
            outputs,
            registers,
            liars,
            marks,
            before,
        } = self;
        drop(outputs);
        drop(registers);
        drop(liars);
        drop(marks);
        drop(before);
    }
}

impl Model for Board {
    ghost use Rattle.std.specs.Prelude.{map, vec_capacity};
    ghost use Rattle.shared_board.specs.Boards.{Board, board_of, IsBoard};

    ghost Value = { Board };

    ghost view = { λ b. board_of b.nodes (map (λ c. c.items) b.outputs.items)
        (map (λ c. c.items) b.registers.items) b.liars.items };

    ghost invariant = { λ b. IsBoard b.nodes (map (λ c. c.items) b.outputs.items)
        (map (λ c. c.items) b.registers.items) b.liars.items b.marks.items b.before.items
        (vec_capacity b.liars) };
}

impl Board {
    /// The zero states of `nodes` nodes, with `depth` registers each, none of which lies. It takes
    /// all the memory that the board ever needs.
    pub fn new(alloc: Global, nodes: usize, depth: usize) -> Result<Board, NoMemory>
        requires nodes { nodes ≤ 256 }
        requires deep { depth < 256 }
        ensures { IfOk result (λ board. board
            ≡ record { depth = depth; faulty = []; states = replicate nodes (zero_state depth) }) }
    {
        Ok(Board {
            nodes,
            outputs: zero_outputs(alloc, depth + 1, nodes)?,
            registers: zero_registers(alloc, depth, nodes)?,
            liars: Vec::with_capacity(alloc, nodes)?,
            marks: zero_marks(alloc, nodes)?,
            before: zero_counts(alloc, nodes + 1)?,
        })
    }

    /// Takes the current states of a configuration, of each as many registers as the board has, and
    /// who lies in it.
    pub fn take(&mut self, config: &Packed, faulty: &FaultSet)
        requires size { length config.now.current ≡ length self.old.states }
        requires deep { self.old.depth ≤ config.now.shape.depth }
        requires ids { All (λ id. id < length self.old.states) faulty.now.ids }
        ensures { self.new ≡ record {
          depth = self.old.depth;
          faulty = faulty.now.ids;
          states = map (cut self.old.depth) config.now.current;
        } }
    {
        faulty.facts();
        config.facts();
        take_liars(faulty, &mut self.liars, &mut self.marks, &mut self.before);
        fill(config, &mut self.registers, &mut self.outputs);
    }

    /// The nodes as the level sees them that stands above `height` levels.
    pub fn senders(&self, height: usize) -> Senders<'_>
        requires { height < self.now.depth }
        ensures { result ≡ sent_of self.now height }
    {
        Senders::new(
            height,
            &self.outputs[height],
            &self.registers[height],
            &self.marks,
            &self.before,
        )
    }

    /// The number of node `u`.
    pub fn number(&self, u: usize) -> u64
        requires { u < length self.now.states }
        ensures { result ≡ (state_of self.now.states u).x }
    {
        self.outputs[0][u]
    }

    /// How many liars have ids below `u`.
    pub fn liars_below(&self, u: usize) -> usize
        requires { u ≤ length self.now.states }
        ensures { result ≡ place_among self.now.faulty u }
    {
        self.before[u] as usize
    }

    /// How many nodes lie.
    pub fn liars(&self) -> usize
        ensures { result ≡ length self.now.faulty }
    {
        self.liars.len()
    }

    /// Tells a caller's proof that the ids of the liars rise and are those of nodes. It does
    /// nothing when it runs.
    pub fn facts(&self)
        ensures liars { AreLiars (length self.now.states) self.now.faulty }
        ensures most { length self.now.states ≤ 256 }
    {
        let _nodes = self.nodes;
    }
}
