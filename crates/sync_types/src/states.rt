ghost use Rattle.std.specs.Prelude.{◌≡◌, ◌<◌, length, replicate, slice_set, IfOk};
ghost use Rattle.sync_types.specs.States.{zero_state, register_at};

use crate::answers::NoMemory;
use std::alloc::Global;
use std::marker::Model;

/// A register of a level: a value and a mark.
#[derive(Clone, Copy, Debug, PartialEq, Eq)]
pub struct Reg {
    /// The value, None being infinity.
    pub a: Option<u64>,
    /// Whether enough nodes had this value.
    pub d: bool,
}

/// The state of a node: a number, and a register for each level, bottom up.
#[derive(Debug)]
pub struct NodeState {
    x: u64,
    registers: Vec<Reg>,
}

// Written out, so that code that drops one has a single call.
impl Drop for NodeState {
    fn drop(self) {
        let NodeState { x: _, registers } = self;
        drop(registers);
    }
}

impl Model for NodeState {
    ghost use Rattle.sync_types.specs.States.{State};

    ghost Value = { State };

    ghost view = { λ s. record { x = s.x; registers = s.registers.items } };
}

impl NodeState {
    /// The zero state with `depth` registers: the number 0, each value 0 and each mark false. It
    /// takes all the memory that the state ever needs.
    pub fn zero(alloc: Global, depth: usize) -> Result<NodeState, NoMemory>
        ensures { IfOk result (λ state. state ≡ zero_state depth) }
    {
        let zero = Reg {
            a: Some(0),
            d: false,
        };
        let registers = vec![in alloc; zero; depth]?;
        Ok(NodeState { x: 0, registers })
    }

    /// `count` zero states with `depth` registers each. It takes all the memory that they ever
    /// need.
    pub fn zeros(alloc: Global, count: u32, depth: usize) -> Result<Vec<NodeState>, NoMemory>
        ensures { IfOk result (λ states. states.items ≡ replicate count (zero_state depth)) }
    {
        let mut states = Vec::with_capacity(alloc, count as usize)?;
        for _ in 0..count {
            let state = NodeState::zero(alloc, depth)?;
            states.push(state).map_err(|_| NoMemory)?;
        }
        Ok(states)
    }

    /// The number.
    pub fn x(&self) -> u64
        ensures { result ≡ self.now.x }
    {
        self.x
    }

    /// Sets the number.
    pub fn set_x(&mut self, x: u64)
        ensures { self.new ≡ record self.old { x = x } }
    {
        self.x = x;
    }

    /// How many registers there are.
    pub fn depth(&self) -> usize
        ensures { result ≡ length self.now.registers }
    {
        self.registers.len()
    }

    /// Register `i`, the lowest being 0.
    pub fn reg(&self, i: usize) -> Reg
        requires { i < length self.now.registers }
        ensures { result ≡ register_at i self.now }
    {
        self.registers[i]
    }

    /// Sets register `i`.
    pub fn set_reg(&mut self, i: usize, reg: Reg)
        requires { i < length self.old.registers }
        ensures { self.new ≡ record self.old { registers = slice_set self.old.registers i reg } }
    {
        self.registers[i] = reg;
    }

    /// Takes the number and the registers of a state of the same depth.
    pub fn copy_from(&mut self, other: &NodeState)
        requires { length other.now.registers ≡ length self.old.registers }
        ensures { self.new ≡ other.now }
    {
        self.x = other.x;
        self.registers.copy_from_slice(&other.registers);
    }
}
