ghost use Rattle.std.specs.Prelude.{◌≡◌, ◌<◌, ◌≤◌, length};
ghost use Rattle.shared_board.specs.Senders.{AreSent, is_liar, output_of, register_of, liars_below};

use std::marker::Model;
use sync_types::Reg;

/// The nodes of a plan as one of its levels sees them: of each node what it shows to the level, its
/// register there, and whether it is a liar.
#[derive(Drop)]
pub struct Senders<'a> {
    height: usize,
    outputs: &'a [u64],
    registers: &'a [Reg],
    liars: &'a [bool],
    // How many liars there are below each node, and after them how many there are.
    before: &'a [u32],
}

impl<'a> Model for Senders<'a> {
    ghost use Rattle.shared_board.specs.Senders.{Sent, AreSent};

    ghost Value = { Sent };

    ghost view = { λ s. record {
      height = s.height;
      outputs = s.outputs.now;
      registers = s.registers.now;
      liars = s.liars.now;
    } };

    ghost invariant = { λ s. AreSent s.outputs.now s.registers.now s.liars.now s.before.now };
}

impl<'a> Senders<'a> {
    /// The nodes as a level sees them that stands above `height` levels. `before` has for each node
    /// how many liars there are below it, and after that how many there are in all.
    pub fn new(
        height: usize,
        outputs: &'a [u64],
        registers: &'a [Reg],
        liars: &'a [bool],
        before: &'a [u32],
    ) -> Senders<'a>
        requires { AreSent outputs.now registers.now liars.now before.now }
        ensures { result ≡ record {
          height = height;
          outputs = outputs.now;
          registers = registers.now;
          liars = liars.now;
        } }
    {
        Senders {
            height,
            outputs,
            registers,
            liars,
            before,
        }
    }

    /// How many levels stand below.
    pub fn height(&self) -> usize
        ensures { result ≡ self.now.height }
    {
        self.height
    }

    /// What node `u` shows to the level.
    pub fn output(&self, u: usize) -> u64
        requires { u < length self.now.registers }
        ensures { result ≡ output_of self.now u }
    {
        let outputs = self.outputs;
        outputs[u]
    }

    /// The level's register of node `u`.
    pub fn register(&self, u: usize) -> Reg
        requires { u < length self.now.registers }
        ensures { result ≡ register_of self.now u }
    {
        let registers = self.registers;
        registers[u]
    }

    /// Whether node `u` is a liar.
    pub fn is_liar(&self, u: usize) -> bool
        requires { u < length self.now.registers }
        ensures { result ≡ is_liar self.now u }
    {
        self.liars[u]
    }

    /// How many nodes there are.
    pub fn len(&self) -> usize
        ensures { result ≡ length self.now.registers }
    {
        self.registers.len()
    }

    /// How many liars there are below node `u`, or among all nodes if `u` is after the last.
    pub fn liars_below(&self, u: usize) -> usize
        requires { u ≤ length self.now.registers }
        ensures { result ≡ liars_below self.now u }
    {
        let before = self.before;
        before[u] as usize
    }
}
