ghost use Rattle.std.specs.Prelude.{◌≡◌, ◌+◌, ◌<◌, ◌≤◌, length, All};
ghost use Rattle.machine_runner.specs.Locks.{is_locked_at};
ghost use Rattle.halving_plan.specs.Level.{faults_in};
ghost use Rattle.sync_types.specs.FaultSets.{is_in};
ghost use Rattle.trace.specs.Words.{all_have};

use crate::headings::Heading;
use sync_types::{FaultSet, NodeState, Reg};

/// What lines of a node are written of.
#[derive(Clone, Copy)]
pub struct View<'a> {
    /// Whose lines they are.
    pub heading: Heading,
    /// The nodes that are faulty.
    pub faulty: &'a FaultSet,
    /// The states of all nodes.
    pub config: &'a [NodeState],
    /// Whether a round follows, in which nodes hear one another.
    pub hears: bool,
    ghost node: { heading.node < length config.now },
    ghost few: { length config.now ≤ 256 },
}

/// Whether a register is marked and has this value.
fn is_locked_at(value: u64, register: Reg) -> bool
    ensures { result ≡ is_locked_at value register }
{
    register.a == Some(value) && register.d
}

impl View<'_> {
    /// Whether each correct one of so many nodes, from `first` on, has this finite value in the
    /// register with that index, marked.
    pub fn all_have(&self, register: usize, first: u32, many: u32, value: Option<u64>) -> bool
        requires within { first + many ≤ length self.now.config.now }
        requires deep { All (λ s. register < length s.registers) self.now.config.now }
        ensures { result ≡ all_have register first many self.now.faulty.now.ids
            self.now.config.now value }
    {
        let Some(a) = value else {
            return false;
        };
        for u in first..first + many {
            let held = self.config[u as usize].reg(register);
            if !self.faulty.contains(u) && !is_locked_at(a, held) {
                return false;
            }
        }
        true
    }

    /// How many of so many nodes, from `first` on, are faulty.
    pub fn faults_in(&self, first: u32, many: u32) -> u32
        requires within { first + many ≤ length self.now.config.now }
        ensures { result ≡ faults_in first many (is_in self.now.faulty.now.ids) }
    {
        let mut faults = 0;
        for i in 0..many {
            if self.faulty.contains(first + i) {
                faults += 1;
            }
        }
        faults
    }
}
