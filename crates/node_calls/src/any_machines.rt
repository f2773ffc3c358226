use counter_core::{Heard, Work};
use halving_plan::HalvingMachine;
use machines::Machine;
use plan_machine::PlanMachine;
use state_codec::Packed;
use sync_types::NodeState;

/// The machine of a plan of either construction.
#[derive(Drop)]
pub enum AnyMachine {
    /// A plan of levels over blocks.
    Boosting(PlanMachine),
    /// A halving plan.
    Halving(HalvingMachine),
}

impl Machine for AnyMachine {
    ghost use Rattle.node_calls.specs.Machines.{machine_of};

    ghost machine = { machine_of };

    fn nodes(&self) -> u32 {
        match self {
            AnyMachine::Boosting(machine) => machine.nodes(),
            AnyMachine::Halving(machine) => machine.nodes(),
        }
    }

    fn faults(&self) -> u32 {
        match self {
            AnyMachine::Boosting(machine) => machine.faults(),
            AnyMachine::Halving(machine) => machine.faults(),
        }
    }

    fn modulus(&self) -> u64 {
        match self {
            AnyMachine::Boosting(machine) => machine.modulus(),
            AnyMachine::Halving(machine) => machine.modulus(),
        }
    }

    fn bound(&self) -> u64 {
        match self {
            AnyMachine::Boosting(machine) => machine.bound(),
            AnyMachine::Halving(machine) => machine.bound(),
        }
    }

    fn depth(&self) -> usize {
        match self {
            AnyMachine::Boosting(machine) => machine.depth(),
            AnyMachine::Halving(machine) => machine.depth(),
        }
    }

    fn lock(&self) -> Option<usize> {
        match self {
            AnyMachine::Boosting(machine) => machine.lock(),
            AnyMachine::Halving(machine) => machine.lock(),
        }
    }

    fn facts(&self) {
        match self {
            AnyMachine::Boosting(machine) => machine.facts(),
            AnyMachine::Halving(machine) => machine.facts(),
        }
    }

    fn bytes_of(&self, v: u32) -> usize {
        match self {
            AnyMachine::Boosting(machine) => machine.bytes_of(v),
            AnyMachine::Halving(machine) => machine.bytes_of(v),
        }
    }

    fn write_state(&self, v: u32, state: &NodeState, out: &mut [u8]) {
        match self {
            AnyMachine::Boosting(machine) => machine.write_state(v, state, out),
            AnyMachine::Halving(machine) => machine.write_state(v, state, out),
        }
    }

    fn read_state(&self, v: u32, bytes: &[u8], out: &mut NodeState) {
        match self {
            AnyMachine::Boosting(machine) => machine.read_state(v, bytes, out),
            AnyMachine::Halving(machine) => machine.read_state(v, bytes, out),
        }
    }

    fn read_front(&self, v: u32, bytes: &[u8], out: &mut NodeState) {
        match self {
            AnyMachine::Boosting(machine) => machine.read_front(v, bytes, out),
            AnyMachine::Halving(machine) => machine.read_front(v, bytes, out),
        }
    }

    fn output(&self, v: u32, state: &NodeState) -> u64 {
        match self {
            AnyMachine::Boosting(machine) => machine.output(v, state),
            AnyMachine::Halving(machine) => machine.output(v, state),
        }
    }

    fn output_in(&self, v: u32, states: &Packed) -> u64 {
        match self {
            AnyMachine::Boosting(machine) => machine.output_in(v, states),
            AnyMachine::Halving(machine) => machine.output_in(v, states),
        }
    }

    fn advance(&self, v: u32, heard: &Heard<'_>, work: &mut Work, out: &mut NodeState) {
        match self {
            AnyMachine::Boosting(machine) => machine.advance(v, heard, work, out),
            AnyMachine::Halving(machine) => machine.advance(v, heard, work, out),
        }
    }
}
