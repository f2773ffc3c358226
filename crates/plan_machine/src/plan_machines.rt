ghost use Rattle.std.specs.Prelude.{◌≡◌, IfOk};
ghost use Rattle.state_codec.specs.Shapes.{shape_of};

use counter_core::{Counter, Heard, Work};
use machines::Machine;
use plan_numbers::Plan;
use state_codec::{Packed, StateShape};
use std::alloc::Global;
use std::marker::Model;
use sync_types::{NoMemory, NodeState};
use tower::{Tower, build};

/// The counter of an accepted plan, with the shape of its states: the machine that the plan is.
#[derive(Drop)]
pub struct PlanMachine {
    pub(crate) tower: Tower,
    shape: StateShape,
}

impl Model for PlanMachine {
    ghost use Rattle.construction.specs.Plans.{Plan};
    ghost use Rattle.plan_machine.specs.Kept.{IsValidPlanMachine};

    ghost Value = { Plan };

    ghost view = { λ t. t.tower };

    ghost invariant = { λ t. IsValidPlanMachine t.tower t.shape };
}

impl PlanMachine {
    /// The machine of a plan. It takes all the memory that it ever needs; the only error is want of
    /// memory.
    pub fn new(alloc: Global, plan: &Plan) -> Result<PlanMachine, NoMemory>
        ensures { IfOk result (λ machine. machine ≡ plan.now) }
    {
        let shape = StateShape::of(alloc, plan)?;
        PlanMachine::with_shape(alloc, plan, shape)
    }

    /// The machine of a plan whose shape was made.
    pub fn with_shape(
        alloc: Global,
        plan: &Plan,
        shape: StateShape,
    ) -> Result<PlanMachine, NoMemory>
        requires { shape ≡ shape_of plan.now }
        ensures { IfOk result (λ machine. machine ≡ plan.now) }
    {
        plan.facts();
        let tower = build(alloc, plan)?;
        Ok(PlanMachine::of(tower, shape))
    }

    /// The machine of a plan whose counter and shape were made. It takes no memory.
    pub fn of(tower: Tower, shape: StateShape) -> PlanMachine
        requires { shape ≡ shape_of tower }
        ensures { result ≡ tower }
    {
        tower.tell();
        PlanMachine { tower, shape }
    }
}

impl Machine for PlanMachine {
    ghost use Rattle.plan_machine.specs.PlanMachines.{machine_of_plan};

    ghost machine = { machine_of_plan };

    fn nodes(&self) -> u32 {
        self.tower.nodes()
    }

    fn faults(&self) -> u32 {
        self.tower.faults()
    }

    fn modulus(&self) -> u64 {
        self.tower.modulus()
    }

    fn bound(&self) -> u64 {
        self.tower.bound()
    }

    fn depth(&self) -> usize {
        self.tower.depth()
    }

    fn lock(&self) -> Option<usize> {
        self.tower.depth().checked_sub(1)
    }

    fn facts(&self) {
        self.tower.tell();
    }

    fn bytes_of(&self, v: u32) -> usize {
        self.shape.bytes_of(v)
    }

    fn write_state(&self, v: u32, state: &NodeState, out: &mut [u8]) {
        self.shape.write_state(v, state, out);
    }

    fn read_state(&self, v: u32, bytes: &[u8], out: &mut NodeState) {
        self.shape.read_state(v, bytes, out);
    }

    fn read_front(&self, v: u32, bytes: &[u8], out: &mut NodeState) {
        self.shape.read_front(v, bytes, out);
    }

    fn output(&self, v: u32, state: &NodeState) -> u64 {
        self.tower.output(v, state)
    }

    fn output_in(&self, v: u32, states: &Packed) -> u64 {
        match self.tower.depth() {
            0 => states.x(v),
            depth => states.reg(v, depth - 1).a.unwrap_or(0),
        }
    }

    fn advance(&self, v: u32, heard: &Heard<'_>, work: &mut Work, out: &mut NodeState) {
        self.tower.advance(v, heard, work, out);
    }
}
