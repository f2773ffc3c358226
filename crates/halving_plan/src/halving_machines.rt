ghost use Rattle.std.specs.Prelude.{◌≡◌, ◌<◌, length, IfOk};
ghost use Rattle.halving_plan.specs.Trees.{tree_nodes};
ghost use Rattle.halving_plan.specs.Steps.{tree_depth};
ghost use Rattle.halving_plan.specs.Runs.{all_fields};
ghost use Rattle.halving_plan.specs.Plans.{tree_of};

use crate::making::all_nodes_fields;
use crate::{HalvingPlan, advance, output, output_in};
use counter_core::{Heard, Work};
use machines::Machine;
use state_codec::{Fields, Packed};
use std::alloc::Global;
use std::marker::Model;
use sync_types::{NoMemory, NodeState};

/// The counter of an accepted plan, with the fields of its nodes: the machine that the plan is.
#[derive(Drop)]
pub struct HalvingMachine {
    plan: HalvingPlan,
    // By node.
    fields: Vec<Fields>,
}

impl Model for HalvingMachine {
    ghost use Rattle.halving_plan.specs.Plans.{HalvingNumbers};
    ghost use Rattle.halving_plan.specs.Kept.{IsValidHalvingMachine};

    ghost Value = { HalvingNumbers };

    ghost view = { λ m. m.plan };

    ghost invariant = { λ m. IsValidHalvingMachine m.plan m.fields.items };
}

impl HalvingMachine {
    /// The machine of a plan. It takes all the memory that it ever needs; the only error is want of
    /// memory.
    pub fn new(alloc: Global, plan: HalvingPlan) -> Result<HalvingMachine, NoMemory>
        ensures { IfOk result (λ machine. machine ≡ plan) }
    {
        plan.facts();
        let fields = all_nodes_fields(alloc, &plan)?;
        Ok(HalvingMachine { plan, fields })
    }

    /// Its plan.
    pub fn plan(&self) -> HalvingPlan
        ensures { result ≡ self.now }
    {
        self.plan
    }

    /// The fields of node `v`.
    fn fields_of(&self, v: u32) -> &Fields
        requires { v < tree_nodes (tree_of self.now) }
        ensures value { result.now ≡ all_fields (tree_of self.now) self.now.modulus v }
        ensures depth { length result.now.moduli ≡ tree_depth (tree_of self.now) }
    {
        &self.fields[v as usize]
    }
}

impl Machine for HalvingMachine {
    ghost use Rattle.halving_plan.specs.Laws.{machine_in};

    ghost machine = { machine_in };

    fn nodes(&self) -> u32 {
        self.plan.nodes()
    }

    fn faults(&self) -> u32 {
        self.plan.faults()
    }

    fn modulus(&self) -> u64 {
        self.plan.modulus()
    }

    fn bound(&self) -> u64 {
        self.plan.bound()
    }

    fn depth(&self) -> usize {
        self.plan.depth()
    }

    fn lock(&self) -> Option<usize> {
        if self.plan.faults() == 0 {
            None
        } else {
            Some(0)
        }
    }

    fn facts(&self) {
        let _plan = &self.plan;
    }

    fn bytes_of(&self, v: u32) -> usize {
        self.fields_of(v).bytes()
    }

    fn write_state(&self, v: u32, state: &NodeState, out: &mut [u8]) {
        self.fields_of(v).write_state(state, out);
    }

    fn read_state(&self, v: u32, bytes: &[u8], out: &mut NodeState) {
        self.fields_of(v).read_state(bytes, out);
    }

    fn read_front(&self, v: u32, bytes: &[u8], out: &mut NodeState) {
        self.fields_of(v).read_front(bytes, out);
    }

    fn output(&self, _v: u32, state: &NodeState) -> u64 {
        output(&self.plan, state)
    }

    fn output_in(&self, v: u32, states: &Packed) -> u64 {
        output_in(&self.plan, v, states)
    }

    fn advance(&self, v: u32, heard: &Heard<'_>, work: &mut Work, out: &mut NodeState) {
        advance(&self.plan, v, heard, &mut work.values, out);
    }
}
