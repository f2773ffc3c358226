ghost use Rattle.std.specs.Prelude.{◌≡◌, ◌*◌, ◌<◌, length, slice_index, All};
ghost use Rattle.layer_laws.specs.CounterSlots.{slot_length};

use crate::agree_parts::AgreePart;
use crate::agreeing::{agree, slot_length};
use crate::heeding::relevant_liars;
use counter_core::{Heard, HeardRegister, Overlay, Work};
use layer_laws::CounterNumbers;
use std::alloc::{AllocError, Global};
use sync_types::{FaultSet, NodeState};

/// Consensus on a counter: each node has an input, and keeps the decision of the last slot that
/// ended.
#[derive(Debug, Drop)]
pub struct Agreement {
    nodes: u32,
    faults: u32,
    modulus: u64,
    depth: usize,
    values: u64,
    inputs: Vec<u64>,
    decisions: Vec<u64>,
    ghost quorum: { 3 * faults < nodes },
    ghost inputs_of_nodes: { length inputs.items ≡ nodes },
    ghost decisions_of_nodes: { length decisions.items ≡ nodes },
    ghost range: { All (λ a. a < values) inputs.items },
}

impl Agreement {
    ghost use Rattle.std.specs.Prelude.{ℕ, List, replicate, IfOk};
    ghost use Rattle.consensus_layer.specs.Agreements.{agree_layer_over, agree_layer_of};
    ghost use Rattle.consensus_layer.specs.AgreementsSeen.{layer_seen, decisions_seen};
    ghost use Rattle.consensus_layer.specs.AgreePart.{IsForNumbers};

    /// Consensus on a counter of these numbers, as an agree part says that was read for them. Each
    /// node's decision is 0.
    pub fn new(
        alloc: Global,
        numbers: &CounterNumbers,
        part: AgreePart,
    ) -> Result<Agreement, AllocError>
        requires { IsForNumbers numbers.now part }
        ensures layer { IfOk result
            (λ a. layer_seen a ≡ agree_layer_over numbers.now part.values part.inputs) }
        ensures kept { IfOk result (λ a. decisions_seen a ≡ replicate numbers.now.nodes 0) }
    {
        numbers.facts();
        let nodes = numbers.nodes();
        Ok(Agreement {
            nodes,
            faults: numbers.faults(),
            modulus: numbers.modulus(),
            depth: numbers.depth(),
            values: part.values,
            inputs: part.inputs,
            decisions: Vec::from_elem(alloc, 0, nodes as usize)?,
        })
    }

    /// The input of a node.
    fn input(&self, v: u32) -> u64
        requires { v < self.now.nodes }
        ensures { result ≡ slice_index self.now.inputs.items v }
    {
        self.inputs[v as usize]
    }

    /// The decision of node `v`, which is below the number of nodes.
    pub fn decision(&self, v: u32) -> u64
        requires { v < (layer_seen self.now).nodes }
        ensures { result ≡ slice_index (decisions_seen self.now) v }
    {
        self.decisions[v as usize]
    }

    /// How many rounds a slot has: three for each of one king more than may be faulty, as the layer
    /// has it.
    pub fn slot_length(&self) -> u64
        ensures { (nodes faults modulus depth values : ℕ) (inputs : List ℕ)
            → layer_seen self.now ≡ agree_layer_of nodes faults modulus depth values inputs
            → result ≡ slot_length faults }
    {
        slot_length(self.faults)
    }

    /// How many values there are: each input and each decision is below.
    pub fn values(&self) -> u64
        ensures { result ≡ (layer_seen self.now).values }
    {
        self.values
    }
}

impl Overlay for Agreement {
    ghost use Rattle.std.proofs.Common.{refl};
    ghost use Rattle.counter_core.specs.Registers.{registers_hear};
    ghost use Rattle.consensus_layer.specs.AgreementsSeen.{layer_seen, decisions_seen};
    ghost use Rattle.consensus_layer.specs.AgreeLaws.{agree_keeps};

    type Kept = u64;

    ghost layer = { layer_seen };

    ghost kept = { decisions_seen };

    fn extra(&self) -> usize {
        1
    }

    fn begin(&mut self, _at: u64) {}

    fn relevant_liars(
        &self,
        node: u32,
        output: u64,
        heard: &Heard<'_>,
        faulty: &FaultSet,
    ) -> (usize, usize) {
        let values = HeardRegister::of(heard, self.depth, self.nodes, self.faults);
        relevant_liars(&values, node, output, faulty)
    }

    fn advance(
        &mut self,
        node: u32,
        output: u64,
        heard: &Heard<'_>,
        work: &mut Work,
        out: &mut NodeState,
    ) {
        let v = node as usize;
        let values = HeardRegister::of(heard, self.depth, self.nodes, self.faults);
        let agreed = agree(&values, node, self.input(node), output, work);
        out.set_reg(self.depth, agreed.register);
        self.decisions[v] = agreed.decided.unwrap_or(self.decisions[v]);
    }

    ghost keeps_range = { λ a. agree_keeps a.nodes a.faults a.modulus a.depth a.values
        a.inputs.items a.quorum a.inputs_of_nodes a.range };

    ghost deaf = { λ a. registers_hear (layer_seen a) 0 refl };
}
