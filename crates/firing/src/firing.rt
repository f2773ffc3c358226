ghost use Rattle.std.specs.Prelude.{◌≡◌, ◌*◌, ◌<◌, length};

use crate::fires::Fire;
use crate::requests::Requests;
use consensus_layer::{agree, relevant_liars};
use counter_core::{Heard, HeardRegister, Overlay, Work};
use layer_laws::CounterNumbers;
use std::alloc::{AllocError, Global};
use sync_types::{FaultSet, NodeState};

/// Simultaneous firing over a counter: consensus on whether to fire, in slots; a node is for it if
/// it requests in the round before the slot.
#[derive(Debug, Drop)]
pub struct Firing {
    nodes: u32,
    faults: u32,
    modulus: u64,
    depth: usize,
    requests: Requests,
    // The number of the round that began last.
    round: u64,
    // Which nodes fired in their last round.
    fired: Vec<bool>,
    ghost quorum: { 3 * faults < nodes },
    ghost size: { length fired.items ≡ nodes },
}

impl Firing {
    ghost use Rattle.std.specs.Prelude.{◌≡◌, ◌<◌, IfOk, replicate};
    ghost use Rattle.firing.specs.Firings.{bit, requests_in, fire_layer_over, fires_of, unfired};
    ghost use Rattle.firing.specs.FiringsSeen.{layer_seen, fires_seen};

    /// Firing over a counter, on these requests. No node fired yet.
    pub fn new(
        alloc: Global,
        numbers: &CounterNumbers,
        requests: Requests,
    ) -> Result<Firing, AllocError>
        ensures layer { IfOk result
            (λ firing. layer_seen firing ≡ fire_layer_over numbers.now requests) }
        ensures kept { IfOk result
            (λ firing. fires_seen firing ≡ replicate numbers.now.nodes unfired) }
    {
        numbers.facts();
        let nodes = numbers.nodes();
        Ok(Firing {
            nodes,
            faults: numbers.faults(),
            modulus: numbers.modulus(),
            depth: numbers.depth(),
            requests,
            round: 0,
            fired: Vec::from_elem(alloc, false, nodes as usize)?,
        })
    }

    /// Whether node `v`, which is below the number of nodes, fires in the configuration after its
    /// last round. Before its first round it does not.
    pub fn fired(&self, v: u32) -> bool
        requires { v < (layer_seen self.now).nodes }
        ensures { result ≡ fires_of (fires_seen self.now) v }
    {
        self.fired[v as usize]
    }

    /// Whether a node requests in the round that began last.
    fn requests(&self, v: u32) -> bool
        ensures { result ≡ requests_in self.now.requests v self.now.round }
    {
        let round = self.round;
        self.requests.items.iter().any(|request| request.node == v
            && request.first <= round
            && round <= request.last)
    }

    /// A node's input there: 1 if it requests, else 0.
    fn input(&self, v: u32) -> u64
        ensures { result ≡ bit (requests_in self.now.requests v self.now.round) }
    {
        match self.requests(v) {
            true => 1,
            false => 0,
        }
    }
}

impl Overlay for Firing {
    ghost use Rattle.std.proofs.Common.{refl};
    ghost use Rattle.counter_core.specs.Registers.{registers_hear};
    ghost use Rattle.firing.specs.FiringsSeen.{layer_seen, fires_seen};
    ghost use Rattle.firing.specs.FireLaws.{fire_keeps};

    type Kept = Fire;

    ghost layer = { layer_seen };

    ghost kept = { fires_seen };

    fn extra(&self) -> usize {
        1
    }

    fn begin(&mut self, at: u64) {
        self.round = at;
    }

    fn relevant_liars(
        &self,
        node: u32,
        output: u64,
        heard: &Heard<'_>,
        faulty: &FaultSet,
    ) -> (usize, usize) {
        let values = HeardRegister::of(heard, self.depth, self.nodes, self.faults);
        relevant_liars(&values, node, output, faulty)
    }

    fn advance(
        &mut self,
        node: u32,
        output: u64,
        heard: &Heard<'_>,
        work: &mut Work,
        out: &mut NodeState,
    ) {
        let values = HeardRegister::of(heard, self.depth, self.nodes, self.faults);
        let agreed = agree(&values, node, self.input(node), output, work);
        out.set_reg(self.depth, agreed.register);
        self.fired[node as usize] = agreed.decided == Some(1);
    }

    ghost keeps_range = { λ f.
        fire_keeps f.nodes f.faults f.modulus f.depth f.requests f.quorum };

    ghost deaf = { λ f. registers_hear (layer_seen f) 0 refl };
}
