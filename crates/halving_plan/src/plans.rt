ghost use Rattle.std.specs.Prelude.{◌≡◌, ◌≤◌, ◌<◌, slice_get};
ghost use Rattle.halving_plan.specs.Trees.{tree_bound};
ghost use Rattle.halving_plan.specs.Steps.{tree_depth};
ghost use Rattle.halving_plan.specs.Plans.{HalvingNumbers, IsAccepted, tree_of, first_premise, unless};
ghost use Rattle.halving_plan.specs.Fields.{fields_of};
ghost use Rattle.halving_plan.specs.Groups.{whole_of};

use crate::bounds::{bound_of, depth_of};
use crate::fields::{base_in, modulus_in};
use crate::groups::Group;
use crate::premises::HalvingPremise;
use std::marker::Model;

const LARGEST_MODULUS: u64 = 1 << 40;

const MOST_NODES: u64 = 256;

/// An accepted plan of the halving construction: so many nodes, of which so many may be faulty, count
/// by a modulus.
#[derive(Clone, Copy, Debug, PartialEq, Eq)]
pub struct HalvingPlan {
    nodes: u32,
    faults: u32,
    modulus: u64,
}

impl Model for HalvingPlan {
    ghost use Rattle.halving_plan.specs.Plans.{HalvingNumbers, IsAccepted};

    ghost Value = { HalvingNumbers };

    ghost view = { λ p. record { nodes = p.nodes; faults = p.faults; modulus = p.modulus } };

    ghost inverse = { λ v. record { nodes = v.nodes; faults = v.faults; modulus = v.modulus } };

    ghost invariant = { λ p. IsAccepted
        (record { nodes = p.nodes; faults = p.faults; modulus = p.modulus }) };
}

impl HalvingPlan {
    /// The plan of these numbers. An error is the first premise that they fail.
    pub fn new(nodes: u64, faults: u64, modulus: u64) -> Result<HalvingPlan, HalvingPremise>
        ensures { let plan : HalvingNumbers = record {
          nodes = nodes;
          faults = faults;
          modulus = modulus;
        } in result ≡ unless (first_premise plan) plan }
    {
        if nodes > MOST_NODES || modulus > LARGEST_MODULUS {
            return Err(HalvingPremise::Limit);
        }
        if modulus < 2 {
            return Err(HalvingPremise::Modulus);
        }
        if faults > nodes || nodes <= 3 * faults {
            return Err(HalvingPremise::Quorum);
        }
        if faults == 0 && nodes > 1 {
            return Err(HalvingPremise::Single);
        }
        Ok(HalvingPlan {
            nodes: nodes as u32,
            faults: faults as u32,
            modulus,
        })
    }

    /// How many nodes there are, 1 to 256.
    pub fn nodes(&self) -> u32
        ensures { result ≡ self.now.nodes }
    {
        self.nodes
    }

    /// How many of them may be faulty, less than a third.
    pub fn faults(&self) -> u32
        ensures { result ≡ self.now.faults }
    {
        self.faults
    }

    /// The modulus that they count by, 2 to 2^40.
    pub fn modulus(&self) -> u64
        ensures { result ≡ self.now.modulus }
    {
        self.modulus
    }

    /// Tells a caller's proof that the plan is accepted. It does nothing when it runs.
    pub fn facts(&self)
        ensures { IsAccepted self.now }
    {
        let _nodes = self.nodes;
    }

    /// From which round on they count, whatever their states were.
    pub fn bound(&self) -> u64
        ensures { result ≡ tree_bound (tree_of self.now) }
    {
        self.facts();
        bound_of(self.faults)
    }

    /// How many registers a state has.
    pub fn depth(&self) -> usize
        ensures { result ≡ tree_depth (tree_of self.now) }
    {
        self.facts();
        depth_of(self.faults)
    }

    /// The group of all nodes. From it [`Group::half_of`] goes down to the lowest group of a node.
    pub fn whole(&self) -> Group
        ensures { result ≡ whole_of self.now }
    {
        self.facts();
        Group::whole(self.nodes, self.faults, self.modulus)
    }

    /// The modulus of the number of a node's states, 1 if the node lacks it.
    pub fn base_of(&self, node: u32) -> u64
        ensures { result ≡ (fields_of self.now node).base }
    {
        base_in(&self.whole(), node)
    }

    /// The modulus of register `i` of a node's states, None if the node lacks the register.
    pub fn modulus_of(&self, node: u32, i: usize) -> Option<u64>
        ensures { result ≡ slice_get (fields_of self.now node).moduli i }
    {
        modulus_in(&self.whole(), node, i)
    }
}
