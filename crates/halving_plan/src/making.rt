ghost use Rattle.std.specs.Prelude.{◌≡◌, ◌<◌, map, IfOk};
ghost use Rattle.std.specs.List.{range_with_len};
ghost use Rattle.halving_plan.specs.Runs.{all_fields};
ghost use Rattle.halving_plan.specs.Plans.{tree_of};

use crate::HalvingPlan;
use state_codec::Fields;
use std::alloc::{AllocError, Global};
use sync_types::NoMemory;

/// A modulus for each register of a node's states; those that the node lacks have 0.
fn node_moduli(alloc: Global, plan: &HalvingPlan, node: u32) -> Result<Vec<u64>, AllocError>
    ensures { IfOk result (λ moduli.
        moduli.items ≡ (all_fields (tree_of plan.now) plan.now.modulus node).moduli) }
{
    plan.facts();
    let depth = plan.depth();
    let mut moduli = Vec::with_capacity(alloc, depth)?;
    for i in 0..depth {
        moduli.push(plan.modulus_of(node, i).unwrap_or(0))?;
    }
    Ok(moduli)
}

/// The fields of a node of a plan.
fn node_fields(alloc: Global, plan: &HalvingPlan, node: u32) -> Result<Fields, NoMemory>
    requires { node < plan.now.nodes }
    ensures { IfOk result
        (λ fields. fields ≡ all_fields (tree_of plan.now) plan.now.modulus node) }
{
    plan.facts();
    let moduli = node_moduli(alloc, plan, node)?;
    Fields::new(alloc, plan.base_of(node), moduli)
}

/// The fields of each node.
#[tactic(auto, using(state_codec::proofs::Lows::made_more))]
pub fn all_nodes_fields(alloc: Global, plan: &HalvingPlan) -> Result<Vec<Fields>, NoMemory>
    ensures { IfOk result (λ fields. fields.items
        ≡ map (all_fields (tree_of plan.now) plan.now.modulus) (range_with_len 0 plan.now.nodes)) }
{
    let nodes = plan.nodes();
    let mut fields = Vec::with_capacity(alloc, nodes as usize)?;
    for node in 0..nodes {
        let own = node_fields(alloc, plan, node)?;
        fields.push(own).map_err(|_| NoMemory)?;
    }
    Ok(fields)
}
