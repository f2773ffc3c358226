ghost use Rattle.std.specs.Prelude.{◌≡◌, ◌<◌, ◌≤◌, ◌+◌, ◌*◌, ◌^◌};
ghost use Rattle.halving_plan.specs.Groups.{tree_in, sizes_of};
ghost use Rattle.halving_plan.specs.Fields.{fields_by};
ghost use Rattle.halving_plan.specs.Sizes.{register_bits, fields_bits, level_bits, most_bits};
ghost use Rattle.halving_plan.specs.Sizes.{node_bits, node_bytes, state_bits, state_bytes};
ghost use Rattle.halving_plan.specs.Sizes.{levels_of};

use crate::{Group, HalvingPlan};
use plan_numbers::width;

/// How many bits a register takes whose finite values are below `modulus`.
fn register_bits(modulus: u64) -> u32
    requires { modulus ≤ 2 ^ 40 }
    ensures value { result ≡ register_bits modulus }
    ensures most { result ≤ 42 }
{
    width(modulus + 1) + 1
}

/// How many bits the registers of a group's own level take.
fn level_bits(group: &Group) -> u32
    requires { 0 < group.now.faults }
    ensures value { result ≡ level_bits (sizes_of group.now) group.now.modulus }
    ensures most { result ≤ 84 }
{
    group.facts();
    register_bits(group.modulus()) + register_bits(group.left_period())
}

/// How many bits the states of a node in a group take.
fn bits_of(group: &Group, node: u32) -> u32
    requires { group.now.first ≤ node }
    ensures value { result ≡ fields_bits (fields_by group.now node) }
    ensures most { result ≤ 40 + 84 * group.now.faults }
{
    group.facts();
    if group.faults() == 0 {
        return width(group.modulus());
    }
    match group.half_of(node) {
        Some(half) => level_bits(group) + bits_of(&half, node),
        None => level_bits(group),
    }
}

/// How many bits the states of a node take.
pub fn node_bits(plan: &HalvingPlan, node: u32) -> u32
    ensures { result ≡ node_bits plan.now node }
{
    bits_of(&plan.whole(), node)
}

/// How many bytes hold these bits.
pub fn node_bytes(plan: &HalvingPlan, node: u32) -> u64
    ensures { result ≡ node_bytes plan.now node }
{
    u64::from(node_bits(plan, node).div_ceil(8))
}

/// The most bits that the state of a node in a group takes.
fn bits_in(group: &Group) -> u32
    ensures value { result ≡ most_bits (tree_in group.now) group.now.modulus }
    ensures most { result ≤ 40 + 84 * group.now.faults }
{
    group.facts();
    if group.faults() == 0 {
        return width(group.modulus());
    }
    let left = bits_in(&group.left());
    let right = bits_in(&group.right());
    level_bits(group) + left.max(right)
}

/// The most bits that the state of a node takes.
pub fn state_bits(plan: &HalvingPlan) -> u32
    ensures value { result ≡ state_bits plan.now }
    ensures most { result ≤ 7180 }
{
    plan.facts();
    bits_in(&plan.whole())
}

/// How many bytes hold the bits of such a state.
pub fn state_bytes(plan: &HalvingPlan) -> u64
    ensures { result ≡ state_bytes plan.now }
{
    u64::from(state_bits(plan).div_ceil(8))
}

/// How many levels stand on the lowest node, in the half of the halves that has most.
pub fn levels(plan: &HalvingPlan) -> u64
    ensures { result ≡ levels_of plan.now }
{
    (plan.depth() / 2) as u64
}
