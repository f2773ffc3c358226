ghost use Rattle.std.specs.Prelude.{◌≡◌, ◌≤◌, ◌++◌, length, replicate, IfOk, IfSome};
ghost use Rattle.state_codec.specs.Shapes.{bits_in, with_further};
ghost use Rattle.layer_parts.specs.CounterParts.{AreFew};
ghost use Rattle.halving_runs.specs.LayerShapes.{shape_with, shape_for};

use halving_plan::{HalvingPlan, all_nodes_fields};
use halving_texts::shape_of;
use layer_parts::Registers;
use state_codec::{Fields, StateShape};
use std::alloc::{AllocError, Global};
use sync_types::NoMemory;

/// The moduli of `depth` registers, and after them those of `count` further ones.
fn moduli_with(
    alloc: Global,
    own: &Fields,
    depth: usize,
    values: u64,
    count: usize,
) -> Result<Vec<u64>, AllocError>
    requires { length own.now.moduli ≡ depth }
    ensures { IfOk result
        (λ moduli. moduli.items ≡ own.now.moduli ++ replicate count values) }
{
    let mut moduli = Vec::with_capacity(alloc, depth)?;
    for i in 0..depth {
        moduli.push(own.register(i).modulus)?;
    }
    for _ in 0..count {
        moduli.push(values)?;
    }
    Ok(moduli)
}

/// The fields of states of `depth` registers, with `count` further ones after them, at most 2,
/// whose values are those below `values`, at most 65536.
fn fields_with(
    alloc: Global,
    own: &Fields,
    depth: usize,
    values: u64,
    count: usize,
) -> Result<Fields, NoMemory>
    requires depth { length own.now.moduli ≡ depth }
    requires small { bits_in own.now ≤ 464 }
    requires most { values ≤ 65536 }
    requires few { count ≤ 2 }
    ensures { IfOk result (λ fields. fields ≡ with_further own.now values count) }
{
    own.facts();
    let moduli = moduli_with(alloc, own, depth, values, count)?;
    Fields::new(alloc, own.base(), moduli)
}

/// The shape of a plan's states with `count` further registers after the plan's, at most 2, which
/// every node has and whose values are those below `values`, 2 to 65536. The only error is want of
/// memory.
fn shape_with(
    alloc: Global,
    plan: &HalvingPlan,
    values: u64,
    count: usize,
) -> Result<StateShape, NoMemory>
    requires least { 2 ≤ values }
    requires most { values ≤ 65536 }
    requires few { count ≤ 2 }
    ensures { IfOk result (λ shape. shape ≡ shape_with plan.now values count) }
{
    plan.facts();
    let depth = plan.depth();
    let own = all_nodes_fields(alloc, plan)?;
    let mut fields = Vec::with_capacity(alloc, own.len())?;
    for v in 0..own.len() {
        let more = fields_with(alloc, &own[v], depth, values, count)?;
        fields.push(more).map_err(|_| NoMemory)?;
    }
    StateShape::by_node(alloc, depth + count, &fields)
}

/// The shape of a plan's states, with these registers after the plan's. The only error is want of
/// memory.
pub(crate) fn shape_for(
    alloc: Global,
    plan: &HalvingPlan,
    registers: Option<Registers>,
) -> Result<StateShape, NoMemory>
    requires { IfSome registers AreFew }
    ensures { IfOk result (λ shape. shape ≡ shape_for plan.now registers) }
{
    match registers {
        None => shape_of(alloc, plan),
        Some(more) => shape_with(alloc, plan, more.values, more.count),
    }
}
