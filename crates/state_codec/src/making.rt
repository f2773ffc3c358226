ghost use Rattle.std.specs.Prelude.{◌≡◌, ◌<◌, ◌≤◌, ◌+◌, ◌^◌, nat_lt, ◌==◌, if◌then◌else◌, length};
ghost use Rattle.std.specs.Prelude.{map, slice_index_or, ◌++◌, ◌∷◌, [], ◌⊎◌, All, IfOk};
ghost use Rattle.std.specs.List.{range_with_len};
ghost use Rattle.construction.specs.Plans.{plan_depth};
ghost use Rattle.state_codec.specs.Shapes.{moduli_of, lows_of, moduli_from, fields_from};
ghost use Rattle.state_codec.specs.Shapes.{all_over, no_fields};

use crate::fields::Fields;
use plan_numbers::Plan;
use std::alloc::Global;
use sync_types::NoMemory;

/// The moduli of the registers of a shape, the lowest first.
#[derive(Drop)]
pub struct Moduli {
    pub items: Vec<u64>,
    ghost limits: { All (λ modulus. (2 ≤ modulus) × (modulus ≤ 2 ^ 40)) items.items },
    ghost few: { length items.items ≤ 16 },
}

/// The moduli of a plan's levels, the lowest first.
pub fn level_moduli(alloc: Global, plan: &Plan) -> Result<Vec<u64>, NoMemory>
    ensures value { IfOk result (λ moduli. moduli.items ≡ moduli_of plan.now.levels) }
    ensures limits { IfOk result
        (λ moduli. All (λ modulus. (2 ≤ modulus) × (modulus ≤ 2 ^ 40)) moduli.items) }
    ensures few { IfOk result (λ moduli. length moduli.items ≤ 5) }
{
    plan.facts();
    let mut moduli = vec![in alloc; 0; plan.depth()]?;
    for i in 0..plan.depth() {
        moduli[i] = plan.level(i).modulus;
    }
    Ok(moduli)
}

/// The low of each node of a plan.
#[tactic(auto, using(crate::proofs::Lows::made_more))]
pub fn node_lows(alloc: Global, plan: &Plan) -> Result<Vec<usize>, NoMemory>
    ensures { IfOk result (λ lows. lows.items ≡ lows_of plan.now) }
{
    let nodes = plan.nodes();
    let mut lows = Vec::with_capacity(alloc, nodes as usize)?;
    for v in 0..nodes {
        lows.push(plan.low(v)).map_err(|_| NoMemory)?;
    }
    Ok(lows)
}

/// The modulus of the register of a level at a node of that low: 0 if the node lacks it.
fn modulus_from(low: usize, level: usize, modulus: u64) -> u64
    ensures { result ≡ if nat_lt level low then 0 else modulus }
{
    if level < low { 0 } else { modulus }
}

/// The modulus of the number at a node of that low: 1 if the node lacks it.
fn base_from(low: usize, base: u64) -> u64
    ensures { result ≡ if low == 0 then base else 1 }
{
    if low == 0 { base } else { 1 }
}

/// The moduli of the registers that a node of that low has.
#[tactic(auto, using(crate::proofs::Lows::made_more))]
fn moduli_from(alloc: Global, low: usize, moduli: &[u64]) -> Result<Vec<u64>, NoMemory>
    ensures { IfOk result (λ found. found.items ≡ moduli_from low moduli.now) }
{
    let mut found = Vec::with_capacity(alloc, moduli.len())?;
    for i in 0..moduli.len() {
        found
            .push(modulus_from(low, i + 1, moduli[i]))
            .map_err(|_| NoMemory)?;
    }
    Ok(found)
}

/// The fields for each low up to a plan's depth.
#[tactic(auto, using(crate::proofs::Lows::made_more))]
pub fn kinds(alloc: Global, plan: &Plan, moduli: &Moduli) -> Result<Vec<Fields>, NoMemory>
    ensures { IfOk result (λ kinds. kinds.items
        ≡ map (fields_from (all_over plan.now moduli.now.items.items))
        (range_with_len 0 (plan_depth plan.now + 1))) }
{
    plan.facts();
    let base = plan.base_modulus();
    let lows = plan.depth() + 1;
    let mut kinds = Vec::with_capacity(alloc, lows)?;
    for low in 0..lows {
        let own = base_from(low, base);
        let fields = Fields::new(alloc, own, moduli_from(alloc, low, &moduli.items)?)?;
        kinds.push(fields).map_err(|_| NoMemory)?;
    }
    Ok(kinds)
}

/// The same fields, each made anew.
#[tactic(auto, using(crate::proofs::Lows::taken_more))]
pub fn copies(alloc: Global, kinds: &[Fields]) -> Result<Vec<Fields>, NoMemory>
    ensures { IfOk result (λ made. made.items ≡ kinds.now) }
{
    let mut made = Vec::with_capacity(alloc, kinds.len())?;
    for i in 0..kinds.len() {
        let fields = kinds[i].try_clone(alloc)?;
        made.push(fields).map_err(|_| NoMemory)?;
    }
    Ok(made)
}

/// The place of the first of these fields that are the same, or the end if there are none.
fn place_of(kinds: &[Fields], fields: &Fields) -> usize
    ensures most { result ≤ length kinds.now }
    ensures same { result < length kinds.now
        → slice_index_or kinds.now result no_fields ≡ fields.now }
{
    for i in 0..kinds.len() {
        if kinds[i].is_same(fields) {
            return i;
        }
    }
    kinds.len()
}

/// The place of fields among kinds, to which they are added if they are new.
pub fn kind_among(
    alloc: Global,
    kinds: &mut Vec<Fields>,
    fields: &Fields,
) -> Result<usize, NoMemory>
    ensures within { IfOk result (λ kind. kind < length kinds.new.items) }
    ensures same { IfOk result (λ kind.
        slice_index_or kinds.new.items kind no_fields ≡ fields.now) }
    ensures grown { IfOk result (λ kind. (kinds.new.items ≡ kinds.old.items)
        ⊎ (kinds.new.items ≡ kinds.old.items ++ fields.now ∷ [])) }
{
    let kind = place_of(kinds, fields);
    if kind == kinds.len() {
        let made = fields.try_clone(alloc)?;
        kinds.push(made).map_err(|_| NoMemory)?;
    }
    Ok(kind)
}
