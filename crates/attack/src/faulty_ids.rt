//! Sets of faulty nodes that are drawn.
//!
//! `NoMemory` comes from each call that gives it if memory was refused.

ghost use Rattle.std.specs.Prelude.{◌≡◌, ◌+◌, ◌≤◌, length, slice_index, slice_set, IfOk};
ghost use Rattle.std.specs.List.{range_with_len, remove};
ghost use Rattle.halving_plan.specs.Trees.{left_part};
ghost use Rattle.attack.specs.FaultyIds.{is_among, others, left_over, chosen};
ghost use Rattle.attack.specs.FaultyIds.{king_at, place_past, kings_but, exchanged};

use crate::draws::Lot;
use std::alloc::Global;
use sync_types::NoMemory;

/// Whether an id is among these.
fn is_among(ids: &[u32], id: u32) -> bool
    ensures { result ≡ is_among ids.now id }
{
    ids.contains(&id)
}

/// The ids of all nodes, rising.
fn all_ids(alloc: Global, nodes: u32) -> Result<Vec<u32>, NoMemory>
    ensures { IfOk result (λ all. all.items ≡ range_with_len 0 nodes) }
{
    let mut all = Vec::new(alloc);
    for id in 0..nodes {
        all.push(id).map_err(|_| NoMemory)?;
    }
    Ok(all)
}

/// The ids of the other ones of so many nodes, rising.
#[tactic(auto, using(crate::proofs::Ranges::others_with, crate::proofs::Ranges::others_without))]
pub(crate) fn others(alloc: Global, nodes: u32, ids: &[u32]) -> Result<Vec<u32>, NoMemory>
    ensures { IfOk result (λ rest. rest.items ≡ others nodes ids.now) }
{
    let mut rest = Vec::new(alloc);
    for id in 0..nodes {
        if !is_among(ids, id) {
            rest.push(id).map_err(|_| NoMemory)?;
        }
    }
    Ok(rest)
}

/// Takes away the id at a place, if there is one.
fn remove_at(ids: &mut Vec<u32>, place: u64)
    ensures { ids.new.items ≡ remove ids.old.items place }
{
    let place = place as usize;
    if place < ids.len() {
        let _id = ids.remove(place);
    }
}

/// Takes so many ids away, each at a place that is drawn.
fn take_away(lot: Lot, ids: &mut Vec<u32>, count: u32)
    ensures { ids.new.items ≡ left_over lot.seed ids.old.items count }
{
    for i in 0..count {
        let place = lot.below(u64::from(i), ids.len() as u64);
        remove_at(ids, place);
    }
}

/// So many ids of so many nodes, rising, that are drawn.
#[tactic(auto, unfolding(crate::specs::FaultyIds::chosen))]
pub(crate) fn chosen(alloc: Global, lot: Lot, nodes: u32, count: u32) -> Result<Vec<u32>, NoMemory>
    ensures { IfOk result (λ ids. ids.items ≡ chosen lot.seed nodes count) }
{
    let mut rest = all_ids(alloc, nodes)?;
    take_away(lot, &mut rest, count);
    others(alloc, nodes, &rest)
}

/// How many faults the left half tolerates of a halving plan that tolerates so many.
pub(crate) fn left_part(faults: u32) -> u32
    requires { faults ≤ 256 }
    ensures { result ≡ left_part faults }
{
    5 * faults / 13
}

/// The king at a place among those of both halves, whose left half tolerates so many faults.
fn king_at(left: u32, place: u32) -> u32
    requires left { left ≤ 256 }
    requires place { place ≤ 257 }
    ensures { result ≡ king_at left place }
{
    if left < place {
        return place + 2 * left;
    }
    place
}

/// The place of king `i` of those that are left without the one at a place.
fn place_past(without: u32, i: u32) -> u32
    requires { i ≤ 256 }
    ensures value { result ≡ place_past without i }
    ensures most { result ≤ i + 1 }
{
    if i < without {
        return i;
    }
    i + 1
}

/// So many kings of both halves, without the one at a place. The left half tolerates so many
/// faults.
pub(crate) fn kings_but(
    alloc: Global,
    left: u32,
    without: u32,
    count: u32,
) -> Result<Vec<u32>, NoMemory>
    requires left { left ≤ 256 }
    requires few { count ≤ 256 }
    ensures { IfOk result (λ ids. ids.items ≡ kings_but left without count) }
{
    let mut ids = Vec::new(alloc);
    for i in 0..count {
        let id = king_at(left, place_past(without, i));
        ids.push(id).map_err(|_| NoMemory)?;
    }
    Ok(ids)
}

/// The faulty ids of so many nodes, when the correct one at a place takes the place of the faulty
/// one `old`. If there is no such place, they are as they were.
pub(crate) fn exchanged(
    alloc: Global,
    nodes: u32,
    faulty: &[u32],
    place: u64,
    old: u32,
) -> Result<Vec<u32>, NoMemory>
    ensures { IfOk result (λ ids. ids.items ≡ exchanged nodes faulty.now place old) }
{
    let mut correct = others(alloc, nodes, faulty)?;
    let place = place as usize;
    if place < correct.len() {
        correct[place] = old;
    }
    others(alloc, nodes, &correct)
}
