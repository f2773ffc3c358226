ghost use Rattle.std.specs.Prelude.{◌≡◌, ◌<◌, ◌≤◌, ◌^◌, ◌&&◌, not, true, [], length, All, IfOk};
ghost use Rattle.sync_types.specs.FaultSets.{is_in};
ghost use Rattle.texts.specs.Shapes.{all_numbers};
ghost use Rattle.std.specs.List.{range_with_len};
ghost use Rattle.run_checker.specs.Grammar.{most_eras};
ghost use Rattle.run_checker.specs.Checking.{needs_state};
ghost use Rattle.run_checker.specs.Sets.{no_ids, is_above, may_follow, ReadsBorne, GivesSet};

use edge_io::{Words, number};
use std::alloc::Global;
use sync_types::{FaultSet, NoMemory};

/// Whether an id is above all of a set.
fn is_above(set: &FaultSet, id: u64) -> bool
    ensures { result ≡ is_above set.now.ids id }
{
    let count = set.len();
    count == 0 || u64::from(set.at(count - 1)) < id
}

/// Whether an id may follow those of a set of at most `faults`.
fn may_follow(faults: u32, set: &FaultSet, id: u64) -> bool
    ensures value { result ≡ may_follow set.now.nodes faults set.now.ids id }
    ensures small { result ≡ true → id < 2 ^ 32 }
{
    id < u64::from(set.nodes()) && set.len() < faults as usize && is_above(set, id)
}

/// Reads the ids of words into an empty set: false if they are not those of at most `faults` nodes.
pub fn read_ids(words: Words<'_>, faults: u32, set: &mut FaultSet) -> bool
    requires { set.old.ids ≡ [] }
    ensures nodes { set.new.nodes ≡ set.old.nodes }
    ensures ids { ReadsBorne set.old.nodes faults (all_numbers words.entry) set.new.ids result }
    ensures few { result ≡ true → length set.new.ids ≤ faults }
{
    for word in words {
        let Some(id) = number(word) else {
            return false;
        };
        if !may_follow(faults, set, id) {
            return false;
        }
        set.push(id as u32);
    }
    true
}

/// How many eras may begin after rounds in a certificate of a version.
pub fn most_eras(version: u32) -> u32
    ensures { result ≡ most_eras version }
{
    if version == 1 { 0 } else { 16 }
}

/// So many sets with no faulty node.
pub fn empty_sets(alloc: Global, nodes: u32, count: u32) -> Result<Vec<FaultSet>, NoMemory>
    ensures count { IfOk result (λ sets. length sets.items ≡ count) }
    ensures empty { IfOk result (λ sets. All (λ set. set ≡ no_ids nodes) sets.items) }
{
    let mut sets = Vec::with_capacity(alloc, count as usize)?;
    for _ in 0..count {
        let set = FaultSet::new(alloc, nodes)?;
        sets.push(set).map_err(|_| NoMemory)?;
    }
    Ok(sets)
}

/// All nodes.
pub fn all_nodes(alloc: Global, nodes: u32) -> Result<FaultSet, NoMemory>
    ensures { GivesSet nodes (range_with_len 0 nodes) result }
{
    let mut set = FaultSet::new(alloc, nodes)?;
    for v in 0..nodes {
        set.push(v);
    }
    Ok(set)
}

/// Whether a node needs a state: it is correct, and none is known of it.
fn needs(unknown: &FaultSet, faulty: &FaultSet, v: u32) -> bool
    ensures { result ≡ (is_in unknown.now.ids v && not (is_in faulty.now.ids v)) }
{
    unknown.contains(v) && !faulty.contains(v)
}

/// Whether some correct node from `from` up to `to`, the last left out, needs a state: one of which
/// none is known.
pub fn needs_state(unknown: &FaultSet, faulty: &FaultSet, from: u32, to: u32) -> bool
    ensures { result ≡ needs_state unknown.now.ids faulty.now.ids from to }
{
    for v in from..to {
        if needs(unknown, faulty, v) {
            return true;
        }
    }
    false
}
