ghost use Rattle.std.specs.Prelude.{◌≡◌, ◌≤◌, ◌+◌, length, map, vec_capacity, true, false};
ghost use Rattle.std.specs.Prelude.{replicate, IfOk};
ghost use Rattle.std.specs.List.{range_with_len};
ghost use Rattle.sync_types.specs.FaultSets.{is_in};
ghost use Rattle.shared_board.specs.Sharing.{place_among};

use std::alloc::Global;
use sync_types::{FaultSet, NoMemory};

/// Marks of so many nodes, none of which lies.
pub(crate) fn zero_marks(alloc: Global, nodes: usize) -> Result<Vec<bool>, NoMemory>
    ensures { IfOk result (λ marks. marks.items ≡ replicate nodes false) }
{
    let marks = vec![in alloc; false; nodes]?;
    Ok(marks)
}

/// So many counts of none.
pub(crate) fn zero_counts(alloc: Global, counts: usize) -> Result<Vec<u32>, NoMemory>
    ensures { IfOk result (λ before. before.items ≡ replicate counts 0) }
{
    let before = vec![in alloc; 0; counts]?;
    Ok(before)
}

/// Takes the ids of a faulty set.
fn copy_ids(faulty: &FaultSet, ids: &mut Vec<u32>)
    requires { length faulty.now.ids ≤ vec_capacity ids.old }
    ensures ids { ids.new.items ≡ faulty.now.ids }
    ensures room { vec_capacity ids.old ≤ vec_capacity ids.new }
{
    ids.clear();
    for i in 0..faulty.len() {
        ids.push(faulty.at(i)).unwrap();
    }
}

/// Marks the liars among the nodes, and counts for each node those below it, and after these all of
/// them.
fn mark(faulty: &FaultSet, marks: &mut Vec<bool>, before: &mut Vec<u32>)
    requires size { length before.old.items ≡ length marks.old.items + 1 }
    requires most { length marks.old.items ≤ 256 }
    ensures marks { marks.new.items
        ≡ map (is_in faulty.now.ids) (range_with_len 0 (length marks.old.items)) }
    ensures before { before.new.items
        ≡ map (place_among faulty.now.ids) (range_with_len 0 (length marks.old.items + 1)) }
{
    let nodes = marks.len();
    let mut count = 0;
    for v in 0..nodes {
        before[v] = count;
        let is_liar = faulty.contains(v as u32);
        marks[v] = is_liar;
        if is_liar {
            count += 1;
        }
    }
    before[nodes] = count;
}

/// Whether these are the ids of a faulty set.
fn are_ids(ids: &[u32], faulty: &FaultSet) -> bool
    ensures { result ≡ true → ids.now ≡ faulty.now.ids }
{
    if ids.len() != faulty.len() {
        return false;
    }
    for i in 0..ids.len() {
        if ids[i] != faulty.at(i) {
            return false;
        }
    }
    true
}

/// Takes the ids of a faulty set, and marks and counts the liars anew if they are others.
pub(crate) fn take_liars(
    faulty: &FaultSet,
    ids: &mut Vec<u32>,
    marks: &mut Vec<bool>,
    before: &mut Vec<u32>,
)
    requires room { length faulty.now.ids ≤ vec_capacity ids.old }
    requires size { length before.old.items ≡ length marks.old.items + 1 }
    requires most { length marks.old.items ≤ 256 }
    requires marks { marks.old.items
        ≡ map (is_in ids.old.items) (range_with_len 0 (length marks.old.items)) }
    requires before { before.old.items
        ≡ map (place_among ids.old.items) (range_with_len 0 (length marks.old.items + 1)) }
    ensures ids { ids.new.items ≡ faulty.now.ids }
    ensures room { vec_capacity ids.old ≤ vec_capacity ids.new }
    ensures marks { marks.new.items
        ≡ map (is_in faulty.now.ids) (range_with_len 0 (length marks.old.items)) }
    ensures before { before.new.items
        ≡ map (place_among faulty.now.ids) (range_with_len 0 (length marks.old.items + 1)) }
{
    if are_ids(ids, faulty) {
        return;
    }
    copy_ids(faulty, ids);
    mark(faulty, marks, before);
}
