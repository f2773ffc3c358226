ghost use Rattle.std.specs.Prelude.{◌≡◌, ◌<◌, ◌≤◌, ◌+◌, length, IfOk};
ghost use Rattle.construction.specs.Plans.{nodes_of};
ghost use Rattle.plan_numbers.specs.Numbers.{levels_in};
ghost use Rattle.plan_numbers.specs.Stacked.{AreSomeLevels};
ghost use Rattle.shared_board.specs.Groups.{group_count, index_at};
ghost use Rattle.tower.specs.Rows.{IsRow, AreRows};

use crate::steps::nodes_over;
use plan_numbers::{LevelNums, low_in};
use std::alloc::Global;
use sync_types::NoMemory;

/// From which level on a node takes part, and where its group of each level stands among the
/// groups; below that level the places say nothing.
#[derive(Drop)]
pub(crate) struct Row {
    pub low: usize,
    pub places: Vec<usize>,
}

/// How many groups these levels have, the lowest of which stands first.
fn group_count(levels: &[LevelNums]) -> usize
    requires { AreSomeLevels levels.now }
    ensures count { result ≡ group_count (levels_in levels.now) }
    ensures few { result < nodes_of (levels_in levels.now) }
{
    let Some((top, below)) = levels.split_last() else {
        return 0;
    };
    1 + top.blocks as usize * group_count(below)
}

/// Where the group of the node at a place stands that is above `height` levels.
fn group_index(levels: &[LevelNums], place: u32, height: usize) -> usize
    requires levels { AreSomeLevels levels.now }
    requires place { place < 256 }
    ensures index { result ≡ index_at (levels_in levels.now) place height }
    ensures small { result ≤ length levels.now + place }
{
    let Some((top, below)) = levels.split_last() else {
        return 0;
    };
    if height == below.len() {
        return 0;
    }
    let n = top.block_nodes();
    let before = (place / n) as usize * group_count(below);
    1 + before + group_index(below, place % n, height)
}

/// The row of a node.
fn row_of(alloc: Global, levels: &[LevelNums], node: u32) -> Result<Row, NoMemory>
    requires levels { AreSomeLevels levels.now }
    requires node { node < 256 }
    ensures { IfOk result (IsRow (levels_in levels.now) node) }
{
    let mut places = Vec::with_capacity(alloc, levels.len())?;
    for height in 0..levels.len() {
        places.push(group_index(levels, node, height)).unwrap();
    }
    Ok(Row {
        low: low_in(levels, node),
        places,
    })
}

/// The rows of the nodes of these levels.
pub(crate) fn rows_of(alloc: Global, levels: &[LevelNums]) -> Result<Vec<Row>, NoMemory>
    requires { AreSomeLevels levels.now }
    ensures { IfOk result
        (λ rows. AreRows (levels_in levels.now) (nodes_of (levels_in levels.now)) rows.items) }
{
    let nodes = nodes_over(levels);
    let mut rows = Vec::with_capacity(alloc, nodes as usize)?;
    for node in 0..nodes {
        rows.push(row_of(alloc, levels, node)?).unwrap();
    }
    Ok(rows)
}
