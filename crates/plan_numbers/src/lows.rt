ghost use Rattle.std.specs.Prelude.{◌≡◌};
ghost use Rattle.construction.specs.Plans.{low_of};
ghost use Rattle.plan_numbers.specs.Numbers.{levels_in};
ghost use Rattle.plan_numbers.specs.Stacked.{AreSomeLevels};

use crate::numbers::LevelNums;

/// The level from which on the node at a place of a group of these levels takes part: that of which
/// it is a spare, or 0 if it is none. The lowest level stands first.
pub fn low_in(levels: &[LevelNums], place: u32) -> usize
    requires { AreSomeLevels levels.now }
    ensures { result ≡ low_of (levels_in levels.now) place }
{
    let Some((top, below)) = levels.split_last() else {
        return 0;
    };
    let n = top.block_nodes();
    if place < top.blocks * n {
        low_in(below, place % n)
    } else {
        levels.len()
    }
}
