ghost use Rattle.std.specs.Prelude.{◌≡◌, map, IfOk};
ghost use Rattle.std.specs.List.{range_with_len};
ghost use Rattle.construction.specs.Plans.{interval_of};
ghost use Rattle.shared_board.specs.Votes.{HasRoomIn};
ghost use Rattle.shared_board.specs.GroupVotes.{AreNumbers};

use crate::polls::SharedTally;
use plan_numbers::LevelNums;
use std::alloc::Global;
use sync_types::NoMemory;

/// So many polls, each with room for `capacity` values.
pub(crate) fn polls(
    alloc: Global,
    count: usize,
    capacity: usize,
) -> Result<Vec<SharedTally>, NoMemory>
    ensures { IfOk result (λ ps. HasRoomIn count capacity ps.items) }
{
    let mut polls = Vec::with_capacity(alloc, count)?;
    for _ in 0..count {
        polls.push(SharedTally::new(alloc, capacity)?).unwrap();
    }
    Ok(polls)
}

/// The interval of each block of a level.
pub(crate) fn intervals(alloc: Global, nums: &LevelNums) -> Result<Vec<u64>, NoMemory>
    requires { AreNumbers nums.now }
    ensures { IfOk result (λ is. is.items
        ≡ map (interval_of nums.now.beat nums.now.leaders) (range_with_len 0 nums.now.blocks)) }
{
    let mut intervals = Vec::with_capacity(alloc, nums.blocks as usize)?;
    let mut interval = nums.beat;
    for _ in 0..nums.blocks {
        intervals.push(interval).unwrap();
        interval *= 2 * u64::from(nums.leaders);
    }
    Ok(intervals)
}
