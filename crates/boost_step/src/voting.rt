ghost use Rattle.std.specs.Prelude.{◌≡◌, ◌<◌, take};
ghost use Rattle.construction.specs.Votes.{vote};
ghost use Rattle.plan_numbers.specs.Numbers.{level_of};
ghost use Rattle.counter_core.specs.Working.{IsWorkFor};
ghost use Rattle.boost_step.specs.Numbers.{AreNumbers, block_nodes, in_blocks};
ghost use Rattle.boost_step.specs.Kept.{KeepsOutputs};

use crate::divisors::Divisor;
use crate::votes::block_vote;
use counter_core::Work;
use plan_numbers::LevelNums;

/// The vote of block `i`: the leader to which most of its nodes point, by the inner outputs in
/// `work`.
pub fn vote(nums: &LevelNums, i: u32, work: &mut Work) -> u64
    requires numbers { AreNumbers nums.now }
    requires block { i < nums.now.blocks }
    requires work { IsWorkFor nums.now.nodes work.old }
    ensures vote { let outputs = take (in_blocks nums.now) work.old.outputs.items in
        result ≡ vote (level_of nums.now) (block_nodes nums.now) outputs i }
    ensures work { KeepsOutputs work.old work.new }
{
    let n = nums.block_nodes() as usize;
    let leaders = u64::from(nums.leaders);
    let interval = nums.beat * (2 * leaders).pow(i);
    let start = i as usize * n;
    block_vote(
        &work.outputs[start..start + n],
        Divisor::new(interval),
        leaders,
    )
}
