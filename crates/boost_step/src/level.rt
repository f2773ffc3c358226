ghost use Rattle.std.specs.Prelude.{◌≡◌, ◌+◌, ◌*◌, ◌<◌, take, map, length, All};
ghost use Rattle.std.specs.Prelude.{IfSome};
ghost use Rattle.sync_types.specs.States.{register_at};
ghost use Rattle.construction.specs.Votes.{lead, beat_heard};
ghost use Rattle.construction.specs.Steps.{state_of, register_after};
ghost use Rattle.plan_numbers.specs.Numbers.{level_of};
ghost use Rattle.counter_core.specs.Working.{IsWorkFor};
ghost use Rattle.boost_step.specs.Numbers.{AreNumbers, block_nodes, in_blocks};
ghost use Rattle.boost_step.specs.Kept.{KeepsOutputs};

use crate::divisors::Divisor;
use crate::most::most_below;
use crate::readings::Itself;
use crate::votes::{block_beat, block_vote};
use counter_core::{Heard, HeardRegister, Work};
use phase_king::king_step;
use plan_numbers::LevelNums;
use sync_types::Reg;

/// The block that leads: the one for which most blocks vote, by the inner outputs in `work`.
pub fn lead(nums: &LevelNums, work: &mut Work) -> u32
    requires numbers { AreNumbers nums.now }
    requires work { IsWorkFor nums.now.nodes work.old }
    ensures lead { let outputs = take (in_blocks nums.now) work.old.outputs.items in
        result ≡ lead (level_of nums.now) (block_nodes nums.now) outputs }
    ensures below { result < nums.now.leaders }
    ensures work { KeepsOutputs work.old work.new }
{
    let n = ((nums.nodes - nums.spares) / nums.blocks) as usize;
    let leaders = u64::from(nums.leaders);
    let mut interval = Divisor::new(nums.beat);
    let mut start = 0;
    for i in 0..nums.blocks {
        let next = interval.next_interval(leaders);
        let vote = block_vote(&work.outputs[start..start + n], interval, leaders);
        work.votes[i as usize] = vote;
        interval = next;
        start += n;
    }
    most_below(&Itself, &work.votes[..nums.blocks as usize], leaders) as u32
}

/// The beat heard: the part of the beat at which most nodes of the leading block are, by the inner
/// outputs in `work`.
pub fn beat(nums: &LevelNums, work: &mut Work) -> u64
    requires numbers { AreNumbers nums.now }
    requires work { IsWorkFor nums.now.nodes work.old }
    ensures beat { let outputs = take (in_blocks nums.now) work.old.outputs.items in
        result ≡ beat_heard (level_of nums.now) (block_nodes nums.now) outputs }
    ensures below { result < nums.now.beat }
    ensures work { KeepsOutputs work.old work.new }
{
    let n = nums.block_nodes() as usize;
    let start = lead(nums, work) as usize * n;
    block_beat(&work.outputs[start..start + n], nums.beat)
}

/// One level's instruction to the register of the node at a place, by what the node hears of its
/// group: the new register. The node may be a spare.
///
/// The inner outputs are the numbers that `work` keeps at the places of the blocks' nodes; those at
/// the places of spares after them are not read. `register` is the index of the level's register in
/// the states.
pub fn level_step(
    nums: &LevelNums,
    place: u32,
    heard: &Heard<'_>,
    register: usize,
    work: &mut Work,
) -> Reg
    requires numbers { AreNumbers nums.now }
    requires place { place < nums.now.nodes }
    requires heard { length heard.now ≡ nums.now.nodes }
    requires deep { All (λ s. register < length s.registers) heard.now }
    requires range { All (λ s. IfSome (register_at register s).a (λ a. a < nums.now.modulus))
        heard.now }
    requires work { IsWorkFor nums.now.nodes work.old }
    ensures register { result ≡ register_after (block_nodes nums.now) (level_of nums.now)
        (register_at register (state_of heard.now place))
        (take (in_blocks nums.now) work.old.outputs.items)
        (map (λ s. (register_at register s).a) heard.now) }
    ensures range { IfSome result.a (λ a. a < nums.now.modulus) }
    ensures work { KeepsOutputs work.old work.new }
{
    let beat = beat(nums, work);
    let kind = beat % 3;
    let values = HeardRegister::of(heard, register, nums.nodes, nums.faults);
    let own = values.at(place);
    let counted = values.count_for(kind, own, (beat / 3) as u32, &mut work.values);
    king_step(
        kind,
        own,
        counted.same,
        counted.least,
        counted.king,
        nums.nodes,
        nums.faults,
        nums.modulus,
    )
}
