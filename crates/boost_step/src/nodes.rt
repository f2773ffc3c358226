ghost use Rattle.std.specs.Prelude.{◌≡◌, ◌+◌, ◌%◌, ◌≤◌, ◌<◌, take, length, All};
ghost use Rattle.std.proofs.Props.{props};
ghost use Rattle.plan_numbers.specs.Numbers.{level_of};
ghost use Rattle.counter_core.specs.Meanings.{written};
ghost use Rattle.counter_core.specs.Working.{IsWorkFor, IsAsRoomy};
ghost use Rattle.plan_laws.specs.Boosted.{inner_state, level_register, BoostedRange};
ghost use Rattle.boost_step.specs.Numbers.{AreNumbersOver, in_blocks};
ghost use Rattle.boost_step.specs.Groups.{counter_below, outputs_of};

use crate::level::level_step;
use counter_core::{Counter, Heard, Work, block_of, clear, place_in};
use plan_numbers::LevelNums;
use sync_types::{NodeState, Reg};

/// The place after a place in a block of `n` nodes, the first after the last.
fn after(place: u32, n: u32) -> u32
    requires { place < n }
    ensures { result ≡ (place + 1) % n }
{
    if place + 1 == n { 0 } else { place + 1 }
}

/// A node of a level over blocks of a counter, by what it hears of its group.
#[derive(Drop)]
pub(crate) struct Node<'a, A: Counter> {
    pub inner: &'a A,
    pub nums: &'a LevelNums,
    pub place: u32,
    pub heard: &'a Heard<'a>,
    ghost numbers: { AreNumbersOver (counter_below (A.meaning inner.now))
        nums.now } by { Prim.hlevel props },
    ghost within: { place < nums.now.nodes },
    ghost size: { length heard.now ≡ nums.now.nodes },
    ghost deep: { All (λ s. (A.meaning inner.now).depth + 1 ≤ length s.registers) heard.now },
}

impl<A: Counter> Node<'_, A> {
    /// Puts what it hears of the inner outputs of the blocks' nodes into `work`, by place.
    fn hear_outputs(&self, work: &mut Work)
        requires range { All (A.in_range self.now.inner.now) self.now.heard.now }
        requires room { self.now.nums.now.nodes ≤ length work.old.outputs.items }
        ensures outputs { take (in_blocks self.now.nums.now) work.new.outputs.items
            ≡ outputs_of (A.meaning self.now.inner.now) (in_blocks self.now.nums.now)
            self.now.heard.now }
        ensures room { IsAsRoomy work.old work.new }
    {
        self.inner.tell();
        let n = self.inner.nodes();
        let mut place = 0;
        for u in 0..self.nums.blocks * self.nums.block_nodes() {
            work.set_inner(u, self.inner.output(place, self.heard.state(u)));
            place = after(place, n);
        }
    }

    /// Its new register of the level. It leaves the inner outputs heard of the blocks' nodes in
    /// `work`.
    pub fn level_register(&self, work: &mut Work) -> Reg
        requires range { All (BoostedRange (A.in_range self.now.inner.now)
            (A.meaning self.now.inner.now).depth self.now.nums.now.modulus) self.now.heard.now }
        requires work { IsWorkFor self.now.nums.now.nodes work.old }
        ensures register { result ≡ level_register (A.meaning self.now.inner.now)
            (level_of self.now.nums.now) self.now.place self.now.heard.now }
        ensures work { IsAsRoomy work.old work.new }
    {
        self.hear_outputs(work);
        level_step(self.nums, self.place, self.heard, self.inner.depth(), work)
    }

    /// Its step below the level: that of the counter below, by what it hears of its block, or zero
    /// if it is a spare.
    pub fn step_below(&self, work: &mut Work, out: &mut NodeState)
        requires range { All (A.in_range self.now.inner.now) self.now.heard.now }
        requires work { IsWorkFor self.now.nums.now.nodes work.old }
        requires out { (A.meaning self.now.inner.now).depth ≤ length out.old.registers }
        ensures work { IsAsRoomy work.old work.new }
        ensures out { let m = A.meaning self.now.inner.now in
            out.new ≡ written m.depth (inner_state m (level_of self.now.nums.now) self.now.place
            self.now.heard.now) out.old }
    {
        self.inner.tell();
        let n = self.inner.nodes();
        if self.place < self.nums.blocks * n {
            let block = self.heard.block(block_of(self.place, n), n);
            self.inner
                .advance(place_in(self.place, n), &block, work, out);
        } else {
            clear(self.inner.depth(), out);
        }
    }
}
