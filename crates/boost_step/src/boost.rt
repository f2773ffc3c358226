ghost use Rattle.std.specs.Prelude.{◌≡◌};
ghost use Rattle.plan_numbers.specs.Numbers.{line};
ghost use Rattle.plan_numbers.specs.Premises.{first_premise, unless};
ghost use Rattle.plan_laws.specs.Boosted.{boosted, boosted_low, BoostedRange, StandsOn};
ghost use Rattle.plan_laws.proofs.BoostLaws.{boosted_sizes, boosted_lows, boosted_stays_in_range};
ghost use Rattle.plan_laws.proofs.BoostLaws.{boosted_zero_in_range};
ghost use Rattle.plan_laws.proofs.FurtherRegisters.{boosted_ignores_further};
ghost use Rattle.plan_laws.proofs.BoostSettles.{boosted_settles};
ghost use Rattle.boost_step.specs.Groups.{counter_below};

use crate::nodes::Node;
use counter_core::{Counter, Heard, Work, place_in};
use plan_numbers::{Below, LevelNums, level_nums};
use std::marker::Model;
use sync_types::{NodeState, Premise};

/// A level over blocks of a counter. Its nodes stand in blocks, each of which is the counter below,
/// and after the blocks stand its spares. All of them have one more register, which comes to count
/// if few nodes are faulty in all, even if some blocks have too many. A spare has no other field.
#[derive(Drop)]
pub struct Boost<A: Counter> {
    inner: A,
    nums: LevelNums,
}

impl<A: Counter> Model for Boost<A> {
    ghost use Rattle.plan_numbers.specs.Numbers.{level_of};
    ghost use Rattle.boost_step.specs.Groups.{Group, counter_below};
    ghost use Rattle.boost_step.specs.Numbers.{AreNumbersOver};

    ghost Value = { Group A };

    ghost view = { λ b. record { inner = b.inner; level = level_of b.nums } };

    ghost invariant = { λ b.
        A.valid b.inner × AreNumbersOver (counter_below (A.meaning b.inner)) b.nums };
}

impl<A: Counter> Boost<A> {
    /// A level of `k` blocks of `inner` and `s` spare nodes after them, with `f` faults and the
    /// modulus `c`. An error is the first premise that the level fails, in the order `Limit`,
    /// `Blocks`, `Modulus`, `Quorum`, `Share`, `Multiple`.
    pub fn new(inner: A, k: u64, f: u64, c: u64, s: u64) -> Result<Boost<A>, Premise>
        ensures { result ≡ unless (first_premise (counter_below (A.meaning inner)) (line k f c s))
            (record { inner = inner; level = line k f c s }) }
    {
        inner.tell();
        let below = Below {
            nodes: inner.nodes(),
            faults: inner.faults(),
            modulus: inner.modulus(),
            bound: inner.bound(),
            bits: 0,
        };
        let nums = level_nums(&below, k, f, c, s)?;
        Ok(Boost { inner, nums })
    }
}

impl<A: Counter> Counter for Boost<A> {
    ghost valid = { λ b. A.valid b.inner × StandsOn (A.meaning b.inner) b.level };

    ghost meaning = { λ b. boosted (A.meaning b.inner) b.level };

    ghost lowest = { λ b. boosted_low (A.meaning b.inner) b.level (A.lowest b.inner) };

    ghost in_range = { λ b. BoostedRange (A.in_range b.inner) (A.meaning b.inner).depth
        b.level.modulus };

    fn nodes(&self) -> u32 {
        self.nums.nodes
    }

    fn faults(&self) -> u32 {
        self.nums.faults
    }

    fn modulus(&self) -> u64 {
        self.nums.modulus
    }

    fn bound(&self) -> u64 {
        self.nums.bound
    }

    fn depth(&self) -> usize {
        self.inner.depth() + 1
    }

    fn low(&self, place: u32) -> usize {
        let n = self.inner.nodes();
        if place < self.nums.blocks * n {
            self.inner.low(place_in(place, n))
        } else {
            self.depth()
        }
    }

    fn tell(&self) {
        let _nums = &self.nums;
    }

    fn output(&self, _place: u32, state: &NodeState) -> u64 {
        state.reg(self.inner.depth()).a.unwrap_or(0)
    }

    fn advance(&self, place: u32, heard: &Heard<'_>, work: &mut Work, out: &mut NodeState) {
        let node = Node {
            inner: &self.inner,
            nums: &self.nums,
            place,
            heard,
        };
        let reg = node.level_register(work);
        node.step_below(work, out);
        out.set_reg(self.inner.depth(), reg);
    }

    ghost sizes = { λ b v. boosted_sizes (A.meaning b.inner) (A.in_range b.inner) b.level
        (A.sizes b.inner v.0) v.1 };

    ghost lows_are_within = { λ b v. boosted_lows (A.meaning b.inner) (A.in_range b.inner) b.level
        (A.sizes b.inner v.0) (A.lowest b.inner) (A.lows_are_within b.inner v.0) };

    ghost stays_in_range = { λ b v. boosted_stays_in_range (A.meaning b.inner) (A.in_range b.inner)
        b.level (A.sizes b.inner v.0) v.1.least_modulus (A.stays_in_range b.inner v.0)
        (A.ignores_further b.inner v.0) (A.zero_in_range b.inner v.0) };

    ghost ignores_further = { λ b v. boosted_ignores_further (A.meaning b.inner)
        (A.in_range b.inner) b.level (A.sizes b.inner v.0) (A.ignores_further b.inner v.0)
        b.level.modulus };

    ghost zero_in_range = { λ b v. boosted_zero_in_range (A.meaning b.inner) (A.in_range b.inner)
        b.level (A.sizes b.inner v.0) v.1.least_modulus (A.ignores_further b.inner v.0)
        (A.zero_in_range b.inner v.0) };

    ghost settles = { λ b v. boosted_settles (A.meaning b.inner) (A.in_range b.inner) b.level
        (A.sizes b.inner v.0) v.1 (A.settles b.inner v.0) };
}
