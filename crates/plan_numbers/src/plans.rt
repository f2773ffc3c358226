ghost use Rattle.std.specs.Prelude.{◌≡◌, ◌*◌, Some, None, ◌<◌, ◌≤◌, slice_get, OnOk, OnErr, IfErr};
ghost use Rattle.std.specs.Int.{div_ceil};
ghost use Rattle.construction.specs.Plans.{plan_nodes, plan_faults, plan_modulus, plan_bound};
ghost use Rattle.construction.specs.Plans.{plan_bits, plan_low, plan_depth};
ghost use Rattle.plan_numbers.specs.Numbers.{line, level_of, with_level, level_numbers};
ghost use Rattle.plan_numbers.specs.Numbers.{numbers_below, numbers_over};
ghost use Rattle.plan_numbers.specs.Premises.{first_premise, FitsVersion, IsAccepted};
ghost use Rattle.plan_numbers.specs.Sizes.{IsSized, IsSizedLevel};
ghost use Rattle.plan_numbers.specs.Begun.{Begins};

use crate::levels::{LARGEST_MODULUS, level_nums};
use crate::lows::low_in;
use crate::numbers::{Below, LevelNums};
use crate::widths::width;
use std::alloc::{AllocError, Global};
use std::marker::Model;
use sync_types::Premise;
use thiserror::Error;

/// No accepted plan has more levels: five have 243 nodes at least, and six would have 729.
const MOST_LEVELS: usize = 5;

/// Why a plan was not begun.
#[derive(Clone, Copy, Debug, PartialEq, Eq, Error)]
pub enum PremiseError {
    /// The first premise that the line fails.
    #[error("the line fails the premise {0:?}")]
    Refused(Premise),
    /// Memory was refused.
    #[error("out of memory")]
    NoMemory,
}

impl From<AllocError> for PremiseError {
    ghost use Rattle.std.specs.Prelude.{◌≡◌};
    ghost use Rattle.plan_numbers.specs.declared.plans.PremiseError.TheVariants.{NoMemory};

    ghost from_gives = { λ _ e. e ≡ NoMemory };

    fn from(_: AllocError) -> Self {
        PremiseError::NoMemory
    }
}

/// An accepted plan: a base modulus, and levels over it, at most five.
#[derive(Debug)]
pub struct Plan {
    version: u32,
    base: u64,
    levels: Vec<LevelNums>,
    top: Below,
}

// Written out, so that code that drops one has a single call.
impl Drop for Plan {
    fn drop(self) {
        let Plan {
            version: _,
            base: _,
            levels,
            top: _,
        } = self;
        drop(levels);
    }
}

impl Model for Plan {
    ghost use Rattle.std.specs.Prelude.{vec_capacity};
    ghost use Rattle.construction.specs.Plans.{Plan};
    ghost use Rattle.plan_numbers.specs.Numbers.{levels_in};
    ghost use Rattle.plan_numbers.specs.Kept.{IsValidPlan};

    ghost Value = { Plan };

    ghost view = { λ p. record {
      version = p.version;
      base = p.base;
      levels =
          levels_in p.levels.items;
    } };

    ghost invariant = { λ p. IsValidPlan p.version p.base p.levels.items p.top
        (vec_capacity p.levels) };
}

impl Plan {
    /// A plan of version 1 without levels: [`Plan::base_of`] with that version.
    pub fn base(alloc: Global, c0: u64) -> Result<Plan, PremiseError>
        ensures { Begins result 1 c0 }
    {
        Plan::base_of(alloc, 1, c0)
    }

    /// A plan of version 1 or 2 without levels, of one node that counts by `c0`. Version 2 may have
    /// spare nodes. It takes all the memory that the plan ever needs. An error is the first premise
    /// that `c0` fails (`Limit` above 2^40, `Modulus` below 2), or `NoMemory` if it fails none.
    pub fn base_of(alloc: Global, version: u32, c0: u64) -> Result<Plan, PremiseError>
        requires oldest { 1 ≤ version }
        requires newest { version ≤ 2 }
        ensures { Begins result version c0 }
    {
        if c0 > LARGEST_MODULUS {
            return Err(PremiseError::Refused(Premise::Limit));
        }
        if c0 < 2 {
            return Err(PremiseError::Refused(Premise::Modulus));
        }
        let top = Below {
            nodes: 1,
            faults: 0,
            modulus: c0,
            bound: 0,
            bits: width(c0),
        };
        let levels = Vec::with_capacity(alloc, MOST_LEVELS)?;
        Ok(Plan {
            version,
            base: c0,
            levels,
            top,
        })
    }

    /// Puts a level without spare nodes on top: [`Plan::push_with`] with none.
    pub fn push(&mut self, k: u64, f: u64, c: u64) -> Result<(), Premise>
        ensures accepted { OnOk result (first_premise (numbers_below self.old) (line k f c 0)
            ≡ None) }
        ensures pushed { OnOk result (self.new ≡ with_level self.old (line k f c 0)) }
        ensures refused { IfErr result (λ premise. first_premise (numbers_below self.old)
            (line k f c 0) ≡ Some premise) }
        ensures unchanged { OnErr result (self.new ≡ self.old) }
    {
        self.push_with(k, f, c, 0)
    }

    /// Puts a level of `k` blocks, `f` faults, the modulus `c` and `s` spare nodes on top; version
    /// 1 has no spare nodes. An error is the first premise that the level fails over those below,
    /// and leaves the plan as it was. It takes no memory.
    pub fn push_with(&mut self, k: u64, f: u64, c: u64, s: u64) -> Result<(), Premise>
        requires { self.old.version ≡ 1 → s ≡ 0 }
        ensures accepted { OnOk result (first_premise (numbers_below self.old) (line k f c s)
            ≡ None) }
        ensures pushed { OnOk result (self.new ≡ with_level self.old (line k f c s)) }
        ensures refused { IfErr result (λ premise. first_premise (numbers_below self.old)
            (line k f c s) ≡ Some premise) }
        ensures unchanged { OnErr result (self.new ≡ self.old) }
    {
        let nums = level_nums(&self.top, k, f, c, s)?;
        self.add(nums);
        Ok(())
    }

    /// Puts the numbers of a level on top, for which there is room.
    fn add(&mut self, nums: LevelNums)
        requires fits { FitsVersion self.old.version (level_of nums) }
        requires accepted { first_premise (numbers_below self.old) (level_of nums) ≡ None }
        requires numbers { nums ≡ numbers_over (numbers_below self.old) (level_of nums) }
        requires sized { IsSizedLevel nums }
        requires more { 3 * (plan_nodes self.old) ≤ nums.nodes }
        ensures { self.new ≡ with_level self.old (level_of nums) }
    {
        self.levels.push(nums).unwrap();
        self.top = nums.to_below();
    }

    /// The version of the plan's texts, 1 or 2.
    pub fn version(&self) -> u32
        ensures { result ≡ self.now.version }
    {
        self.version
    }

    /// How many nodes there are, 1 to 256.
    pub fn nodes(&self) -> u32
        ensures { result ≡ plan_nodes self.now }
    {
        self.top.nodes
    }

    /// How many of the nodes may be faulty, fewer than a third.
    pub fn faults(&self) -> u32
        ensures { result ≡ plan_faults self.now }
    {
        self.top.faults
    }

    /// The modulus that the nodes count by, 2 to 2^40.
    pub fn modulus(&self) -> u64
        ensures { result ≡ plan_modulus self.now }
    {
        self.top.modulus
    }

    /// In how many rounds the nodes settle, from any states.
    pub fn bound(&self) -> u64
        ensures { result ≡ plan_bound self.now }
    {
        self.top.bound
    }

    /// How many bits a state has that has all fields, that of a node that is no spare.
    pub fn bits(&self) -> u32
        ensures { result ≡ plan_bits self.now }
    {
        self.top.bits
    }

    /// How many bytes hold the bits of such a state.
    pub fn bytes(&self) -> usize
        ensures { result ≡ div_ceil (plan_bits self.now) 8 }
    {
        self.top.bits.div_ceil(8) as usize
    }

    /// How many levels there are, at most five.
    pub fn depth(&self) -> usize
        ensures value { result ≡ plan_depth self.now }
        ensures most { result ≤ 5 }
    {
        self.levels.len()
    }

    /// The modulus of the base, 2 to 2^40.
    pub fn base_modulus(&self) -> u64
        ensures { result ≡ self.now.base }
    {
        self.base
    }

    /// The numbers of level `i`, the lowest being 0.
    pub fn level(&self, i: usize) -> &LevelNums
        requires { i < plan_depth self.now }
        ensures value { slice_get (level_numbers self.now) i ≡ Some result.now }
        ensures sized { IsSizedLevel result.now }
    {
        &self.levels[i]
    }

    /// The level from which on node `v` takes part: that of which it is a spare, or 0 if it is
    /// none.
    pub fn low(&self, v: u32) -> usize
        requires { v < plan_nodes self.now }
        ensures { result ≡ plan_low self.now v }
    {
        low_in(&self.levels, v)
    }

    /// Tells a caller's proof that the plan is accepted, and how large its numbers are. It does
    /// nothing when it runs.
    pub fn facts(&self)
        ensures accepted { IsAccepted self.now }
        ensures sized { IsSized (numbers_below self.now) }
        ensures depth { plan_depth self.now ≤ 5 }
    {
        let _base = self.base;
    }
}
