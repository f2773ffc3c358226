ghost use Rattle.std.specs.Prelude.{◌≡◌, replicate, IfOk};
ghost use Rattle.construction.specs.Plans.{plan_nodes, plan_low};
ghost use Rattle.construction.specs.Runs.{Settles};
ghost use Rattle.plan_numbers.specs.Premises.{IsAccepted};
ghost use Rattle.counter_core.specs.Working.{IsWorkFor};
ghost use Rattle.plan_laws.specs.PlanMeaning.{plan_meaning, IsInRange};
ghost use Rattle.plan_laws.proofs.PlanCounter.{plan_sizes, plan_lows, plan_stays, plan_ignores};
ghost use Rattle.plan_laws.proofs.PlanCounter.{plan_zero};
ghost use Rattle.plan_laws.proofs.RunLaws.{plan_settles};

use crate::steps::step_in;
use counter_core::{Counter, Heard, Work, shown};
use plan_numbers::{Below, LevelNums, Plan, low_in};
use std::alloc::Global;
use std::marker::Model;
use sync_types::{NoMemory, NodeState};

/// The counter of an accepted plan.
#[derive(Debug, Drop)]
pub struct Tower {
    pub(crate) version: u32,
    pub(crate) base: u64,
    pub(crate) levels: Vec<LevelNums>,
    pub(crate) whole: Below,
}

impl Model for Tower {
    ghost use Rattle.construction.specs.Plans.{Plan};
    ghost use Rattle.plan_numbers.specs.Numbers.{levels_in};
    ghost use Rattle.tower.specs.Kept.{IsValidTower};

    ghost Value = { Plan };

    ghost view = { λ t. record {
      version = t.version;
      base = t.base;
      levels = levels_in t.levels.items;
    } };

    ghost invariant = { λ t. IsValidTower t.version t.base t.levels.items t.whole };
}

/// Builds the counter of a plan. It takes all the memory that the counter ever needs; steps need a
/// [`Tower::work`] beside it. The only error is want of memory.
pub fn build(alloc: Global, plan: &Plan) -> Result<Tower, NoMemory>
    ensures plan { IfOk result (λ tower. tower ≡ plan.now) }
    ensures settles { IfOk result (λ tower. Settles tower) }
{
    plan.facts();
    let mut levels = Vec::with_capacity(alloc, plan.depth())?;
    for i in 0..plan.depth() {
        levels.push(*plan.level(i)).unwrap();
    }
    let whole = Below {
        nodes: plan.nodes(),
        faults: plan.faults(),
        modulus: plan.modulus(),
        bound: plan.bound(),
        bits: plan.bits(),
    };
    Ok(Tower {
        version: plan.version(),
        base: plan.base_modulus(),
        levels,
        whole,
    })
}

impl Tower {
    /// The room that steps of this counter need, with each inner output 0. The only error is want
    /// of memory.
    pub fn work(&self, alloc: Global) -> Result<Work, NoMemory>
        ensures room { IfOk result (IsWorkFor (plan_nodes self.now)) }
        ensures outputs { IfOk result
            (λ work. work.outputs.items ≡ replicate (plan_nodes self.now) 0) }
    {
        Work::new(alloc, self.whole.nodes)
    }
}

impl Counter for Tower {
    ghost valid = { IsAccepted };

    ghost meaning = { plan_meaning };

    ghost lowest = { plan_low };

    ghost in_range = { IsInRange };

    fn nodes(&self) -> u32 {
        self.whole.nodes
    }

    fn faults(&self) -> u32 {
        self.whole.faults
    }

    fn modulus(&self) -> u64 {
        self.whole.modulus
    }

    fn bound(&self) -> u64 {
        self.whole.bound
    }

    fn depth(&self) -> usize {
        self.levels.len()
    }

    fn low(&self, place: u32) -> usize {
        low_in(&self.levels, place)
    }

    fn tell(&self) {
        let _base = self.base;
    }

    fn output(&self, _place: u32, state: &NodeState) -> u64 {
        shown(self.levels.len(), state)
    }

    fn advance(&self, place: u32, heard: &Heard<'_>, work: &mut Work, out: &mut NodeState) {
        self.tell();
        step_in(self.base, &self.levels, place, heard, work, out);
    }

    ghost sizes = { plan_sizes };

    ghost lows_are_within = { plan_lows };

    ghost stays_in_range = { plan_stays };

    ghost ignores_further = { plan_ignores };

    ghost zero_in_range = { plan_zero };

    ghost settles = { plan_settles };
}
