ghost use Rattle.std.specs.Prelude.{◌≡◌, ◌≤◌, Ok, Err, MatchResult};
ghost use Rattle.plan_reader.specs.PlanPart.{after_base, after_level};
ghost use Rattle.edge_io.specs.Taking.{TakesAsDefined};

use crate::shapes::{level_quadruple, plan_version};
use edge_io::{LineReader, TakeError, numbers_after};
use plan_numbers::{Plan, PremiseError};
use std::alloc::Global;
use std::marker::Model;
use std::mem;
use sync_types::Premise;

/// How far a plan part was read.
#[derive(Drop)]
pub enum PlanStage {
    /// No line of it.
    Unread,
    /// Its first line, which says its version, 1 or 2.
    Begun(u32),
    /// Its base line, and as many level lines as the plan has levels.
    Built(Plan),
}

/// Reads a plan part line by line.
#[derive(Drop)]
pub struct PlanLines {
    alloc: Global,
    stage: PlanStage,
}

impl Model for PlanLines {
    ghost use Rattle.plan_reader.specs.declared.stages.PlanStage.{PlanStage};
    ghost use Rattle.plan_reader.specs.BuiltPlans.{HasVersion};

    ghost Value = { PlanStage };

    ghost view = { λ r. r.stage };

    ghost invariant = { λ r. HasVersion r.stage };
}

impl PlanLines {
    ghost use Rattle.plan_reader.specs.declared.stages.PlanStage.TheVariants.{Unread};
    ghost use Rattle.plan_reader.specs.BuiltPlans.{built_plan};

    /// A reader of a part of which nothing was read.
    pub fn new(alloc: Global) -> PlanLines
        ensures { result ≡ Unread }
    {
        PlanLines {
            alloc,
            stage: PlanStage::Unread,
        }
    }

    /// Gives away the plan that was built, if one was.
    fn finish(&mut self) -> Option<Plan>
        ensures plan { result ≡ built_plan self.old }
        ensures anew { self.new ≡ Unread }
    {
        match mem::replace(&mut self.stage, PlanStage::Unread) {
            PlanStage::Unread | PlanStage::Begun(_) => None,
            PlanStage::Built(plan) => Some(plan),
        }
    }
}

impl LineReader for PlanLines {
    type Value = Plan;

    type Rule = Premise;

    ghost use Rattle.plan_reader.specs.PlanPart.{plan_step};

    ghost step = { plan_step };

    fn take(&mut self, line: &[u8]) -> Result<Option<Plan>, TakeError<Premise>> {
        match &mut self.stage {
            PlanStage::Unread => {
                let version = plan_version(line).ok_or(TakeError::Refused(Premise::Form))?;
                self.stage = PlanStage::Begun(version);
            }
            PlanStage::Begun(version) => {
                let plan = base_plan(self.alloc, *version, line)?;
                self.stage = PlanStage::Built(plan);
            }
            PlanStage::Built(plan) => {
                if line == b"end".as_slice() {
                    return Ok(self.finish());
                }
                push_level(plan, line).map_err(TakeError::Refused)?;
            }
        }
        Ok(None)
    }
}

/// The plan of a base line, or the first premise that it fails.
fn base_plan(alloc: Global, version: u32, line: &[u8]) -> Result<Plan, TakeError<Premise>>
    requires oldest { 1 ≤ version }
    requires newest { version ≤ 2 }
    ensures { TakesAsDefined result (after_base version line.now) }
{
    let Some(numbers) = numbers_after::<1>(line, b"base") else {
        return Err(TakeError::Refused(Premise::Form));
    };
    match Plan::base_of(alloc, version, numbers[0]) {
        Ok(plan) => Ok(plan),
        Err(PremiseError::Refused(premise)) => Err(TakeError::Refused(premise)),
        Err(PremiseError::NoMemory) => Err(TakeError::NoMemory),
    }
}

/// Puts the level of a level line on top of a plan, or answers the first premise that it fails.
fn push_level(plan: &mut Plan, line: &[u8]) -> Result<(), Premise>
    ensures { MatchResult result
        (λ _. after_level plan.old line.now ≡ Ok plan.new)
        (λ premise. after_level plan.old line.now ≡ Err premise) }
{
    plan.facts();
    let Some(numbers) = level_quadruple(plan.version(), line) else {
        return Err(Premise::Form);
    };
    plan.push_with(numbers[0], numbers[1], numbers[2], numbers[3])
}
