ghost use Rattle.std.specs.Prelude.{◌≡◌, ◌≤◌, ◌<◌, MatchResult, IfOk, Ok, Err, codes, slice_index};
ghost use Rattle.texts.specs.Lines.{words_of};
ghost use Rattle.texts.specs.Shapes.{numbers_after};
ghost use Rattle.construction.specs.Plans.{plan_depth};
ghost use Rattle.texts.specs.Parts.{goes, refuses};
ghost use Rattle.plan_certificate.specs.TableLines.{same_numbers, plan_values, top_values, based};
ghost use Rattle.plan_certificate.specs.TableLines.{level_behind, built_by, level_stated};
ghost use Rattle.plan_certificate.specs.TableLines.{plan_stated};
ghost use Rattle.plan_certificate.specs.TableVersions.{HasVersion};
ghost use Rattle.edge_io.specs.Taking.{TakesAsDefined};

use crate::table_lines::{level_stated, plan_stated, table_version};
use edge_io::{LineReader, TakeError, numbers_after};
use plan_numbers::{LevelNums, Plan, PremiseError};
use std::alloc::Global;
use std::marker::Model;
use std::mem;
use sync_types::{Cause, Premise};

/// How far a table text was read.
#[derive(Drop)]
pub enum TableStage {
    /// No line of it.
    Unread,
    /// Its first line, which says its version, 1 or 2.
    Begun(u32),
    /// Its base line, and as many lines of levels as the plan has levels.
    Built(Plan),
    /// All lines but `end`.
    Stated(Plan),
}

/// Reads the lines of a table text.
#[derive(Drop)]
pub struct TableReader {
    alloc: Global,
    stage: TableStage,
}

impl Model for TableReader {
    ghost use Rattle.plan_certificate.specs.declared.table_stages.TableStage.{TableStage};
    ghost use Rattle.plan_certificate.specs.TableVersions.{HasVersion};

    ghost Value = { TableStage };

    ghost view = { λ r. r.stage };

    ghost invariant = { λ r. HasVersion r.stage };
}

impl TableReader {
    ghost use Rattle.plan_certificate.specs.declared.table_stages.TableStage.TheVariants.{Unread};

    /// A reader of a text of which nothing was read.
    pub fn new(alloc: Global) -> TableReader
        ensures { result ≡ Unread }
    {
        TableReader {
            alloc,
            stage: TableStage::Unread,
        }
    }
}

const FORM: Cause = Cause::Premise(Premise::Form);

impl LineReader for TableReader {
    type Value = Plan;

    type Rule = Cause;

    ghost use Rattle.plan_certificate.specs.TableLines.{table_step};

    ghost step = { table_step };

    fn take(&mut self, line: &[u8]) -> Result<Option<Plan>, TakeError<Cause>> {
        match mem::replace(&mut self.stage, TableStage::Unread) {
            TableStage::Unread => {
                let version = table_version(line).ok_or(TakeError::Refused(FORM))?;
                self.stage = TableStage::Begun(version);
                return Ok(None);
            }
            TableStage::Begun(version) => {
                let plan = base_plan(self.alloc, version, line)?;
                self.stage = TableStage::Built(plan);
                return Ok(None);
            }
            TableStage::Built(plan) => {
                let stage = behind_built(plan, line).map_err(TakeError::Refused)?;
                self.stage = stage;
                return Ok(None);
            }
            TableStage::Stated(plan) => {
                if line != b"end".as_slice() {
                    return Err(TakeError::Refused(FORM));
                }
                return Ok(Some(plan));
            }
        }
    }
}

/// The stage after the line of a level or of the whole plan, or the first cause for which the line
/// is refused.
fn behind_built(mut plan: Plan, line: &[u8]) -> Result<TableStage, Cause>
    ensures exact { MatchResult result
        (λ stage. built_by plan (level_stated plan.version (words_of line.now))
        (plan_stated (words_of line.now)) ≡ goes stage)
        (λ cause. built_by plan (level_stated plan.version (words_of line.now))
        (plan_stated (words_of line.now)) ≡ refuses cause) }
    ensures version { IfOk result HasVersion }
{
    if let Some(numbers) = level_stated(plan.version(), line) {
        push_level(&mut plan, &numbers)?;
        return Ok(TableStage::Built(plan));
    }
    match plan_stated(line) {
        None => Err(FORM),
        Some(numbers) => {
            if is_plan(&numbers, &plan) {
                Ok(TableStage::Stated(plan))
            } else {
                Err(Cause::Value)
            }
        }
    }
}

/// The plan of a base line, or the first premise that it fails.
fn base_plan(alloc: Global, version: u32, line: &[u8]) -> Result<Plan, TakeError<Cause>>
    requires oldest { 1 ≤ version }
    requires newest { version ≤ 2 }
    ensures { TakesAsDefined result
        (based version (numbers_after (codes "base") 1 (words_of line.now))) }
{
    let Some(numbers) = numbers_after::<1>(line, b"base") else {
        return Err(TakeError::Refused(FORM));
    };
    match Plan::base_of(alloc, version, numbers[0]) {
        Ok(plan) => Ok(plan),
        Err(PremiseError::Refused(premise)) => Err(TakeError::Refused(Cause::Premise(premise))),
        Err(PremiseError::NoMemory) => Err(TakeError::NoMemory),
    }
}

/// Whether these are the numbers of the plan's top level, with its index from 1.
fn is_top_level(numbers: &[u64; 11], plan: &Plan) -> bool
    requires { 0 < plan_depth plan.now }
    ensures { result ≡ same_numbers numbers.now (top_values plan.now) }
{
    let depth = plan.depth();
    let nums = plan.level(depth - 1);
    *numbers
        == [
            depth as u64,
            u64::from(nums.blocks),
            u64::from(nums.leaders),
            u64::from(nums.nodes),
            u64::from(nums.faults),
            nums.beat,
            nums.span,
            nums.modulus,
            nums.bound,
            u64::from(nums.bits),
            u64::from(nums.spares),
        ]
}

/// Puts the level of a line on top of a plan, or answers the first premise that it fails, or that
/// one of its numbers is not the level's; the plan is then of no use.
fn push_level(plan: &mut Plan, numbers: &[u64; 11]) -> Result<(), Cause>
    requires { plan.old.version ≡ 1 → slice_index numbers.now 10 ≡ 0 }
    ensures { MatchResult result
        (λ _. level_behind plan.old numbers.now ≡ Ok plan.new)
        (λ cause. level_behind plan.old numbers.now ≡ Err cause) }
{
    match plan.push_with(numbers[1], numbers[4], numbers[7], numbers[10]) {
        Ok(()) => {}
        Err(premise) => return Err(Cause::Premise(premise)),
    }
    if is_top_level(numbers, plan) {
        Ok(())
    } else {
        Err(Cause::Value)
    }
}

/// Whether these are the numbers of the whole plan.
fn is_plan(numbers: &[u64; 6], plan: &Plan) -> bool
    ensures { result ≡ same_numbers numbers.now (plan_values plan.now) }
{
    *numbers
        == [
            u64::from(plan.nodes()),
            u64::from(plan.faults()),
            plan.modulus(),
            plan.bound(),
            u64::from(plan.bits()),
            plan.bytes() as u64,
        ]
}
