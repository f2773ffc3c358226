//! Reads a plan of either construction.

ghost use Rattle.std.specs.Prelude.{◌≡◌, Ok, IfErr, IfOk};
ghost use Rattle.attack.specs.PlanInputs.{is_first, boosting_answer, plan_answer};
ghost use Rattle.attack.specs.PlanTexts.{IsAcceptedPlan};
ghost use Rattle.program_words.specs.Conduct.{FailsAs};

use crate::plans::AnyPlan;
use crate::reasons::{AttackError, AttackReason};
use halving_texts::{HalvingError, read_whole_halving};
use plan_reader::{PlanError, first_unskipped, read_whole_plan};
use program_words::ProgramError;
use std::alloc::Global;

/// Whether the line is the first one that counts, or no line does.
fn is_first(first: Option<u64>, line: u64) -> bool
    ensures { result ≡ is_first first line }
{
    match first {
        Some(first) => first == line,
        None => true,
    }
}

/// The plan of levels over blocks that a text is.
fn read_boosting(alloc: Global, text: &[u8]) -> Result<AnyPlan, AttackError>
    ensures read { IfOk result (λ plan. boosting_answer text.now ≡ Ok plan) }
    ensures fails { IfErr result (FailsAs (boosting_answer text.now)) }
    ensures accepted { IfOk result IsAcceptedPlan }
{
    match read_whole_plan(alloc, text) {
        Ok(plan) => {
            plan.facts();
            Ok(AnyPlan::Boosting(plan))
        }
        Err(PlanError::Refused(refusal)) => {
            Err(ProgramError::Refused(AttackReason::Boosting(refusal)))
        }
        Err(PlanError::NoMemory) => Err(ProgramError::NoMemory),
    }
}

/// The plan that a text is, after which only skipped lines stand: a halving plan, or one of levels
/// over blocks.
///
/// `Halving` is the first line that fails of a text whose first line that counts is that of a
/// halving plan, and `Boosting` that of any other text, each with its first premise.
pub fn read_any_plan(alloc: Global, text: &[u8]) -> Result<AnyPlan, AttackError>
    ensures read { IfOk result (λ plan. plan_answer text.now ≡ Ok plan) }
    ensures fails { IfErr result (FailsAs (plan_answer text.now)) }
    ensures accepted { IfOk result IsAcceptedPlan }
{
    match read_whole_halving(text) {
        Ok(plan) => {
            plan.facts();
            Ok(AnyPlan::Halving(plan))
        }
        Err(HalvingError::NoMemory) => Err(ProgramError::NoMemory),
        Err(HalvingError::Refused(refusal)) => {
            if is_first(first_unskipped(text, 1), refusal.line) {
                read_boosting(alloc, text)
            } else {
                Err(ProgramError::Refused(AttackReason::Halving(refusal)))
            }
        }
    }
}
