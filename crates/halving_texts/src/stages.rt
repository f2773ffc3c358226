ghost use Rattle.std.specs.Prelude.{◌≡◌};
ghost use Rattle.halving_texts.specs.HalvingPart.{plan_in};

use crate::premises::LinePremise;
use edge_io::{LineReader, TakeError, numbers_after};
use halving_plan::HalvingPlan;
use std::marker::Model;
use std::mem;

/// How far a halving part was read.
#[derive(Drop)]
pub enum HalvingStage {
    /// No line of it.
    Unread,
    /// Its first line.
    Begun,
    /// All lines but `end`: the plan that they state.
    Stated(HalvingPlan),
}

/// Reads the lines of a halving part.
#[derive(Drop)]
pub struct HalvingLines {
    stage: HalvingStage,
}

impl Model for HalvingLines {
    ghost use Rattle.halving_texts.specs.declared.stages.HalvingStage.{HalvingStage};

    ghost Value = { HalvingStage };

    ghost view = { λ r. r.stage };
}

impl HalvingLines {
    ghost use Rattle.halving_texts.specs.declared.stages.HalvingStage.TheVariants.{Unread};

    /// A reader of a part of which nothing was read.
    pub fn new() -> HalvingLines
        ensures { result ≡ Unread }
    {
        HalvingLines {
            stage: HalvingStage::Unread,
        }
    }
}

/// The plan of a line `group N F C`, or the first premise that the line fails.
fn plan_in(line: &[u8]) -> Result<HalvingPlan, LinePremise>
    ensures { result ≡ plan_in line.now }
{
    let Some(numbers) = numbers_after::<3>(line, b"group") else {
        return Err(LinePremise::Form);
    };
    match HalvingPlan::new(numbers[0], numbers[1], numbers[2]) {
        Ok(plan) => Ok(plan),
        Err(premise) => Err(LinePremise::Plan(premise)),
    }
}

impl LineReader for HalvingLines {
    type Value = HalvingPlan;

    type Rule = LinePremise;

    ghost use Rattle.halving_texts.specs.HalvingPart.{halving_step};

    ghost step = { halving_step };

    fn take(&mut self, line: &[u8]) -> Result<Option<HalvingPlan>, TakeError<LinePremise>> {
        match mem::replace(&mut self.stage, HalvingStage::Unread) {
            HalvingStage::Unread => {
                if line != b"halving 1".as_slice() {
                    return Err(TakeError::Refused(LinePremise::Form));
                }
                self.stage = HalvingStage::Begun;
                Ok(None)
            }
            HalvingStage::Begun => {
                let plan = plan_in(line).map_err(TakeError::Refused)?;
                self.stage = HalvingStage::Stated(plan);
                Ok(None)
            }
            HalvingStage::Stated(plan) => {
                if line != b"end".as_slice() {
                    return Err(TakeError::Refused(LinePremise::Form));
                }
                Ok(Some(plan))
            }
        }
    }
}
