ghost use Rattle.std.specs.Prelude.{◌≡◌};
ghost use Rattle.plan_finder.specs.FindPart.{after_want};

use crate::wants::Want;
use edge_io::{LineReader, TakeError, numbers_after};
use std::marker::Model;
use sync_types::Rule;

/// How far a find part was read.
#[derive(Clone, Copy, Debug, PartialEq, Eq)]
pub enum FindStage {
    /// No line of it.
    Unread,
    /// Its first line.
    Begun,
    /// Its line of wants.
    Wanted(Want),
}

/// Reads the lines of a find part that count.
#[derive(Drop)]
pub struct FindLines {
    stage: FindStage,
}

impl Model for FindLines {
    ghost use Rattle.plan_finder.specs.declared.want_lines.FindStage.{FindStage};

    ghost Value = { FindStage };

    ghost view = { λ l. l.stage };
}

impl FindLines {
    ghost use Rattle.plan_finder.specs.declared.want_lines.FindStage.TheVariants.{Unread};

    /// A reader of a part of which nothing was read.
    pub fn new() -> FindLines
        ensures { result ≡ Unread }
    {
        FindLines {
            stage: FindStage::Unread,
        }
    }
}

impl LineReader for FindLines {
    type Value = Want;

    type Rule = Rule;

    ghost use Rattle.plan_finder.specs.FindPart.{find_step};

    ghost step = { find_step };

    fn take(&mut self, line: &[u8]) -> Result<Option<Want>, TakeError<Rule>> {
        match self.stage {
            FindStage::Unread => {
                if line != b"find 1".as_slice() {
                    return Err(TakeError::Refused(Rule::Form));
                }
                self.stage = FindStage::Begun;
            }
            FindStage::Begun => {
                let want = read_want(line).map_err(TakeError::Refused)?;
                self.stage = FindStage::Wanted(want);
            }
            FindStage::Wanted(want) => {
                if line != b"end".as_slice() {
                    return Err(TakeError::Refused(Rule::Form));
                }
                return Ok(Some(want));
            }
        }
        Ok(None)
    }
}

/// The wants of a line, or the first rule that it fails.
fn read_want(line: &[u8]) -> Result<Want, Rule>
    ensures { result ≡ after_want line.now }
{
    let Some(numbers) = numbers_after::<3>(line, b"want") else {
        return Err(Rule::Form);
    };
    let faults = numbers[0];
    let modulus = numbers[1];
    let most = numbers[2];
    if faults > 85 || modulus > 1 << 40 || most > 256 {
        return Err(Rule::Limit);
    }
    if modulus < 2 || most < 1 {
        return Err(Rule::Range);
    }
    Ok(Want {
        faults,
        modulus,
        most,
    })
}
