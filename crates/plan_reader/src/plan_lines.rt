ghost use Rattle.texts.specs.Parts.{with_skips};
ghost use Rattle.sync_types.specs.declared.answers.Premise.TheVariants.{Form};
ghost use Rattle.plan_reader.specs.PlanPart.{plan_step};
ghost use Rattle.plan_reader.specs.PlanRefusals.{TakesPlanLine};

use crate::stages::PlanLines;
use edge_io::{TakeError, take_unless_skipped};
use plan_numbers::{Plan, PremiseError};
use sync_types::Premise;

impl PlanLines {
    /// Takes the next line of the part, without its newline: Some plan exactly at its `end` line,
    /// after which a further part may be read. A skipped line changes nothing.
    ///
    /// `Refused` is the first premise that the line fails: `Form` if it is longer than 4096 bytes,
    /// has an empty word or holds a carriage return. `NoMemory` comes at the base line alone.
    pub fn take(&mut self, line: &[u8]) -> Result<Option<Plan>, PremiseError>
        ensures { TakesPlanLine (with_skips plan_step Form self.old line.now) self.new result }
    {
        match take_unless_skipped(self, Premise::Form, line) {
            Ok(found) => Ok(found),
            Err(TakeError::Refused(premise)) => Err(PremiseError::Refused(premise)),
            Err(TakeError::NoMemory) => Err(PremiseError::NoMemory),
        }
    }
}
