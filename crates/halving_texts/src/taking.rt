ghost use Rattle.texts.specs.Parts.{with_skips};
ghost use Rattle.halving_texts.specs.declared.premises.LinePremise.TheVariants.{Form};
ghost use Rattle.halving_texts.specs.HalvingPart.{halving_step};
ghost use Rattle.edge_io.specs.Taking.{Takes};

use crate::premises::LinePremise;
use crate::stages::HalvingLines;
use edge_io::{TakeError, take_unless_skipped};
use halving_plan::HalvingPlan;

impl HalvingLines {
    /// Takes the next line of the part, without its newline: Some plan exactly at its `end` line,
    /// after which a further part may be read. A skipped line changes nothing.
    ///
    /// `Refused` is the first premise that the line fails: `Form` if it is longer than 4096 bytes,
    /// has an empty word or holds a carriage return.
    pub fn take(&mut self, line: &[u8]) -> Result<Option<HalvingPlan>, TakeError<LinePremise>>
        ensures { Takes (with_skips halving_step Form self.old line.now) self.new result }
    {
        take_unless_skipped(self, LinePremise::Form, line)
    }
}
