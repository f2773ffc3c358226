ghost use Rattle.std.specs.Prelude.{◌≡◌};
ghost use Rattle.adversary_script.specs.Answers.{Adds};
ghost use Rattle.adversary_script.specs.WordTests.{both};
ghost use Rattle.adversary_script.specs.Steps.{done};
ghost use Rattle.adversary_script.specs.StartSteps.{is_above, start_step};

use crate::drafts::Draft;
use crate::lie_lines::state_of_digits;
use crate::lies::{CommonStart, Start};
use crate::word_tests::both;
use edge_io::{TakeError, Words, number};
use std::alloc::Global;
use sync_types::Rule;

/// Whether a node is above all that have a start.
fn is_above(starts: &[Start], node: u64) -> bool
    ensures { result ≡ is_above starts.now node }
{
    starts.iter().all(|start| start.node < node)
}

impl<'a> Draft<'a> {
    /// Takes the line of a common start, after its two words.
    pub fn take_common(
        &mut self,
        common: CommonStart,
        words: &mut Words,
    ) -> Result<(), TakeError<Rule>>
        ensures { Adds (done (record self.old { common = common }) words.old) self.new result }
    {
        if words.next().is_some() {
            return Err(TakeError::Refused(Rule::Form));
        }
        self.set_common(common);
        Ok(())
    }

    /// Takes the line of a node's start.
    pub fn take_start(&mut self, alloc: Global, words: &mut Words) -> Result<(), TakeError<Rule>>
        ensures { Adds (start_step self.old (both words.old)) self.new result }
    {
        let Some((id, word)) = both(words) else {
            return Err(TakeError::Refused(Rule::Form));
        };
        let Some(node) = number(id) else {
            return Err(TakeError::Refused(Rule::Form));
        };
        if node >= u64::from(self.nodes()) {
            return Err(TakeError::Refused(Rule::Node));
        }
        if !is_above(self.last_starts(), node) {
            return Err(TakeError::Refused(Rule::Order));
        }
        let Some(state) = state_of_digits(alloc, self.shape(), node as u32, word)? else {
            return Err(TakeError::Refused(Rule::Hex));
        };
        self.add_start(Start { node, state })?;
        Ok(())
    }
}
