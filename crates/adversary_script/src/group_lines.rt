ghost use Rattle.adversary_script.specs.Answers.{Adds};
ghost use Rattle.adversary_script.specs.Steps.{group_step};

use crate::drafts::Draft;
use crate::id_sets::id_set;
use crate::word_tests::{are_below, is_name, is_rising};
use edge_io::{TakeError, Words, all_numbers};
use std::alloc::Global;
use sync_types::Rule;

/// The most groups that a script may have.
const MOST_GROUPS: usize = 256;

impl<'a> Draft<'a> {
    /// Takes the line of a group.
    pub fn take_group(&mut self, alloc: Global, words: Words) -> Result<(), TakeError<Rule>>
        ensures { Adds (group_step self.old words.entry) self.new result }
    {
        let mut words = words;
        let Some(name) = words.next() else {
            return Err(TakeError::Refused(Rule::Form));
        };
        let Some(ids) = all_numbers(alloc, words)? else {
            return Err(TakeError::Refused(Rule::Form));
        };
        if ids.is_empty() {
            return Err(TakeError::Refused(Rule::Form));
        }
        if self.group_count() >= MOST_GROUPS {
            return Err(TakeError::Refused(Rule::Limit));
        }
        if !are_below(self.nodes(), &ids) {
            return Err(TakeError::Refused(Rule::Node));
        }
        if !is_rising(&ids) {
            return Err(TakeError::Refused(Rule::Order));
        }
        if !is_name(name) || name == b"all".as_slice() || self.group_at(name).is_some() {
            return Err(TakeError::Refused(Rule::Name));
        }
        let set = id_set(alloc, self.nodes(), &ids)?;
        self.add_group(name, set)?;
        Ok(())
    }
}
