ghost use Rattle.adversary_script.specs.Answers.{Adds, ReadsFront};
ghost use Rattle.texts.specs.Shapes.{all_numbers};
ghost use Rattle.adversary_script.specs.FaultySteps.{faulty_tested, era_front, era_step};

use crate::drafts::Draft;
use crate::id_sets::id_set;
use crate::word_tests::{are_below, is_rising};
use edge_io::{TakeError, Words, all_numbers, number};
use std::alloc::Global;
use sync_types::Rule;

/// The most eras that a script may have after the first.
const MOST_ERAS: usize = 16;

/// Takes the first two words of an era, after the one that says the kind: `A faulty`.
fn era_front(words: &mut Words) -> Option<u64>
    ensures { ReadsFront result (era_front words.old) words.new }
{
    let first = number(words.next()?)?;
    if words.next()? != b"faulty".as_slice() {
        return None;
    }
    Some(first)
}

impl<'a> Draft<'a> {
    /// Takes the line of the ids that are faulty at first, of which there are `faults` at most.
    pub fn take_faulty(
        &mut self,
        alloc: Global,
        words: Words,
        faults: u32,
    ) -> Result<(), TakeError<Rule>>
        ensures { Adds (faulty_tested faults self.old (all_numbers words.entry)) self.new result }
    {
        let Some(ids) = all_numbers(alloc, words)? else {
            return Err(TakeError::Refused(Rule::Form));
        };
        if !are_below(self.nodes(), &ids) {
            return Err(TakeError::Refused(Rule::Node));
        }
        if !is_rising(&ids) {
            return Err(TakeError::Refused(Rule::Order));
        }
        if ids.len() > faults as usize {
            return Err(TakeError::Refused(Rule::Faults));
        }
        let set = id_set(alloc, self.nodes(), &ids)?;
        self.set_faulty(set);
        Ok(())
    }

    /// Takes the line of an era, which has at most `faults` ids, after its first word.
    pub fn take_era(
        &mut self,
        alloc: Global,
        words: Words,
        faults: u32,
    ) -> Result<(), TakeError<Rule>>
        ensures { Adds (era_step faults self.old words.entry) self.new result }
    {
        let mut words = words;
        let Some(first) = era_front(&mut words) else {
            return Err(TakeError::Refused(Rule::Form));
        };
        let Some(ids) = all_numbers(alloc, words)? else {
            return Err(TakeError::Refused(Rule::Form));
        };
        if self.version() == 1 {
            return Err(TakeError::Refused(Rule::Form));
        }
        if self.era_count() >= MOST_ERAS {
            return Err(TakeError::Refused(Rule::Limit));
        }
        if !are_below(self.nodes(), &ids) {
            return Err(TakeError::Refused(Rule::Node));
        }
        if first <= self.last_first() || !is_rising(&ids) {
            return Err(TakeError::Refused(Rule::Order));
        }
        if ids.len() > faults as usize {
            return Err(TakeError::Refused(Rule::Faults));
        }
        let set = id_set(alloc, self.nodes(), &ids)?;
        self.add_era(first, set)?;
        Ok(())
    }
}
