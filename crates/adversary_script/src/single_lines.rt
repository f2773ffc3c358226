ghost use Rattle.std.specs.Prelude.{◌≡◌};
ghost use Rattle.std.specs.List.{list_all};
ghost use Rattle.state_codec.specs.Texts.{is_lower_digit};
ghost use Rattle.adversary_script.specs.Answers.{Adds};
ghost use Rattle.adversary_script.specs.Scripts.{IsFormed};
ghost use Rattle.adversary_script.specs.WordTests.{only};
ghost use Rattle.texts.specs.Shapes.{all_numbers};
ghost use Rattle.adversary_script.specs.Steps.{head_tested, key_of_digits, seed_tested};
ghost use Rattle.adversary_script.specs.Steps.{rounds_tested, show_tested, line_step};

use crate::drafts::Draft;
use crate::kinds::Kind;
use crate::lies::CommonStart;
use crate::word_tests::only;
use edge_io::{TakeError, Words, all_numbers};
use hex::FromHex;
use std::alloc::Global;
use sync_types::Rule;

/// The most rounds that a script may have.
const MOST_ROUNDS: u64 = 1_000_000;

/// Whether each is a digit of `0-9a-f`. The crate `hex` would take upper case too.
fn all_lower(word: &[u8]) -> bool
    ensures { result ≡ list_all is_lower_digit word.now }
{
    word.iter()
        .all(|digit| matches!(*digit, b'0'..=b'9' | b'a'..=b'f'))
}

/// The key of 64 hex digits.
fn key_of_digits(word: &[u8]) -> Option<[u8; 32]>
    ensures { result ≡ key_of_digits word.now }
{
    if word.len() != 64 || !all_lower(word) {
        return None;
    }
    <[u8; 32] as FromHex>::from_hex(word).ok()
}

impl<'a> Draft<'a> {
    /// Takes the first line, which says of which version the script is.
    fn take_head(&mut self, words: &mut Words) -> Result<(), TakeError<Rule>>
        ensures { Adds (head_tested self.old (only words.old)) self.new result }
    {
        let Some(word) = only(words) else {
            return Err(TakeError::Refused(Rule::Form));
        };
        if word == b"1".as_slice() {
            self.set_version(1);
        } else if word == b"2".as_slice() {
            self.set_version(2);
        } else {
            return Err(TakeError::Refused(Rule::Form));
        }
        Ok(())
    }

    /// Takes the line of the noise key.
    fn take_seed(&mut self, words: &mut Words) -> Result<(), TakeError<Rule>>
        ensures { Adds (seed_tested self.old (only words.old)) self.new result }
    {
        let Some(word) = only(words) else {
            return Err(TakeError::Refused(Rule::Form));
        };
        let Some(key) = key_of_digits(word) else {
            return Err(TakeError::Refused(Rule::Hex));
        };
        self.set_key(key);
        Ok(())
    }

    /// Takes the line of the rounds.
    fn take_rounds(&mut self, alloc: Global, words: Words) -> Result<(), TakeError<Rule>>
        ensures { Adds (rounds_tested self.old (all_numbers words.entry)) self.new result }
    {
        let Some(numbers) = all_numbers(alloc, words)? else {
            return Err(TakeError::Refused(Rule::Form));
        };
        if numbers.len() != 1 {
            return Err(TakeError::Refused(Rule::Form));
        }
        if numbers[0] > MOST_ROUNDS {
            return Err(TakeError::Refused(Rule::Limit));
        }
        if numbers[0] < self.last_first() {
            return Err(TakeError::Refused(Rule::Range));
        }
        self.set_rounds(numbers[0]);
        Ok(())
    }

    /// Takes the line of what is shown.
    fn take_show(&mut self, alloc: Global, words: Words) -> Result<(), TakeError<Rule>>
        ensures { Adds (show_tested self.old (all_numbers words.entry)) self.new result }
    {
        let Some(numbers) = all_numbers(alloc, words)? else {
            return Err(TakeError::Refused(Rule::Form));
        };
        if numbers.len() != 2 {
            return Err(TakeError::Refused(Rule::Form));
        }
        if numbers[0] > numbers[1] || numbers[1] > self.rounds() {
            return Err(TakeError::Refused(Rule::Range));
        }
        self.set_shown(numbers[0], numbers[1]);
        Ok(())
    }

    /// Takes a line of a kind, by the words after those that say the kind. At most `faults` ids may
    /// be faulty in an era.
    pub fn take_line(
        &mut self,
        kind: Kind,
        words: Words,
        faults: u32,
    ) -> Result<(), TakeError<Rule>>
        ensures script { Adds (line_step faults kind self.old words.entry) self.new result }
        ensures formed { IsFormed self.old }
    {
        let alloc = self.alloc();
        let mut words = words;
        match kind {
            Kind::Script => self.take_head(&mut words),
            Kind::Faulty => self.take_faulty(alloc, words, faults),
            Kind::Seed => self.take_seed(&mut words),
            Kind::StartZero => self.take_common(CommonStart::Zero, &mut words),
            Kind::StartNoise => self.take_common(CommonStart::Noise, &mut words),
            Kind::StartNode => self.take_start(alloc, &mut words),
            Kind::Era => self.take_era(alloc, words, faults),
            Kind::Group => self.take_group(alloc, words),
            Kind::Lie => self.take_lie(alloc, &mut words),
            Kind::Rounds => self.take_rounds(alloc, words),
            Kind::Show => self.take_show(alloc, words),
            Kind::End => match words.next() {
                Some(_) => Err(TakeError::Refused(Rule::Form)),
                None => Ok(()),
            },
        }
    }
}
