ghost use Rattle.std.specs.Prelude.{◌≡◌, ◌<◌, ◌^◌, length, IfOk, IfSome, true};
ghost use Rattle.state_codec.specs.Shapes.{fields_at, shape_nodes};
ghost use Rattle.state_codec.specs.Ranges.{InRange};
ghost use Rattle.adversary_script.specs.LieWords.{who_seen, what_seen, lie_seen};
ghost use Rattle.adversary_script.specs.WordTests.{what_below, are_ids};
ghost use Rattle.adversary_script.specs.Answers.{Adds, Gives};
ghost use Rattle.adversary_script.specs.Scripts.{IsLying, faulty_sets};
ghost use Rattle.adversary_script.specs.LieSteps.{state_of_digits, who_of, what_of, lie_step};

use crate::drafts::Draft;
use crate::lie_words::{LieWords, WhatWords, WhoWords, lie_words};
use crate::lies::{Lie, What, Who};
use crate::word_tests::{is_crossed, what_below, who_below};
use edge_io::{TakeError, Words};
use state_codec::{NotState, StateShape};
use std::alloc::Global;
use sync_types::{NoMemory, NodeState, Rule};

/// The most rules of lies that a script may have.
const MOST_LIES: usize = 256;

/// The state of hex digits, or none if they are not just those of a state of node `v`.
pub fn state_of_digits(
    alloc: Global,
    shape: &StateShape,
    v: u32,
    word: &[u8],
) -> Result<Option<NodeState>, TakeError<Rule>>
    requires { v < shape_nodes shape.now }
    ensures value { Gives (state_of_digits (fields_at shape.now v) word.now) result }
    ensures range { IfOk result (λ found. IfSome found (λ state. InRange (fields_at shape.now v)
        state)) }
{
    match NodeState::zero(alloc, shape.depth()) {
        Err(NoMemory) => Err(TakeError::NoMemory),
        Ok(mut state) => match shape.read_hex(v, word, &mut state) {
            Ok(()) => Ok(Some(state)),
            Err(NotState) => Ok(None),
        },
    }
}

/// What a lie of a sender says, or nothing if its hex digits are not just those of a state of it.
fn what_of(
    alloc: Global,
    shape: &StateShape,
    sender: u32,
    what: &WhatWords,
) -> Result<Option<What>, TakeError<Rule>>
    requires sender { sender < shape_nodes shape.now }
    requires copied { what_below (shape_nodes shape.now) (what_seen what.now) ≡ true }
    ensures value { Gives (what_of (fields_at shape.now sender) (what_seen what.now)) result }
    ensures what { IfOk result
        (λ found. IfSome found
        (λ what. IsLying (shape_nodes shape.now) (fields_at shape.now sender) what)) }
{
    Ok(match *what {
        WhatWords::Noise => Some(What::Noise),
        WhatWords::Copy(node) => Some(What::Copy(node)),
        WhatWords::Hex(word) => match state_of_digits(alloc, shape, sender, word)? {
            Some(state) => Some(What::State(state)),
            None => None,
        },
        WhatWords::Shift(by) => Some(What::Shift(by)),
    })
}

impl<'a> Draft<'a> {
    /// Who hears a lie, or none if no group has the name.
    fn who_of(&self, who: &WhoWords) -> Option<Who>
        ensures { result ≡ who_of self.now.groups (who_seen who.now) }
    {
        match *who {
            WhoWords::All => Some(Who::All),
            WhoWords::Ids(first, last) => Some(Who::Ids(first, last)),
            WhoWords::Named(name) => match self.group_at(name) {
                Some(i) => Some(Who::Group(i)),
                None => None,
            },
        }
    }

    /// Whether all ids of a lie are those of nodes, and its sender's of one that is faulty in some
    /// era.
    fn are_ids(&self, line: &LieWords) -> bool
        ensures value { result ≡ are_ids self.now.nodes (faulty_sets self.now) (lie_seen line.now) }
        ensures sender { result ≡ true → line.now.sender < self.now.nodes }
        ensures small { result ≡ true → line.now.sender < 2 ^ 32 }
        ensures copied { result ≡ true → what_below self.now.nodes (what_seen line.now.what)
            ≡ true }
    {
        let nodes = self.nodes();
        if line.sender >= u64::from(nodes) {
            return false;
        }
        self.is_faulty(line.sender as u32)
            && who_below(nodes, &line.who)
            && what_below(nodes, &line.what)
    }

    /// Takes a line of a lie, after its first word.
    pub fn take_lie(&mut self, alloc: Global, words: &mut Words) -> Result<(), TakeError<Rule>>
        ensures { Adds (lie_step self.old words.old) self.new result }
    {
        let Some(line) = lie_words(words) else {
            return Err(TakeError::Refused(Rule::Form));
        };
        if self.lie_count() >= MOST_LIES {
            return Err(TakeError::Refused(Rule::Limit));
        }
        if !self.are_ids(&line) {
            return Err(TakeError::Refused(Rule::Node));
        }
        if line.first > line.last || is_crossed(&line.who) {
            return Err(TakeError::Refused(Rule::Range));
        }
        let Some(what) = what_of(alloc, self.shape(), line.sender as u32, &line.what)? else {
            return Err(TakeError::Refused(Rule::Hex));
        };
        let Some(who) = self.who_of(&line.who) else {
            return Err(TakeError::Refused(Rule::Name));
        };
        self.add_lie(Lie {
            first: line.first,
            last: line.last,
            sender: line.sender,
            who,
            what,
        })?;
        Ok(())
    }
}
