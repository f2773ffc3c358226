//! Turns a line.

ghost use Rattle.std.specs.Prelude.{◌≡◌, ◌∷◌, Err, MatchResult};
ghost use Rattle.state_codec.specs.Shapes.{fields_at};
ghost use Rattle.states.specs.Puts.{PutsTurned};
ghost use Rattle.states.specs.StateWords.{state_said};
ghost use Rattle.states.specs.Turned.{digits_turned, said_turned, is_key, rest_turned};
ghost use Rattle.states.specs.Turned.{words_turned, line_turned};

use crate::faults::{Fault, TurnError};
use crate::shaped::NodeShape;
use edge_io::{Words, number};
use state_codec::{NotState, StateShape};
use std::alloc::Global;
use sync_types::NodeState;

/// Whether a word begins a state in words.
fn is_key(word: &[u8]) -> bool
    ensures { result ≡ is_key word.now }
{
    word == b"number".as_slice() || word == b"registers".as_slice()
}

/// The node that a line names, from its first word on.
fn node_of<'a>(shape: &'a StateShape, words: &mut Words<'_>) -> Result<NodeShape<'a>, Fault>
    ensures { MatchResult result
        (λ named. (named.shape.now ≡ shape.now) × (words_turned shape.now words.old
        ≡ rest_turned (fields_at shape.now named.node) named.node words.new))
        (λ why. words_turned shape.now words.old ≡ Err why) }
{
    if words.next() != Some(b"node".as_slice()) {
        return Err(Fault::Form);
    }
    let word = words.next().ok_or(Fault::Form)?;
    let id = number(word).ok_or(Fault::Form)?;
    if id >= u64::from(shape.nodes()) {
        return Err(Fault::Node);
    }
    let node = id as u32;
    Ok(NodeShape { shape, node })
}

impl NodeShape<'_> {
    /// Puts the state of digits in words.
    fn turn_digits(&self, alloc: Global, digits: &[u8], out: &mut Vec<u8>) -> Result<(), TurnError>
        ensures { PutsTurned
            (digits_turned (fields_at self.now.shape.now self.now.node) self.now.node digits.now)
            result out.old.items out.new.items }
    {
        let mut state = NodeState::zero(alloc, self.shape.depth())?;
        match self.shape.read_hex(self.node, digits, &mut state) {
            Ok(()) => Ok(self.push_words(&state, out)?),
            Err(NotState) => {
                let digits = 2 * self.shape.bytes_of(self.node);
                Err(TurnError::Refused(Fault::Hex(digits)))
            }
        }
    }

    /// Puts the state of words, of which `key` is the first, in digits.
    fn turn_words(
        &self,
        alloc: Global,
        key: &[u8],
        words: &mut Words<'_>,
        out: &mut Vec<u8>,
    ) -> Result<(), TurnError>
        ensures { PutsTurned
            (said_turned (fields_at self.now.shape.now self.now.node) self.now.node
            (state_said (fields_at self.now.shape.now self.now.node) (key.now ∷ words.old)))
            result out.old.items out.new.items }
    {
        self.shape.facts();
        match self.read_words(alloc, key, words)? {
            Some(state) => Ok(self.push_digits(&state, out)?),
            None => Err(TurnError::Refused(Fault::Fields)),
        }
    }

    /// Puts the other form of the state that the words after the node's id say.
    fn turn_rest(
        &self,
        alloc: Global,
        words: &mut Words<'_>,
        out: &mut Vec<u8>,
    ) -> Result<(), TurnError>
        ensures { PutsTurned
            (rest_turned (fields_at self.now.shape.now self.now.node) self.now.node words.old)
            result out.old.items out.new.items }
    {
        let Some(key) = words.next() else {
            return Err(TurnError::Refused(Fault::Form));
        };
        if is_key(key) {
            return self.turn_words(alloc, key, words, out);
        }
        if words.next().is_some() {
            return Err(TurnError::Refused(Fault::Form));
        }
        self.turn_digits(alloc, key, out)
    }
}

/// Turns a line: puts the other line of its state after what stands in `out`, without a newline.
///
/// `Refused` comes exactly if the line is refused, and `NoMemory` if memory was refused. Something
/// may stand in `out` then.
pub fn turn(
    alloc: Global,
    shape: &StateShape,
    line: &[u8],
    out: &mut Vec<u8>,
) -> Result<(), TurnError>
    ensures { PutsTurned (line_turned shape.now line.now) result out.old.items out.new.items }
{
    let mut words = Words::new(line);
    let node = node_of(shape, &mut words)?;
    node.turn_rest(alloc, &mut words, out)
}
