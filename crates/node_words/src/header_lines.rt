ghost use Rattle.std.specs.Prelude.{◌≡◌, ◌<◌, length, IfOk, IfSome};
ghost use Rattle.std.specs.Option.{option_map};
ghost use Rattle.texts.specs.Lines.{words_of};
ghost use Rattle.state_codec.specs.Shapes.{fields_at, shape_nodes};
ghost use Rattle.node_words.specs.NodePart.{id_in, state_word, state_of_digits};
ghost use Rattle.state_codec.specs.Ranges.{InRange};
ghost use Rattle.node_words.specs.NodePart.{HasState};

use edge_io::{LineReader, TakeError, Words, numbers_after};
use state_codec::{NotState, StateShape};
use std::alloc::Global;
use std::marker::Model;
use std::mem;
use sync_types::{NoMemory, NodeState, Rule};

/// A node, and the state that it begins with.
#[derive(Drop)]
pub struct NodeHeader {
    pub id: u32,
    pub state: NodeState,
}

/// How far a node part was read.
#[derive(Drop)]
pub enum HeaderStage {
    /// No line of it.
    Unread,
    /// Its first line.
    Begun,
    /// The line of its id.
    Named(u32),
    /// The line of its state.
    Stated(NodeHeader),
}

/// Reads the lines of a node part that count.
#[derive(Drop)]
pub struct HeaderLines<'a> {
    alloc: Global,
    shape: &'a StateShape,
    stage: HeaderStage,
}

impl<'a> Model for HeaderLines<'a> {
    ghost use Rattle.node_words.specs.NodePart.{HeaderSoFar};
    ghost use Rattle.node_words.specs.Fits.{StageFits};

    ghost Value = { HeaderSoFar };

    ghost view = { λ l. record { shape = l.shape.now; stage = l.stage } };

    ghost invariant = { λ l. StageFits l.shape.now l.stage };
}

impl<'a> HeaderLines<'a> {
    ghost use Rattle.node_words.specs.NodePart.{nothing_read};

    /// A reader of a part of which nothing was read, for nodes of that shape.
    pub fn new(alloc: Global, shape: &'a StateShape) -> HeaderLines<'a>
        ensures { result ≡ nothing_read shape.now }
    {
        HeaderLines {
            alloc,
            shape,
            stage: HeaderStage::Unread,
        }
    }
}

/// The id of a line `id V`, if it is that of one of so many nodes.
fn id_in(nodes: u32, line: &[u8]) -> Result<u32, Rule>
    ensures id { result ≡ id_in nodes line.now }
    ensures below { IfOk result (λ id. id < nodes) }
{
    let Some(numbers) = numbers_after::<1>(line, b"id") else {
        return Err(Rule::Form);
    };
    if numbers[0] >= u64::from(nodes) {
        return Err(Rule::Node);
    }
    Ok(numbers[0] as u32)
}

/// The word of a line `state H`.
fn state_word(line: &[u8]) -> Option<&[u8]>
    ensures { option_map (λ word. word.now) result ≡ state_word (words_of line.now) }
{
    let mut words = Words::new(line);
    let key = words.next()?;
    let word = words.next()?;
    if words.next().is_some() || key != b"state".as_slice() {
        return None;
    }
    Some(word)
}

/// The state of hex digits, or none if they are not exactly those of a state of node `v`.
fn state_of_digits(
    alloc: Global,
    shape: &StateShape,
    v: u32,
    word: &[u8],
) -> Result<Option<NodeState>, NoMemory>
    requires { v < shape_nodes shape.now }
    ensures value { IfOk result (λ found.
        found ≡ state_of_digits (fields_at shape.now v) word.now) }
    ensures range { IfOk result (λ found.
        IfSome found (λ state. InRange (fields_at shape.now v) state)) }
{
    let mut state = NodeState::zero(alloc, shape.depth())?;
    match shape.read_hex(v, word, &mut state) {
        Ok(()) => Ok(Some(state)),
        Err(NotState) => Ok(None),
    }
}

/// The header of a node with the state of a line `state H`.
fn with_state(
    alloc: Global,
    shape: &StateShape,
    id: u32,
    line: &[u8],
) -> Result<NodeHeader, TakeError<Rule>>
    requires { id < shape_nodes shape.now }
    ensures state { HasState shape.now id line.now result }
    ensures range { IfOk result (λ h. InRange (fields_at shape.now h.id) h.state) }
    ensures id { IfOk result (λ h. h.id ≡ id) }
{
    let Some(word) = state_word(line) else {
        return Err(TakeError::Refused(Rule::Form));
    };
    match state_of_digits(alloc, shape, id, word) {
        Ok(Some(state)) => Ok(NodeHeader { id, state }),
        Ok(None) => Err(TakeError::Refused(Rule::Hex)),
        Err(NoMemory) => Err(TakeError::NoMemory),
    }
}

impl<'a> HeaderLines<'a> {
    ghost use Rattle.node_words.specs.NodePart.{nothing_read, stated};

    /// Gives away the header, if it was read.
    fn finish(&mut self) -> Option<NodeHeader>
        ensures header { result ≡ stated self.old.stage }
        ensures anew { self.new ≡ nothing_read self.old.shape }
    {
        match mem::replace(&mut self.stage, HeaderStage::Unread) {
            HeaderStage::Unread | HeaderStage::Begun | HeaderStage::Named(_) => None,
            HeaderStage::Stated(header) => Some(header),
        }
    }
}

impl<'a> LineReader for HeaderLines<'a> {
    type Value = NodeHeader;

    type Rule = Rule;

    ghost use Rattle.node_words.specs.NodePart.{header_step};

    ghost step = { header_step };

    fn take(&mut self, line: &[u8]) -> Result<Option<NodeHeader>, TakeError<Rule>> {
        match &self.stage {
            HeaderStage::Unread => {
                if line != b"node 1".as_slice() {
                    return Err(TakeError::Refused(Rule::Form));
                }
                self.stage = HeaderStage::Begun;
            }
            HeaderStage::Begun => {
                let id = id_in(self.shape.nodes(), line).map_err(TakeError::Refused)?;
                self.stage = HeaderStage::Named(id);
            }
            HeaderStage::Named(id) => {
                let header = with_state(self.alloc, self.shape, *id, line)?;
                self.stage = HeaderStage::Stated(header);
            }
            HeaderStage::Stated(_) => {
                if line != b"end".as_slice() {
                    return Err(TakeError::Refused(Rule::Form));
                }
                return Ok(self.finish());
            }
        }
        Ok(None)
    }
}
