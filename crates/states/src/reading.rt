//! Reads a state that is written in words.

ghost use Rattle.std.specs.Prelude.{◌≡◌, ◌<◌, ◌∷◌, Some, None, MatchOption, IfOk, option_map};
ghost use Rattle.std.specs.Prelude.{◌++◌, option_to_list};
ghost use Rattle.state_codec.specs.Shapes.{fields_at};
ghost use Rattle.states.specs.StateWords.{
  number_below,
  value_said,
  before_comma,
  mark_said,
  register_said,
  next_said,
  registers_said,
  has_register,
  labelled_said,
  state_said,
  with_number,
  numbered_said,
};

use crate::shaped::NodeShape;
use edge_io::{Words, number};
use std::alloc::Global;
use sync_types::{NoMemory, NodeState, Reg};

/// The number below a modulus that a word writes.
fn number_below(modulus: u64, word: &[u8]) -> Option<u64>
    ensures { result ≡ number_below modulus word.now }
{
    let value = number(word)?;
    if value < modulus { Some(value) } else { None }
}

/// The value below a modulus that a word writes: a number, or None for `infinite`.
fn value_of(modulus: u64, word: &[u8]) -> Option<Option<u64>>
    ensures { result ≡ value_said modulus word.now }
{
    if word == b"infinite".as_slice() {
        return Some(None);
    }
    Some(Some(number_below(modulus, word)?))
}

/// A word that ends with a comma, without it.
fn before_comma(word: &[u8]) -> Option<&[u8]>
    ensures { option_map (λ front. front.now) result ≡ before_comma word.now }
{
    let (last, front) = word.split_last()?;
    if *last == b',' { Some(front) } else { None }
}

/// What words say, and whether a comma stands after it.
#[derive(Clone, Copy)]
struct Said<T> {
    value: T,
    further: bool,
}

/// Whether the next word is `marked`; no word is no mark.
fn next_mark(words: &mut Words<'_>) -> Option<Said<bool>>
    ensures { MatchOption result (mark_said words.old ≡ None) (λ said. mark_said words.old
        ≡ Some (record { value = said.value; further = said.further; behind = words.new })) }
{
    let Some(word) = words.next() else {
        return Some(Said {
            value: false,
            further: false,
        });
    };
    let further = word == b"marked,".as_slice();
    if further || word == b"marked".as_slice() {
        return Some(Said {
            value: true,
            further,
        });
    }
    None
}

/// The next register, of this modulus.
fn next_register(modulus: u64, words: &mut Words<'_>) -> Option<Said<Reg>>
    ensures { MatchOption result (register_said modulus words.old ≡ None) (λ said.
        register_said modulus words.old
        ≡ Some (record { value = said.value; further = said.further; behind = words.new })) }
{
    let word = words.next()?;
    if let Some(front) = before_comma(word) {
        let a = value_of(modulus, front)?;
        return Some(Said {
            value: Reg { a, d: false },
            further: true,
        });
    }
    let a = value_of(modulus, word)?;
    let mark = next_mark(words)?;
    Some(Said {
        value: Reg { a, d: mark.value },
        further: mark.further,
    })
}

/// The next register of a node, if another one follows: one that the node lacks is zero, and has no
/// words.
fn next_of_node(modulus: u64, further: bool, words: &mut Words<'_>) -> Option<Said<Reg>>
    ensures { MatchOption result (next_said modulus further words.old ≡ None) (λ said.
        next_said modulus further words.old
        ≡ Some (record { value = said.value; further = said.further; behind = words.new })) }
{
    if modulus == 0 {
        let zero = Reg {
            a: Some(0),
            d: false,
        };
        return Some(Said {
            value: zero,
            further,
        });
    }
    if further {
        next_register(modulus, words)
    } else {
        None
    }
}

impl NodeShape<'_> {
    /// Whether the node has a register.
    fn has_registers(&self) -> bool
        ensures { result ≡ has_register (fields_at self.now.shape.now self.now.node).moduli }
    {
        for i in 0..self.shape.depth() {
            if self.modulus(i) > 0 {
                return true;
            }
        }
        false
    }

    /// The state with the number 0 whose registers the words say, if they are just those that the
    /// node has; `first` is whether there is one.
    fn read_registers(
        &self,
        alloc: Global,
        first: bool,
        words: &mut Words<'_>,
    ) -> Result<Option<NodeState>, NoMemory>
        ensures { IfOk result (λ read. read ≡ with_number 0
            (registers_said (fields_at self.now.shape.now self.now.node).moduli first words.old)) }
    {
        let mut state = NodeState::zero(alloc, self.shape.depth())?;
        let mut further = first;
        for i in 0..self.shape.depth() {
            let Some(said) = next_of_node(self.modulus(i), further, words) else {
                return Ok(None);
            };
            state.set_reg(i, said.value);
            further = said.further;
        }
        if further {
            return Ok(None);
        }
        match words.next() {
            Some(_) => Ok(None),
            None => Ok(Some(state)),
        }
    }

    /// The same after the word `registers`, if the node has any. A word may be taken already.
    fn read_labelled(
        &self,
        alloc: Global,
        taken: Option<&[u8]>,
        words: &mut Words<'_>,
    ) -> Result<Option<NodeState>, NoMemory>
        ensures { IfOk result (λ read. read ≡ with_number 0
            (labelled_said (fields_at self.now.shape.now self.now.node).moduli
            (option_to_list (option_map (λ word. word.now) taken.entry) ++ words.old))) }
    {
        if !self.has_registers() {
            return match taken {
                Some(_) => Ok(None),
                None => self.read_registers(alloc, false, words),
            };
        }
        let is_labelled = match taken {
            Some(word) => word == b"registers".as_slice(),
            None => words.next() == Some(b"registers".as_slice()),
        };
        if is_labelled {
            self.read_registers(alloc, true, words)
        } else {
            Ok(None)
        }
    }

    /// The state whose number is the next word, and whose registers those after it say.
    fn read_numbered(
        &self,
        alloc: Global,
        words: &mut Words<'_>,
    ) -> Result<Option<NodeState>, NoMemory>
        ensures { IfOk result (λ read. read
            ≡ numbered_said (fields_at self.now.shape.now self.now.node) words.old) }
    {
        let Some(word) = words.next() else {
            return Ok(None);
        };
        let Some(x) = number_below(self.shape.base_of(self.node), word) else {
            return Ok(None);
        };
        let Some(mut state) = self.read_labelled(alloc, None, words)? else {
            return Ok(None);
        };
        state.set_x(x);
        Ok(Some(state))
    }

    /// The state that words say, of which `key` is the first. None comes exactly if they are not
    /// the words of just the fields that the node has, each number below its modulus.
    ///
    /// `NoMemory` comes if memory was refused.
    pub fn read_words(
        &self,
        alloc: Global,
        key: &[u8],
        words: &mut Words<'_>,
    ) -> Result<Option<NodeState>, NoMemory>
        ensures { IfOk result (λ read. read
            ≡ state_said (fields_at self.now.shape.now self.now.node) (key.now ∷ words.old)) }
    {
        if !self.has_number() {
            return self.read_labelled(alloc, Some(key), words);
        }
        if key == b"number".as_slice() {
            self.read_numbered(alloc, words)
        } else {
            Ok(None)
        }
    }
}
