ghost use Rattle.std.specs.Prelude.{◌≡◌, true, Some, IfOk, Ok};
ghost use Rattle.state_codec.specs.Shapes.{shape_nodes};
ghost use Rattle.edge_io.specs.Taking.{Takes};
ghost use Rattle.adversary_script.specs.Answers.{Adds};
ghost use Rattle.adversary_script.specs.Steps.{line_step};
ghost use Rattle.adversary_script.specs.Kinds.{kind_of, may_follow};
ghost use Rattle.adversary_script.specs.ScriptPart.{nothing_read, passed, read_as};

use crate::drafts::Draft;
use crate::kinds::{Kind, may_follow, read_kind};
use crate::scripts::Script;
use edge_io::{LineReader, TakeError, Words};
use state_codec::StateShape;
use std::alloc::Global;
use std::marker::Model;
use sync_types::{NoMemory, Rule};

/// Reads a script part line by line.
pub struct ScriptLines<'a> {
    faults: u32,
    last: Option<Kind>,
    draft: Draft<'a>,
}

// Written out, so that code that drops one has a single call.
impl<'a> Drop for ScriptLines<'a> {
    fn drop(self) {
        let ScriptLines {
            faults: _,
            last,
            draft,
        } = self;
        drop(last);
        drop(draft);
    }
}

impl<'a> Model for ScriptLines<'a> {
    ghost use Rattle.adversary_script.specs.ScriptPart.{ScriptSoFar, IsClosed};

    ghost Value = { ScriptSoFar };

    ghost view = { λ l. record { faults = l.faults; last = l.last; script = l.draft } };

    ghost invariant = { λ l. IsClosed l.last l.draft };
}

impl<'a> ScriptLines<'a> {
    /// A reader of a part of which nothing was read. At most `faults` nodes may be faulty in an
    /// era.
    pub fn new(alloc: Global, faults: u32, shape: &'a StateShape) -> ScriptLines<'a>
        ensures { result ≡ nothing_read (shape_nodes shape.now) faults shape.now }
    {
        ScriptLines {
            faults,
            last: None,
            draft: Draft::new(alloc, shape),
        }
    }

    /// The kind of the last line.
    fn last(&self) -> Option<Kind>
        ensures { result ≡ self.now.last }
    {
        self.last
    }

    /// Takes a line of a kind that may stand here, by the words after those that say the kind. If
    /// the line is refused, the reader is at its end.
    fn take_kind(&mut self, kind: Kind, words: Words) -> Result<(), TakeError<Rule>>
        requires { may_follow self.old.last kind ≡ true }
        ensures said { Adds (line_step self.old.faults kind self.old.script words.entry)
            self.new.script result }
        ensures same { IfOk result
            (λ _. self.new ≡ record self.old { last = Some kind; script = self.new.script }) }
    {
        match self.draft.take_line(kind, words, self.faults) {
            Ok(()) => {
                self.last = Some(kind);
                Ok(())
            }
            Err(error) => {
                self.last = None;
                Err(error)
            }
        }
    }

    /// Gives the script if the line that was taken is the last of the part.
    fn give(&mut self, kind: Kind) -> Result<Option<Script>, TakeError<Rule>>
        requires { self.old.last ≡ Some kind }
        ensures { Takes (passed self.old kind (Ok self.old.script)) self.new result }
    {
        if kind != Kind::End {
            return Ok(None);
        }
        self.last = None;
        match self.draft.finish() {
            Ok(script) => Ok(Some(script)),
            Err(NoMemory) => Err(TakeError::NoMemory),
        }
    }

    /// Takes a line by its words.
    fn take_words(&mut self, line: Words) -> Result<Option<Script>, TakeError<Rule>>
        ensures { Takes (read_as self.old (kind_of line.entry)) self.new result }
    {
        let mut words = line;
        let Some(kind) = read_kind(&mut words) else {
            return Err(TakeError::Refused(Rule::Form));
        };
        if !may_follow(self.last(), kind) {
            return Err(TakeError::Refused(Rule::Form));
        }
        self.take_kind(kind, words)?;
        self.give(kind)
    }
}

impl<'a> LineReader for ScriptLines<'a> {
    type Value = Script;

    type Rule = Rule;

    ghost use Rattle.adversary_script.specs.ScriptPart.{script_step};

    ghost step = { script_step };

    fn take(&mut self, line: &[u8]) -> Result<Option<Script>, TakeError<Rule>> {
        self.take_words(Words::new(line))
    }
}
