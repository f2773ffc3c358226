//! Reads a line that `trace` writes.

use crate::traces::{
    Basis, Beat, Following, Group, Half, Heard, Held, LeftSeen, Note, Output, Register, Seen, Side,
    StripName, Turn,
};
use edge_io::{Words, number};
use picture_parts::{next_is, next_number};
use std::alloc::{AllocFailed, Global};
use thiserror::Error;

/// Why a line of a trace is not taken.
#[derive(Clone, Copy, Debug, Error)]
pub enum TraceFault {
    /// It is no line of a trace.
    #[error("no line of a trace")]
    Unwanted,
    /// Memory was refused.
    #[error("out of memory")]
    NoMemory,
}

impl<T: Drop> From<AllocFailed<T>> for TraceFault {
    fn from(_: AllocFailed<T>) -> Self {
        TraceFault::NoMemory
    }
}

/// What a line says.
pub struct TraceLine {
    pub t: u32,
    pub node: u64,
    pub is_faulty: bool,
    pub seen: Seen,
}

// Written out, so that code that drops one has a single call.
impl Drop for TraceLine {
    fn drop(self) {
        let TraceLine {
            t: _,
            node: _,
            is_faulty: _,
            seen,
        } = self;
        drop(seen);
    }
}

impl TraceLine {
    /// The line as it is drawn, in a column, with no height of its own yet.
    pub fn into_note(self, column: u32, is_first: bool) -> Note {
        let TraceLine {
            t: _,
            node,
            is_faulty,
            seen,
        } = self;
        Note {
            column,
            top: 0,
            node,
            is_first,
            is_faulty,
            is_hit: false,
            is_lost: false,
            seen,
        }
    }
}

/// The words of a line that are still to be read, whether one so far was not wanted, and whether
/// memory ran out.
#[derive(Drop)]
pub struct Reader<'a> {
    words: Words<'a>,
    is_unwanted: bool,
    lacks_memory: bool,
}

/// The configuration and the node with which a line begins, and the word after these.
#[derive(Clone, Copy)]
pub struct Front<'a> {
    pub t: u32,
    pub node: u64,
    pub is_faulty: bool,
    pub word: &'a [u8],
}

impl<'a> Reader<'a> {
    /// A reader of a line, of which no word is read yet.
    pub fn new(line: &'a [u8]) -> Reader<'a> {
        Reader {
            words: Words::new(line),
            is_unwanted: false,
            lacks_memory: false,
        }
    }

    /// Remembers that a word is not wanted, unless something holds.
    pub fn want(&mut self, holds: bool) {
        if !holds {
            self.is_unwanted = true;
        }
    }

    /// The next word, if there is one.
    pub fn next_word(&mut self) -> Option<&'a [u8]> {
        self.words.next()
    }

    /// The next word, which must be there.
    pub fn word(&mut self) -> &'a [u8] {
        match self.next_word() {
            Some(word) => word,
            None => {
                self.want(false);
                &[]
            }
        }
    }

    /// The number of a word, which must be one.
    fn number_of(&mut self, word: &[u8]) -> u64 {
        match number(word) {
            Some(n) => n,
            None => {
                self.want(false);
                0
            }
        }
    }

    /// The next word as a number.
    pub fn number(&mut self) -> u64 {
        let word = self.word();
        self.number_of(word)
    }

    /// The next word as a number of 32 bits.
    pub fn small_number(&mut self) -> u32 {
        match next_number(&mut self.words) {
            Some(n) => n,
            None => {
                self.want(false);
                0
            }
        }
    }

    /// The next word as a number, or None for `none`.
    pub fn number_or_none(&mut self) -> Option<u64> {
        let word = self.word();
        if word == b"none".as_slice() {
            None
        } else {
            Some(self.number_of(word))
        }
    }

    /// Goes past a word that must stand there.
    pub fn pass(&mut self, key: &[u8]) {
        let is_there = next_is(&mut self.words, key);
        self.want(is_there);
    }

    /// The number after a word that must stand there.
    pub fn number_after(&mut self, key: &[u8]) -> u64 {
        self.pass(key);
        self.number()
    }

    /// The number, or `none`, after a word that must stand there.
    pub fn number_or_none_after(&mut self, key: &[u8]) -> Option<u64> {
        self.pass(key);
        self.number_or_none()
    }

    /// How a register holds its value.
    pub fn held(&mut self) -> Held {
        let word = self.word();
        if word == b"marked".as_slice() {
            return Held::Marked;
        }
        if word == b"locked".as_slice() {
            return Held::Locked;
        }
        self.want(word == b"unmarked".as_slice());
        Held::Unmarked
    }

    /// What a king's phase has come to.
    pub fn turn(&mut self) -> Turn {
        let word = self.word();
        if word == b"mark".as_slice() {
            return Turn::Mark;
        }
        if word == b"king".as_slice() {
            return Turn::King;
        }
        self.want(word == b"keep".as_slice());
        Turn::Keep
    }

    /// The votes up to the word `lead`, which is read too.
    fn votes(&mut self, alloc: Global) -> Vec<u64> {
        let mut votes = Vec::new(alloc);
        for _ in 0..MOST_BLOCKS {
            let word = self.word();
            if word == b"lead".as_slice() {
                return votes;
            }
            let vote = self.number_of(word);
            if self.is_unwanted {
                return votes;
            }
            if votes.push(vote).is_err() {
                self.lacks_memory = true;
                return votes;
            }
        }
        self.want(false);
        votes
    }

    /// Whether the next word is the one and not the other, one of which must stand there.
    fn choice(&mut self, one: &[u8], other: &[u8]) -> bool {
        let word = self.word();
        let is_one = word == one;
        self.want(is_one || word == other);
        is_one
    }

    /// One half of a group.
    fn half(&mut self) -> Half {
        if self.choice(b"left", b"right") {
            Half::Left
        } else {
            Half::Right
        }
    }

    /// By what a node has its instruction, after the first word of that.
    fn basis(&mut self, alloc: Global, word: &[u8]) -> Basis {
        if word == b"saw".as_slice() {
            let saw = self.number();
            let is_backed = self.choice(b"backed", b"unbacked");
            self.pass(b"follows");
            return Basis::Follows(Following {
                saw,
                is_backed,
                half: self.half(),
                instruction: self.number_after(b"instruction"),
            });
        }
        self.want(word == b"votes".as_slice());
        Basis::Votes(Beat {
            votes: self.votes(alloc),
            lead: self.number(),
            position: self.number_after(b"position"),
        })
    }

    /// What a node makes of what it hears, if the line goes on.
    fn heard_or_nothing(&mut self, alloc: Global) -> Option<Heard> {
        match self.words.next() {
            Some(word) => Some(Heard {
                basis: self.basis(alloc, word),
                turn: self.turn(),
                king: self.number_after(b"king"),
                same: self.number_after(b"same"),
                least: self.number_or_none_after(b"least"),
            }),
            None => None,
        }
    }

    /// What a node of a group holds besides its register, if the strip is that of a group.
    fn own(&mut self, name: StripName) -> Option<LeftSeen> {
        match name {
            StripName::Level(_) => None,
            StripName::Group(_) => {
                let is_sound = self.choice(b"sound", b"unsound");
                let seen = self.number_after(b"seen");
                let is_trusted = self.choice(b"trusted", b"untrusted");
                self.pass(b"share");
                Some(LeftSeen {
                    is_sound,
                    seen,
                    is_trusted,
                    share: self.half(),
                })
            }
        }
    }

    /// A register, after the name of its strip, which has no number yet.
    fn register(&mut self, alloc: Global, name: StripName) -> Register {
        Register {
            level: 0,
            name,
            value: self.number_or_none_after(b"value"),
            held: self.held(),
            own: self.own(name),
            heard: self.heard_or_nothing(alloc),
        }
    }

    /// A group, after its first word.
    fn group(&mut self, side: Side) -> Option<StripName> {
        Some(StripName::Group(Group {
            side,
            first: self.number(),
            last: self.number(),
        }))
    }

    /// The name of a strip, of which this is the first word, if it is one.
    fn strip(&mut self, word: &[u8]) -> Option<StripName> {
        if word == b"level".as_slice() {
            return Some(StripName::Level(self.number()));
        }
        if word == b"whole".as_slice() {
            return self.group(Side::Whole);
        }
        if word == b"left".as_slice() {
            return self.group(Side::Left);
        }
        if word == b"right".as_slice() {
            return self.group(Side::Right);
        }
        None
    }

    /// What a node shows, after the word `number`.
    pub fn output(&mut self) -> Output {
        Output {
            number: self.number_or_none(),
            output: self.number_after(b"output"),
        }
    }

    /// What a line is about, of which this is the first word.
    fn seen(&mut self, alloc: Global, word: &[u8]) -> Seen {
        if let Some(name) = self.strip(word) {
            return Seen::Holds(self.register(alloc, name));
        }
        self.want(word == b"number".as_slice());
        Seen::Shows(self.output())
    }

    /// The beginning of a line: `at`, a configuration, `node`, an id, `faulty` if it stands there,
    /// and the word after these.
    pub fn front(&mut self) -> Front<'a> {
        self.pass(b"at");
        let t = self.small_number();
        let node = self.number_after(b"node");
        let word = self.word();
        let is_faulty = word == b"faulty".as_slice();
        Front {
            t,
            node,
            is_faulty,
            word: if is_faulty { self.word() } else { word },
        }
    }

    /// Ends the line: each word was wanted, and there are no more.
    pub fn end(&mut self) -> Result<(), TraceFault> {
        if self.lacks_memory {
            return Err(TraceFault::NoMemory);
        }
        if self.is_unwanted || self.words.next().is_some() {
            return Err(TraceFault::Unwanted);
        }
        Ok(())
    }
}

/// How many words stand after `votes` at most, up to the word `lead` and with it.
const MOST_BLOCKS: usize = 257;

/// Reads a line of a trace.
pub fn trace_line(alloc: Global, line: &[u8]) -> Result<TraceLine, TraceFault> {
    let mut reader = Reader::new(line);
    let front = reader.front();
    let seen = reader.seen(alloc, front.word);
    reader.end()?;
    Ok(TraceLine {
        t: front.t,
        node: front.node,
        is_faulty: front.is_faulty,
        seen,
    })
}
