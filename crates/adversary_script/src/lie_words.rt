ghost use Rattle.std.specs.Prelude.{◌≡◌};
ghost use Rattle.std.specs.Option.{option_map};
ghost use Rattle.adversary_script.specs.LieWords.{WhoRead, what_words, what_seen, lie_words};
ghost use Rattle.adversary_script.specs.LieWords.{lie_seen};

use edge_io::{Words, number};

/// Who hears a lie, as its line has it.
#[derive(Clone, Copy)]
pub enum WhoWords<'a> {
    /// `all`
    All,
    /// `P Q`
    Ids(u64, u64),
    /// A group's name.
    Named(&'a [u8]),
}

/// What a lie says, as its line has it.
#[derive(Clone, Copy)]
pub enum WhatWords<'a> {
    /// `noise`
    Noise,
    /// `copy W`
    Copy(u64),
    /// `hex H`
    Hex(&'a [u8]),
    /// `shift D`
    Shift(u64),
}

/// The words of a lie after its first: `A B U to WHO WHAT`.
#[derive(Clone, Copy)]
pub struct LieWords<'a> {
    pub first: u64,
    pub last: u64,
    pub sender: u64,
    pub who: WhoWords<'a>,
    pub what: WhatWords<'a>,
}

/// Takes the words of who hears a lie. A number begins two ids; a word that is none and is not
/// `all` is a name.
fn who_words<'a>(words: &mut Words<'a>) -> Option<WhoWords<'a>>
    ensures { WhoRead result words.old words.new }
{
    let word = words.next()?;
    if word == b"all".as_slice() {
        return Some(WhoWords::All);
    }
    match number(word) {
        None => Some(WhoWords::Named(word)),
        Some(first) => {
            let last = number(words.next()?)?;
            Some(WhoWords::Ids(first, last))
        }
    }
}

/// Takes the words of what a lie says, to the end of the line.
fn what_words<'a>(words: &mut Words<'a>) -> Option<WhatWords<'a>>
    ensures { option_map what_seen result ≡ what_words words.old }
{
    let key = words.next()?;
    let word = words.next();
    let behind = words.next();
    if key == b"noise".as_slice() {
        return match word {
            Some(_) => None,
            None => Some(WhatWords::Noise),
        };
    }
    if behind.is_some() {
        return None;
    }
    let word = word?;
    if key == b"copy".as_slice() {
        return Some(WhatWords::Copy(number(word)?));
    }
    if key == b"hex".as_slice() {
        return Some(WhatWords::Hex(word));
    }
    if key == b"shift".as_slice() {
        return Some(WhatWords::Shift(number(word)?));
    }
    None
}

/// Takes the words of a lie after its first, to the end of the line.
pub fn lie_words<'a>(words: &mut Words<'a>) -> Option<LieWords<'a>>
    ensures { option_map lie_seen result ≡ lie_words words.old }
{
    let first = number(words.next()?)?;
    let last = number(words.next()?)?;
    let sender = number(words.next()?)?;
    if words.next()? != b"to".as_slice() {
        return None;
    }
    let who = who_words(words)?;
    let what = what_words(words)?;
    Some(LieWords {
        first,
        last,
        sender,
        who,
        what,
    })
}
