ghost use Rattle.std.specs.Prelude.{◌≡◌};
ghost use Rattle.std.specs.List.{list_all};
ghost use Rattle.std.specs.Option.{option_map};
ghost use Rattle.adversary_script.specs.LieWords.{who_seen, what_seen};
ghost use Rattle.adversary_script.specs.WordTests.{is_letter, is_name, are_below, is_rising};
ghost use Rattle.adversary_script.specs.WordTests.{only, both, who_below, what_below};
ghost use Rattle.adversary_script.specs.WordTests.{is_crossed};

use crate::lie_words::{WhatWords, WhoWords};
use edge_io::Words;

/// The most letters that a name may have.
const LONGEST_NAME: usize = 16;

/// The one word that is left, if there is just one.
pub fn only<'a>(words: &mut Words<'a>) -> Option<&'a [u8]>
    ensures { option_map (λ word. word.now) result ≡ only words.old }
{
    let word = words.next()?;
    match words.next() {
        Some(_) => None,
        None => Some(word),
    }
}

/// The two words that are left, if there are just two.
pub fn both<'a>(words: &mut Words<'a>) -> Option<(&'a [u8], &'a [u8])>
    ensures { option_map (λ found. (found.0.now, found.1.now)) result ≡ both words.old }
{
    let first = words.next()?;
    let second = words.next()?;
    match words.next() {
        Some(_) => None,
        None => Some((first, second)),
    }
}

/// Whether each byte is a letter `a-z`.
fn all_letters(word: &[u8]) -> bool
    ensures { result ≡ list_all is_letter word.now }
{
    word.iter().all(|b| *b >= b'a' && *b <= b'z')
}

/// Whether a word is a name: 1 to 16 letters `a-z`.
pub fn is_name(word: &[u8]) -> bool
    ensures { result ≡ is_name word.now }
{
    word.len() >= 1 && word.len() <= LONGEST_NAME && all_letters(word)
}

/// Whether each id is that of a node.
pub fn are_below(nodes: u32, ids: &[u64]) -> bool
    ensures { result ≡ are_below nodes ids.now }
{
    ids.iter().all(|id| *id < u64::from(nodes))
}

/// Whether each id is above the one before.
pub fn is_rising(ids: &[u64]) -> bool
    ensures { result ≡ is_rising ids.now }
{
    let mut rest = ids;
    while let [first, second, ..] = rest {
        if first >= second {
            return false;
        }
        rest = &rest[1..];
    }
    true
}

/// Whether the ids of who hears a lie are those of nodes.
pub fn who_below(nodes: u32, who: &WhoWords) -> bool
    ensures { result ≡ who_below nodes (who_seen who.now) }
{
    match *who {
        WhoWords::Ids(first, last) => first < u64::from(nodes) && last < u64::from(nodes),
        _ => true,
    }
}

/// Whether the id that a lie copies is that of a node.
pub fn what_below(nodes: u32, what: &WhatWords) -> bool
    ensures { result ≡ what_below nodes (what_seen what.now) }
{
    match *what {
        WhatWords::Copy(node) => node < u64::from(nodes),
        _ => true,
    }
}

/// Whether the first of two ids is above the last.
pub fn is_crossed(who: &WhoWords) -> bool
    ensures { result ≡ is_crossed (who_seen who.now) }
{
    match *who {
        WhoWords::Ids(first, last) => first > last,
        _ => false,
    }
}
