//! Reads words of the lines that `run` writes.

use edge_io::{Words, number};
use picture_parts::{next_is, number_behind, small_or_none};

/// What a word of a row says: an output, or None for a star.
pub fn shown(word: &[u8]) -> Option<Option<u64>> {
    if word == b"*".as_slice() {
        return Some(None);
    }
    match number(word) {
        Some(output) => Some(Some(output)),
        None => None,
    }
}

/// The number that a last word is, or None for `none`. Nothing follows.
fn last_number(words: &mut Words<'_>) -> Option<Option<u32>> {
    match (words.next(), words.next()) {
        (Some(word), None) => small_or_none(word),
        _ => None,
    }
}

/// What `locked W` says, with which a line ends.
fn locked_behind(words: &mut Words<'_>) -> Option<Option<u32>> {
    if next_is(words, b"locked") {
        last_number(words)
    } else {
        None
    }
}

/// What a line `locked W` says.
pub fn locked_line(line: &[u8]) -> Option<Option<u32>> {
    locked_behind(&mut Words::new(line))
}

/// What a line `era A locked W` says.
pub fn era_line(line: &[u8]) -> Option<(u32, Option<u32>)> {
    let mut words = Words::new(line);
    let begin = number_behind(&mut words, b"era");
    match (begin, locked_behind(&mut words)) {
        (Some(begin), Some(locked)) => Some((begin, locked)),
        _ => None,
    }
}
