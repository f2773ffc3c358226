//! Reads words of lines.

use edge_io::{Words, number, numbers_after};

/// The number of a line that is a key and a number after it.
pub fn number_after(line: &[u8], key: &[u8]) -> Option<u64> {
    let numbers: [u64; 1] = numbers_after(line, key)?;
    Some(numbers[0])
}

/// What a word is as a number of 32 bits, as a row or a line after the rows may name.
fn small(word: &[u8]) -> Option<u32> {
    match number(word) {
        Some(n) => u32::try_from(n).ok(),
        None => None,
    }
}

/// The next word as a number of 32 bits.
pub fn next_number(words: &mut Words<'_>) -> Option<u32> {
    match words.next() {
        Some(word) => small(word),
        None => None,
    }
}

/// Whether the next word is this one.
pub fn next_is(words: &mut Words<'_>, key: &[u8]) -> bool {
    match words.next() {
        Some(word) => word == key,
        None => false,
    }
}

/// The number of 32 bits after a key that is the next word.
pub fn number_behind(words: &mut Words<'_>, key: &[u8]) -> Option<u32> {
    if next_is(words, key) {
        next_number(words)
    } else {
        None
    }
}

/// The number that a word is, or None for `none`.
pub fn small_or_none(word: &[u8]) -> Option<Option<u32>> {
    if word == b"none".as_slice() {
        return Some(None);
    }
    match small(word) {
        Some(n) => Some(Some(n)),
        None => None,
    }
}
