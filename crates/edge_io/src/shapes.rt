ghost use Rattle.std.specs.Prelude.{◌≡◌, IfOk};
ghost use Rattle.std.specs.Option.{option_map};
ghost use Rattle.texts.specs.Lines.{words_of};
ghost use Rattle.texts.specs.Shapes.{numbers_after, all_numbers, all_numbers_after};

use crate::{Words, number};
use std::alloc::{AllocError, Global};

/// The numbers of a line that is a key and exactly `N` numbers after it, parted by single spaces.
/// None exactly if the line is not of that shape.
pub fn numbers_after<const N: usize>(line: &[u8], key: &[u8]) -> Option<[u64; N]>
    ensures { result ≡ numbers_after key.now N (words_of line.now) }
{
    let mut words = Words::new(line);
    if words.next()? != key {
        return None;
    }
    let mut numbers = [0; N];
    for i in 0..N {
        numbers[i] = number(words.next()?)?;
    }
    match words.next() {
        Some(_) => None,
        None => Some(numbers),
    }
}

/// The numbers of all words. None exactly if one of them is no number.
pub fn all_numbers(alloc: Global, words: Words) -> Result<Option<Vec<u64>>, AllocError>
    ensures { IfOk result
        (λ found. option_map (λ ns. ns.items) found ≡ all_numbers words.entry) }
{
    let mut numbers = Vec::new(alloc);
    for word in words {
        match number(word) {
            Some(value) => numbers.push(value)?,
            None => return Ok(None),
        }
    }
    Ok(Some(numbers))
}

/// The numbers of a line that is a key and any number of numbers after it, parted by single spaces.
/// None exactly if the line is not of that shape.
pub fn all_numbers_after(
    alloc: Global,
    line: &[u8],
    key: &[u8],
) -> Result<Option<Vec<u64>>, AllocError>
    ensures { IfOk result
        (λ found. option_map (λ ns. ns.items) found
        ≡ all_numbers_after key.now (words_of line.now)) }
{
    let mut words = Words::new(line);
    let Some(word) = words.next() else {
        return Ok(None);
    };
    if word != key {
        return Ok(None);
    }
    all_numbers(alloc, words)
}
