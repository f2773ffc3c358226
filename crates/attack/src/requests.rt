//! What the words ask for.

ghost use Rattle.std.specs.Prelude.{◌≡◌, map, string_bytes, IfOk};
ghost use Rattle.attack.specs.Requests.{are_kinds, kind_words, named_kinds};
ghost use Rattle.attack.specs.Requests.{numbers_by, numbers_with, request_of};

use crate::kinds::Kind;
use edge_io::number;
use std::alloc::Global;
use sync_types::NoMemory;

/// The numbers of a search.
#[derive(Clone, Copy, Debug, PartialEq, Eq)]
pub struct Numbers {
    /// The seed of what is drawn, below 10^15.
    pub seed: u64,
    /// How many attacks are tried, 1 to 1,000,000.
    pub runs: u64,
}

/// What is above each seed: it has at most 15 digits.
const LIMIT: u64 = 1_000_000_000_000_000;

/// How many attacks may be tried.
const MOST_RUNS: u64 = 1_000_000;

/// The numbers of a search, if they keep the limits.
fn numbers_with(seed: u64, runs: u64) -> Option<Numbers>
    ensures { result ≡ numbers_with seed runs }
{
    if seed >= LIMIT || runs < 1 || runs > MOST_RUNS {
        return None;
    }
    Some(Numbers { seed, runs })
}

/// The same, if each word is a number.
fn numbers_by(seed: Option<u64>, runs: Option<u64>) -> Option<Numbers>
    ensures { result ≡ numbers_by seed runs }
{
    match (seed, runs) {
        (Some(seed), Some(runs)) => numbers_with(seed, runs),
        _ => None,
    }
}

/// Whether each word is that of a kind.
fn are_kinds(words: &[String]) -> bool
    ensures { result ≡ are_kinds (map string_bytes words.now) }
{
    for word in words {
        if Kind::of(word.as_bytes()).is_none() {
            return false;
        }
    }
    true
}

/// What these words ask for: None exactly if they ask for no search.
pub fn request_of(words: &[String]) -> Option<Numbers>
    ensures { result ≡ request_of (map string_bytes words.now) }
{
    match words {
        [seed, runs, kinds @ ..] => {
            if !are_kinds(kinds) {
                return None;
            }
            numbers_by(number(seed.as_bytes()), number(runs.as_bytes()))
        }
        _ => None,
    }
}

/// The words after the numbers.
pub fn kind_words(words: &[String]) -> &[String]
    ensures { map string_bytes result.now ≡ kind_words (map string_bytes words.now) }
{
    match words {
        [_, _, kinds @ ..] => kinds,
        _ => &[],
    }
}

/// The kinds that words name, in their order. The only error is want of memory.
pub fn named_kinds(alloc: Global, words: &[String]) -> Result<Vec<Kind>, NoMemory>
    ensures { IfOk result (λ kinds. kinds.items ≡ named_kinds (map string_bytes words.now)) }
{
    let mut kinds = Vec::new(alloc);
    for word in words {
        if let Some(kind) = Kind::of(word.as_bytes()) {
            kinds.push(kind).map_err(|_| NoMemory)?;
        }
    }
    Ok(kinds)
}
