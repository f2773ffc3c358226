//! What the words ask for.

ghost use Rattle.std.specs.Prelude.{◌≡◌, ◌+◌, ◌<◌, ◌^◌, map, string_bytes};
ghost use Rattle.sweep.specs.Requests.{numbers_by, numbers_with, request_of};

use edge_io::number;
use std::marker::Model;

/// Numbers whose keys are played: so many, from one on. All of them, and that after them, are below
/// 2^64.
#[derive(Clone, Copy, Debug, PartialEq, Eq)]
pub struct Numbers {
    first: u64,
    count: u64,
}

impl Model for Numbers {
    ghost use Rattle.std.specs.Prelude.{◌+◌, ◌<◌, ◌^◌};
    ghost use Rattle.sweep.specs.NumberRanges.{NumberRange};

    ghost Value = { NumberRange };

    ghost view = { λ n. record { first = n.first; count = n.count } };

    ghost inverse = { λ v. record { first = v.first; count = v.count } };

    ghost invariant = { λ n. n.first + n.count < 2 ^ 64 };
}

impl Numbers {
    /// The first one.
    pub fn first(&self) -> u64
        ensures { result ≡ self.now.first }
    {
        self.first
    }

    /// How many there are.
    pub fn count(&self) -> u64
        ensures value { result ≡ self.now.count }
        ensures few { self.now.first + result < 2 ^ 64 }
    {
        self.count
    }
}

/// What is above each number that is written in words: they have at most 15 digits.
const LIMIT: u64 = 1_000_000_000_000_000;

/// So many numbers from `first` on, if there is one and they keep the limits.
fn numbers_with(first: u64, count: u64) -> Option<Numbers>
    ensures { result ≡ numbers_with first count }
{
    if count < 1 || first >= LIMIT || count >= LIMIT {
        return None;
    }
    Some(Numbers { first, count })
}

/// The same, if each word is a number.
fn numbers_by(first: Option<u64>, count: Option<u64>) -> Option<Numbers>
    ensures { result ≡ numbers_by first count }
{
    match (first, count) {
        (Some(first), Some(count)) => numbers_with(first, count),
        _ => None,
    }
}

/// What these words ask for: None exactly if they ask for no sweep.
pub fn request_of(words: &[String]) -> Option<Numbers>
    ensures { result ≡ request_of (map string_bytes words.now) }
{
    match words {
        [first, count] => numbers_by(number(first.as_bytes()), number(count.as_bytes())),
        _ => None,
    }
}
