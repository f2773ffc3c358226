ghost use Rattle.std.specs.Prelude.{◌≡◌, ℕ};

use crate::divisors::Divisor;

/// What is read of a number.
pub(crate) trait Reading {
    // What that is.
    ghost read: { Self → ℕ → ℕ };

    /// Reads it of a number.
    fn of(&self, number: u64) -> u64
        ensures { result ≡ read self.now number };
}

/// The leader to which an output points, in a block of this interval.
#[derive(Drop)]
pub(crate) struct Pointer {
    pub interval: Divisor,
    pub leaders: Divisor,
}

impl Reading for Pointer {
    ghost use Rattle.std.specs.Prelude.{◌/◌, ◌%◌};

    ghost read = { λ p o. o / p.interval % p.leaders };

    fn of(&self, number: u64) -> u64 {
        self.leaders.rest(self.interval.of(number))
    }
}

/// The leader to which an output points, in a block of this interval, if there are two leaders.
#[derive(Drop)]
pub(crate) struct PointerOfTwo {
    pub interval: Divisor,
}

impl Reading for PointerOfTwo {
    ghost use Rattle.std.specs.Prelude.{◌/◌, ◌%◌};

    ghost read = { λ p o. o / p.interval % 2 };

    fn of(&self, number: u64) -> u64 {
        self.interval.of(number) % 2
    }
}

/// The part of the beat at which an output is.
#[derive(Drop)]
pub(crate) struct Part {
    pub beat: Divisor,
}

impl Reading for Part {
    ghost use Rattle.construction.specs.Pointers.{part_of};

    ghost read = { λ p o. part_of p.beat o };

    fn of(&self, number: u64) -> u64 {
        self.beat.rest(number)
    }
}

/// The number itself.
#[derive(Drop)]
pub(crate) struct Itself;

impl Reading for Itself {
    ghost read = { λ i o. o };

    fn of(&self, number: u64) -> u64 {
        number
    }
}
