ghost use Rattle.std.specs.Prelude.{◌≡◌, ◌≤◌, ◌<◌, ◌*◌, ◌/◌, ◌%◌, ◌^◌};

use std::marker::Model;

/// A number by which others are divided, at least 1; it is seen as that number.
#[derive(Debug, Drop)]
pub struct Divisor {
    divisor: u64,
    // 2^32 divided by it, rounded up. Below it the product with it tells the quotient.
    factor: u64,
}

impl Model for Divisor {
    ghost use Rattle.std.specs.Prelude.{ℕ, ◌≡◌, ◌≤◌};
    ghost use Rattle.boost_step.specs.Factors.{factor_of};

    ghost Value = { ℕ };

    ghost view = { λ d. d.divisor };

    ghost invariant = { λ d. (1 ≤ d.divisor) × (d.factor ≡ factor_of d.divisor) };
}

impl Divisor {
    /// Makes it, by one division.
    pub fn new(divisor: u64) -> Divisor
        requires { 1 ≤ divisor }
        ensures { result ≡ divisor }
    {
        Divisor {
            divisor,
            factor: 0xffff_ffff / divisor + 1,
        }
    }

    /// This number, the interval of a block, times twice the number of leaders: the interval of the
    /// block after it. For two leaders it takes no division.
    pub fn next_interval(&self, leaders: u64) -> Divisor
        requires some { 1 ≤ leaders }
        requires small { self.now * (2 * leaders) < 2 ^ 64 }
        ensures { result ≡ self.now * (2 * leaders) }
    {
        let rest = if leaders == 2 {
            (self.factor - 1) / 4
        } else {
            (self.factor - 1) / (2 * leaders)
        };
        Divisor {
            divisor: self.divisor * (2 * leaders),
            factor: rest + 1,
        }
    }

    /// The quotient of a number.
    pub fn of(&self, number: u64) -> u64
        ensures { result ≡ number / self.now }
    {
        if number < self.factor {
            number * self.factor / 0x1_0000_0000
        } else {
            number / self.divisor
        }
    }

    /// The remainder of a number.
    pub fn rest(&self, number: u64) -> u64
        ensures { result ≡ number % self.now }
    {
        number - self.of(number) * self.divisor
    }
}
