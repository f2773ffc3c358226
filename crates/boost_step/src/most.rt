//! The number that most places of a list hold, by a candidate and a recount.

ghost use Rattle.std.specs.Prelude.{◌≡◌, ◌+◌, ◌<◌, ◌≤◌, ◌^◌, ℕ, List, [], ◌∷◌, ◌++◌, map, All};
ghost use Rattle.counting.specs.Values.{majority_or_zero};
ghost use Rattle.boost_step.specs.Leads.{Leads, times_of};

use crate::readings::Reading;

/// The number that leads among those so far, and by how many.
#[derive(Clone, Copy)]
struct Candidate {
    number: u64,
    lead: usize,
}

/// The one that leads if this number comes next.
fn follow(leading: Candidate, number: u64) -> Candidate
    requires { leading.lead + 1 < 2 ^ 64 }
    ensures leads { (numbers : List ℕ) → Leads numbers leading.number leading.lead
        → Leads (numbers ++ number ∷ []) result.number result.lead }
    ensures few { result.lead ≤ leading.lead + 1 }
{
    if leading.lead == 0 {
        Candidate { number, lead: 1 }
    } else if leading.number == number {
        Candidate {
            number,
            lead: leading.lead + 1,
        }
    } else {
        Candidate {
            number: leading.number,
            lead: leading.lead - 1,
        }
    }
}

/// The number that leads among what is read of these. If any is a majority, it is this one.
fn leading<R: Reading>(reading: &R, numbers: &[u64]) -> Candidate
    ensures { Leads (map (R.read reading.now) numbers.now) result.number result.lead }
{
    let mut leading = Candidate { number: 0, lead: 0 };
    for number in numbers {
        leading = follow(leading, reading.of(*number));
    }
    leading
}

/// How often a number is read of these.
fn times<R: Reading>(reading: &R, numbers: &[u64], wanted: u64) -> usize
    ensures { result ≡ times_of (map (R.read reading.now) numbers.now) wanted }
{
    let mut times = 0;
    for number in numbers {
        if reading.of(*number) == wanted {
            times += 1;
        }
    }
    times
}

/// The number that is read of more than half of these, 0 if there is none.
pub(crate) fn most<R: Reading>(reading: &R, numbers: &[u64]) -> u64
    ensures { result ≡ majority_or_zero (map (R.read reading.now) numbers.now) }
{
    let leading = leading(reading, numbers);
    let half = numbers.len() / 2;
    if leading.lead == 0 {
        0
    } else if half < leading.lead {
        leading.number
    } else if half < times(reading, numbers, leading.number) {
        leading.number
    } else {
        0
    }
}

/// The same if no number but 0 and 1 is read of these.
pub(crate) fn most_of_two<R: Reading>(reading: &R, numbers: &[u64]) -> u64
    requires { All (λ n. R.read reading.now n < 2) numbers.now }
    ensures { result ≡ majority_or_zero (map (R.read reading.now) numbers.now) }
{
    if numbers.len() / 2 < times(reading, numbers, 1) {
        1
    } else {
        0
    }
}

/// The same if all that is read of these is below a bound.
pub(crate) fn most_below<R: Reading>(reading: &R, numbers: &[u64], bound: u64) -> u64
    requires { All (λ n. R.read reading.now n < bound) numbers.now }
    ensures { result ≡ majority_or_zero (map (R.read reading.now) numbers.now) }
{
    if bound == 2 {
        most_of_two(reading, numbers)
    } else {
        most(reading, numbers)
    }
}
