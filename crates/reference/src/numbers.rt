//! The numbers of a plan of either construction, and how they are divided.

/// How many nodes there are, how many of them may be faulty, what they count by, and from which
/// configuration on all correct ones count.
#[derive(Clone, Copy)]
pub struct Numbers {
    pub nodes: u64,
    pub faults: u64,
    pub modulus: u64,
    pub bound: u64,
}

impl Numbers {
    /// How many rounds a slot has.
    pub fn slot(&self) -> u64 {
        self.faults.wrapping_add(1).wrapping_mul(3)
    }

    /// How many rounds belong to an entry of a log.
    pub fn entry(&self) -> u64 {
        self.slot().wrapping_add(1)
    }

    /// In how many rounds each node owns an entry.
    pub fn turn(&self) -> u64 {
        self.nodes.wrapping_mul(self.entry())
    }
}

/// `a` divided by `b`, or 0 if `b` is 0.
pub fn quotient(a: u64, b: u64) -> u64 {
    a.checked_div(b).unwrap_or(0)
}

/// `a` modulo `b`, or 0 if `b` is 0.
pub fn remainder(a: u64, b: u64) -> u64 {
    a.checked_rem(b).unwrap_or(0)
}

/// The least number of bits that tell `count` values apart.
pub fn width(count: u64) -> u64 {
    for bits in 0..64 {
        if 1 << bits >= count {
            return bits;
        }
    }
    64
}
