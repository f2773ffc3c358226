/// What is wanted of a plan.
#[derive(Clone, Copy, Debug, PartialEq, Eq)]
pub struct Want {
    /// How many faults it tolerates, at most 85.
    pub faults: u64,
    /// The modulus that it counts by, 2 to 2^40.
    pub modulus: u64,
    /// How many nodes it has at most, 1 to 256.
    pub most: u64,
}
