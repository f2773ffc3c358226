/// The registers that states have for a layer, after those of the counter.
#[derive(Clone, Copy, Debug, PartialEq, Eq)]
pub struct Registers {
    /// How many values each of them has.
    pub values: u64,
    /// How many there are.
    pub count: usize,
}
