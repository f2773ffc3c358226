/// A line of a slot table: it gives a node the outputs from the first to the last, both included.
#[derive(Clone, Copy, Debug, PartialEq, Eq, Drop)]
pub struct SlotLine {
    /// The node's id.
    pub node: u32,
    /// The first output.
    pub first: u64,
    /// The last output.
    pub last: u64,
}
