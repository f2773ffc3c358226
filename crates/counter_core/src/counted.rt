/// What an instruction of the phase king uses of what a node hears. If its kind does not use a
/// number, that may be any.
#[derive(Clone, Copy, Debug)]
pub struct Counted {
    /// How many nodes have the node's own value, infinity being one.
    pub same: usize,
    /// The least finite value that more nodes have than may be faulty, None if there is none.
    pub least: Option<u64>,
    /// The king's value, None being infinity.
    pub king: Option<u64>,
}
