/// What a node keeps of firing.
#[derive(Clone, Copy, Debug, PartialEq, Eq, Drop)]
pub struct Fire {
    /// The number of the round that began last.
    pub round: u64,
    /// Whether the node fired in its last round.
    pub fired: bool,
}
