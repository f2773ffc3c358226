/// Why the last era of a script locks: from configuration `window` on, for a beat, all correct
/// nodes of sound blocks point to block `leader`, which is sound and whose correct nodes have one
/// part, which grows by one; in configuration `phase` the phase of the node `king` begins, which is
/// correct, and it ends in the window and by the last configuration.
#[derive(Clone, Copy, Debug, PartialEq, Eq)]
pub struct Explanation {
    /// The first configuration of the window.
    pub window: u64,
    /// The block to which all point.
    pub leader: u32,
    /// The configuration in which the phase begins.
    pub phase: u64,
    /// The node whose phase it is.
    pub king: u32,
}
