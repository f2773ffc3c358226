ghost use Rattle.std.specs.Prelude.{◌≡◌, ◌+◌, ◌*◌, ◌<◌, ◌≤◌, length, All};

use crate::senders::Senders;

/// Where a group stands among the nodes, and how its blocks point.
#[derive(Clone, Copy, Drop)]
pub(crate) struct Site<'a> {
    pub senders: &'a Senders<'a>,
    pub first: usize,
    pub nodes: usize,
    /// How many nodes a block has.
    pub size: usize,
    /// The interval of each block.
    pub intervals: &'a [u64],
    pub leaders: u64,
    pub beat: u64,
    ghost some_intervals: { All (λ interval. 1 ≤ interval) intervals.now },
    ghost some_leaders: { 1 ≤ leaders },
    ghost few_leaders: { leaders ≤ length intervals.now },
    ghost some_beat: { 1 ≤ beat },
    ghost fits: { length intervals.now * size ≤ nodes },
    ghost within: { first + nodes ≤ length senders.now.registers },
}

impl Site<'_> {
    /// The first node of a block.
    pub fn start(&self, i: usize) -> usize
        requires { i < length self.now.intervals.now }
        ensures { result ≡ self.now.first + i * self.now.size }
    {
        let _nodes = self.senders.len();
        self.first + i * self.size
    }
}
