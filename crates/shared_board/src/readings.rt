ghost use Rattle.std.specs.Prelude.{◌≡◌, ◌≤◌, ℕ};
ghost use Rattle.construction.specs.Pointers.{part_of};
ghost use Rattle.shared_board.specs.Votes.{pointer_in};

use leader_pointers::part;

/// What is read off the number that a node shows.
pub(crate) trait Reading {
    ghost reads: { Self → ℕ → ℕ };

    /// What it reads off an output.
    fn of(&self, output: u64) -> u64
        ensures { result ≡ reads self.now output };
}

/// The pointers of a block, by the interval of the block.
#[derive(Clone, Copy, Drop)]
pub(crate) struct Pointers {
    pub interval: u64,
    pub leaders: u64,
    ghost some_interval: { 1 ≤ interval },
    ghost some_leaders: { 1 ≤ leaders },
}

impl Reading for Pointers {
    ghost reads = { λ p. pointer_in p.interval p.leaders };

    fn of(&self, output: u64) -> u64 {
        output / self.interval % self.leaders
    }
}

/// The parts of a beat.
#[derive(Clone, Copy, Drop)]
pub(crate) struct Parts {
    pub beat: u64,
    ghost some_beat: { 1 ≤ beat },
}

impl Reading for Parts {
    ghost reads = { λ p. part_of p.beat };

    fn of(&self, output: u64) -> u64 {
        part(self.beat, output)
    }
}
