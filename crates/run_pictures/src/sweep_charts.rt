//! What `sweep` writes.

ghost use Rattle.std.specs.Prelude.{◌≡◌};

/// A line of a sweep, and where it is drawn: its runs are a part of a bar.
#[derive(Clone, Copy)]
pub struct Tally {
    /// Where its era begins.
    pub era: u32,
    /// The first locked configuration of its runs, if they have one.
    pub locked: Option<u32>,
    pub runs: u32,
    /// The least number of a key of these runs.
    pub seed: u64,
    /// How many eras stand before its own.
    pub band: u32,
    /// Which of the bars of its band it is a part of.
    pub column: u32,
    /// How many runs its era has, up to it.
    pub total: u32,
    /// How many runs its bar has, up to it.
    pub upto: u32,
    /// The height at which its part of the bar begins, and the one at which it ends.
    pub foot: u64,
    pub head: u64,
    /// Whether no line of its era after it has a first locked configuration.
    pub is_worst: bool,
}

/// A number below a column.
#[derive(Clone, Copy)]
pub struct Tick {
    pub column: u32,
    pub number: u64,
}

/// What `sweep` wrote, and what is drawn of it.
pub struct Sweep {
    /// The plan's bound.
    pub bound: u64,
    /// The bar in whose range it stands, or that after the last one.
    pub bound_column: u32,
    /// How many configurations a bar stands for.
    pub span: u32,
    /// How many bars may stand side by side.
    pub columns: u32,
    /// How many eras there are.
    pub bands: u32,
    /// How many runs the highest bar has.
    pub most: u32,
    pub tallies: Vec<Tally>,
    pub ticks: Vec<Tick>,
}

// Written out, so that code that drops one has a single call.
impl Drop for Sweep {
    fn drop(self) {
        let Sweep {
            bound: _,
            bound_column: _,
            span: _,
            columns: _,
            bands: _,
            most: _,
            tallies,
            ticks,
        } = self;
        drop(tallies);
        drop(ticks);
    }
}

impl Sweep {
    /// The lines.
    pub fn lines(&self) -> &[Tally]
        ensures { result.now ≡ self.now.tallies.items }
    {
        &self.tallies
    }

    /// The numbers below the columns.
    pub fn numbers(&self) -> &[Tick]
        ensures { result.now ≡ self.now.ticks.items }
    {
        &self.ticks
    }
}
