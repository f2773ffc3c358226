ghost use Rattle.std.specs.Prelude.{◌*◌, ◌<◌, ◌≤◌};
ghost use Rattle.plan_finder.specs.Best.{AreBest, best_prop};

use crate::best::Best;

/// The best levels that reach pairs of at most `most` nodes and fewer faults than `width`, row by
/// row: those of n nodes and f faults at `n * width + f`, as far as rows are there.
#[derive(Clone, Copy)]
pub struct Rows<'a> {
    pub cells: &'a [Option<Best>],
    pub most: u64,
    pub width: usize,
    ghost sizes: { (most ≤ 256) × (most < 3 * width) × (width ≤ 86) },
    ghost best: { AreBest most width cells.now } by { best_prop most width cells.now },
}
