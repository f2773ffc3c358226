ghost use Rattle.std.specs.Prelude.{◌≡◌, ◌≤◌, ◌<◌, ◌&&◌, length};
ghost use Rattle.run_checker.specs.Items.{value_said, values_said};
ghost use Rattle.run_checker.specs.Rows.{shown_at, value_compared, row_compared};

use edge_io::{Words, number};
use state_codec::Packed;
use sync_types::FaultSet;

/// What a word of a row says: `Some(None)` for a star.
fn read_value(word: &[u8]) -> Option<Option<u64>>
    ensures { result ≡ value_said word.now }
{
    if word == b"*".as_slice() {
        return Some(None);
    }
    let value = number(word)?;
    Some(Some(value))
}

/// Whether a word says what its node shows; None if just one of the two has a number.
fn compare_value(said: Option<u64>, shown: Option<u64>) -> Option<bool>
    ensures { result ≡ value_compared said shown }
{
    match (said, shown) {
        (None, None) => Some(true),
        (Some(said), Some(shown)) => Some(said == shown),
        (None, Some(_)) => None,
        (Some(_), None) => None,
    }
}

/// Whether both hold.
fn both(a: bool, b: bool) -> bool
    ensures { result ≡ (a && b) }
{
    a && b
}

/// A configuration whose correct nodes show something.
#[derive(Drop)]
pub struct Showing<'a> {
    /// The faulty nodes.
    pub faulty: &'a FaultSet,
    /// How many levels the plan has.
    pub depth: usize,
    /// The configuration.
    pub config: &'a Packed,
    ghost size: { length config.now.current ≡ faulty.now.nodes },
    ghost deep: { depth ≤ config.now.shape.depth },
}

impl Showing<'_> {
    /// What the word of node `v` in a row has to be; nothing after the last node.
    fn at(&self, v: u32) -> Option<u64>
        ensures { v < self.now.faulty.now.nodes → result
            ≡ shown_at self.now.depth self.now.faulty.now.ids self.now.config.now.current v }
    {
        if v >= self.faulty.nodes() || self.faulty.contains(v) {
            return None;
        }
        Some(round_runner::shown_at(self.config, v, self.depth))
    }

    /// Reads a row. None if a word is no number or star, if there is not one for each node, or if
    /// the stars do not stand for exactly the faulty nodes; else whether each number is what its
    /// node shows.
    pub fn compare_row(&self, words: Words<'_>) -> Option<bool>
        ensures { result ≡ row_compared self.now.depth self.now.faulty.now.ids
            self.now.config.now.current self.now.faulty.now.nodes (values_said words.entry) }
    {
        let mut v: u32 = 0;
        let mut same = true;
        for word in words {
            if v >= self.faulty.nodes() {
                return None;
            }
            let said = read_value(word)?;
            let matches = compare_value(said, self.at(v))?;
            same = both(same, matches);
            v += 1;
        }
        if v < self.faulty.nodes() {
            return None;
        }
        Some(same)
    }
}
