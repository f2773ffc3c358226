ghost use Rattle.std.specs.Prelude.{◌≡◌, ℕ, List};
ghost use Rattle.edge_io.specs.Writing.{Writes};

use edge_io::{Sink, Writer};

/// Lines of the configurations that are shown: each is a label, the number of the configuration,
/// and a word of each node that is correct there, by what it shows.
pub trait ShownLines: Drop {
    // What stands before the number.
    ghost front: { Self → List ℕ };

    // The word of a node that shows an output.
    ghost word: { Self → (output v : ℕ) → List ℕ };

    /// What stands before the number.
    fn label(&self) -> &'static [u8]
        ensures { result.now ≡ front self.now };

    /// Writes the word of node `v`, which shows this output.
    fn put_word<K: Sink>(&self, writer: &mut Writer<'_, K>, output: u64, v: u32)
        ensures { Writes K.told (word self.now output v) writer.old writer.new };
}
