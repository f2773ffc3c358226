ghost use Rattle.std.specs.Prelude.{◌≡◌, ℕ, List};
ghost use Rattle.edge_io.specs.Writing.{Writes};
ghost use Rattle.run_lines.specs.OutputTexts.{output_wording};

use crate::outputs::Output;
use counter_core::NoOverlay;
use edge_io::{Sink, Writer};
use layer_runner::Lines;

/// Lines of the configurations that are shown, whose words depend on what their nodes show. They
/// can be written of a configuration that is not played, if its outputs are known.
pub trait OutputLines: Lines<NoOverlay> {
    // The word of a node that shows an output.
    ghost word_at: { Self → (output v : ℕ) → List ℕ };

    /// Writes the word of node `v`, which is correct and shows this output.
    fn put_word_at<K: Sink>(&self, writer: &mut Writer<'_, K>, output: &Output, v: u32)
        ensures { Writes K.told (word_at self.now output.now.value v) writer.old writer.new };

    // They are such lines.
    ghost by_output: { (lines : Self) → Self.Lines.wording lines
        ≡ output_wording (Self.Lines.wording lines).label (word_at lines) };
}
