use crate::ShownLines;
use edge_io::{Sink, Writer};
use slot_table::SlotTable;

/// The lines of a slot table: of each configuration that is shown, which nodes hold at the outputs
/// that they show.
#[derive(Drop)]
pub struct HoldLines {
    /// The table.
    pub table: SlotTable,
}

impl ShownLines for HoldLines {
    ghost use Rattle.std.specs.Prelude.{codes};
    ghost use Rattle.slot_table.specs.HoldWords.{hold_word_at};

    ghost front = { λ _. codes "hold " };

    ghost word = { λ l. hold_word_at l.table };

    fn label(&self) -> &'static [u8] {
        b"hold "
    }

    fn put_word<K: Sink>(&self, writer: &mut Writer<'_, K>, output: u64, v: u32) {
        if self.table.holder(output) == Some(v) {
            writer.text(b" 1");
        } else {
            writer.text(b" .");
        }
    }
}
