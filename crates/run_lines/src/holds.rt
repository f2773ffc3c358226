use crate::{Lines, Output, OutputLines};
use counter_core::NoOverlay;
use edge_io::{RisingText, Sink, Writer};
use layer_laws::Play;
use slot_table::SlotTable;

/// The lines of a slot table: of each configuration that is shown, which nodes hold at the outputs
/// that they show.
#[derive(Drop)]
pub struct HoldLines {
    /// The table.
    pub table: SlotTable,
}

impl Lines<NoOverlay> for HoldLines {
    ghost use Rattle.run_lines.specs.HoldTexts.{hold_wording};

    ghost wording = { λ l. hold_wording l.table };

    fn label(&self) -> &'static [u8] {
        b"hold "
    }

    fn shows<P: Play<NoOverlay>>(&self, play: &P) -> bool {
        let (first, last) = play.script().shown();
        first <= play.at() && play.at() <= last
    }

    fn put_front<K: Sink, P: Play<NoOverlay>>(
        &self,
        writer: &mut Writer<'_, K>,
        _play: &P,
        number: &RisingText,
    ) {
        writer.rising(number);
    }

    fn put_word<K: Sink, P: Play<NoOverlay>>(&self, writer: &mut Writer<'_, K>, play: &P, v: u32) {
        if self.table.holder(play.output(v)) == Some(v) {
            writer.text(b" 1");
        } else {
            writer.text(b" .");
        }
    }
}

impl OutputLines for HoldLines {
    ghost use Rattle.std.specs.Prelude.{refl};
    ghost use Rattle.run_lines.specs.HoldTexts.{hold_word_at};

    ghost word_at = { λ l. hold_word_at l.table };

    fn put_word_at<K: Sink>(&self, writer: &mut Writer<'_, K>, output: &Output, v: u32) {
        if self.table.holder(output.value()) == Some(v) {
            writer.text(b" 1");
        } else {
            writer.text(b" .");
        }
    }

    ghost by_output = { λ _. refl };
}
