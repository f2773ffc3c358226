use crate::{Lines, Output, OutputLines};
use counter_core::NoOverlay;
use edge_io::{RisingText, Sink, Writer};
use layer_laws::Play;

/// The rows of the word `run`: of each configuration that is shown, what its nodes show.
#[derive(Clone, Copy, Debug, Drop)]
pub struct Rows;

impl Lines<NoOverlay> for Rows {
    ghost use Rattle.run_lines.specs.RowTexts.{row_wording};

    ghost wording = { λ _. row_wording };

    fn label(&self) -> &'static [u8] {
        b"row "
    }

    fn shows<P: Play<NoOverlay>>(&self, play: &P) -> bool {
        let (first, last) = play.script().shown();
        first <= play.at() && play.at() <= last
    }

    fn put_front<K: Sink, P: Play<NoOverlay>>(
        &self,
        writer: &mut Writer<'_, K>,
        _play: &P,
        number: &RisingText,
    ) {
        writer.rising(number);
    }

    fn put_word<K: Sink, P: Play<NoOverlay>>(&self, writer: &mut Writer<'_, K>, play: &P, v: u32) {
        writer.labelled(b" ", play.output(v));
    }
}

impl OutputLines for Rows {
    ghost use Rattle.std.specs.Prelude.{refl};
    ghost use Rattle.run_lines.specs.RunTexts.{number_word};

    ghost word_at = { λ _ output v. number_word output };

    fn put_word_at<K: Sink>(&self, writer: &mut Writer<'_, K>, output: &Output, _v: u32) {
        let value = output.value();
        if value < 10 {
            // Two bytes, which are placed without a call that copies them.
            writer.text(&[b' ', b'0' + value as u8]);
        } else {
            writer.rising(output.text());
        }
    }

    ghost by_output = { λ _. refl };
}
