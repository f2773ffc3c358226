use crate::ShownLines;
use edge_io::{Sink, Writer};

/// The rows of the word `run`: of each configuration that is shown, what its nodes show.
#[derive(Clone, Copy, Debug, Drop)]
pub struct Rows;

impl ShownLines for Rows {
    ghost use Rattle.std.specs.Prelude.{codes};
    ghost use Rattle.machine_runner.specs.RunTexts.{number_word};

    ghost front = { λ _. codes "row " };

    ghost word = { λ _ output v. number_word output };

    fn label(&self) -> &'static [u8] {
        b"row "
    }

    fn put_word<K: Sink>(&self, writer: &mut Writer<'_, K>, output: u64, _v: u32) {
        writer.labelled(b" ", output);
    }
}
