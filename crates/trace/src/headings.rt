ghost use Rattle.std.specs.Prelude.{◌≡◌};
ghost use Rattle.edge_io.specs.Writing.{Writes};
ghost use Rattle.trace.specs.Words.{faulty_word, shown_line};

use crate::line_words::number_piece;
use edge_io::{Piece, Sink, Writer};

/// Whose lines they are.
#[derive(Clone, Copy, Debug, PartialEq, Eq)]
pub struct Heading {
    /// The number of the configuration.
    pub at: u64,
    /// The id of the node.
    pub node: u32,
    /// Whether the node is faulty in the era of that configuration.
    pub faulty: bool,
}

impl Heading {
    /// What stands after the id of the node.
    pub fn faulty_word(&self) -> &'static str
        ensures { result.now ≡ faulty_word self.now.faulty }
    {
        if self.faulty { " faulty" } else { "" }
    }

    /// Writes the line of the node that says its number, if it has one, and what it shows.
    pub fn put_shown<K: Sink>(&self, writer: &mut Writer<'_, K>, number: Option<u64>, output: u64)
        ensures { Writes K.told (shown_line self.now number output) writer.old writer.new }
    {
        writer.pieces(&[
            Piece::Text(b"at "),
            Piece::Number(self.at),
            Piece::Text(b" node "),
            Piece::Number(u64::from(self.node)),
            Piece::Text(self.faulty_word().as_bytes()),
            Piece::Text(b" number "),
            number_piece(number),
            Piece::Text(b" output "),
            Piece::Number(output),
            Piece::Text(b"\n"),
        ]);
    }
}
