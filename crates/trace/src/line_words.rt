ghost use Rattle.std.specs.Prelude.{◌≡◌};
ghost use Rattle.edge_io.specs.Pieces.{piece_text};
ghost use Rattle.trace.specs.Words.{mark_word, number_or_none, turn_word};

use edge_io::Piece;

/// A number as a piece of a text, or that there is none.
pub fn number_piece(number: Option<u64>) -> Piece<'static>
    ensures { piece_text result ≡ number_or_none number }
{
    match number {
        Some(number) => Piece::Number(number),
        None => Piece::Text(b"none"),
    }
}

/// The word of a mark, by whether the register has it, and whether all correct nodes of the group
/// have the register's value, marked.
pub fn mark_word(marked: bool, all: bool) -> &'static str
    ensures { result.now ≡ mark_word marked all }
{
    if !marked {
        " unmarked"
    } else if all {
        " locked"
    } else {
        " marked"
    }
}

/// The word of a kind of instruction of the phase king: 0 is *keep*, 1 *mark*, and 2 *king*.
pub fn turn_word(kind: u64) -> &'static str
    ensures { result.now ≡ turn_word kind }
{
    match kind {
        0 => " keep",
        1 => " mark",
        _ => " king",
    }
}
