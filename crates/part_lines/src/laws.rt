//! The law of refused parts. The function is empty: its clause is the law.

ghost use Rattle.part_lines.specs.TakenLines.{RefusedLineIsFirst};

/// A part is refused at the first line that fails, and its number is that line's: the lines before
/// it only lack an end, and with it the part is refused so, whatever follows.
pub fn refusals_are_first<S, V, R>()
    ensures { RefusedLineIsFirst S V R }
{}
