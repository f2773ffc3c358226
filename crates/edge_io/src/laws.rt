//! Laws of parts and of numbers. Each function is empty: its clauses are the laws.

ghost use Rattle.texts.specs.IllParted.{IllPartedLineIsRefused, IllPartedLineRefusesPart};
ghost use Rattle.texts.specs.NumberWords.{PrintedIsRead, ReadIsPrinted};
ghost use Rattle.edge_io.specs.PendingLaws.{PendingPartGoesOn, PendingTextGoesOn};

/// A line that is not skipped, and that has an empty word or holds a carriage return, is refused by
/// `form`, whatever the part's own step says; and a part is refused at the first such line that its
/// reading comes to.
pub fn ill_parted_lines_are_refused<S, V, R>()
    ensures line { IllPartedLineIsRefused S V R }
    ensures part { IllPartedLineRefusesPart S V R }
{}

/// A number below 10 ^ 15 and the word that is printed of it: the word is read as that number, and
/// no other word is.
pub fn numbers_have_one_word()
    ensures printed { PrintedIsRead }
    ensures read { ReadIsPrinted }
{}

/// Pending bytes do not show what decides: whatever follows them, a part ends or is refused at a
/// line after their whole lines, and a text is refused at none of these.
pub fn pending_bytes_decide_nothing<S, V, R>()
    ensures part { PendingPartGoesOn S V R }
    ensures text { PendingTextGoesOn S V R }
{}
