//! The laws of what the words with a layer write. Each function is empty, or calls another
//! law: its clause is the law.

ghost use Rattle.run_lines.specs.LayerLaws.{RowsAsDefined, HoldsAsDefined, DecisionsAsDefined};
ghost use Rattle.run_lines.specs.LayerLaws.{AtMostOneInALine, HoldWordsAreExact};
ghost use Rattle.run_lines.specs.LogLaws.{FiresAsDefined, EntriesAsDefined};

use slot_table::laws::hold_words;

/// What is written of a run while a script is played is a row for each configuration that is shown.
pub fn rows_as_defined()
    ensures { RowsAsDefined }
{}

/// What is written of a slot table while a script is played is a line for each configuration that
/// is shown.
pub fn holds_as_defined()
    ensures { HoldsAsDefined }
{}

/// What is written of consensus while a script is played, each line when its slot ends, is a line
/// of each slot that counts and begins in a configuration that is shown: whether one begins may be
/// seen when it ends, by the output there.
pub fn decisions_as_defined()
    ensures { DecisionsAsDefined }
{}

/// In each line of a slot table a node's word is 1 exactly if the table gives it the output that it
/// shows.
pub fn hold_words_are_exact()
    ensures { HoldWordsAreExact }
{
    hold_words();
}

/// In each line of a slot table at most one word of a correct node is 1, from the plan's bound on,
/// counted from the first configuration of the era.
pub fn at_most_one_in_a_line()
    ensures { AtMostOneInALine }
{}

/// What is written of firing while a script is played, each line when its slot ends, is a line of
/// each slot that counts and begins in a configuration that is shown, in the order of these.
pub fn fires_as_defined()
    ensures { FiresAsDefined }
{}

/// What is written of a log while a script is played, each line when its slot ends, is a line of
/// each slot that counts and begins in a configuration that is shown, in the order of these. Its
/// owner is that of the output there, though it is found by the output at the slot's end.
pub fn entries_as_defined()
    ensures { EntriesAsDefined }
{}
