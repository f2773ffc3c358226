//! What the lines of words that play a layer promise, whatever the input. Each function does
//! nothing: its clause is the law.

ghost use Rattle.promises.specs.LayerPromises.{HoldsAreKept, DecisionsAreKept, FiresAreKept};
ghost use Rattle.promises.specs.LayerPromises.{EntriesAreKept};

use crate::run_laws::{
    lines_decide, lines_fire_together, lines_put_one, plain_scripts_are_played, scripts_are_played,
    slots_are_exact, texts_are_written,
};
use consensus_layer::Agreement;
use firing::Firing;
use replicated_log::Replica;
use run_lines::laws::{at_most_one_in_a_line, hold_words_are_exact};

/// If an input is a plan, a slot table and a script, what is played is the script's: its starts,
/// its faulty sets and its lies. What is written has just its lines. A node's word in a line is 1
/// exactly if the table gives it the output that it shows, which it does from the first output of a
/// line to the last; and from the plan's bound on, counted from the first configuration of the era,
/// at most one word is.
pub fn holds_are_kept()
    ensures { HoldsAreKept }
{
    plain_scripts_are_played();
    texts_are_written();
    hold_words_are_exact();
    at_most_one_in_a_line();
}

/// If an input is a plan, inputs to agree on and a script, what is played is the script's. What is
/// written has just its lines: there is one of each slot that counts and begins in a configuration
/// that is shown. In each line of a slot the words of all correct nodes are one number, which is
/// their common input if they have one.
pub fn decisions_are_kept()
    ensures { DecisionsAreKept }
{
    scripts_are_played::<Agreement>();
    texts_are_written();
    slots_are_exact::<Agreement>();
    lines_decide();
}

/// If an input is a plan, requests and a script, what is played is the script's. What is written
/// has just its lines: there is one of each slot that counts and begins in a configuration that is
/// shown. In each line of a slot all correct nodes fire or none does, as they requested in the
/// round before the slot, if they did the same. They request in the rounds of which a line says so.
pub fn fires_are_kept()
    ensures { FiresAreKept }
{
    scripts_are_played::<Firing>();
    texts_are_written();
    slots_are_exact::<Firing>();
    lines_fire_together();
}

/// If an input is a plan, a log and a script, what is played is the script's. What is written has
/// just its lines: there is one of each slot that counts and begins in a configuration that is
/// shown. In each line of a slot the words of all correct nodes are one number, the value of the
/// slot's own entry. It is what the owner that the line names commands at the output with which the
/// slot begins, if that owner is correct. Nodes own slots in turn, and give their commands in turn.
pub fn entries_are_kept()
    ensures { EntriesAreKept }
{
    scripts_are_played::<Replica>();
    texts_are_written();
    slots_are_exact::<Replica>();
    lines_put_one();
}
