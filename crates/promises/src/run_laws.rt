//! The laws of what is played and written of a script. Each function is empty, or calls another
//! law: its clause is the law.

ghost use Rattle.counter_core.specs.Overlays.{Layer};
ghost use Rattle.promises.specs.PlainRuns.{PlainScriptsArePlayed};
ghost use Rattle.promises.specs.LayeredEras.{ScriptsArePlayed};
ghost use Rattle.promises.specs.ChangingRuns.{ChangingInputsHaveRuns};
ghost use Rattle.promises.specs.ChangingRuns.{ChangingCommandsHaveRuns};
ghost use Rattle.promises.specs.Promises.{LinesDecide, LinesFireTogether, LinesPutOne};
ghost use Rattle.promises.specs.Columns.{NodesMakeColumns, EraPacketsAreRead};
ghost use Rattle.promises.specs.CountedSlots.{SlotsCount};
ghost use Rattle.promises.specs.WrittenLines.{TextsAreWritten};

use counter_core::Overlay;
use node_stepper::laws::packets_read_back;
use round_runner::laws::eras_are_runs;

/// What is played of a script that was read for an accepted plan has the script's starts, faulty
/// sets and lies.
pub fn plain_scripts_are_played()
    ensures { PlainScriptsArePlayed }
{
    eras_are_runs();
}

/// What is played of a script with a layer whose step keeps values in range has the script's
/// starts, faulty sets and lies. Each era is a run with the layer, with the era's faulty nodes and
/// lies, whose first round is that of the era's first configuration.
pub fn scripts_are_played<O: Overlay>()
    ensures { (layer : Layer O.Kept) → ScriptsArePlayed layer }
{}

/// In each line of a slot of consensus the words of all correct nodes are one number, which is
/// their common input if they have one.
pub fn lines_decide()
    ensures { LinesDecide }
{}

/// In each line of a slot of firing all words of correct nodes say that they fire, or all that they
/// don't: as the correct nodes requested in the round before the slot, if they did the same.
pub fn lines_fire_together()
    ensures { LinesFireTogether }
{}

/// In each line of a slot of the log the words of all correct nodes are one number, the value of
/// the slot's own entry, which stands newest in the log of each of them. If the owner that the line
/// names is correct, it is what the owner commands at the output with which the slot begins.
pub fn lines_put_one()
    ensures { LinesPutOne }
{}

/// A node that begins in its state of an era's first configuration, and is given the packets of the
/// era's rounds, writes its column of that era: the cell of its state in each configuration.
pub fn nodes_make_columns()
    ensures { NodesMakeColumns }
{}

/// The bytes of the packets of an era's rounds are read as these packets, each of them whole.
pub fn era_packets_are_read()
    ensures { EraPacketsAreRead }
{
    packets_read_back();
}

/// The text of each word that plays a script has just the lines that are said of it: the bound, a
/// line of each configuration that is shown, or of each slot that counts and begins in one, with a
/// word of each node, and the first locked configurations.
pub fn texts_are_written()
    ensures { TextsAreWritten }
{}

/// With a layer whose step keeps values in range, a line of a slot is written exactly if a slot
/// begins in a configuration that is shown, later than the bound in its era, and ends in that era
/// and within the rounds.
pub fn slots_are_exact<O: Overlay>()
    ensures { (layer : Layer O.Kept) → SlotsCount layer }
{}

/// The layer of consensus whose inputs change from round to round, each below the values, keeps
/// range, and each scene goes on whatever faulty nodes tell. So there are runs with it.
pub fn changing_inputs_have_runs()
    ensures { ChangingInputsHaveRuns }
{}

/// The layer of the log whose commands change does so too.
pub fn changing_commands_have_runs()
    ensures { ChangingCommandsHaveRuns }
{}
