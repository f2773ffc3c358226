//! What inputs with a script are read as, and what holds of each run of a script on a halving plan.
//! The functions do nothing: their clauses are the laws.

ghost use Rattle.halving_runs.specs.RunPromises.{RunsKeepPromise};
ghost use Rattle.halving_runs.specs.HoldPromises.{SlotsKeepPromise};
ghost use Rattle.halving_runs.specs.LayerPromises.{LayersKeepPromise};
ghost use Rattle.halving_runs.specs.EveryRun.{EveryRunKeeps};
ghost use Rattle.halving_runs.specs.ScriptInputs.{ScriptInputsAreRead};

use adversary_script::laws::{read_scripts_have_texts, script_texts_read_back};
use consensus_layer::laws::agree_texts_read_back_over;
use firing::laws::request_texts_read_back_over;
use halving_texts::halving_texts_read_back;
use machine_runner::laws::{
    eras_are_runs, eras_count, eras_lock, eras_stay_locked, firsts_are_locked, scripts_are_played,
};
use machine_runner::line_laws::at_most_one_in_a_line;
use replicated_log::laws::log_texts_read_back_over;
use slot_table::laws::{hold_words, one_holder, slot_texts_read_back};

/// An input that is read as a plan and a script is an accepted plan, and a script for the plan's
/// machine. What is played is the script's. Each of its eras is a run of the plan with few faulty
/// nodes. From T rounds into an era to its end all correct nodes show one number, which grows by
/// one modulo C each round; and the first locked configuration that is written of an era is the
/// first one, which is T rounds into it at most, if it has so many, and from each locked one on
/// they stay locked and count.
///
/// So it is if a slot table stands between plan and script, which is one for the plan's nodes and
/// outputs. In each line of it a node's word is 1 exactly if the table gives it the output that it
/// shows; from T rounds into an era to its end that is one correct node at most, the holder of the
/// output that all correct ones show.
///
/// So it is with a layer above, if a part between plan and script says one: what is played is the
/// script's, and each era is a run with the layer. In each slot that begins later than T rounds
/// into an era and ends in it all correct nodes decide one value, their common input if they have
/// one; or fire together, or none does; or put one entry into their logs, and so the same ones
/// since the first such slot. Just these slots have a line, if they begin in a configuration that
/// is shown, and the words of the correct nodes in it are that value, or who fires.
pub fn runs_keep_promise()
    ensures runs { RunsKeepPromise }
    ensures slots { SlotsKeepPromise }
    ensures layers { LayersKeepPromise }
{
    eras_are_runs();
    eras_count();
    eras_lock();
    eras_stay_locked();
    firsts_are_locked();
    scripts_are_played();
    hold_words();
    one_holder();
    at_most_one_in_a_line();
}

/// Beyond scripts, of every run of an accepted plan, with a layer or without one, whatever its
/// start, its lies and what its nodes keep, from the bound on: at most one correct node holds by a
/// slot table; each slot of consensus ends with one decision, also when inputs change from round to
/// round, of firing with all firing or none, and of a log with one entry that all correct nodes
/// put, also when commands change.
pub fn every_run_keeps()
    ensures { EveryRunKeeps }
{}

/// The texts of an accepted plan and of a script for it, one after the other, are read as these,
/// and so they are with the text of a slot table, of inputs to agree on, of requests to fire or of
/// a log between them. What any input is read as has such texts.
pub fn script_inputs_read_back()
    ensures { ScriptInputsAreRead }
{
    halving_texts_read_back();
    script_texts_read_back();
    slot_texts_read_back();
    agree_texts_read_back_over();
    request_texts_read_back_over();
    log_texts_read_back_over();
    read_scripts_have_texts();
}
