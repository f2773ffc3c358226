//! What holds of every run with a layer. The function does nothing: its clause is the law.

ghost use Rattle.promises.specs.EveryRun.{EveryRunKeeps};

use consensus_layer::laws::{changing_inputs_decide, every_run_decides};
use firing::laws::every_run_fires_together;
use replicated_log::laws::{
    changing_commands_put_one, changing_logs_are_one, every_slot_puts_one, logs_are_one,
};
use slot_table::laws::at_most_one_holds;

/// In every run of an accepted plan with a layer, whatever its start and its lies, from the bound
/// on: at most one correct node holds by a slot table; each slot of consensus ends with one
/// decision, also when inputs change from round to round, of firing with all firing or none, and of
/// a log with one entry that all correct nodes put, also when commands change.
pub fn every_run_keeps()
    ensures { EveryRunKeeps }
{
    at_most_one_holds();
    every_run_decides();
    changing_inputs_decide();
    every_run_fires_together();
    every_slot_puts_one();
    logs_are_one();
    changing_commands_put_one();
    changing_logs_are_one();
}
