//! The laws of the log, and of what is read of it. Each function is empty: its clause is the law.

ghost use Rattle.std.specs.Prelude.{ℕ, List, IfOk};
ghost use Rattle.construction.specs.Plans.{Plan};
ghost use Rattle.layer_laws.specs.Numbers.{Numbers};
ghost use Rattle.replicated_log.specs.ChangingCommands.{ChangingCommandsPutOneOver};
ghost use Rattle.replicated_log.specs.ChangingCommands.{ChangingLogsAreOneOver};
ghost use Rattle.replicated_log.specs.ChangingCommands.{ChangingCommandsPutOne, ChangingLogsAreOne};
ghost use Rattle.replicated_log.specs.PutEntries.{EverySlotPutsOneOver, LogsAreOneOver};
ghost use Rattle.replicated_log.specs.PutEntries.{EverySlotPutsOne, LogsAreOne};
ghost use Rattle.replicated_log.specs.LogPart.{part_over, part_of, IsForNumbers, IsLogForPlan};
ghost use Rattle.replicated_log.specs.LogTexts.{LogTextIsReadOver, LogTextIsRead};

use layer_laws::AnyCounter;

/// In every run of a settling counter with a log above, whose modulus is a multiple of an entry of
/// each node, each slot that begins at the counter's bound or later and ends within the run puts
/// one and the same entry into the logs of all correct nodes, in its last round. If it begins after
/// the bound and its owner is correct, the entry has what the owner commands.
pub fn every_slot_puts_one_over<C: AnyCounter>()
    ensures { (c : C) → EverySlotPutsOneOver (C.counter c) (C.is_state c) }
{}

/// In every such run, from any slot on that begins at the bound or later, all correct nodes put the
/// same entries, one for each slot that ends.
pub fn logs_are_one_over<C: AnyCounter>()
    ensures { (c : C) → LogsAreOneOver (C.counter c) (C.is_state c) }
{}

/// So it is if each node may command something else in each round: if the slot's owner is correct,
/// the entry has what it commands in the round before the slot.
pub fn changing_commands_put_one_over<C: AnyCounter>()
    ensures { (c : C) → ChangingCommandsPutOneOver (C.counter c) (C.is_state c) }
{}

/// There, too, all correct nodes put the same entries.
pub fn changing_logs_are_one_over<C: AnyCounter>()
    ensures { (c : C) → ChangingLogsAreOneOver (C.counter c) (C.is_state c) }
{}

/// In every run of an accepted plan with a log above, whose modulus is a multiple of an entry of
/// each node, each slot puts one entry, as over any counter that is settling.
pub fn every_slot_puts_one()
    ensures { EverySlotPutsOne }
{}

/// In every such run all correct nodes put the same entries.
pub fn logs_are_one()
    ensures { LogsAreOne }
{}

/// So it is if each node may command something else in each round.
pub fn changing_commands_put_one()
    ensures { ChangingCommandsPutOne }
{}

/// There, too, all correct nodes put the same entries.
pub fn changing_logs_are_one()
    ensures { ChangingLogsAreOne }
{}

/// What is read of a log has 2 to 65536 values, keeps 1 to 1024 entries, and has commands of each
/// node, below the values; and the counter's modulus is a multiple of an entry of each node.
pub fn log_fits_over()
    ensures { (numbers : Numbers) (number : ℕ) (lines : List (List ℕ))
        → IfOk (part_over numbers number lines) (λ found. IsForNumbers numbers found.value) }
{}

/// So it is for a plan's counter.
pub fn log_fits()
    ensures { (plan : Plan) (number : ℕ) (lines : List (List ℕ))
        → IfOk (part_of plan number lines) (λ found. IsLogForPlan plan found.value) }
{}

/// The text of a log for a counter, whose nodes have at most 16 commands each, is read as this log,
/// at the beginning of any text.
pub fn log_texts_read_back_over()
    ensures { LogTextIsReadOver }
{}

/// So is that for the counter of an accepted plan.
pub fn log_texts_read_back()
    ensures { LogTextIsRead }
{}
