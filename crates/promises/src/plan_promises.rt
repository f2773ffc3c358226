//! What the texts of plans and of tables promise, whatever the input, and that values have texts
//! that are read as them. The functions do nothing: their clauses are the laws.

ghost use Rattle.promises.specs.PlanPromises.{TextsAreKept, TextsAreRead};
ghost use Rattle.promises.specs.Skips.{SkippedLinesAreUnseen};

use crate::laws::demo_is_answered;
use crate::worked::worked_answers;
use adversary_script::laws::{read_scripts_have_texts, script_texts_read_back};
use consensus_layer::laws::agree_texts_read_back;
use firing::laws::request_texts_read_back;
use node_words::laws::header_texts_read_back;
use plan_certificate::tables_read_back;
use plan_finder::laws::want_texts_read_back;
use plan_laws::laws::versions_agree;
use plan_reader::plan_texts_read_back;
use replicated_log::laws::log_texts_read_back;
use slot_table::laws::slot_texts_read_back;

/// If an input is a plan, its table, which `plan` writes, has its numbers, line by line, and is
/// read back as this plan, and its text in version 2, which `upgrade` writes, as a plan of the same
/// counter. If `table` answers `true`, the input is the table of an accepted plan.
pub fn texts_are_kept()
    ensures { TextsAreKept }
{
    plan_texts_read_back();
    tables_read_back();
    versions_agree();
}

/// A skipped line may stand anywhere in an input, and in a header of `node`: it is read as the
/// same, and a refusal is that of the same line.
pub fn skipped_lines_are_unseen()
    ensures { SkippedLinesAreUnseen }
{}

/// Each of these values has a text that is read as it: an accepted plan, in its own version and in
/// each later one, and its table; wants, a slot table, inputs to agree on, requests to fire, a log
/// and a header of a node; and a script, after the texts of its plan and of a part. So has the text
/// that `demo` makes of a seed. Skipped lines may stand anywhere in these, what is within the limit
/// is answered, and worked values say how they and their refusals are spelled.
pub fn texts_are_read()
    ensures { TextsAreRead }
{
    plan_texts_read_back();
    tables_read_back();
    want_texts_read_back();
    slot_texts_read_back();
    agree_texts_read_back();
    request_texts_read_back();
    log_texts_read_back();
    header_texts_read_back();
    script_texts_read_back();
    read_scripts_have_texts();
    demo_is_answered();
    skipped_lines_are_unseen();
    worked_answers();
}
