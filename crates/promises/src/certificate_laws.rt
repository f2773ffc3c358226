//! What holds of every input of the words of run certificates. Each function does nothing: its
//! clause is the law.

ghost use Rattle.promises.specs.CheckLaws.{CheckIsExact};
ghost use Rattle.promises.specs.RecordLaws.{RecordsAreChecked};

use run_checker::certificate_laws::{
    records_are_of_runs, records_are_true, stretches_are_runs, texts_are_checked,
    true_locks_are_first, true_rows_count,
};
use run_checker::laws::{limits_matter_beyond, short_texts_are_checked};

/// An input of at most 2^44 bytes is answered `true` by `check` exactly if it is the text of a run
/// certificate whose rows are those of the run that it states, `false row` with the first that is
/// not, and is refused exactly at the first line at which its lines begin no certificate. No
/// certificate is longer. The rows of a true one count from the bound on, in each of its eras; and
/// the locked configuration that it is answered with is the first one of the last era, from which
/// on they count.
pub fn check_is_exact()
    ensures { CheckIsExact }
{
    limits_matter_beyond();
    texts_are_checked();
    short_texts_are_checked();
    stretches_are_runs();
    true_rows_count();
    true_locks_are_first();
}

/// If an input is a plan and a script, what `record` writes is the text of a run certificate, of
/// this plan and of what is played of the script, which `check` calls true, with the number of its
/// configurations and the first locked one of the script's last era.
pub fn records_are_checked()
    ensures { RecordsAreChecked }
{
    check_is_exact();
    records_are_true();
    records_are_of_runs();
}
