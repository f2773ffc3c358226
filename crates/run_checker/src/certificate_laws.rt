//! The laws of certificates. Each function is empty, or calls other laws: its clause is the law.

ghost use Rattle.run_checker.specs.Laws.{TextsAreChecked, CertificatesAreChecked};
ghost use Rattle.run_checker.specs.Laws.{StretchesAreRuns, TrueRowsCount};
ghost use Rattle.run_checker.specs.Laws.{TrueLocksAreFirst};
ghost use Rattle.run_checker.specs.Recorded.{RecordedRowsAreTrue, RecordsAreTrue};
ghost use Rattle.run_checker.specs.Recorded.{RecordsAreOfRuns};

use plan_laws::laws::{every_plan_settles, locked_runs_count, locks_at_bound};
use round_runner::laws::lock_test_is_exact;

/// Each text is answered by the verdict of the certificate whose text it is, or refused at the
/// first line at which its lines begin no certificate.
pub fn texts_are_checked()
    ensures { TextsAreChecked }
{}

/// The text of each certificate is answered by the certificate's verdict.
pub fn certificates_are_checked()
    ensures { CertificatesAreChecked }
{}

/// Each stretch of a stated run in which no era begins is a run of the plan.
pub fn stretches_are_runs()
    ensures { StretchesAreRuns }
{}

/// No row of what is recorded of a script differs from the run that the record states.
pub fn recorded_rows_are_true()
    ensures { RecordedRowsAreTrue }
{}

/// What is recorded of a script is a certificate, and it is true; its verdict has the number of the
/// played configurations and the first locked one of the last era.
pub fn records_are_true()
    ensures { RecordsAreTrue }
{}

/// What is recorded of a plan and a script is of this plan, and states what is played of the
/// script.
pub fn records_are_of_runs()
    ensures { RecordsAreOfRuns }
{}

/// In a certificate that is true, the rows of each stretch in which no era begins count from the
/// plan's bound on, which is counted from the stretch's first configuration.
pub fn true_rows_count()
    ensures { TrueRowsCount }
{
    every_plan_settles();
}

/// In a certificate that is true, the locked configuration of its verdict is the first locked one
/// of the last era: the rows count from it to the end, and it is at most the plan's bound after the
/// era's first configuration, if the era is as long.
pub fn true_locks_are_first()
    ensures { TrueLocksAreFirst }
{
    lock_test_is_exact();
    locks_at_bound();
    locked_runs_count();
}
