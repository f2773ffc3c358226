//! The laws of texts that are checked, and of texts that are written. Each function is empty, or
//! calls the laws that it rests on: its clause is the law.

ghost use Rattle.run_checker.specs.Checks.{LimitsMatterBeyond};
ghost use Rattle.run_checker.specs.TrueTexts.{TrueTextsAreTrue, CertificatesAreShort};
ghost use Rattle.run_checker.specs.TrueTexts.{ShortTextsAreChecked, RecordsAreCheckedTrue};

use crate::certificate_laws::{
    certificates_are_checked, records_are_true, stretches_are_runs, texts_are_checked,
    true_rows_count,
};

/// A text that is not longer than its limit comes to what it comes to without one.
pub fn limits_matter_beyond()
    ensures { LimitsMatterBeyond }
{}

/// A text that is checked true is that of a certificate whose rows are what its configurations
/// show; each stretch of its rounds in which no era begins is a run of the plan with the stated
/// lies, and its rows count from the plan's bound on.
pub fn true_texts_are_true()
    ensures { TrueTextsAreTrue }
{
    texts_are_checked();
    stretches_are_runs();
    true_rows_count();
}

/// No certificate has more than 2^44 bytes.
pub fn certificates_are_short()
    ensures { CertificatesAreShort }
{}

/// So the text of each certificate comes to its verdict under that limit.
pub fn short_texts_are_checked()
    ensures { ShortTextsAreChecked }
{
    certificates_are_checked();
}

/// The certificate of a script's run is checked true, with the number of the played configurations
/// and the first locked one of the last era.
pub fn records_are_checked_true()
    ensures { RecordsAreCheckedTrue }
{
    certificates_are_checked();
    records_are_true();
}
