//! The law. The function is empty: its clauses are the law.

ghost use Rattle.promises.specs.MachineTexts.{RunTextsAgree, HoldTextsAgree};

/// The rows of a run of a plan, with its bound and its first locked configurations, are those of
/// the plan's machine, and so are the lines of a slot table.
pub fn run_texts_agree()
    ensures rows { RunTextsAgree }
    ensures holds { HoldTextsAgree }
{}
