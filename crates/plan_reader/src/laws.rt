//! The laws of the texts of plans. The functions are empty: their clauses are the laws.

ghost use Rattle.plan_reader.specs.PlanTexts.{PlanTextIsRead, PlanTextIsWhole};

/// The text of an accepted plan, in the plan's own version or a later one, is read as that plan: at
/// the beginning of any text, and alone. So a plan of version 1 and its text of version 2 state the
/// same base and levels.
pub fn plan_texts_read_back()
    ensures part { PlanTextIsRead }
    ensures whole { PlanTextIsWhole }
{}
