//! Worked values. The function does nothing: its clause is the law.

ghost use Rattle.promises.specs.Worked.{WorkedAnswers};

/// Inputs that fail by each premise and each rule have these refusals, calls of `node` these cells,
/// lies give these states, values have these texts, and words are these commands.
pub fn worked_answers()
    ensures { WorkedAnswers }
{}
