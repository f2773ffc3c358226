//! The laws of the texts of halving plans. The functions are empty: their clauses are the laws.

ghost use Rattle.halving_texts.specs.HalvingTexts.{HalvingTextIsRead, HalvingTextIsWhole};
ghost use Rattle.halving_texts.specs.HalvingTexts.{AcceptedTextsAreRewritten};

/// The text of an accepted plan is read as that plan: at the beginning of any text, and alone.
pub fn halving_texts_read_back()
    ensures part { HalvingTextIsRead }
    ensures whole { HalvingTextIsWhole }
{}

/// The plan of a text that is read is accepted, and its own text is read as that plan.
pub fn accepted_texts_are_rewritten()
    ensures { AcceptedTextsAreRewritten }
{}
