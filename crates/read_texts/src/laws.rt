//! The laws of what is read. The functions are empty: their clauses are the laws.

ghost use Rattle.read_texts.specs.ReadPlans.{ReadIsPlanText, ReadIsWholePlanText};
ghost use Rattle.read_texts.specs.ReadPlans.{PlanIsRefusedAlone};
ghost use Rattle.read_texts.specs.StatedPlans.{PlanTextIsAnswered};
ghost use Rattle.read_texts.specs.ReadHalving.{ReadIsHalvingText, ReadIsWholeHalvingText};
ghost use Rattle.read_texts.specs.ReadHalving.{HalvingIsRefusedAlone, HalvingTextIsAnswered};
ghost use Rattle.read_texts.specs.ReadWants.{ReadIsWantText, WantIsRefusedAlone};
ghost use Rattle.read_texts.specs.ReadWants.{FoundPlanIsRead, NoneFoundIsSaid};
ghost use Rattle.read_texts.specs.ReadTables.{ReadIsTableText};
ghost use Rattle.read_texts.specs.ReadAgreements.{ReadIsAgreeText};
ghost use Rattle.read_texts.specs.ReadRequests.{ReadIsRequestText};
ghost use Rattle.read_texts.specs.ReadLogs.{ReadIsLogText};
ghost use Rattle.read_texts.specs.ReadScripts.{ReadIsScriptText, ReadIsWholeScriptText};

/// What is read as a plan is its text: the lines that count, of those that the part took, are the
/// lines of the plan's text, in its version; and all lines that count, if it is read alone.
pub fn read_plans_have_texts()
    ensures part { ReadIsPlanText }
    ensures whole { ReadIsWholePlanText }
{}

/// What is no plan alone is refused at a line of its plan part, or by `Form` at the first line
/// behind the part that is not skipped.
pub fn plans_are_refused_alone()
    ensures { PlanIsRefusedAlone }
{}

/// The text of any plan whose numbers have at most 15 digits is answered by the plan, or by its
/// first line that fails a premise, with the first premise that it fails.
pub fn plan_texts_are_answered()
    ensures { PlanTextIsAnswered }
{}

/// What is read as a table is its text: the lines that count, of those that the part took, are the
/// lines of the table's text.
pub fn read_slots_have_texts()
    ensures { ReadIsTableText }
{}

/// What is read of consensus is its text: the lines that count, of those that the part took, are
/// the lines of the text of what it says.
pub fn read_agreements_have_texts()
    ensures { ReadIsAgreeText }
{}

/// What is read as requests is their text: the lines that count, of those that the part took, are
/// the lines of the requests' text.
pub fn read_requests_have_texts()
    ensures { ReadIsRequestText }
{}

/// What is read of a log is its text: the lines that count, of those that the part took, are the
/// lines of the text of what it says.
pub fn read_logs_have_texts()
    ensures { ReadIsLogText }
{}

/// What is read as a script is what stands there: the lines that count, of those that the part
/// took, say the lines of the script's text in their order, but for a seed of zeros, which says
/// nothing, and for digits of a state, which say the state that they are read as; and so do all
/// lines that count, if it is read alone.
pub fn read_scripts_are_said()
    ensures part { ReadIsScriptText }
    ensures whole { ReadIsWholeScriptText }
{}

/// What is read as a halving plan is its text: the lines that count, of those that the part took,
/// are the lines of the plan's text; and all lines that count, if it is read alone.
pub fn read_halving_has_text()
    ensures part { ReadIsHalvingText }
    ensures whole { ReadIsWholeHalvingText }
{}

/// What is no halving plan alone is refused at a line of its part, or by `Form` at the first line
/// behind the part that is not skipped.
pub fn halving_is_refused_alone()
    ensures { HalvingIsRefusedAlone }
{}

/// The text of any halving plan whose numbers have at most 15 digits is answered by the plan, or by
/// its second line, with the first premise that the plan fails.
pub fn halving_texts_are_answered()
    ensures { HalvingTextIsAnswered }
{}

/// What is read as wants is their text: all lines that count are its lines. What is none is refused
/// at a line of its part, or by `Form` at the first line behind it that is not skipped.
pub fn read_wants_have_texts()
    ensures read { ReadIsWantText }
    ensures refused { WantIsRefusedAlone }
{}

/// What is written of a plan that was found is read as this plan, and behind it stand the lines of
/// all pairs; or these stand behind the line that says that none was found.
pub fn found_texts_are_read()
    ensures plan { FoundPlanIsRead }
    ensures none { NoneFoundIsSaid }
{}
