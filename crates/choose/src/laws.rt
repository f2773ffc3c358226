//! The laws of what is written. The functions are empty: their clauses are the laws.

ghost use Rattle.choose.specs.FrontText.{TextsArePlans};
ghost use Rattle.choose.specs.FrontsOfBothText.{HalvingTextsArePlans};
ghost use Rattle.choose.specs.Shortages.{ModulusDecidesNothing};
ghost use Rattle.choose.specs.Compared.{BoostingIsOutdone};
ghost use Rattle.choose.specs.ChoicesWorked.{ChoicesAreWorked};
ghost use Rattle.choose.specs.Limits.{NodesEndTables};

/// The text of an accepted plan of version 2 is read as that plan, and is what a line says of the
/// plan, with a newline in place of each semicolon.
pub fn texts_are_plans()
    ensures { TextsArePlans }
{}

/// The text of an accepted halving plan is read as that plan, and is what a line says of the plan,
/// with a newline in place of each semicolon.
pub fn halving_texts_are_plans()
    ensures { HalvingTextsArePlans }
{}

/// Whether a front has a plan depends on no modulus: it has none exactly if no accepted plan of
/// those that are looked at, whatever it counts by, tolerates the faults within the nodes.
pub fn modulus_decides_nothing()
    ensures { ModulusDecidesNothing }
{}

/// Every boosting plan that tolerates a fault has at least as many nodes as the halving plan of as
/// many faults and the same modulus, and a greater bound.
pub fn boosting_is_outdone()
    ensures { BoostingIsOutdone }
{}

/// Of the limits of boosting plans, 256 nodes, 16 blocks a level and moduli up to 2^40, the first
/// one ends each table: a plan that keeps the others tolerates 85 faults, the most that may be
/// asked for.
pub fn nodes_end_tables()
    ensures { NodesEndTables }
{}

/// What words ask for, and a line of each construction, are what is worked out.
pub fn choices_are_worked()
    ensures { ChoicesAreWorked }
{}
