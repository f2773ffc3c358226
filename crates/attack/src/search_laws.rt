//! The laws of searches and of draws. The functions are empty: their clauses are the laws.

ghost use Rattle.attack.specs.AttacksWorked.{AttacksAreWorked};
ghost use Rattle.attack.specs.DrawsWorked.{DrawsAreWorked};
ghost use Rattle.attack.specs.FreshLaws.{FreshIsRead, SearchesFind, PlansAreAttacked};
ghost use Rattle.attack.specs.LeanLaws.{LeanIsAsLate};
ghost use Rattle.attack.specs.RequestsWorked.{RequestsAreWorked};
ghost use Rattle.attack.specs.SearchLaws.{SearchesFindBest};
ghost use Rattle.attack.specs.TriesWorked.{TriesAreWorked};

/// What a search finds is one of its tries, whose text is read as a script for the machine, with
/// few faulty nodes in each era. Its first locked configuration is the one that is stated, and no
/// try that was played locks later. If it finds none, each try was refused.
pub fn searches_find_best()
    ensures { SearchesFindBest }
{}

/// What is made of an attack that was played, by taking out lies and by showing more, was played,
/// and locks no sooner.
pub fn lean_is_as_late()
    ensures { LeanIsAsLate }
{}

/// What words ask for is what is worked out.
pub fn requests_are_worked()
    ensures { RequestsAreWorked }
{}

/// The first two numbers that are drawn with seed 0 are those of SplitMix64.
pub fn draws_are_worked()
    ensures { DrawsAreWorked }
{}

/// The first try of each kind on a small plan has the text that is worked out, which is read as its
/// script, small changes make of an attack what is worked out, and so do the tries of a search.
pub fn attacks_are_worked()
    ensures attacks { AttacksAreWorked }
    ensures tries { TriesAreWorked }
{}

/// On a sound machine, whose states have digits that fit a line, each attack that is drawn afresh
/// is read as its script, and a search of at least one try finds an attack; so it does on every
/// accepted plan.
pub fn fresh_attacks_are_read()
    ensures read { FreshIsRead }
    ensures found { SearchesFind }
    ensures plans { PlansAreAttacked }
{}
