//! The laws of what is found and of potentials. Each function is empty: its clause is the law.

ghost use Rattle.plan_finder.specs.FindLaws.{FindsLeast};
ghost use Rattle.plan_finder.specs.Potentials.{PotentialsBound};
ghost use Rattle.plan_finder.specs.WantTexts.{WantTextIsRead};

/// Of each input that is a find part: the plan that is defined for its wants is the least accepted
/// one that meets them, none exactly if no plan does, and the pairs have their least costs.
pub fn finds_least()
    ensures { FindsLeast }
{}

/// Potentials bound every plan.
pub fn potentials_bound()
    ensures { PotentialsBound }
{}

/// The text of wants within the limits is read as these wants.
pub fn want_texts_read_back()
    ensures { WantTextIsRead }
{}
