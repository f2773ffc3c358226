//! The laws of plans. Each function does nothing: its clause is the law.

ghost use Rattle.halving_plan.specs.Laws.{EveryPlanSettles, AcceptedAreSound, BoundsRise};

/// Each accepted plan's machine has the plan's nodes and faults, and counts from its bound on,
/// whatever the start and the lies, with each faulty set that it tolerates. The bound is at most 16
/// rounds for each fault, and at most ten for each fault and each level.
pub fn every_plan_settles()
    ensures { EveryPlanSettles }
{}

/// The machine of every accepted plan is sound: it settles, it is locked at its bound and stays so,
/// and a step gives a state of its node, whatever was heard.
pub fn accepted_are_sound()
    ensures { AcceptedAreSound }
{}

/// The bound depends on the faults alone, and does not fall when they grow.
pub fn bounds_rise()
    ensures { BoundsRise }
{}
