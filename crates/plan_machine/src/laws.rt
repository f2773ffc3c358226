//! The laws. Each function is empty: its clause is the law.

ghost use Rattle.plan_machine.specs.PlanMachines.{PlansAreMachines, AcceptedAreSound};

/// An accepted boosting plan is a machine: it has the runs, the tolerated faulty sets and the
/// outputs that the words of machines give it, and it settles by the ones exactly if by the others.
pub fn plans_are_machines()
    ensures { PlansAreMachines }
{}

/// The machine of an accepted plan is sound.
pub fn accepted_are_sound()
    ensures { AcceptedAreSound }
{}
