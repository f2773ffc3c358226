//! The law of trees of halves as machines. The function is empty: its clause is the law.

ghost use Rattle.halving_plan.specs.Alike.{TreesAreMachines};

/// A tree of halves is a machine: a state is one of a node, a configuration is locked, and a run is
/// locked at the bound or stays so, by the words of trees exactly if by those of machines.
pub fn trees_are_machines()
    ensures { TreesAreMachines }
{}
