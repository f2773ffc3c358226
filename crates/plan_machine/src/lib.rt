//! Boosting plans as machines: that the words of machines say of a plan what the construction's own
//! words say, that the machine of an accepted plan is sound, that machine in the program, and that
//! nodes of a plan over packets are a run of the plan, in the construction's words.
#![tactic(auto)]

pub mod laws;
pub mod node_laws;
mod plan_machines;
mod plan_nodes;
mod plan_rounds;

pub use plan_machines::PlanMachine;
pub use plan_nodes::{NodeEngine, PlanNode};
