//! States of nodes, sets of faulty nodes, and the named answers that every other crate gives.
#![tactic(auto)]

mod answers;
mod faults;
mod states;
mod status;

pub use answers::{Cause, NoMemory, Part, Premise, Rule};
pub use faults::FaultSet;
pub use states::{NodeState, Reg};
pub use status::Status;
