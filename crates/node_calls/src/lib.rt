//! One node of a plan's counter, asked by bytes: each call is given the plan's text, of either
//! construction, and keeps nothing.
//!
//! [`step`] steps a node after packets, [`output`] is what a state shows, [`state_bytes`] how many
//! bytes a state has, and [`counter_in`] the counter. Any bytes and any ids may be given: what is
//! wrong is answered by a [`CallError`].
#![tactic(auto)]

mod any_machines;
mod calls;
mod errors;
mod hearing;
pub mod laws;
mod steps;

pub use any_machines::AnyMachine;
pub use calls::{counter_in, output, state_bytes};
pub use errors::CallError;
pub use steps::step;
