//! The counter of an accepted plan, at every depth.
//!
//! A [`Tower`] is seen as its plan. Its step is the plan's, from the top level down to the node's
//! lowest, and it is a [`counter_core::Counter`]: whatever the start and the lies of a faulty set
//! that the plan tolerates, it counts from the plan's bound on.
//!
//! If all nodes step from one configuration, a [`Shared`] is gathered once a round: it counts the
//! correct nodes for all receivers, so that each receiver adds only what the liars say to it. Its
//! step is the plan's too.
#![tactic(auto)]

mod groups;
mod registers;
mod rows;
mod settled;
mod shared;
mod sharing;
mod steps;
mod towers;

pub use registers::set_outputs;
pub use shared::Shared;
pub use towers::{Tower, build};
