//! A plan's numbers and the premises of its lines: how many nodes and faults a tower of levels has,
//! in how many rounds it settles, how many bits a state takes, from which level on a node takes
//! part, and whether each line may stand over those below it.
//!
//! A [`Plan`] is accepted at all times, and its numbers are those of the construction's
//! definitions.
#![tactic(auto)]

mod levels;
mod lows;
mod numbers;
mod plans;
mod widths;

pub use levels::level_nums;
pub use lows::low_in;
pub use numbers::{Below, LevelNums};
pub use plans::{Plan, PremiseError};
pub use widths::width;
