//! Finds the plan of least bound, and shows that it is the least.
//!
//! A level is a step from the nodes and faults below it to its own, at the cost of its span, and a
//! plan's bound is the sum of the costs. [`find`] gives the least plan that tolerates so many
//! faults, with the least cost of each pair of nodes and faults that steps reach.
//! [`check_potentials`] tests such costs by themselves: if they pass, no accepted plan settles in
//! less.
#![tactic(auto)]

mod best;
mod building;
mod choosing;
mod costed;
mod costs;
mod finding;
pub mod laws;
mod lookups;
mod pots;
mod reading;
mod rows;
mod searching;
mod table;
mod want_lines;
mod wants;
mod writing;

pub use costs::step_cost;
pub use finding::{Found, find};
pub use lookups::check_potentials;
pub use pots::{Pot, Pots};
pub use reading::{FindError, FindRefusal, read_find};
pub use wants::Want;
pub use writing::write_found;
