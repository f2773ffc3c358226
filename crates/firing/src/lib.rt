//! Simultaneous firing over a counter.
#![tactic(auto)]

mod fire_lines;
mod fires;
mod firing;
pub mod laws;
mod reading;
mod requests;

pub use fire_lines::FireLines;
pub use fires::Fire;
pub use firing::Firing;
pub use reading::{FireError, FireRefusal, read_fire, read_fire_over};
pub use requests::{Request, Requests};
