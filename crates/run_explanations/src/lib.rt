//! Why a script's last era locks: for a whole beat all sound blocks point to one leader, and in
//! that window a phase has a correct king.
//!
//! [`explain`] finds the first such window and phase, and plays the script to its end;
//! [`first_explanation`] plays as much as that takes; [`check_explanation`] tests one. [`laws`] says
//! that what is explained is locked, and that an era that goes on to the bound is explained.
#![tactic(auto)]

mod explaining;
mod explanations;
pub mod laws;
mod searching;
mod seeing;
mod tops;

pub use explaining::{check_explanation, explain, first_explanation};
pub use explanations::Explanation;
