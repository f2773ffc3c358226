//! Plays a script on any machine whose rounds are counted once, with a layer above or without one.
#![tactic(auto)]

mod locks;
mod players;
mod plays;
mod restarting;
mod seeing;
mod stepping;
mod telling;

pub use players::Player;
pub use stepping::{NodeStep, Room};
