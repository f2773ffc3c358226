//! Plays a script on the counter of a plan, round by round, with a layer above the counter.
//!
//! A [`Runner`] is always at the configuration that the script's run has at that round. A round
//! takes no memory and cannot fail. It is a [`Play`](layer_laws::Play), as what writes lines of it
//! asks. [`laws`] says what holds of all that it plays. What a configuration shows, and whether it
//! is locked, can be asked of any.
#![tactic(auto)]

mod growing;
mod hearers;
mod hearing;
mod knowing;
pub mod laws;
mod locks;
mod positions;
mod restarting;
mod rounds;
mod runners;
mod skipping;
mod stepping;
mod telling;
mod told_steps;
mod turns;
mod until_known;

pub use hearers::Hearer;
pub use locks::is_locked;
pub use rounds::beginning_at;
pub use runners::Runner;
pub use stepping::shown_at;
pub use telling::Lies;
pub use told_steps::{StepBuffers, step_told};
