//! Lines of a run of a plan, with a layer or without one, written while it is played.
//!
//! [`put_played`] plays a script with a layer, and writes the lines that it has on any counter. Of
//! [`OutputLines`], which depend on what nodes show, [`put_counting`] writes the same and plays
//! only until the first locked configurations are known: from there on it counts. [`put_bound`] and
//! [`put_locks`] write the first and the last lines alone. [`Rows`] and [`HoldLines`] are the lines
//! of the words `run` and `slots`; [`DecisionLines`], [`Fires`] and [`Logged`] those of
//! `consensus`, `fire` and `log`.
#![tactic(auto)]

mod counted;
mod holds;
pub mod laws;
mod lines;
mod locks;
mod outputs;
mod playing;
mod rows;
mod shortened;

pub use holds::HoldLines;
pub use layer_runner::{DecisionLines, Fires, Lines, Logged};
pub use lines::OutputLines;
pub use locks::put_locks;
pub use machine_runner::put_bound;
pub use outputs::Output;
pub use playing::put_played;
pub use rows::Rows;
pub use shortened::put_counting;
