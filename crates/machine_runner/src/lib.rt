//! Plays a script on any machine, round by round.
//!
//! A [`Runner`] is always at the configuration that the script's run has there. A round takes no
//! memory and cannot fail, and a script is begun anew with another key in the same memory. [`laws`]
//! has what holds of the configurations that are played, and when they are locked: each era is a
//! run of the machine, so what holds of a sound machine holds of each.
//!
//! What a run and a round are made of serves other runners too: [`start_all`] and [`first_locks`],
//! [`Receiver::hear`], [`put_hit`] and [`note_lock`].
//!
//! Lines are written while a script is played. [`put_bound`], [`put_era`] and [`put_locked`] write
//! those that each run has, of any counter: its bound, and which configuration of each era is the
//! first locked one. [`line_laws`] has what the lines of a slot table promise.
//!
//! [`put_shown`] plays a script and writes the machine's bound, the line that some [`ShownLines`]
//! have of each configuration that is shown, and the first locked configuration of each era:
//! [`Rows`] are those of the word `run`, and [`HoldLines`] those of the word `slots`.
#![tactic(auto)]

mod era_locks;
mod hearing;
mod holds;
pub mod laws;
mod leading;
pub mod line_laws;
mod lines;
mod lock_lines;
mod locks;
mod playing;
mod putting;
mod restarting;
mod rows;
mod runners;
mod stepping;
mod words;

pub use era_locks::{begin_locks, first_locks, note_lock};
pub use hearing::{Receiver, lay};
pub use holds::HoldLines;
pub use leading::play_to;
pub use lines::ShownLines;
pub use locks::{is_locked, is_locked_by};
pub use playing::put_shown;
pub use putting::{put_bound, put_era, put_locked};
pub use rows::Rows;
pub use runners::{Runner, room_for};
pub use stepping::{Round, RoundBuffers, beginning_in, put_hit, start_all};
