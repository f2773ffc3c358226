//! Writes what is played with a layer, on any counter, while it is played. [`laws`] has what holds
//! of what is played of a script that was read for a machine with a layer above.
//!
//! [`put_played`] plays a script by any [`Play`](layer_laws::Play) and writes the counter's bound,
//! the line that some [`Lines`] have of each configuration, and the first locked configuration of
//! each era.
//! [`put_locks`] writes the last of the three alone, and [`put_if_shown`] one line.
//! [`DecisionLines`], [`Fires`] and [`Logged`] are the lines of consensus, of firing and of a log.
//! [`line_laws`] says that what they write is defined by where slots begin, though it is written
//! where they end; which slots have a line, what its words are, and that what is played is the
//! script's.
#![tactic(auto)]

mod decisions;
mod fires;
pub mod laws;
pub mod line_laws;
mod lines;
mod locks;
mod logged;
mod playing;
mod slots;
mod words;

pub use decisions::DecisionLines;
pub use fires::Fires;
pub use lines::Lines;
pub use locks::put_locks;
pub use logged::Logged;
pub use playing::put_played;
pub use slots::{lead_output, slot_ends};
pub use words::put_if_shown;
