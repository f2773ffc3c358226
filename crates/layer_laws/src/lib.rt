//! Runs of a counter with a layer above: with registers of its own after the counter's, and
//! something that each node keeps beside its state.
//!
//! One kind of run serves all layers, and all counters ([`AnyCounter`]). Without its layer such a
//! run is a run of the counter, so the counter's promises hold of it; and a register that takes the
//! phase king's instructions when the counter's outputs say so agrees, slot by slot. [`laws`] has
//! one empty function for each law, over any counter and over plans, and a layer's part is read for
//! [`CounterNumbers`].
//!
//! A script is played on any counter with a layer above, round by round. What writes about a play
//! needs no more than a [`Play`]: where it stands, what its nodes show, what its layer keeps, and
//! the next round.
#![tactic(auto)]

mod counters;
pub mod laws;
mod lowest;
mod numbers;
mod plays;

pub use counters::AnyCounter;
pub use lowest::lowest_correct;
pub use numbers::CounterNumbers;
pub use plays::Play;
