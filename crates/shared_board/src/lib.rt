//! A configuration by columns, and who lies in it: what all receivers of a round share of the
//! senders. And why a round may be counted once for all receivers: definitions and lemmas.
//!
//! A [`Board`] takes a configuration and a faulty set, and hands each level its [`Senders`]. No
//! call but [`Board::new`] takes memory.
//!
//! [`Senders`]: crate::Senders
#![tactic(auto)]

mod asking;
mod board;
mod columns;
mod gathering;
mod group;
mod hearing;
mod laying;
mod liars;
mod locks;
mod obeying;
mod polls;
mod readings;
mod rooms;
mod senders;
mod sites;
mod stretches;

pub use board::Board;
pub use group::Group;
pub use senders::Senders;
