//! Rounds of a machine: what is the same for all nodes of a round is counted once, and then each
//! node steps by what the faulty ones say to it.
//!
//! [`Rounds`] is what a player asks of a machine. [`Plain`] is any machine, whose nodes share no
//! more than the states of the correct ones.
#![tactic(auto)]

mod laying;
mod plain;
mod rounds;

pub use laying::{lay, lay_lies};
pub use plain::{Laid, Plain};
pub use rounds::Rounds;
