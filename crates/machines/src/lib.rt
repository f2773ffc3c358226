//! Any counter whose nodes have states: its numbers, the fields of each node's state, what a state
//! shows, and the step of a node; rounds and runs of it, and what holds of a sound one.
//!
//! A [`Machine`] is one in the program: it reads and writes states as bytes, and steps. What stands
//! above a counter and needs no more of it speaks of a machine, and so serves every construction.
#![tactic(auto)]

mod machines;

pub use machines::Machine;
