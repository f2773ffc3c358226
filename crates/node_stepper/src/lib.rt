//! One node of a machine, which hears packets and answers each with a cell.
//!
//! A cell is a state as bytes with its length before it, and a packet is a cell of each node. A
//! [`NodeEngine`] hears cells and steps; [`NodeEngine::serve`] reads packets from a feed and writes
//! its cell before the first and after each. All memory is taken when the engine is made.
#![tactic(auto)]

mod engine;
mod faults;
mod hearing;
pub mod laws;
pub mod run_laws;
mod serving;

pub use engine::NodeEngine;
pub use faults::NodeFault;
