//! The phase king: the instruction that a register takes in a round, and the laws on which every
//! promise of the counter and of consensus rests.
//!
//! A group of n nodes tolerates f faults if n > 3f and at most f of them are faulty. What faulty
//! nodes say is free, and may differ from receiver to receiver. Under these premises, for any
//! increment:
//! - persistence: registers of correct nodes that are locked at one value stay locked, whatever
//!   kind and king each takes;
//! - unanimity: if all correct registers have one value, two rounds lock it;
//! - convergence: a phase of three rounds under one common correct king locks all correct registers
//!   at one value;
//! - the slot: f + 1 phases under different kings end locked at one value, which is the common one
//!   if all began with it.
#![tactic(auto)]

pub mod laws;
mod steps;

pub use steps::{agree_step, king_step, up};
