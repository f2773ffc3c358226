//! Answers of the batch commands: an input is read, and its text is written, or the line that
//! refuses it.
//!
//! [`answer`] does so for each command, over any sink, and says the status. What is read and what
//! is written is defined in the crate `outcomes`.
#![tactic(auto)]

mod answering;
mod errors;
mod explaining;
mod layered;
mod runners;
mod scripted;
mod words;

pub use answering::answer;
pub use errors::Unanswered;
pub use scripted::read_scripted;
