//! The words of the command line, and what is defined for each.
//!
//! [`Command`] is what words ask for, and [`command_of`] the table of words. specs/ has what each
//! command makes of an input: what it is read as (`Inputs`, `Layered`), the text that is then
//! written (`Answers`, `CheckAnswers`, `NodeAnswers`), or the line and the status of a
//! [`Refusal`]; and what a call with such words does to its source and its sink (`Conduct`).
#![tactic(auto)]

mod commands;
mod demo;
mod refusals;

pub use commands::{Batch, Command, command_of};
pub use demo::{Liars, demo_text};
pub use refusals::{Refusal, put_refusal};
