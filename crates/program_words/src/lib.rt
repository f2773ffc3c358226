//! The front of a program: the words that it was called with and what they ask for, why it did not
//! do what it was asked for, and how it ends.
//!
//! A program says by a `Reason` why it refuses what it is given, and has a `ProgramError` of that.
//! The words `--help` and `--version`, alone, ask for a text in every program ([`asked_by`]).
#![tactic(auto)]

mod asked;
mod errors;
mod process;

pub use asked::{Asked, asked_by};
pub use errors::{ProgramError, Reason, TOO_LONG, put_error};
pub use process::{arguments, end, exit_code, words};
