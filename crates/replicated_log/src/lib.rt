//! A replicated log over a counter.
#![tactic(auto)]

mod command_lines;
mod commands;
mod entries;
pub mod laws;
mod log_lines;
mod log_parts;
mod reading;
mod replica;

pub use commands::Commands;
pub use entries::{Entries, Entry};
pub use firing::{FireError, FireRefusal, Firing, read_fire};
pub use log_lines::{LogLines, entry_length};
pub use log_parts::LogPart;
pub use reading::{LogError, LogRefusal, read_log, read_log_over};
pub use replica::{Replica, owner_at};
