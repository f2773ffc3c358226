//! Slot tables: they name for each output of a counter the node that holds it.
//!
//! No output stands in two lines of a table. So whenever correct nodes show one output, at most one
//! of them holds.
#![tactic(auto)]

pub mod laws;
mod lines;
mod reading;
mod slot_lines;
mod tables;

pub use lines::SlotLine;
pub use reading::{SlotError, SlotRefusal, read_slots, read_slots_for};
pub use tables::SlotTable;
