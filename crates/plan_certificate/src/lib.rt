//! The table text of a plan: its numbers, and those of each level, line by line.
//!
//! [`write_table`] writes it, and [`read_table`] reads it as the plan whose table text it is. A text
//! that is no table text is refused at the first line that fails, with the first cause.
#![tactic(auto)]

mod laws;
mod table_lines;
mod table_reading;
mod table_refusals;
mod table_stages;
mod tables;

pub use laws::tables_read_back;
pub use table_reading::read_table;
pub use table_refusals::{TableError, TableRefusal};
pub use tables::write_table;
