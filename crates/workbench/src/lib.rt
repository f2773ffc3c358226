//! The workbench: words and an input in, a status and lines out. All that the program does stands
//! here, over any source and any sink.
#![tactic(auto)]

mod batch_word;
mod calling;
mod check_word;
mod demo_word;
mod node_word;
mod plan_nodes;

pub use calling::counterlab;
