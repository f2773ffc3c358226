//! A call that is a node of some construction, over any source and sink: a header is read, which
//! names a plan, a node and its state, and then packets; the node's cell is written at the start,
//! and after each packet before the next one is read.
//!
//! A header is a plan and the part `node`: the line `node 1`, the line `id V`, the line `state H`
//! and the line `end`; H is a state of node V in hex digits. Both are read from a feed line by
//! line, and no byte after the last line.
//!
//! A [`Construction`] says how its plans are read, which machine each is, and the line that refuses
//! one; specs/ has what such a call makes of an input (`NodeAnswers`), and what it does to its
//! source and its sink (`Conduct`).
#![tactic(auto)]

mod constructions;
mod errors;
mod header_lines;
mod headers;
pub mod laws;
mod plan_lines;
mod rules;
mod serving;

pub use constructions::Construction;
pub use errors::NodeError;
pub use header_lines::NodeHeader;
pub use headers::{HeaderError, HeaderRead, HeaderRefusal, read_header, read_header_by};
pub use plan_lines::PlanReader;
pub use rules::{part_word, rule_word};
pub use serving::serve_node;
