//! Pictures, in SVG, of what `trace` writes: a column for each configuration, a line of cells for
//! each node, and a strip for each level of a boosting plan or each group of a halving plan, with
//! the kings' phases above it.
//!
//! That the picture is the defined one of a trace is proved ([`Trace`] is a figure), that its lines
//! stand in their columns, lines and strips, and that just the kings' phases are there which
//! correct nodes hear. That all that `trace` writes is read, how wide columns are, and who is found
//! hit, is not.
#![tactic(auto)]

mod drawn;
mod hits;
mod layouts;
mod shares;
mod strips;
mod trace_laid;
mod trace_lines;
mod trace_pictures;
mod trace_printing;
mod trace_reading;
mod trace_said;
mod traces;
mod turns;
mod turns_said;

pub use drawn::trace_of;
pub use trace_reading::is_trace;
pub use traces::Trace;
