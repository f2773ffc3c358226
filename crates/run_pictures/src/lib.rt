//! Pictures, in SVG, of what `run`, `trace`, `sweep` or `choose` writes: of a run a column for
//! each configuration and a line of cells for each node, of a sweep a band for each era, with bars
//! of how many runs lock when, and of a choice a point for each plan; those of traces stand in
//! `trace_pictures`.
//!
//! Each of these is a [`Figure`]. That each picture is the defined one of a chart, a trace, a sweep
//! or a choice, whose own text is just what was read, is proved ([`draw`]), and that what is drawn
//! stands where it belongs: of a chart that its words stand row by row and node by node, of a sweep
//! that its lines stand in the bars of their configurations, as high as their runs are of those of
//! the highest bar, and of a choice that its plans get better, and stand by their nodes and their
//! bounds. That all that these programs write is read, how wide columns and bars are, and who is
//! found hit, is not.
#![tactic(auto)]

mod cells;
mod charts;
mod choice_pictures;
mod choices;
mod drawing;
mod hits;
mod laid;
mod lines;
mod marks;
mod pages;
mod pictures;
mod printing;
mod reading;
mod sweep_charts;
mod sweep_laid;
mod sweep_pictures;
mod sweep_printing;
mod sweep_reading;

pub use choices::{Choice, Point, is_choice, read_choice};
pub use drawing::{DrawError, draw};
pub use pages::Form;
pub use picture_parts::{ChartError, Figure, Wanted, laws};
pub use sweep_charts::Sweep;
pub use sweep_reading::{is_sweep, read_sweep};
