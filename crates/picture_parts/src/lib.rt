//! What pictures in SVG are made of: where columns and bands stand, what is drawn of what a node
//! shows, the beginning, the ground and lines of the caption; what reading their texts takes: words
//! of lines, and why a text is not read; and what all that is drawn has in common ([`Figure`]).
//!
//! Outputs that count keep the lead that their colour goes by, and no two different ones of a
//! configuration have the same lead ([`laws`]).
#![tactic(auto)]

mod captions;
mod errors;
mod faces;
mod figures;
mod frames;
mod fronts;
mod hits;
pub mod laws;
mod line_words;
mod lines;
mod marks;
mod moduli;
mod squares;

pub use captions::{put_colour_legend, put_number_caption, put_span};
pub use errors::{ChartError, LineError, Wanted};
pub use faces::{Face, face_of};
pub use figures::Figure;
pub use frames::{
    CellPosition, Frame, MOST_COLUMNS, MOST_ROUNDS, band_height, band_top, bottom, configuration,
    digits_of, left, line_top, middle, spot_top, width,
};
pub use fronts::{picture_width, put_front, put_ground};
pub use hits::breaks;
pub use line_words::{put_bound, put_era, put_locked};
pub use lines::{next_is, next_number, number_after, number_behind, small_or_none};
pub use marks::put_mark_at;
pub use moduli::is_below;
pub use squares::{
    put_column_head, put_cross, put_hover_front, put_node_label, put_number_at, put_rectangle,
    put_shown,
};
