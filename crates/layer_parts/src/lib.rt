//! What a part between a plan and a script says of a counter: how it is read for the counter's
//! numbers, which registers states have for it, and, if it says a layer, the layer above the
//! counter and what is written of it.
//!
//! A [`CounterPart`] is such a part: a slot table, or what is said of consensus, firing or a log.
//! The last three are each a [`LayerPart`]. What holds of one of these is said once, for a counter
//! of any construction.
#![tactic(auto)]

mod agree_part;
mod counter_parts;
mod fire_part;
mod layer_parts;
mod log_part;
mod registers;
mod slots_part;

pub use counter_parts::CounterPart;
pub use layer_parts::LayerPart;
pub use registers::Registers;
