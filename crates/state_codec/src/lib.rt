//! States of nodes as bits: a state is read from any bytes, and written as bytes or as hex digits.
//! If a plan says which fields its nodes have, [`StateShape`] says which bits these take.
//!
//! The bits of a state are its number, then for each register, the lowest first, its value and its
//! mark, each most significant bit first, and then zeros up to a whole byte. A field that the node
//! lacks has no bits, and is zero. Beside the code stand definitions and lemmas of bits, numbers
//! and bytes.
#![tactic(auto)]

mod fields;
pub mod laws;
mod making;
mod packed;
mod pieces;
mod registers;
mod shapes;
mod texts;
mod widths;
mod writer;

pub use fields::Fields;
pub use packed::Packed;
pub use shapes::StateShape;
pub use texts::NotState;
