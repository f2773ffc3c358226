//! Consensus on any counter, by its numbers.
//!
//! Each node has an input. In slots of three rounds for each of F + 1 kings, whose phases the
//! counter's outputs tell, all correct nodes agree on one of them: the common one if there is one.
//! [`Agreement`] is the layer, and [`agree`] the round of one register of agreement, for any layer
//! that has one; [`relevant_liars`] says on which lies it depends.
#![tactic(auto)]

mod agree_lines;
mod agree_parts;
mod agreeing;
mod agreement;
mod heeding;
mod input_lines;
pub mod laws;
mod part_lines;
mod reading;

pub use agree_lines::{AgreeLines, AgreeStage};
pub use agree_parts::AgreePart;
pub use agreeing::{Agreed, agree, agree_at, slot_length};
pub use agreement::Agreement;
pub use heeding::{heeded_at, liar_at, relevant_liars};
pub use part_lines::{are_below, head_tested, number_within};
pub use reading::{AgreeError, AgreeRefusal, read_agree, read_agree_over};
