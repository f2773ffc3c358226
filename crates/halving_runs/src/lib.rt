//! Plays a script on a halving plan: an input is read as a plan and a script for it, perhaps with a
//! slot table or the part of a layer between them, the script is played on the plan's machine, and
//! what comes of it is written; and what holds of each such run.
#![tactic(auto)]

mod errors;
pub mod laws;
mod layer_playing;
mod layer_shapes;
mod playing;
mod reading;
mod refusals;
mod shown;

pub use errors::{PlayError, RunRefusal};
pub use playing::play;
pub use reading::read_scripted;
pub use refusals::put_refusal;
pub use shown::Shown;
