//! What the lines of a part say: the lines that a part takes are those that its value says, and a
//! part is refused at the first line that fails.
#![tactic(auto)]

pub mod laws;
