//! What is read is what stands there: the lines that count, of those that a part took, are the text
//! of what was read of them. So it is of plans, slot tables, the parts of layers, and scripts.
#![tactic(auto)]

pub mod laws;
