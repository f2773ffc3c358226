//! Definitions that the other crates cite, and lemmas on them; the only code is how long an input
//! may be.
//!
//! They say what a text is, line by line and word by word, what a number is, how a part of a text
//! is read line by line, and what a call did to a source or a sink and their counts of faults.
//! Lines as words, and texts as lines that each end with a newline, go both ways.
#![tactic(auto)]

/// How many bytes an input that is read whole has at most, and so the header of a node.
pub const LONGEST_INPUT: usize = 1 << 20;
