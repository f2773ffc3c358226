//! Scripts: what an adversary does with a counter. A script says which nodes are faulty, in which
//! states all nodes start, what the faulty nodes tell the others in which rounds, how many rounds
//! are played and which configurations are shown. One of version 2 may have eras: from some
//! configurations on other nodes are faulty, and there it may put nodes into states.
//!
//! [`read_script_for`] reads a script line by line, by how many nodes may be faulty and the shape
//! of the states, and refuses the first line that fails, with the first rule that it fails;
//! [`read_script`] reads one for a plan. [`Script`] gives the states that it says: those in which
//! nodes start, those into which they are put where an era begins, and those that faulty nodes
//! tell. The states of a node have the fields of that node. States of noise come from ChaCha8 by
//! the script's key: the lies from node u to node v have the stream 256u + v, in which each round
//! has its own words, and the start of node v has the stream 65536 + v. [`Noise`] keeps the words
//! of the lies that were last made.
#![tactic(auto)]

mod drafts;
mod draws;
mod eras;
mod faulty_lines;
mod group_lines;
mod id_sets;
mod keys;
mod kinds;
pub mod laws;
mod lie_lines;
mod lie_words;
mod lies;
mod links;
mod lookup;
mod lying;
mod noise;
mod parts;
mod reading;
mod script_lines;
mod scripts;
mod shifting;
mod single_lines;
mod start_lines;
mod stretches;
mod word_tests;

pub use noise::Noise;
pub use reading::{ScriptError, ScriptRefusal, read_script, read_script_for};
pub use scripts::Script;
pub use shifting::shift_into;
