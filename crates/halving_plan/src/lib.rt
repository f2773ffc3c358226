//! The halving construction: plans, the states of a plan's nodes, and the counter of a plan.
//!
//! A [`HalvingPlan`] is three numbers, of which some are accepted. They stand for a tree of halves,
//! which is nowhere kept: a [`Group`] of it is made from the one above. From the tree follow the
//! bound, how many levels there are, how many bits and bytes the states of each node take, and
//! where in these the output stands.
//!
//! A [`HalvingMachine`] is the counter of a plan: the fields of its nodes' states, and the step of
//! a node from what it hears of all nodes. A step goes down from the group of all nodes to the
//! lowest half in which the node is. In each group it makes the node's level state anew, by
//! [`LevelState`], which alone knows in which registers of a state a level stands.
#![tactic(auto)]

mod bits;
mod bounds;
pub mod construction_laws;
mod counters;
mod counts;
mod fields;
mod groups;
mod halving_machines;
mod hearing;
mod kings;
pub mod laws;
pub mod level_laws;
mod level_states;
pub mod machine_laws;
mod making;
mod output_places;
mod plans;
mod premises;
mod size_laws;
mod steps;

pub use bits::{levels, node_bits, node_bytes, state_bits, state_bytes};
pub use counters::{advance, can_hear, output, output_in, zero};
pub use counts::{Counts, count_group};
pub use groups::Group;
pub use halving_machines::HalvingMachine;
pub use hearing::shown;
pub use level_states::LevelState;
pub use making::all_nodes_fields;
pub use output_places::{output_bits, output_start};
pub use plans::HalvingPlan;
pub use premises::HalvingPremise;
pub use size_laws::{bits_are_most, bits_are_written, outputs_stand_there};
