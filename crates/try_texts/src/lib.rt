//! Tries the calls of the lowest crates, and those that read and write texts: plans, their tables,
//! what is found for a want, the header of a node, and scripts. There is nothing here but tests.
#![tactic(auto)]

#[cfg(test)]
mod adversary_script_calls;
#[cfg(test)]
mod edge_io_calls;
#[cfg(test)]
mod edge_io_feed_calls;
#[cfg(test)]
mod leader_pointers_calls;
#[cfg(test)]
mod majority_votes_calls;
#[cfg(test)]
mod node_header_calls;
#[cfg(test)]
mod phase_king_calls;
#[cfg(test)]
mod plan_certificate_calls;
#[cfg(test)]
mod plan_finder_calls;
#[cfg(test)]
mod plan_numbers_calls;
#[cfg(test)]
mod plan_reader_calls;
#[cfg(test)]
mod sync_types_calls;
