//! Tries how states are read and written, and the calls of counters: of `counter_core` and
//! `boost_step`, and of the counters of plans, in `shared_board` and `tower`. There is nothing here
//! but tests, and some plans for them.
#![tactic(auto)]

#[cfg(test)]
mod boost_step_calls;
#[cfg(test)]
mod counter_core_calls;
#[cfg(test)]
mod group_votes_calls;
pub mod plans;
#[cfg(test)]
mod state_codec_calls;
#[cfg(test)]
mod tower_calls;
