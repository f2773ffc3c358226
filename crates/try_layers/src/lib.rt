//! Tries the calls of nodes over packets, of the layers above a counter, and those that play,
//! write, check and explain runs. There is nothing here but tests, as in `try_counters`, which
//! tries counters, and `try_texts`, which tries the crates below these.
#![tactic(auto)]

#[cfg(test)]
mod consensus_layer_calls;
#[cfg(test)]
mod drawn_states;
#[cfg(test)]
mod firing_calls;
#[cfg(test)]
mod halving_counter_calls;
#[cfg(test)]
mod halving_machine_calls;
#[cfg(test)]
mod halving_nodes_calls;
#[cfg(test)]
mod halving_plan_calls;
#[cfg(test)]
mod halving_tables_calls;
#[cfg(test)]
mod halving_texts_calls;
#[cfg(test)]
mod node_calls_calls;
#[cfg(test)]
mod node_rounds_calls;
#[cfg(test)]
mod node_stepper_calls;
#[cfg(test)]
mod players;
#[cfg(test)]
mod replicated_log_calls;
#[cfg(test)]
mod round_runner_calls;
#[cfg(test)]
mod run_checker_calls;
#[cfg(test)]
mod run_explanations_calls;
#[cfg(test)]
mod slot_table_calls;
