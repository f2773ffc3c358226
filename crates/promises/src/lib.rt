//! What the answers of the command line promise, whatever the input. No code: each function is
//! empty, and its clause is a law over the definitions of the crate `outcomes`.
//!
//! What is written of a run of a boosting plan is what is written of a run of its machine.
#![tactic(auto)]

pub mod call_promises;
pub mod certificate_laws;
pub mod every_run;
pub mod find_promises;
pub mod laws;
pub mod layer_promises;
pub mod lock_promises;
pub mod locks;
pub mod machine_texts;
pub mod only_texts;
pub mod plan_promises;
pub mod printed_promises;
pub mod processes;
pub mod run_laws;
pub mod worked;
