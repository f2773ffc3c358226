//! What plans of both constructions, states, scripts and the parts between mean, computed plainly
//! and slowly. It shares no code with the programs, which are compared with it; it reads no texts,
//! and it has no contracts.
#![tactic(auto)]

pub mod agreement;
pub mod bits;
pub mod constructions;
pub mod halving_groups;
pub mod halving_steps;
pub mod layers;
pub mod nodes;
pub mod numbers;
pub mod plans;
pub mod runs;
pub mod script_texts;
pub mod scripts;
pub mod states;
pub mod steps;
pub mod texts;
pub mod writing;
