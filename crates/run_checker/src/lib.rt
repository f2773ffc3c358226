//! Writes certificates of runs while scripts are played, and checks certificates while they are
//! read.
//!
//! [`write_run`] writes the certificate of a script's run, line by line.
//! [`check_run`] answers the verdict of the certificate whose text a source has, or the first line
//! at which its lines begin none. It holds two configurations and what is told in one round.
#![tactic(auto)]

mod bodies;
pub mod certificate_laws;
mod check_lines;
mod checks;
mod digits;
mod ends;
mod firsts;
mod head_lines;
mod id_lists;
pub mod laws;
mod lie_lines;
mod line_reading;
mod pairs;
mod planned;
mod records;
mod rounds;
mod row_lines;
mod rows;
mod said_lines;
mod start_lines;
mod tellings;
mod turns;
mod versions;

pub use checks::{CertRefusal, CheckError, check_run};
pub use records::write_run;
pub use run_explanations::{Explanation, check_explanation, explain};

/// What a certificate that is read to its end comes to.
#[derive(Clone, Copy, Debug, PartialEq, Eq)]
pub enum Verdict {
    /// All rows are those of the stated run: how many, and the first locked configuration of the
    /// last era.
    True { rows: u64, locked: Option<u64> },
    /// The first row that differs.
    False { row: u64 },
}
