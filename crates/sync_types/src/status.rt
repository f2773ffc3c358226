ghost use Rattle.std.specs.Prelude.{◌≡◌};
ghost use Rattle.sync_types.specs.Codes.{code_of};

use crate::answers::{Cause, Part, Premise, Rule};

/// How a run of the program ended. Lines are counted from 1 through the whole input.
#[derive(Clone, Copy, Debug, PartialEq, Eq)]
pub enum Status {
    /// The input was accepted and everything was written.
    Ok,
    /// The plan fails this premise at this line.
    PlanRefused { line: u64, premise: Premise },
    /// The words are no command.
    Usage,
    /// This part fails this rule at this line.
    PartRefused { part: Part, line: u64, rule: Rule },
    /// The text is no run certificate, from this line on.
    CertRefused { line: u64 },
    /// The text is no table text: this line fails, for this cause.
    TableRefused { line: u64, cause: Cause },
    /// This row of the certificate differs from the run that it states.
    CertFalse { row: u64 },
    /// A read failed.
    ReadFault,
    /// A write failed.
    WriteFault,
    /// The input is longer than its limit.
    TooLong,
    /// The input ended inside this packet, before the cell of this sender was whole.
    Cut { packet: u64, sender: u32 },
    /// Memory was refused.
    NoMemory,
}

impl Status {
    /// The exit code of the program, 0 to 10.
    pub fn code(self) -> u8
        ensures { result ≡ code_of self }
    {
        match self {
            Status::Ok => 0,
            Status::PlanRefused { .. } => 1,
            Status::Usage => 2,
            Status::PartRefused { .. } => 3,
            Status::CertRefused { .. } | Status::TableRefused { .. } => 4,
            Status::CertFalse { .. } => 5,
            Status::ReadFault => 6,
            Status::WriteFault => 7,
            Status::TooLong => 8,
            Status::Cut { .. } => 9,
            Status::NoMemory => 10,
        }
    }
}
