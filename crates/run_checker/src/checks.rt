ghost use Rattle.std.specs.Prelude.{◌≡◌, IsErrOf};
ghost use Rattle.run_checker.specs.Checks.{Checks, HasCheckCause};

use crate::Verdict;
use crate::check_lines::CheckLines;
use crate::line_reading::read_lines;
use edge_io::{FedError, Feed, LineBuf, Source};
use std::alloc::Global;
use thiserror::Error;

/// More bytes than a certificate has and a line after it.
const MOST_BYTES: u64 = 1 << 45;

/// The line of a certificate that is refused.
#[derive(Clone, Copy, Debug, PartialEq, Eq)]
pub struct CertRefusal {
    /// The line's number, from 1: the first at which the lines up to it, each with its newline,
    /// begin no certificate. If the text ends before its end line, it is the line after the last
    /// one.
    pub line: u64,
}

/// Why a certificate was not checked to its end.
#[derive(Clone, Copy, Debug, PartialEq, Eq, Error)]
pub enum CheckError {
    /// The text is no certificate: its first line that fails.
    #[error("line {} of the certificate fails", .0.line)]
    Refused(CertRefusal),
    /// The text is longer than the limit, and none of its lines up to there is refused.
    #[error("the certificate is too long")]
    TooLong,
    /// A read failed, which the source has counted, before the text was decided.
    #[error("a read failed")]
    ReadFault,
    /// Memory was refused.
    #[error("out of memory")]
    NoMemory,
}

/// Checks the text that a source has left: the verdict of the certificate whose text it is. It may
/// have `limit` bytes.
///
/// `Refused` names the first line at which its lines begin no certificate; a line that lacks its
/// newline, is longer than 4096 bytes or stands after the last one is refused so, and the line
/// after the last one if the text ends before the certificate does. `TooLong` comes if the byte
/// after the limit was read, and no line that is shown before it is refused; no certificate has
/// more than 2^44 bytes. Both come at once: at most 4096 bytes were read after the one that
/// decides. `ReadFault` comes only if the source counted a fault, and just one, and its end was not
/// met; nothing that was read before decides. Memory is taken with the line buffer and the head
/// alone: for the plan, two configurations, and the most that the faulty nodes of any era tell in
/// one round. No later line takes memory.
pub fn check_run<S: Source>(
    alloc: Global,
    source: &mut S,
    limit: u64,
) -> Result<Verdict, CheckError>
    ensures checks { Checks limit (S.left source.old) (S.left source.new) result }
    ensures cause { HasCheckCause (S.faults source.old) (S.faults source.new) result }
    ensures unmet { IsErrOf result CheckError.ReadFault → S.met source.new ≡ S.met source.old }
{
    let mut line = match LineBuf::new(alloc) {
        Ok(line) => line,
        Err(_) => return Err(CheckError::NoMemory),
    };
    let mut feed = Feed::new(source);
    let limit = limit.min(MOST_BYTES);
    match read_lines(&mut feed, &mut line, CheckLines::new(alloc), limit) {
        Ok(verdict) => Ok(verdict),
        Err(FedError::Refused(refused)) => {
            let line = refused.line;
            Err(CheckError::Refused(CertRefusal { line }))
        }
        Err(FedError::TooLong) => Err(CheckError::TooLong),
        Err(FedError::ReadFault) => Err(CheckError::ReadFault),
        Err(FedError::NoMemory) => Err(CheckError::NoMemory),
    }
}
