//! The word `check`: a run certificate is read line by line, and what it comes to is written.

ghost use Rattle.std.specs.Prelude.{◌≡◌, Some};
ghost use Rattle.texts.specs.Growth.{Puts};
ghost use Rattle.outcomes.specs.CheckAnswers.{verdict_outcome};
ghost use Rattle.outcomes.specs.Conduct.{Does, LeavesUnmet, LeavesUntouched};

use edge_io::{Piece, Sink, Source, WriteFault, put_pieces};
use outcomes::{Command, Refusal, put_refusal};
use run_checker::laws::limits_matter_beyond;
use run_checker::{CertRefusal, CheckError, Verdict, check_run};
use std::alloc::Global;
use sync_types::Status;

/// How many bytes a run certificate may have.
const LONGEST_CERTIFICATE: u64 = 1 << 44;

/// The status of a certificate that was read to its end.
fn verdict_status(verdict: Verdict) -> Status
    ensures { result ≡ (verdict_outcome verdict).status }
{
    match verdict {
        Verdict::True { .. } => Status::Ok,
        Verdict::False { row } => Status::CertFalse { row },
    }
}

/// Writes the line of a certificate that was read to its end.
fn put_verdict<K: Sink>(sink: &mut K, verdict: Verdict) -> Result<(), WriteFault>
    ensures { Puts result (verdict_outcome verdict).text (K.told sink.old) (K.told sink.new) }
{
    match verdict {
        Verdict::True {
            rows,
            locked: Some(t),
        } => put_pieces(
            sink,
            &[
                Piece::Text(b"true rows "),
                Piece::Number(rows),
                Piece::Text(b" locked "),
                Piece::Number(t),
                Piece::Text(b"\n"),
            ],
        ),
        Verdict::True { rows, locked: None } => put_pieces(
            sink,
            &[
                Piece::Text(b"true rows "),
                Piece::Number(rows),
                Piece::Text(b" locked none\n"),
            ],
        ),
        Verdict::False { row } => put_pieces(
            sink,
            &[
                Piece::Text(b"false row "),
                Piece::Number(row),
                Piece::Text(b"\n"),
            ],
        ),
    }
}

/// The word `check`.
pub fn check<S: Source, K: Sink>(alloc: Global, source: &mut S, sink: &mut K) -> Status
    ensures does { Does (Some Command.Check) result
        (S.left source.old) (S.left source.new) (S.faults source.old) (S.faults source.new)
        (K.told sink.old) (K.told sink.new) }
    ensures unmet { LeavesUnmet result (S.met source.old) (S.met source.new) }
    ensures untouched { LeavesUntouched (Some Command.Check) result sink.old sink.new }
{
    limits_matter_beyond();
    let verdict = match check_run(alloc, source, LONGEST_CERTIFICATE) {
        Ok(verdict) => verdict,
        Err(CheckError::TooLong) => return Status::TooLong,
        Err(CheckError::ReadFault) => return Status::ReadFault,
        Err(CheckError::NoMemory) => return Status::NoMemory,
        Err(CheckError::Refused(CertRefusal { line })) => {
            let refusal = Refusal::Certificate { line };
            match put_refusal(sink, refusal) {
                Ok(()) => return refusal.status(),
                Err(WriteFault) => return Status::WriteFault,
            }
        }
    };
    match put_verdict(sink, verdict) {
        Ok(()) => verdict_status(verdict),
        Err(WriteFault) => Status::WriteFault,
    }
}
