ghost use Rattle.std.specs.Prelude.{◌≡◌, ℕ, List, Result};
ghost use Rattle.texts.specs.Growth.{Puts};
ghost use Rattle.halving_runs.specs.declared.errors.RunRefusal.{RunRefusal};
ghost use Rattle.halving_runs.specs.Readings.{Refuses};
ghost use Rattle.halving_runs.specs.RunTexts.{refusal_line, FailsToPlay, KeepsSink};

use crate::errors::{PlayError, RunRefusal};
use edge_io::{Piece, Sink, WriteFault, put_pieces};
use halving_texts::HalvingRefusal;
use node_words::{part_word, rule_word};
use sync_types::Status;

impl RunRefusal {
    ghost use Rattle.halving_runs.specs.RunTexts.{refusal_code};

    /// The exit code of a program that refuses an input so.
    pub fn code(self) -> u8
        ensures { result ≡ refusal_code self }
    {
        match self {
            RunRefusal::Plan { .. } => 1,
            RunRefusal::Part { part, line, rule } => {
                Status::PartRefused { part, line, rule }.code()
            }
        }
    }
}

/// Writes the line of a refusal.
pub fn put_refusal<K: Sink>(sink: &mut K, refusal: RunRefusal) -> Result<(), WriteFault>
    ensures { Puts result (refusal_line refusal) (K.told sink.old) (K.told sink.new) }
{
    match refusal {
        RunRefusal::Plan { line, premise } => {
            halving_texts::put_refusal(sink, HalvingRefusal { line, premise })
        }
        RunRefusal::Part { part, line, rule } => put_pieces(
            sink,
            &[
                Piece::Text(b"refused "),
                Piece::Text(part_word(part).as_bytes()),
                Piece::Text(b" line "),
                Piece::Number(line),
                Piece::Text(b" rule "),
                Piece::Text(rule_word(rule).as_bytes()),
                Piece::Text(b"\n"),
            ],
        ),
    }
}

/// Writes the line of the refusal, if the error is one. The answer is how that ends.
pub(crate) fn put_error<K: Sink>(sink: &mut K, error: PlayError) -> PlayError
    ensures told { (defined : Result (List ℕ) RunRefusal) → Refuses error defined
        → FailsToPlay defined (K.told sink.old) (K.told sink.new) result }
    ensures untouched { KeepsSink sink.old sink.new result }
{
    match error {
        PlayError::Refused(refusal) => match put_refusal(sink, refusal) {
            Ok(()) => PlayError::Refused(refusal),
            Err(WriteFault) => PlayError::WriteFault,
        },
        PlayError::NoMemory => PlayError::NoMemory,
        PlayError::WriteFault => PlayError::WriteFault,
    }
}
