ghost use Rattle.std.specs.Prelude.{◌≡◌};
ghost use Rattle.texts.specs.Growth.{Puts};
ghost use Rattle.outcomes.specs.Refusals.{cause_word, premise_word};
ghost use Rattle.outcomes.specs.Refusals.{failed_line, refusal_line, refusal_status};

use edge_io::{Piece, Sink, WriteFault, put_all, put_pieces};
use node_words::{part_word, rule_word};
use sync_types::{Cause, Part, Premise, Rule, Status};

/// Why words or an input are refused. Lines are counted from 1 through the whole input.
#[derive(Clone, Copy, Debug, PartialEq, Eq)]
pub enum Refusal {
    /// The words are no command.
    Usage,
    /// The plan fails this premise at this line.
    Plan { line: u64, premise: Premise },
    /// This part fails this rule at this line.
    Part { part: Part, line: u64, rule: Rule },
    /// No run certificate begins with the lines up to this one.
    Certificate { line: u64 },
    /// The table fails at this line, for this cause.
    Table { line: u64, cause: Cause },
}

fn premise_word(premise: Premise) -> &'static str
    ensures { result.now ≡ premise_word premise }
{
    match premise {
        Premise::Form => "form",
        Premise::Limit => "limit",
        Premise::Blocks => "blocks",
        Premise::Modulus => "modulus",
        Premise::Quorum => "quorum",
        Premise::Share => "share",
        Premise::Multiple => "multiple",
    }
}

fn cause_word(cause: Cause) -> &'static str
    ensures { result.now ≡ cause_word cause }
{
    match cause {
        Cause::Premise(premise) => premise_word(premise),
        Cause::Value => "value",
    }
}

impl Refusal {
    /// The status that the refusal ends with.
    pub fn status(self) -> Status
        ensures { result ≡ refusal_status self }
    {
        match self {
            Refusal::Usage => Status::Usage,
            Refusal::Plan { line, premise } => Status::PlanRefused { line, premise },
            Refusal::Part { part, line, rule } => Status::PartRefused { part, line, rule },
            Refusal::Certificate { line } => Status::CertRefused { line },
            Refusal::Table { line, cause } => Status::TableRefused { line, cause },
        }
    }
}

/// Writes the line of what fails for a reason.
fn put_failed<'a, K: Sink>(
    sink: &mut K,
    front: &'a [u8],
    line: u64,
    kind: &'a [u8],
    reason: &'a str,
) -> Result<(), WriteFault>
    ensures { Puts result (failed_line front.now line kind.now reason.now)
        (K.told sink.old) (K.told sink.new) }
{
    put_pieces(
        sink,
        &[
            Piece::Text(front),
            Piece::Number(line),
            Piece::Text(kind),
            Piece::Text(reason.as_bytes()),
            Piece::Text(b"\n"),
        ],
    )
}

/// Writes the line of a refusal. `WriteFault` comes if the sink counted one; a prefix of the line
/// was then taken.
pub fn put_refusal<K: Sink>(sink: &mut K, refusal: Refusal) -> Result<(), WriteFault>
    ensures { Puts result (refusal_line refusal) (K.told sink.old) (K.told sink.new) }
{
    match refusal {
        Refusal::Usage => put_all(sink, b"usage: counterlab COMMAND\n"),
        Refusal::Plan { line, premise } => {
            let word = premise_word(premise);
            put_failed(sink, b"refused plan line ", line, b" premise ", word)
        }
        Refusal::Part { part, line, rule } => put_pieces(
            sink,
            &[
                Piece::Text(b"refused "),
                Piece::Text(part_word(part).as_bytes()),
                Piece::Text(b" line "),
                Piece::Number(line),
                Piece::Text(b" rule "),
                Piece::Text(rule_word(rule).as_bytes()),
                Piece::Text(b"\n"),
            ],
        ),
        Refusal::Certificate { line } => put_pieces(
            sink,
            &[
                Piece::Text(b"refused certificate line "),
                Piece::Number(line),
                Piece::Text(b"\n"),
            ],
        ),
        Refusal::Table { line, cause } => {
            let word = cause_word(cause);
            put_failed(sink, b"refused table line ", line, b" cause ", word)
        }
    }
}
