ghost use Rattle.std.specs.Prelude.{◌≡◌};
ghost use Rattle.texts.specs.Growth.{Puts};
ghost use Rattle.attack.specs.Reasons.{premise_word, plan_line};

use edge_io::{Piece, Sink, WriteFault, put_pieces};
use halving_texts::HalvingRefusal;
use plan_reader::PlanRefusal;
use program_words::{ProgramError, Reason, TOO_LONG};
use sync_types::Premise;

/// Why there is no attack on the plan of an input.
#[derive(Clone, Copy, Debug, PartialEq, Eq)]
pub enum AttackReason {
    /// The input is no plan: its first line that fails.
    Boosting(PlanRefusal),
    /// The input begins as a halving plan, and is none: its first line that fails.
    Halving(HalvingRefusal),
}

/// Why an attack was not written, or not all of it.
pub type AttackError = ProgramError<AttackReason>;

/// The exit code if the input is no plan: that of the word `run` for it.
const NO_PLAN: u8 = 1;

/// The word of a premise, as `counterlab` has it.
fn premise_word(premise: Premise) -> &'static str
    ensures { result.now ≡ premise_word premise }
{
    match premise {
        Premise::Form => "form",
        Premise::Limit => "limit",
        Premise::Blocks => "blocks",
        Premise::Modulus => "modulus",
        Premise::Quorum => "quorum",
        Premise::Share => "share",
        Premise::Multiple => "multiple",
    }
}

/// Writes the line of a plan of levels over blocks that is refused.
fn put_plan_line<K: Sink>(sink: &mut K, refusal: PlanRefusal) -> Result<(), WriteFault>
    ensures { Puts result (plan_line refusal.line refusal.premise)
        (K.told sink.old) (K.told sink.new) }
{
    put_pieces(
        sink,
        &[
            Piece::Text(b"refused plan line "),
            Piece::Number(refusal.line),
            Piece::Text(b" premise "),
            Piece::Text(premise_word(refusal.premise).as_bytes()),
            Piece::Text(b"\n"),
        ],
    )
}

impl Reason for AttackReason {
    ghost use Rattle.program_words.specs.Errors.{too_long_line};
    ghost use Rattle.attack.specs.Reasons.{usage_text, reason_text, code_for};

    ghost usage_line = { usage_text };

    ghost long_line = { too_long_line };

    ghost reason_line = { reason_text };

    ghost reason_code = { code_for };

    fn usage() -> &'static [u8] {
        b"usage: attack SEED RUNS [KIND ..], or attack --help\n"
    }

    fn too_long() -> &'static [u8] {
        TOO_LONG
    }

    fn code(&self) -> u8 {
        match *self {
            AttackReason::Boosting(_) | AttackReason::Halving(_) => NO_PLAN,
        }
    }

    fn put_line<K: Sink>(&self, sink: &mut K) -> Result<(), WriteFault> {
        match *self {
            AttackReason::Boosting(refusal) => put_plan_line(sink, refusal),
            AttackReason::Halving(refusal) => halving_texts::put_refusal(sink, refusal),
        }
    }
}
