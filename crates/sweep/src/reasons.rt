use edge_io::{Sink, WriteFault, put_all};
use halving_runs::RunRefusal;
use outcomes::{Refusal, put_refusal};
use program_words::{ProgramError, Reason, TOO_LONG};

/// Why there is no sweep of an input.
#[derive(Clone, Copy, Debug, PartialEq, Eq)]
pub enum SweepReason {
    /// The input is refused, as `counterlab run` refuses it.
    Boosting(Refusal),
    /// The input begins with a halving plan, and is refused, as `halvinglab run` refuses it.
    Halving(RunRefusal),
    /// The script says no noise, so all runs would be one.
    NoNoise,
}

/// The exit code of a script that is refused, as `counterlab run` has it.
const SCRIPT_REFUSED: u8 = 3;

/// Why a sweep was not written, or not all of it.
pub type SweepError = ProgramError<SweepReason>;

impl Reason for SweepReason {
    ghost use Rattle.program_words.specs.Errors.{too_long_line};
    ghost use Rattle.sweep.specs.Reasons.{usage_text, reason_text, code_for};

    ghost usage_line = { usage_text };

    ghost long_line = { too_long_line };

    ghost reason_line = { reason_text };

    ghost reason_code = { code_for };

    fn usage() -> &'static [u8] {
        b"usage: sweep FIRST COUNT, or sweep --help\n"
    }

    fn too_long() -> &'static [u8] {
        TOO_LONG
    }

    fn code(&self) -> u8 {
        match *self {
            SweepReason::Boosting(refusal) => refusal.status().code(),
            SweepReason::Halving(refusal) => refusal.code(),
            SweepReason::NoNoise => SCRIPT_REFUSED,
        }
    }

    fn put_line<K: Sink>(&self, sink: &mut K) -> Result<(), WriteFault> {
        match *self {
            SweepReason::Boosting(refusal) => put_refusal(sink, refusal),
            SweepReason::Halving(refusal) => halving_runs::put_refusal(sink, refusal),
            SweepReason::NoNoise => put_all(
                sink,
                b"refused script: it says no noise, so all runs would be one\n",
            ),
        }
    }
}
