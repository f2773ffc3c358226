use edge_io::{Sink, WriteFault, put_all};
use halving_runs::RunRefusal;
use outcomes::{Refusal, put_refusal};
use program_words::{ProgramError, Reason, TOO_LONG};
use sync_types::Status;

/// Why there is no trace of an input.
#[derive(Clone, Copy, Debug, PartialEq, Eq)]
pub enum TraceReason {
    /// The input is refused, as `counterlab run` refuses it.
    Boosting(Refusal),
    /// The input begins with a halving plan, and is refused, as `halvinglab run` refuses it.
    Halving(RunRefusal),
    /// The script does not play the last wanted configuration.
    NotPlayed,
    /// A word names no node of the plan.
    NoNode,
}

/// Why a trace was not written, or not all of it.
pub type TraceError = ProgramError<TraceReason>;

impl Reason for TraceReason {
    ghost use Rattle.program_words.specs.Errors.{too_long_line};
    ghost use Rattle.trace.specs.Reasons.{usage_text, reason_text, code_for};

    ghost usage_line = { usage_text };

    ghost long_line = { too_long_line };

    ghost reason_line = { reason_text };

    ghost reason_code = { code_for };

    fn usage() -> &'static [u8] {
        b"usage: trace FROM TO [NODE ..] < PLAN_AND_SCRIPT, or trace --help\n"
    }

    fn too_long() -> &'static [u8] {
        TOO_LONG
    }

    fn code(&self) -> u8 {
        match *self {
            TraceReason::Boosting(refusal) => refusal.status().code(),
            TraceReason::Halving(refusal) => refusal.code(),
            TraceReason::NotPlayed | TraceReason::NoNode => Status::Usage.code(),
        }
    }

    fn put_line<K: Sink>(&self, sink: &mut K) -> Result<(), WriteFault> {
        match *self {
            TraceReason::Boosting(refusal) => put_refusal(sink, refusal),
            TraceReason::Halving(refusal) => halving_runs::put_refusal(sink, refusal),
            TraceReason::NotPlayed => {
                put_all(sink, b"refused words: TO is above the script's rounds\n")
            }
            TraceReason::NoNode => put_all(sink, b"refused words: the plan has no such node\n"),
        }
    }
}
