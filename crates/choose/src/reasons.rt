use edge_io::{Sink, WriteFault, put_all};
use program_words::{ProgramError, Reason, TOO_LONG};
use sync_types::Status;

/// Why the program refuses what it is given. It is given words alone, and those that it does not
/// take are usage, so this never comes: it has the line and the code of usage.
#[derive(Clone, Copy, Debug, PartialEq, Eq)]
pub struct ChooseReason;

/// Why what the words ask for was not written, or not all of it.
pub type ChooseError = ProgramError<ChooseReason>;

impl Reason for ChooseReason {
    ghost use Rattle.program_words.specs.Errors.{too_long_line};
    ghost use Rattle.choose.specs.Reasons.{usage_text, reason_text, code_for};

    ghost usage_line = { usage_text };

    ghost long_line = { too_long_line };

    ghost reason_line = { reason_text };

    ghost reason_code = { code_for };

    fn usage() -> &'static [u8] {
        b"usage: choose [boosting] FAULTS MODULUS [MOST_NODES] [plan], \
        choose within NODES BOUND MODULUS [plan], or choose --help\n"
    }

    fn too_long() -> &'static [u8] {
        TOO_LONG
    }

    fn code(&self) -> u8 {
        Status::Usage.code()
    }

    fn put_line<K: Sink>(&self, sink: &mut K) -> Result<(), WriteFault> {
        put_all(sink, Self::usage())
    }
}
