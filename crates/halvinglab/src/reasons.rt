use edge_io::{Piece, Sink, WriteFault, put_pieces};
use halving_runs::RunRefusal;
use program_words::{ProgramError, Reason};
use sync_types::Status;

/// Why the program refuses what it is given.
#[derive(Clone, Copy, Debug, PartialEq, Eq)]
pub enum LabReason {
    /// The plan is refused, or a part after it, and a line that says so was written.
    Input(RunRefusal),
    /// The input ended inside a packet.
    Cut {
        /// The number of the packet, from 0.
        packet: u64,
        /// The first node whose cell is not whole.
        sender: u32,
    },
}

/// Why what the words ask for was not written, or not all of it.
pub type LabError = ProgramError<LabReason>;

impl Reason for LabReason {
    ghost use Rattle.halvinglab.specs.Reasons.{usage_text, long_text, reason_text, code_for};

    ghost usage_line = { usage_text };

    ghost long_line = { long_text };

    ghost reason_line = { reason_text };

    ghost reason_code = { code_for };

    fn usage() -> &'static [u8] {
        b"usage: halvinglab plan, run, slots, consensus, fire, log or node, or halvinglab --help\n"
    }

    fn too_long() -> &'static [u8] {
        b"the input is too long\n"
    }

    fn code(&self) -> u8 {
        match *self {
            LabReason::Input(refusal) => refusal.code(),
            LabReason::Cut { packet, sender } => Status::Cut { packet, sender }.code(),
        }
    }

    fn put_line<K: Sink>(&self, sink: &mut K) -> Result<(), WriteFault> {
        match *self {
            LabReason::Input(_) => Ok(()),
            LabReason::Cut { packet, sender } => put_pieces(
                sink,
                &[
                    Piece::Text(b"the input ends in packet "),
                    Piece::Number(packet),
                    Piece::Text(b", in the cell of node "),
                    Piece::Number(u64::from(sender)),
                    Piece::Text(b"\n"),
                ],
            ),
        }
    }
}
