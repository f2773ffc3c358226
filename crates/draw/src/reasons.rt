use edge_io::{Piece, Sink, WriteFault, put_pieces};
use program_words::{ProgramError, Reason};

/// Why there is no picture of an input.
#[derive(Debug, Drop)]
pub struct NoRun {
    /// What is said of it, in one line.
    pub said: Vec<u8>,
}

/// Why a picture was not written, or not all of it.
pub type NotDrawn = ProgramError<NoRun>;

impl Reason for NoRun {
    ghost use Rattle.draw.specs.Reasons.{usage_text, too_long_line, reason_text, code_for};

    ghost usage_line = { usage_text };

    ghost long_line = { too_long_line };

    ghost reason_line = { reason_text };

    ghost reason_code = { code_for };

    fn usage() -> &'static [u8] {
        b"usage: draw [--page], or draw --help\n"
    }

    fn too_long() -> &'static [u8] {
        b"the input has more than 4294967296 bytes\n"
    }

    fn code(&self) -> u8 {
        1
    }

    fn put_line<K: Sink>(&self, sink: &mut K) -> Result<(), WriteFault> {
        put_pieces(
            sink,
            &[
                Piece::Text(b"no run to draw: "),
                Piece::Text(&self.said),
                Piece::Text(b"\n"),
            ],
        )
    }
}
