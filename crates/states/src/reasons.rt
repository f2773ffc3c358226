ghost use Rattle.std.specs.Prelude.{◌≡◌};
ghost use Rattle.texts.specs.Growth.{Puts};
ghost use Rattle.states.specs.Reasons.{digits_line, fault_line, line_with, plan_line, premise_name};

use crate::faults::Fault;
use crate::layers::NotValues;
use edge_io::{Piece, Sink, WriteFault, put_pieces};
use plan_reader::PlanRefusal;
use program_words::{ProgramError, Reason, TOO_LONG};
use sync_types::Premise;

/// Why the states of an input are not turned.
#[derive(Clone, Copy, Debug, PartialEq, Eq)]
pub enum StateReason {
    /// A line of the plan fails a premise.
    Plan(PlanRefusal),
    /// A line of values says no register.
    Values(NotValues),
    /// A line of a state is refused.
    Line(u64, Fault),
}

/// Why the other forms of states were not written, or not all of them.
pub type StateError = ProgramError<StateReason>;

/// The name of a premise.
fn premise_name(premise: Premise) -> &'static [u8]
    ensures { result.now ≡ premise_name premise }
{
    match premise {
        Premise::Form => b"Form",
        Premise::Limit => b"Limit",
        Premise::Blocks => b"Blocks",
        Premise::Modulus => b"Modulus",
        Premise::Quorum => b"Quorum",
        Premise::Share => b"Share",
        Premise::Multiple => b"Multiple",
    }
}

/// Writes what is said of a line of the input.
fn put_with<K: Sink>(sink: &mut K, line: u64, said: &[u8]) -> Result<(), WriteFault>
    ensures { Puts result (line_with line said.now) (K.told sink.old) (K.told sink.new) }
{
    put_pieces(
        sink,
        &[
            Piece::Text(b"line "),
            Piece::Number(line),
            Piece::Text(said),
        ],
    )
}

/// Writes the line of a plan that is refused.
fn put_plan<K: Sink>(sink: &mut K, refusal: PlanRefusal) -> Result<(), WriteFault>
    ensures { Puts result (plan_line refusal) (K.told sink.old) (K.told sink.new) }
{
    let name = premise_name(refusal.premise);
    put_pieces(
        sink,
        &[
            Piece::Text(b"line "),
            Piece::Number(refusal.line),
            Piece::Text(b" of the plan fails the premise "),
            Piece::Text(name),
            Piece::Text(b"\n"),
        ],
    )
}

/// Writes the line of a state that should have so many digits.
fn put_digits<K: Sink>(sink: &mut K, line: u64, digits: usize) -> Result<(), WriteFault>
    ensures { Puts result (digits_line line digits) (K.told sink.old) (K.told sink.new) }
{
    put_pieces(
        sink,
        &[
            Piece::Text(b"line "),
            Piece::Number(line),
            Piece::Text(b" should have "),
            Piece::Number(digits as u64),
            Piece::Text(b" hex digits, each one of 0-9a-f\n"),
        ],
    )
}

/// Writes the line of a state that is refused.
fn put_fault<K: Sink>(sink: &mut K, line: u64, fault: Fault) -> Result<(), WriteFault>
    ensures { Puts result (fault_line line fault) (K.told sink.old) (K.told sink.new) }
{
    match fault {
        Fault::Form => put_with(
            sink,
            line,
            b" should be `node V`, and behind it hex digits or `number X registers R, R`\n",
        ),
        Fault::Node => put_with(sink, line, b" names a node that the plan has not\n"),
        Fault::Hex(digits) => put_digits(sink, line, digits),
        Fault::Fields => put_with(
            sink,
            line,
            b" has other fields than that node, or a number that is not below its modulus\n",
        ),
    }
}

impl Reason for StateReason {
    ghost use Rattle.program_words.specs.Errors.{too_long_line};
    ghost use Rattle.states.specs.Reasons.{usage_text, reason_text, code_for};

    ghost usage_line = { usage_text };

    ghost long_line = { too_long_line };

    ghost reason_line = { reason_text };

    ghost reason_code = { code_for };

    fn usage() -> &'static [u8] {
        b"usage: states < STATES, or states --help\n"
    }

    fn too_long() -> &'static [u8] {
        TOO_LONG
    }

    fn code(&self) -> u8 {
        1
    }

    fn put_line<K: Sink>(&self, sink: &mut K) -> Result<(), WriteFault> {
        match *self {
            StateReason::Plan(refusal) => put_plan(sink, refusal),
            StateReason::Values(refused) => put_with(
                sink,
                refused.line,
                b" should be `values V`, V from 2 to 65536, at most twice and with one V\n",
            ),
            StateReason::Line(line, fault) => put_fault(sink, line, fault),
        }
    }
}
