ghost use Rattle.std.specs.Prelude.{◌≡◌};
ghost use Rattle.texts.specs.Growth.{Puts};
ghost use Rattle.node_words.specs.Rules.{rule_word, part_word, node_refusal, header_line};

use crate::{Construction, HeaderRefusal};
use edge_io::{Piece, Sink, WriteFault, put_pieces};
use sync_types::{Part, Rule};

/// The word of a rule that a node part can fail, or any other part.
pub fn rule_word(rule: Rule) -> &'static str
    ensures { result.now ≡ rule_word rule }
{
    match rule {
        Rule::Form => "form",
        Rule::Limit => "limit",
        Rule::Node => "node",
        Rule::Order => "order",
        Rule::Faults => "faults",
        Rule::Range => "range",
        Rule::Hex => "hex",
        Rule::Name => "name",
        Rule::Slot => "slot",
        Rule::Overlap => "overlap",
    }
}

/// The word of a part that is no plan.
pub fn part_word(part: Part) -> &'static str
    ensures { result.now ≡ part_word part }
{
    match part {
        Part::Script => "script",
        Part::Node => "node",
        Part::Agree => "agree",
        Part::Slots => "slots",
        Part::Find => "find",
        Part::Log => "log",
        Part::Fire => "fire",
    }
}

/// Writes the line of a node part that is refused.
fn put_node_refusal<K: Sink>(sink: &mut K, line: u64, rule: Rule) -> Result<(), WriteFault>
    ensures { Puts result (node_refusal line rule) (K.told sink.old) (K.told sink.new) }
{
    put_pieces(
        sink,
        &[
            Piece::Text(b"refused node line "),
            Piece::Number(line),
            Piece::Text(b" rule "),
            Piece::Text(rule_word(rule).as_bytes()),
            Piece::Text(b"\n"),
        ],
    )
}

/// Writes the line of a header that is refused.
pub(crate) fn put_header_refusal<C: Construction, K: Sink>(
    sink: &mut K,
    refusal: HeaderRefusal<C::Premise>,
) -> Result<(), WriteFault>
    ensures { Puts result (header_line C.words refusal) (K.told sink.old) (K.told sink.new) }
{
    match refusal {
        HeaderRefusal::Plan { line, premise } => C::put_refusal(sink, line, premise),
        HeaderRefusal::Node { line, rule } => put_node_refusal(sink, line, rule),
    }
}
