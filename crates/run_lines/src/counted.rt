ghost use Rattle.std.specs.Prelude.{◌+◌, ◌-◌, ◌%◌, ◌^◌, ◌≤◌, ℕ};
ghost use Rattle.std.specs.List.{flat_map, range_with_len};
ghost use Rattle.edge_io.specs.Writing.{Writes};
ghost use Rattle.run_lines.specs.RunTexts.{word_or_star};
ghost use Rattle.run_lines.specs.OutputTexts.{counted_line};

use crate::lines::OutputLines;
use crate::outputs::Output;
use edge_io::{RisingText, Sink, Writer};
use sync_types::FaultSet;

/// Writes the word of a node that shows this output, or a star if it is one of these faulty ones.
#[inline(always)]
fn put_word_at<K: Sink, L: OutputLines>(
    writer: &mut Writer<'_, K>,
    lines: &L,
    faulty: &FaultSet,
    output: &Output,
    v: u32,
)
    ensures { Writes K.told
        (word_or_star (L.word_at lines.now output.now.value) faulty.now.ids v)
        writer.old writer.new }
{
    if faulty.contains(v) {
        writer.text(b" *");
    } else {
        lines.put_word_at(writer, output, v);
    }
}

/// Writes the words of all nodes, of which the correct ones show this output.
#[inline(always)]
fn put_words_at<K: Sink, L: OutputLines>(
    writer: &mut Writer<'_, K>,
    lines: &L,
    nodes: u32,
    faulty: &FaultSet,
    output: &Output,
)
    ensures { Writes K.told (flat_map
        (word_or_star (L.word_at lines.now output.now.value) faulty.now.ids)
        (range_with_len 0 nodes)) writer.old writer.new }
{
    for v in 0..nodes {
        put_word_at(writer, lines, faulty, output, v);
    }
}

/// Writes the line of a configuration in which the correct nodes show this output. `number` is that
/// of the configuration, after the lines' label.
#[inline(always)]
fn put_counted_line<K: Sink, L: OutputLines>(
    writer: &mut Writer<'_, K>,
    lines: &L,
    nodes: u32,
    faulty: &FaultSet,
    number: &RisingText,
    output: &Output,
)
    ensures { Writes K.told (counted_line number.now.label (L.word_at lines.now)
        (record { nodes = nodes; ids = faulty.now.ids }) number.now.value output.now.value)
        writer.old writer.new }
{
    writer.rising(number);
    put_words_at(writer, lines, nodes, faulty, output);
    writer.byte(b'\n');
}

/// Writes the lines of so many configurations. `number` is that of the first one, after the lines'
/// label, and `output` is what its correct nodes show; in each next one they show one more. It
/// stops if a write failed.
pub(crate) fn put_counted_lines<K: Sink, L: OutputLines>(
    writer: &mut Writer<'_, K>,
    lines: &L,
    nodes: u32,
    faulty: &FaultSet,
    mut number: RisingText,
    mut output: Output,
    count: u64,
)
    requires { number.value + count ≤ 2 ^ 64 - 1 }
    ensures { Writes K.told (flat_map (λ (t : ℕ). counted_line number.label (L.word_at lines.now)
        (record { nodes = nodes; ids = faulty.now.ids }) t
        ((output.value + (t - number.value)) % output.modulus))
        (range_with_len number.value count)) writer.old writer.new }
{
    for _ in 0..count {
        if writer.has_failed() {
            return;
        }
        put_counted_line(writer, lines, nodes, faulty, &number, &output);
        number.rise();
        output.rise();
    }
}
