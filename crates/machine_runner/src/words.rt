ghost use Rattle.std.specs.Prelude.{◌≡◌, ◌<◌, ◌≤◌};
ghost use Rattle.edge_io.specs.Writing.{Writes};
ghost use Rattle.adversary_script.specs.Eras.{faulty_at};
ghost use Rattle.machine_runner.specs.RunTexts.{word_or_star, words_of};
ghost use Rattle.machine_runner.specs.ShownTexts.{word_at, shown_line};
ghost use Rattle.machine_runner.specs.Counting.{Knows, Shows};

use crate::Runner;
use crate::leading::lead_output;
use crate::lines::ShownLines;
use edge_io::{Sink, Writer};
use machines::Machine;

/// A configuration that is shown: what correct nodes show in it is known to a runner.
#[derive(Drop)]
pub(crate) struct Shown<'a, 'b, M: Machine> {
    runner: &'a Runner<'b, M>,
    t: u64,
    // What each correct node shows in it, if the runner is not at it.
    counted: u64,
    ghost shows: { Shows M.machine runner.now t counted },
}

impl<'a, 'b, M: Machine> Shown<'a, 'b, M> {
    /// Configuration `t`, at or after the runner's: if it is another one, the correct nodes count.
    pub(crate) fn new(runner: &'a Runner<'b, M>, t: u64) -> Shown<'a, 'b, M>
        requires knows { Knows M.machine runner.now t }
        requires from { runner.now.at ≤ t }
        requires within { t ≤ runner.now.script.rounds }
        ensures runner { result.runner.now ≡ runner.now }
        ensures number { result.t ≡ t }
    {
        runner.facts();
        let _rounds = runner.script().rounds();
        let counted = (lead_output(runner) + (t - runner.at())) % runner.machine().modulus();
        Shown { runner, t, counted }
    }

    /// Writes a node's word in its line, or a star if the node is faulty.
    fn put_word<K: Sink, L: ShownLines>(&self, writer: &mut Writer<'_, K>, lines: &L, v: u32)
        requires { v < (M.machine self.now.runner.now.machine).nodes }
        ensures { Writes K.told
            (word_or_star (word_at (L.front lines.now) (L.word lines.now)
            (M.machine self.now.runner.now.machine) self.now.runner.now.script self.now.t)
            (faulty_at self.now.runner.now.script self.now.t) v)
            writer.old writer.new }
    {
        if self.runner.is_faulty(v) {
            writer.text(b" *");
            return;
        }
        if self.runner.at() == self.t {
            lines.put_word(writer, self.runner.output(v), v);
        } else {
            lines.put_word(writer, self.counted, v);
        }
    }

    /// Writes the words of all nodes in its line.
    fn put_words<K: Sink, L: ShownLines>(&self, writer: &mut Writer<'_, K>, lines: &L)
        ensures { Writes K.told
            (words_of (M.machine self.now.runner.now.machine).nodes
            (word_at (L.front lines.now) (L.word lines.now)
            (M.machine self.now.runner.now.machine) self.now.runner.now.script self.now.t)
            (faulty_at self.now.runner.now.script self.now.t))
            writer.old writer.new }
    {
        for v in 0..self.runner.nodes() {
            self.put_word(writer, lines, v);
        }
    }

    /// Writes its line.
    pub(crate) fn put_line<K: Sink, L: ShownLines>(&self, writer: &mut Writer<'_, K>, lines: &L)
        ensures { Writes K.told
            (shown_line (L.front lines.now) (L.word lines.now)
            (M.machine self.now.runner.now.machine) self.now.runner.now.script self.now.t)
            writer.old writer.new }
    {
        writer.labelled(lines.label(), self.t);
        self.put_words(writer, lines);
        writer.byte(b'\n');
    }
}
