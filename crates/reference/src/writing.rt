//! What is written of a script that is played.

use crate::constructions::Construction;
use crate::numbers::remainder;
use crate::runs::{Played, Run};
use crate::texts::Text;
use std::alloc::{AllocError, Global};

/// What was seen of a configuration: whether it is locked, and what its lowest correct node shows.
#[derive(Clone, Copy)]
struct Seen {
    is_locked: bool,
    output: u64,
}

/// What is seen of a configuration that is not reached.
const UNSEEN: Seen = Seen {
    is_locked: false,
    output: 1,
};

/// What was seen of the configurations of a run so far.
#[derive(Drop)]
struct Writing {
    seen: Vec<Seen>,
}

/// What the lowest node shows that is correct.
fn lowest<C: Construction>(run: &Run<C>) -> u64 {
    for node in 0..run.played.shape.numbers.nodes {
        if !run.is_faulty(node) {
            return run.output(node);
        }
    }
    0
}

/// Writes the words of the nodes of a run, and ends the line.
fn write_words<C: Construction>(out: &mut Text, run: &Run<C>) {
    for (node, state) in run.config.iter().enumerate() {
        let node = node as u64;
        if run.is_faulty(node) {
            out.word(" *");
        } else {
            let output = run.output(node);
            run.played.part.write_word(out, node, output, state.kept);
        }
    }
    out.word("\n");
}

impl Writing {
    /// Keeps what is seen of the configuration that a run is at.
    fn see<C: Construction>(&mut self, run: &Run<C>) {
        let seen = Seen {
            is_locked: run.is_locked(),
            output: lowest(run),
        };
        if let Some(place) = self.seen.get_mut(run.at as usize) {
            *place = seen;
        }
    }

    /// What was seen of configuration `at`.
    fn seen_at(&self, at: u64) -> Seen {
        self.seen.get(at as usize).copied().unwrap_or(UNSEEN)
    }

    /// Writes the first locked one of the configurations from `first` to before `end`, in a script
    /// of a version.
    fn write_era(&self, out: &mut Text, version: u64, first: u64, end: u64) {
        if version == 2 {
            out.put("era", &[first]);
            out.word(" ");
        }
        for at in first..end {
            if self.seen_at(at).is_locked {
                return out.line("locked", &[at]);
            }
        }
        out.word("locked none\n");
    }

    /// Writes the last lines of what is played: for each era its first locked configuration.
    fn write_locks<C>(&self, out: &mut Text, played: &Played<C>) {
        let version = played.script.version;
        let mut first = 0;
        for era in &played.script.eras {
            self.write_era(out, version, first, era.first);
            first = era.first;
        }
        self.write_era(out, version, first, self.seen.len() as u64);
    }

    /// Whether a line is written of a slot from configuration `at` to configuration `end`: it
    /// begins after the bound of its era, and ends in it.
    fn is_slot<C>(&self, played: &Played<C>, at: u64, end: u64) -> bool {
        let numbers = &played.shape.numbers;
        let first = played.script.era_at(at);
        let is_begun = remainder(self.seen_at(at).output, played.part.period(numbers)) == 0;
        let is_behind = first.wrapping_add(numbers.bound) < at;
        is_begun && is_behind && played.script.era_at(end) == first
    }

    /// Writes the line of the configuration that a run is at, if there is one: of a layer, if a
    /// slot ends.
    fn write_shown<C: Construction>(&self, out: &mut Text, run: &Run<C>) {
        let played = run.played;
        let numbers = &played.shape.numbers;
        let is_layer = played.part.is_layer();
        let rounds = if is_layer {
            played.part.period(numbers)
        } else {
            0
        };
        if let Some(at) = run.at.checked_sub(rounds) {
            let is_shown = played.script.first <= at && at <= played.script.last;
            if is_shown && (!is_layer || self.is_slot(played, at, run.at)) {
                let output = self.seen_at(at).output;
                played.part.write_front(out, numbers, at, output);
                write_words(out, run);
            }
        }
    }
}

/// What is written of a script that is played.
pub fn answer<C: Construction>(alloc: Global, played: &Played<C>) -> Result<String, AllocError> {
    let configurations = (played.script.rounds as usize).saturating_add(1);
    let mut writing = Writing {
        seen: vec![in alloc; UNSEEN; configurations]?,
    };
    let mut run = Run::begin(alloc, played)?;
    let mut text = String::new(alloc);
    let mut out = Text::behind(&mut text);
    out.line("bound", &[played.shape.numbers.bound]);
    writing.see(&run);
    writing.write_shown(&mut out, &run);
    for _ in 0..played.script.rounds {
        run.round();
        writing.see(&run);
        writing.write_shown(&mut out, &run);
    }
    writing.write_locks(&mut out, played);
    out.end()?;
    Ok(text)
}
