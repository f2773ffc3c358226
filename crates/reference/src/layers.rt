//! Layers above the counter, whose nodes have registers after those of the counter and keep
//! something beside, and slot tables.

use crate::agreement::agreed;
use crate::constructions::Layer;
use crate::numbers::{Numbers, quotient, remainder};
use crate::states::{LAYER, Register, State, state_of};
use crate::texts::Text;

/// A node has the numbers from the first to the last: outputs of its slots, or rounds of its
/// requests.
#[derive(Clone, Copy)]
pub struct Span {
    pub node: u64,
    pub first: u64,
    pub last: u64,
}

/// What is made of the outputs of the counter: nothing; who holds, by the slots; agreement on the
/// inputs of the nodes; firing on requests; or a log of which so many entries are kept, of the
/// commands of each node. Inputs and commands are below some number.
#[derive(Drop)]
pub enum Part {
    Rows,
    Slots(Vec<Span>),
    Agreement(u64, Vec<u64>),
    Firing(Vec<Span>),
    Log(u64, u64, Vec<Vec<u64>>),
}

/// What a node hears in round `at`, in which it shows an output: states of all nodes, its own among
/// them.
#[derive(Clone, Copy)]
pub struct Heard<'a> {
    pub at: u64,
    pub node: u64,
    pub output: u64,
    pub states: &'a [State],
}

/// Where a log has the register of the command of a node.
const COMMAND: usize = LAYER + 1;

/// Whether a span of a node has a number.
fn cover(spans: &[Span], node: u64, number: u64) -> bool {
    for span in spans {
        if span.node == node && span.first <= number && number <= span.last {
            return true;
        }
    }
    false
}

/// A register that was loaded.
fn loaded(value: u64) -> Register {
    Register {
        value: Some(value),
        mark: false,
    }
}

/// The node to whose entry an output belongs.
fn owner(numbers: &Numbers, output: u64) -> u64 {
    remainder(quotient(output, numbers.entry()), numbers.nodes)
}

/// What a node commands after an output.
fn command(numbers: &Numbers, commands: &[Vec<u64>], node: u64, output: u64) -> u64 {
    let next = remainder(output.wrapping_add(1), numbers.modulus);
    match commands.get(node as usize) {
        Some(own) => {
            let turn = remainder(quotient(next, numbers.turn()), own.len() as u64);
            own.get(turn as usize).copied().unwrap_or(0)
        }
        None => 0,
    }
}

impl Part {
    /// The registers that the part has.
    pub fn layer(&self) -> Layer {
        let (registers, values) = match self {
            Part::Rows | Part::Slots(_) => (0, 0),
            Part::Agreement(values, _) => (1, *values),
            Part::Firing(_) => (1, 2),
            Part::Log(values, _, _) => (2, *values),
        };
        Layer { registers, values }
    }

    /// Whether the nodes have registers of a layer.
    pub fn is_layer(&self) -> bool {
        self.layer().registers > 0
    }

    /// How many rounds belong to a slot.
    pub fn period(&self, numbers: &Numbers) -> u64 {
        match self {
            Part::Log(_, _, _) => numbers.entry(),
            _ => numbers.slot(),
        }
    }

    /// What is loaded into the register of agreement of a node in a round, if anything is: at the
    /// end of a slot an input, and at the beginning of an entry what its owner proposes.
    fn input(&self, numbers: &Numbers, heard: &Heard) -> Option<u64> {
        let place = remainder(heard.output, self.period(numbers));
        let is_last = place.wrapping_add(1) == self.period(numbers);
        match self {
            Part::Agreement(_, inputs) if is_last => inputs.get(heard.node as usize).copied(),
            Part::Firing(requests) if is_last => {
                Some(u64::from(cover(requests, heard.node, heard.at)))
            }
            Part::Log(_, _, _) if place == 0 => {
                let owner = state_of(heard.states, owner(numbers, heard.output));
                Some(owner.register(COMMAND).value.unwrap_or(0))
            }
            _ => None,
        }
    }

    /// The register of agreement of a node after a turn of a slot.
    fn result(&self, numbers: &Numbers, heard: &Heard) -> Register {
        let place = remainder(heard.output, self.period(numbers));
        let own = state_of(heard.states, heard.node).register(LAYER);
        let turn = match self {
            Part::Log(_, _, _) => place.wrapping_sub(1),
            _ => place,
        };
        agreed(own, heard.states, LAYER, numbers.faults, turn)
    }

    /// Puts a node's new registers of the layer into its state, and what it keeps now, after a
    /// round in which it hears this.
    pub fn step(&self, numbers: &Numbers, heard: &Heard, state: &mut State) {
        let result = self.result(numbers, heard);
        if remainder(heard.output.wrapping_add(1), self.period(numbers)) == 0 {
            state.kept = result.value.unwrap_or(0);
        } else if matches!(self, Part::Firing(_)) {
            state.kept = 0;
        }
        match self.input(numbers, heard) {
            Some(input) => state.put(LAYER, loaded(input)),
            None => state.put(LAYER, result),
        }
        if let Part::Log(_, _, commands) = self {
            let command = command(numbers, commands, heard.node, heard.output);
            state.put(COMMAND, loaded(command));
        }
    }

    /// Writes the beginning of a line of configuration `at`, in which the lowest correct node
    /// showed an output.
    pub fn write_front(&self, out: &mut Text, numbers: &Numbers, at: u64, output: u64) {
        let word = match self {
            Part::Rows => "row",
            Part::Slots(_) => "hold",
            Part::Agreement(_, _) => "slot",
            Part::Firing(_) => "fire",
            Part::Log(_, _, _) => "entry",
        };
        out.put(word, &[at]);
        if let Part::Log(_, _, _) = self {
            out.put(" owner", &[owner(numbers, output)]);
        }
    }

    /// Writes the word of a correct node, which shows an output and keeps something.
    pub fn write_word(&self, out: &mut Text, node: u64, output: u64, kept: u64) {
        let is_marked = match self {
            Part::Rows => return out.put("", &[output]),
            Part::Agreement(_, _) | Part::Log(_, _, _) => return out.put("", &[kept]),
            Part::Slots(slots) => cover(slots, node, output),
            Part::Firing(_) => kept == 1,
        };
        out.word(if is_marked { " 1" } else { " ." });
    }

    /// Writes the lines of the part, if it has any.
    pub fn write(&self, out: &mut Text) {
        match self {
            Part::Rows => return,
            Part::Slots(slots) => write_spans(out, "slots", "slot", slots),
            Part::Agreement(values, inputs) => {
                out.line("agree", &[1]);
                out.line("values", &[*values]);
                out.line("inputs", inputs);
            }
            Part::Firing(requests) => write_spans(out, "fire", "request", requests),
            Part::Log(values, keep, commands) => {
                out.line("log", &[1]);
                out.line("values", &[*values]);
                out.line("keep", &[*keep]);
                for (node, own) in commands.iter().enumerate() {
                    out.put("commands", &[node as u64]);
                    out.line("", own);
                }
            }
        }
        out.line("end", &[]);
    }
}

/// Writes the lines of a part of spans, each after a word.
fn write_spans(out: &mut Text, part: &str, word: &str, spans: &[Span]) {
    out.line(part, &[1]);
    for span in spans {
        out.line(word, &[span.node, span.first, span.last]);
    }
}
