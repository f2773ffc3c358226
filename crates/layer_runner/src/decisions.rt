ghost use Rattle.std.specs.Prelude.{◌≡◌, ◌≤◌};
ghost use Rattle.layer_laws.specs.Slots.{slot_length};

use crate::{Lines, slot_ends};
use consensus_layer::{Agreement, slot_length};
use edge_io::{RisingText, Sink, Writer};
use layer_laws::Play;

/// The lines of consensus: of each slot that counts and begins in a configuration that is shown,
/// the decisions where it ends.
#[derive(Clone, Copy, Debug, Drop)]
pub struct DecisionLines {
    length: u64,
    ghost some: { 1 ≤ length },
    ghost short: { length ≤ 1000 },
}

impl DecisionLines {
    /// The lines for slots of so many faults, which are at most 256.
    pub fn new(faults: u32) -> DecisionLines
        requires { faults ≤ 256 }
        ensures { result.length ≡ slot_length faults }
    {
        DecisionLines {
            length: slot_length(faults),
        }
    }
}

impl Lines<Agreement> for DecisionLines {
    ghost use Rattle.layer_runner.specs.DecisionTexts.{decision_wording};

    ghost wording = { λ l. decision_wording l.length };

    fn label(&self) -> &'static [u8] {
        b""
    }

    fn shows<P: Play<Agreement>>(&self, play: &P) -> bool {
        slot_ends(play, self.length)
    }

    fn put_front<K: Sink, P: Play<Agreement>>(
        &self,
        writer: &mut Writer<'_, K>,
        play: &P,
        _number: &RisingText,
    ) {
        writer.labelled(b"slot ", play.at() - self.length);
    }

    fn put_word<K: Sink, P: Play<Agreement>>(&self, writer: &mut Writer<'_, K>, play: &P, v: u32) {
        play.facts();
        writer.labelled(b" ", play.overlay().decision(v));
    }
}
