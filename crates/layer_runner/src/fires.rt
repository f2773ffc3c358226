ghost use Rattle.std.specs.Prelude.{◌≡◌, ◌≤◌};
ghost use Rattle.layer_laws.specs.Slots.{slot_length};

use crate::{Lines, slot_ends};
use consensus_layer::slot_length;
use edge_io::{RisingText, Sink, Writer};
use firing::Firing;
use layer_laws::Play;

/// The lines of firing: of each slot that counts and begins in a configuration that is shown, which
/// nodes fire where it ends.
#[derive(Clone, Copy, Debug, Drop)]
pub struct Fires {
    length: u64,
    ghost some: { 1 ≤ length },
    ghost short: { length ≤ 1000 },
}

impl Fires {
    ghost use Rattle.layer_runner.specs.LengthSeen.{fires_length};

    /// The lines for slots of so many faults, which are at most 256.
    pub fn new(faults: u32) -> Fires
        requires { faults ≤ 256 }
        ensures { fires_length result ≡ slot_length faults }
    {
        Fires {
            length: slot_length(faults),
        }
    }
}

impl Lines<Firing> for Fires {
    ghost use Rattle.layer_runner.specs.FireTexts.{fire_wording};

    ghost wording = { λ f. fire_wording f.length };

    fn label(&self) -> &'static [u8] {
        b""
    }

    fn shows<P: Play<Firing>>(&self, play: &P) -> bool {
        slot_ends(play, self.length)
    }

    fn put_front<K: Sink, P: Play<Firing>>(
        &self,
        writer: &mut Writer<'_, K>,
        play: &P,
        _number: &RisingText,
    ) {
        writer.labelled(b"fire ", play.at() - self.length);
    }

    fn put_word<K: Sink, P: Play<Firing>>(&self, writer: &mut Writer<'_, K>, play: &P, v: u32) {
        play.facts();
        if play.overlay().fired(v) {
            writer.text(b" 1");
        } else {
            writer.text(b" .");
        }
    }
}
