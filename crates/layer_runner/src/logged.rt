ghost use Rattle.std.specs.Prelude.{◌≡◌, ◌*◌, ◌%◌, ◌<◌, ◌≤◌, ◌^◌};
ghost use Rattle.edge_io.specs.Writing.{Writes};
ghost use Rattle.replicated_log.specs.EntryLength.{entry_length};
ghost use Rattle.replicated_log.specs.Logs.{log_in};
ghost use Rattle.replicated_log.specs.LogsSeen.{layer_seen, logs_seen};
ghost use Rattle.layer_runner.specs.EntryTexts.{newest_value, output_before, entry_front};

use crate::{Lines, lead_output, slot_ends};
use edge_io::{RisingText, Sink, Writer};
use layer_laws::{CounterNumbers, Play};
use replicated_log::{Replica, entry_length, owner_at};

/// The lines of a log: of each slot that counts and begins in a configuration that is shown, its
/// owner and the newest values in the logs where it ends.
#[derive(Clone, Copy, Debug, Drop)]
pub struct Logged {
    nodes: u32,
    faults: u32,
    modulus: u64,
    ghost some: { 0 < nodes },
    ghost few: { faults ≤ 85 },
    ghost room: { entry_length faults ≤ modulus },
    ghost most: { modulus ≤ 2 ^ 40 },
}

/// The output that came so many rounds before this one.
fn output_before(modulus: u64, rounds: u64, output: u64) -> u64
    requires modulus { modulus ≤ 2 ^ 40 }
    requires rounds { rounds ≤ modulus }
    ensures { result ≡ output_before modulus rounds output }
{
    if output < rounds {
        output + modulus - rounds
    } else {
        output - rounds
    }
}

/// The value of the newest entry in the log of node `v`, 0 if there is none.
fn newest_value(replica: &Replica, v: u32) -> u64
    requires { v < (layer_seen replica.now).nodes }
    ensures { result ≡ newest_value (log_in (logs_seen replica.now) v) }
{
    if replica.entries(v) == 0 {
        0
    } else {
        replica.entry(v, 0).value
    }
}

/// Writes the front of the line of a slot that begins in configuration `t` and is of this owner.
fn put_slot<K: Sink>(writer: &mut Writer<'_, K>, t: u64, owner: u32)
    ensures { Writes K.told (entry_front t owner) writer.old writer.new }
{
    writer.labelled(b"entry ", t);
    writer.labelled(b" owner ", u64::from(owner));
}

impl Logged {
    ghost use Rattle.layer_runner.specs.LengthSeen.{IsLoggedFor};

    /// The lines of a log over a counter with these numbers, whose modulus is a multiple of an
    /// entry of each node.
    pub fn new(numbers: &CounterNumbers) -> Logged
        requires { numbers.now.modulus % (numbers.now.nodes * entry_length numbers.now.faults) ≡ 0 }
        ensures { IsLoggedFor numbers.now result }
    {
        numbers.facts();
        Logged {
            nodes: numbers.nodes(),
            faults: numbers.faults(),
            modulus: numbers.modulus(),
        }
    }
}

impl Lines<Replica> for Logged {
    ghost use Rattle.layer_runner.specs.EntryTexts.{entry_wording};

    ghost wording = { λ l. entry_wording l.nodes l.faults l.modulus };

    fn label(&self) -> &'static [u8] {
        b""
    }

    fn shows<P: Play<Replica>>(&self, play: &P) -> bool {
        slot_ends(play, entry_length(self.faults))
    }

    fn put_front<K: Sink, P: Play<Replica>>(
        &self,
        writer: &mut Writer<'_, K>,
        play: &P,
        _number: &RisingText,
    ) {
        let length = entry_length(self.faults);
        let output = output_before(self.modulus, length, lead_output(play));
        let owner = owner_at(self.nodes, self.faults, output);
        put_slot(writer, play.at() - length, owner);
    }

    fn put_word<K: Sink, P: Play<Replica>>(&self, writer: &mut Writer<'_, K>, play: &P, v: u32) {
        play.facts();
        let value = newest_value(play.overlay(), v);
        writer.labelled(b" ", value);
    }
}
