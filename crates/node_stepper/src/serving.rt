use crate::faults::Amount;
use crate::{NodeEngine, NodeFault};
use edge_io::{Feed, ReadFault, Sink, Source, WriteFault, Writer};
use machines::Machine;

/// How many bytes a cell of a state has at most.
const LONGEST_CELL: usize = 130;

/// How many packets are answered at most.
const MOST_PACKETS: u64 = 1_000_000;

impl<M: Machine> NodeEngine<M> {
    ghost use Rattle.std.specs.Prelude.{◌≡◌, ◌≤◌, length, take};
    ghost use Rattle.edge_io.specs.Writing.{Writes};
    ghost use Rattle.state_codec.specs.Shapes.{bytes_in};
    ghost use Rattle.state_codec.specs.Writing.{written};
    ghost use Rattle.edge_io.specs.Feeds.{feed_left, IsDry};
    ghost use Rattle.node_stepper.specs.Nodes.{own, state_cell};
    ghost use Rattle.node_stepper.specs.Serving.{Serves, HasServeCause};

    /// Writes the bytes of its own state into `out`, which has just their length.
    pub fn write_state(&self, out: &mut [u8])
        requires { length out.old ≡ bytes_in ((M.machine self.now.counter).fields self.now.id) }
        ensures { out.new
            ≡ written ((M.machine self.now.counter).fields self.now.id) (own self.now) }
    {
        self.machine.write_state(self.id, self.state(), out);
    }

    /// Writes the cell of its own state at the beginning of `out`, and answers how many bytes it
    /// has: two more than the state.
    fn write_cell(&self, out: &mut [u8; LONGEST_CELL]) -> usize
        ensures cell { take result out.new
            ≡ state_cell (M.machine self.now.counter) self.now.id (own self.now) }
        ensures within { result ≤ length out.new }
    {
        let bytes = self.machine.bytes_of(self.id);
        out[0] = (bytes / 256) as u8;
        out[1] = (bytes % 256) as u8;
        self.machine
            .write_state(self.id, self.state(), &mut out[2..2 + bytes]);
        2 + bytes
    }

    /// Writes the cell of its own state.
    fn put_cell<K: Sink>(&self, writer: &mut Writer<'_, K>)
        ensures { Writes K.told (state_cell (M.machine self.now.counter) self.now.id (own self.now))
            writer.old writer.new }
    {
        let mut room = [0; LONGEST_CELL];
        let size = self.write_cell(&mut room);
        writer.text(&room[..size]);
    }

    /// Writes the cell of its state, and then hears packets, and writes the cell of its new state
    /// after each: the answer is how many these were. What was heard before is forgotten. Cells are
    /// held back while the feed's buffer holds a whole packet: each one is written before anything
    /// more is asked of the source, and before the answer.
    ///
    /// `Cut` comes if the input ends inside a packet, and `TooLong` at the first byte of packet
    /// 1,000,001. `ReadFault` and `WriteFault` come only if the source, or the sink, counted one
    /// fault, and the first only before that byte. After an error the node stands after the last
    /// whole packet, and has heard nobody since. It takes no memory.
    pub fn serve<S: Source, K: Sink>(
        &mut self,
        feed: &mut Feed<'_, S>,
        sink: &mut K,
    ) -> Result<u64, NodeFault>
        ensures same_reference { feed.new.source.ghost_name ≡ feed.old.source.ghost_name }
        ensures served { Serves M.machine self.old self.new
            (feed_left S.left feed.old) (feed_left S.left feed.new)
            (K.told sink.old) (K.told sink.new) result }
        ensures cause { HasServeCause (S.faults feed.old.source.now)
            (S.faults feed.new.source.now) (IsDry S.met feed.old feed.new) result }
    {
        self.forget();
        let mut writer = Writer::new(sink);
        self.put_cell(&mut writer);
        for packet in 0..MOST_PACKETS {
            match self.hear_packet(feed, &mut writer) {
                Ok(Amount::Whole) => {}
                Ok(Amount::Nothing) => return Ok(packet),
                Ok(Amount::Cut(sender)) => {
                    self.forget();
                    return Err(NodeFault::Cut { packet, sender });
                }
                Err(fault) => {
                    self.forget();
                    return Err(fault);
                }
            }
            self.packet();
            self.put_cell(&mut writer);
        }
        match writer.finish() {
            Ok(()) => {}
            Err(WriteFault) => return Err(NodeFault::WriteFault),
        }
        match feed.byte() {
            Ok(None) => Ok(MOST_PACKETS),
            Ok(Some(_)) => Err(NodeFault::TooLong),
            Err(ReadFault) => Err(NodeFault::ReadFault),
        }
    }
}
