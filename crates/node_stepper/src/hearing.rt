use crate::faults::Amount;
use crate::{NodeEngine, NodeFault};
use edge_io::{Feed, ReadFault, Sink, Source, WriteFault, Writer, skip_bytes, take_bytes};
use machines::Machine;

/// How many bytes a state has at most.
const MOST_BYTES: usize = 128;

impl<M: Machine> NodeEngine<M> {
    ghost use Rattle.std.specs.Prelude.{◌≡◌, ◌<◌, ◌≤◌, ◌||◌, true, false, not, [], ◌∷◌, OnErr, IfOk};
    ghost use Rattle.texts.specs.Causes.{HasCause};
    ghost use Rattle.edge_io.specs.Feeds.{feed_left, IsDry};
    ghost use Rattle.node_stepper.specs.Hearing.{BodyFed, WholeCell, CellFed, FirstHeard};
    ghost use Rattle.node_stepper.specs.Hearing.{PacketHeard, CellsFed, HearsFrom, meets_end};
    ghost use Rattle.node_stepper.specs.Serving.{HasServeCause, PassesOn};

    /// Hears the bytes of a cell, of which there are to be so many. Bytes that are not exactly as
    /// many as a state of that node has are not kept.
    fn hear_body<S: Source>(
        &mut self,
        feed: &mut Feed<'_, S>,
        sender: u32,
        length: usize,
    ) -> Result<bool, ReadFault>
        requires { sender < (M.machine self.old.counter).nodes }
        ensures same_reference { feed.new.source.ghost_name ≡ feed.old.source.ghost_name }
        ensures body { BodyFed M.machine length sender self.old self.new
            (feed_left S.left feed.old) (feed_left S.left feed.new) result }
        ensures cause { HasCause (S.faults feed.old.source.now)
            (S.faults feed.new.source.now) result }
        ensures met { IfOk result (λ whole. S.met feed.new.source.now
            ≡ (not whole || S.met feed.old.source.now)) }
        ensures dry { OnErr result (IsDry S.met feed.old feed.new) }
    {
        if length != self.bytes_of(sender) {
            match skip_bytes(feed, length) {
                Ok(true) => {}
                Ok(false) => return Ok(false),
                Err(ReadFault) => return Err(ReadFault),
            }
            self.hear(sender, &[0; MOST_BYTES + 1]);
            return Ok(true);
        }
        let mut room = [0; MOST_BYTES + 8];
        match take_bytes(feed, &mut room[..length]) {
            Ok(true) => {}
            Ok(false) => return Ok(false),
            Err(ReadFault) => return Err(ReadFault),
        }
        self.hear_front(sender, &room);
        Ok(true)
    }

    /// Hears a cell whose first byte was read.
    fn hear_rest<S: Source>(
        &mut self,
        feed: &mut Feed<'_, S>,
        sender: u32,
        high: u8,
    ) -> Result<bool, ReadFault>
        requires { sender < (M.machine self.old.counter).nodes }
        ensures same_reference { feed.new.source.ghost_name ≡ feed.old.source.ghost_name }
        ensures cell { CellFed M.machine (high ∷ []) sender self.old self.new
            (feed_left S.left feed.old) (feed_left S.left feed.new) result }
        ensures cause { HasCause (S.faults feed.old.source.now)
            (S.faults feed.new.source.now) result }
        ensures met { IfOk result (λ whole. S.met feed.new.source.now
            ≡ (not whole || S.met feed.old.source.now)) }
        ensures dry { OnErr result (IsDry S.met feed.old feed.new) }
    {
        let low = match feed.byte() {
            Ok(Some(low)) => low,
            Ok(None) => return Ok(false),
            Err(ReadFault) => return Err(ReadFault),
        };
        self.hear_body(feed, sender, 256 * usize::from(high) + usize::from(low))
    }

    /// Hears the next cell where it stands, if it has exactly as many bytes as a state of that
    /// node, and these stand whole in the buffer with eight more bytes after them. Else nothing
    /// changes.
    // It is small, and called for each cell of each packet.
    #[inline(always)]
    fn hear_held<S: Source>(&mut self, feed: &mut Feed<'_, S>, sender: u32) -> bool
        requires { sender < (M.machine self.old.counter).nodes }
        ensures cell { result ≡ true → WholeCell M.machine [] sender self.old self.new
            (feed_left S.left feed.old) (feed_left S.left feed.new) }
        ensures none { result ≡ false → (self.new ≡ self.old) × (feed.new ≡ feed.old) }
        ensures source { feed.new.source ≡ feed.old.source }
    {
        let size = self.bytes_of(sender);
        let held = feed.held();
        if held.len() < size + 10 {
            return false;
        }
        if 256 * usize::from(held[0]) + usize::from(held[1]) != size {
            return false;
        }
        self.hear_front(sender, &held[2..]);
        feed.pass(2 + size);
        true
    }

    /// Hears the next cell: true if it was whole.
    // As above: the loop over a packet's cells has no other call.
    #[inline(always)]
    fn hear_cell<S: Source>(
        &mut self,
        feed: &mut Feed<'_, S>,
        sender: u32,
    ) -> Result<bool, ReadFault>
        requires { sender < (M.machine self.old.counter).nodes }
        ensures same_reference { feed.new.source.ghost_name ≡ feed.old.source.ghost_name }
        ensures cell { CellFed M.machine [] sender self.old self.new
            (feed_left S.left feed.old) (feed_left S.left feed.new) result }
        ensures cause { HasCause (S.faults feed.old.source.now)
            (S.faults feed.new.source.now) result }
        ensures met { IfOk result (λ whole. S.met feed.new.source.now
            ≡ (not whole || S.met feed.old.source.now)) }
        ensures dry { OnErr result (IsDry S.met feed.old feed.new) }
    {
        if self.hear_held(feed, sender) {
            return Ok(true);
        }
        let high = match feed.byte() {
            Ok(Some(high)) => high,
            Ok(None) => return Ok(false),
            Err(ReadFault) => return Err(ReadFault),
        };
        self.hear_rest(feed, sender, high)
    }

    /// Hears the first cell of a packet.
    fn hear_first<S: Source>(&mut self, feed: &mut Feed<'_, S>) -> Result<Amount, ReadFault>
        requires { 0 < (M.machine self.old.counter).nodes }
        ensures same_reference { feed.new.source.ghost_name ≡ feed.old.source.ghost_name }
        ensures first { FirstHeard M.machine self.old self.new
            (feed_left S.left feed.old) (feed_left S.left feed.new) result }
        ensures cause { HasCause (S.faults feed.old.source.now)
            (S.faults feed.new.source.now) result }
        ensures met { IfOk result (λ amount. S.met feed.new.source.now
            ≡ (meets_end amount || S.met feed.old.source.now)) }
        ensures dry { OnErr result (IsDry S.met feed.old feed.new) }
    {
        if self.hear_held(feed, 0) {
            return Ok(Amount::Whole);
        }
        let high = match feed.byte() {
            Ok(Some(high)) => high,
            Ok(None) => return Ok(Amount::Nothing),
            Err(ReadFault) => return Err(ReadFault),
        };
        match self.hear_rest(feed, 0, high) {
            Ok(true) => Ok(Amount::Whole),
            Ok(false) => Ok(Amount::Cut(0)),
            Err(ReadFault) => Err(ReadFault),
        }
    }

    /// Hears the first cells of a packet, as many as stand whole in the buffer, and answers how
    /// many these were. Nothing is asked of the source.
    fn hear_held_cells<S: Source>(&mut self, feed: &mut Feed<'_, S>) -> u32
        ensures source { feed.new.source ≡ feed.old.source }
        ensures cells { CellsFed M.machine self.old self.new
            (feed_left S.left feed.old) (feed_left S.left feed.new) result }
    {
        let nodes = self.nodes();
        for sender in 0..nodes {
            if !self.hear_held(feed, sender) {
                return sender;
            }
        }
        nodes
    }

    /// Hears the cells of a packet from that of a node on, which is not the first.
    fn hear_cells_from<S: Source>(
        &mut self,
        feed: &mut Feed<'_, S>,
        first: u32,
    ) -> Result<Amount, ReadFault>
        requires some { 0 < first }
        requires within { first ≤ (M.machine self.old.counter).nodes }
        ensures same_reference { feed.new.source.ghost_name ≡ feed.old.source.ghost_name }
        ensures packet { HearsFrom M.machine self.old self.new
            (feed_left S.left feed.old) (feed_left S.left feed.new) first result }
        ensures cause { HasCause (S.faults feed.old.source.now)
            (S.faults feed.new.source.now) result }
        ensures met { IfOk result (λ amount. S.met feed.new.source.now
            ≡ (meets_end amount || S.met feed.old.source.now)) }
        ensures dry { OnErr result (IsDry S.met feed.old feed.new) }
    {
        let nodes = self.nodes();
        for sender in first..nodes {
            match self.hear_cell(feed, sender) {
                Ok(true) => {}
                Ok(false) => return Ok(Amount::Cut(sender)),
                Err(ReadFault) => return Err(ReadFault),
            }
        }
        Ok(Amount::Whole)
    }

    /// Hears the cells of a packet behind the first ones, which were heard.
    fn hear_rest_of_packet<S: Source>(
        &mut self,
        feed: &mut Feed<'_, S>,
        heard: u32,
    ) -> Result<Amount, ReadFault>
        requires { heard < (M.machine self.old.counter).nodes }
        ensures same_reference { feed.new.source.ghost_name ≡ feed.old.source.ghost_name }
        ensures packet { HearsFrom M.machine self.old self.new
            (feed_left S.left feed.old) (feed_left S.left feed.new) heard result }
        ensures cause { HasCause (S.faults feed.old.source.now)
            (S.faults feed.new.source.now) result }
        ensures met { IfOk result (λ amount. S.met feed.new.source.now
            ≡ (meets_end amount || S.met feed.old.source.now)) }
        ensures dry { OnErr result (IsDry S.met feed.old feed.new) }
    {
        if heard > 0 {
            return self.hear_cells_from(feed, heard);
        }
        match self.hear_first(feed) {
            Ok(Amount::Whole) => self.hear_cells_from(feed, 1),
            Ok(less) => Ok(less),
            Err(ReadFault) => Err(ReadFault),
        }
    }

    /// Hears the cells of a packet. If they do not all stand in the buffer, the writer passes on
    /// what it holds before anything is asked of the source; if a write failed, nothing is.
    pub(crate) fn hear_packet<S: Source, K: Sink>(
        &mut self,
        feed: &mut Feed<'_, S>,
        writer: &mut Writer<'_, K>,
    ) -> Result<Amount, NodeFault>
        ensures same_reference { feed.new.source.ghost_name ≡ feed.old.source.ghost_name }
        ensures node { self.old.id < (M.machine self.old.counter).nodes }
        ensures packet { PacketHeard M.machine self.old self.new
            (feed_left S.left feed.old) (feed_left S.left feed.new) result }
        ensures cause { HasServeCause (S.faults feed.old.source.now)
            (S.faults feed.new.source.now) (IsDry S.met feed.old feed.new) result }
        ensures met { IfOk result (λ amount. S.met feed.new.source.now
            ≡ (meets_end amount || S.met feed.old.source.now)) }
        ensures passes_on { PassesOn K.told (feed.new.source ≡ feed.old.source) result
            writer.old writer.new }
    {
        let heard = self.hear_held_cells(feed);
        if heard == self.nodes() {
            return Ok(Amount::Whole);
        }
        match writer.finish() {
            Ok(()) => {}
            Err(WriteFault) => return Err(NodeFault::WriteFault),
        }
        match self.hear_rest_of_packet(feed, heard) {
            Ok(amount) => Ok(amount),
            Err(ReadFault) => Err(NodeFault::ReadFault),
        }
    }
}
