ghost use Rattle.std.specs.Prelude.{◌≡◌, IfOk};
ghost use Rattle.node_words.specs.Fits.{IsFit};
ghost use Rattle.node_words.specs.Engines.{StandsFor};
ghost use Rattle.node_words.specs.Conduct.{NodeDoes, LeavesUnmet, LeavesUntouched};

use crate::errors::{NodeError, ended_by};
use crate::rules::put_header_refusal;
use crate::{Construction, HeaderError, HeaderRead};
use edge_io::{Feed, LineBuf, PlainSource, Sink, Source, WriteFault};
use node_stepper::NodeEngine;
use std::alloc::Global;
use sync_types::NoMemory;

/// The node of a header that was read, which has heard nobody.
fn engine_of<C: Construction>(
    alloc: Global,
    read: HeaderRead<C::Plan>,
) -> Result<NodeEngine<C::Counter>, NoMemory>
    requires shape { read.shape ≡ C.words.part.shape read.plan }
    requires fits { IsFit read.shape read.header }
    ensures { IfOk result (λ e. StandsFor C.Counter.machine (C.words.machine read.plan)
        read.header.id read.header.state e) }
{
    let HeaderRead {
        plan,
        shape,
        header,
        ended: _,
    } = read;
    let counter = C::counter(alloc, plan, shape)?;
    NodeEngine::of_machine(alloc, counter, header.id, header.state)
}

/// Reads a header, and then packets, and writes the node's cell at the start and after each whole
/// packet: the answer is how many these were. Each cell is written before more is asked of the
/// source.
///
/// `Refused` is the first line of the header that fails, and the line that says so was written.
/// `Cut` comes exactly if the input ends inside a packet, and `TooLong` if no line was refused
/// within the first 2^20 bytes and the header was not whole, or at the first byte of packet
/// 1,000,001. `ReadFault` comes only if the source counted one fault, after bytes that do not show
/// what decides, and `WriteFault` only if the sink counted one. `NoMemory` comes before the first
/// byte was written.
pub fn serve_node<C: Construction, S: Source, K: Sink>(
    alloc: Global,
    source: &mut S,
    sink: &mut K,
) -> Result<u64, NodeError<C::Premise>>
    ensures does { NodeDoes C.words result
        (S.left source.old) (S.left source.new) (S.faults source.old) (S.faults source.new)
        (K.told sink.old) (K.told sink.new) }
    ensures unmet { LeavesUnmet result (S.met source.old) (S.met source.new) }
    ensures untouched { LeavesUntouched result sink.old sink.new }
{
    let mut line = match LineBuf::new(alloc) {
        Ok(line) => line,
        Err(_) => return Err(NodeError::NoMemory),
    };
    let mut feed = Feed::new(source);
    let read = match C::read_header(alloc, &mut feed, &mut line) {
        Ok(read) => read,
        Err(HeaderError::ReadFault) => return Err(NodeError::ReadFault),
        Err(HeaderError::TooLong) => return Err(NodeError::TooLong),
        Err(HeaderError::NoMemory) => return Err(NodeError::NoMemory),
        Err(HeaderError::Refused(refusal)) => match put_header_refusal::<C, K>(sink, refusal) {
            Ok(()) => return Err(NodeError::Refused(refusal)),
            Err(WriteFault) => return Err(NodeError::WriteFault),
        },
    };
    let ended = read.ended;
    let mut engine = match engine_of::<C>(alloc, read) {
        Ok(engine) => engine,
        Err(NoMemory) => return Err(NodeError::NoMemory),
    };
    if ended {
        // The header's last line ended the input, and nothing more is asked of it.
        let mut nothing = PlainSource::new(&[]);
        let mut none = Feed::new(&mut nothing);
        return ended_by(engine.serve(&mut none, sink));
    }
    ended_by(engine.serve(&mut feed, sink))
}
