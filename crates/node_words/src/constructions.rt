ghost use Rattle.std.specs.Prelude.{◌≡◌, ◌||◌, IfOk};
ghost use Rattle.texts.specs.Growth.{Puts};
ghost use Rattle.edge_io.specs.Feeds.{feed_left, IsDry};
ghost use Rattle.node_words.specs.Fits.{IsFit};
ghost use Rattle.node_words.specs.FedHeaders.{HeaderFed, HasHeaderCause};
ghost use Rattle.node_words.specs.Constructions.{IsShaped};

use crate::{HeaderError, HeaderRead};
use edge_io::{Feed, LineBuf, Sink, Source, WriteFault};
use machines::Machine;
use state_codec::StateShape;
use std::alloc::Global;
use sync_types::NoMemory;

/// A construction of counters whose nodes can be served.
pub trait Construction {
    /// What reads the part of a plan.
    type Reader;

    /// A plan.
    type Plan: Drop;

    /// Why a line of a plan is refused.
    type Premise: Copy;

    /// The machine of a plan.
    type Counter: Machine;

    ghost use Rattle.node_words.specs.Constructions.{Words};

    // How a plan is read, which machine it is, and the line that refuses a line of it.
    ghost words: { Words Self.Reader Self.Plan Self.Premise };

    /// Reads a header from a feed of which no line was read, and no byte after its last line. It
    /// may have 2^20 bytes.
    fn read_header<S: Source>(
        alloc: Global,
        feed: &mut Feed<'_, S>,
        line: &mut LineBuf,
    ) -> Result<HeaderRead<Self::Plan>, HeaderError<Self::Premise>>
        requires { feed.old.line_bytes ≡ 0 }
        ensures same_reference { feed.new.source.ghost_name ≡ feed.old.source.ghost_name }
        ensures header { HeaderFed words.part
            (feed_left S.left feed.old) (feed_left S.left feed.new) result }
        ensures cause { HasHeaderCause (S.faults feed.old.source.now) (S.faults feed.new.source.now)
            (IsDry S.met feed.old feed.new) result }
        ensures met { IfOk result (λ x. S.met feed.new.source.now
            ≡ (x.ended || S.met feed.old.source.now)) }
        ensures shape { IfOk result (λ x. x.shape ≡ words.part.shape x.plan) }
        ensures fits { IfOk result (λ x. IsFit x.shape x.header) };

    /// The machine of a plan whose shape was made. The only error is want of memory.
    fn counter(
        alloc: Global,
        plan: Self::Plan,
        shape: StateShape,
    ) -> Result<Self::Counter, NoMemory>
        requires { shape ≡ words.part.shape plan }
        ensures machine { IfOk result (λ c. Self.Counter.machine c ≡ words.machine plan) }
        ensures shaped { IfOk result (λ _. IsShaped words plan) };

    /// Writes the line that refuses a line of the plan.
    fn put_refusal<K: Sink>(
        sink: &mut K,
        line: u64,
        premise: Self::Premise,
    ) -> Result<(), WriteFault>
        ensures { Puts result (words.refusal line premise) (K.told sink.old) (K.told sink.new) };
}
