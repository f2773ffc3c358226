ghost use Rattle.std.specs.Prelude.{◌≡◌, ◌||◌, IfOk};
ghost use Rattle.edge_io.specs.Feeds.{feed_left, IsDry};
ghost use Rattle.state_codec.specs.Shapes.{shape_of};
ghost use Rattle.node_words.specs.Fits.{IsFit};
ghost use Rattle.node_words.specs.HeaderParts.{read_by};
ghost use Rattle.node_words.specs.Headers.{plan_part};
ghost use Rattle.node_words.specs.FedHeaders.{HeaderFed, HasHeaderCause};
ghost use Rattle.node_words.specs.FedHeaders.{plan_failed, node_failed};

use crate::header_lines::{HeaderLines, NodeHeader};
use crate::plan_lines::PlanReader;
use edge_io::{FedError, Feed, LineBuf, Source, feed_part};
use plan_numbers::Plan;
use plan_reader::PlanLines;
use state_codec::StateShape;
use std::alloc::Global;
use std::fmt::Debug;
use sync_types::{NoMemory, Premise, Rule};
use texts::LONGEST_INPUT;
use thiserror::Error;

/// How many bytes a header may have.
const LONGEST_HEADER: u64 = LONGEST_INPUT as u64;

/// The line of a header that is refused, and why. Lines are counted from 1.
#[derive(Clone, Copy, Debug, PartialEq, Eq)]
pub enum HeaderRefusal<P> {
    /// A line of the plan, and the first premise that it fails.
    Plan { line: u64, premise: P },
    /// A line of the node part, and the first rule that it fails.
    Node { line: u64, rule: Rule },
}

/// Why no header was read.
#[derive(Clone, Copy, Debug, PartialEq, Eq, Error)]
#[error_bound(P: Debug)]
pub enum HeaderError<P> {
    /// A read failed, which the source has counted.
    #[error("a read failed")]
    ReadFault,
    /// The header is longer than 2^20 bytes.
    #[error("the header is too long")]
    TooLong,
    /// A line was refused.
    #[error("the header is refused: {0:?}")]
    Refused(HeaderRefusal<P>),
    /// Memory ran out.
    #[error("out of memory")]
    NoMemory,
}

/// The error of a plan part that was not read.
fn plan_failed<P>(error: FedError<P>) -> HeaderError<P>
    ensures { result ≡ plan_failed error }
{
    match error {
        FedError::ReadFault => HeaderError::ReadFault,
        FedError::TooLong => HeaderError::TooLong,
        FedError::Refused(at) => HeaderError::Refused(HeaderRefusal::Plan {
            line: at.line,
            premise: at.rule,
        }),
        FedError::NoMemory => HeaderError::NoMemory,
    }
}

/// The error of a node part that was not read.
fn node_failed<P>(error: FedError<Rule>) -> HeaderError<P>
    ensures { result ≡ node_failed error }
{
    match error {
        FedError::ReadFault => HeaderError::ReadFault,
        FedError::TooLong => HeaderError::TooLong,
        FedError::Refused(at) => HeaderError::Refused(HeaderRefusal::Node {
            line: at.line,
            rule: at.rule,
        }),
        FedError::NoMemory => HeaderError::NoMemory,
    }
}

impl<P> From<NoMemory> for HeaderError<P> {
    ghost use Rattle.node_words.specs.declared.headers.HeaderError.TheVariants as error;

    ghost from_gives = { λ _ e. e ≡ error.NoMemory };

    fn from(_: NoMemory) -> Self {
        HeaderError::NoMemory
    }
}

/// A header that was read.
#[derive(Drop)]
pub struct HeaderRead<P> {
    pub plan: P,
    /// The shape of the plan's states.
    pub shape: StateShape,
    pub header: NodeHeader,
    /// Whether the input ended with its last line.
    pub ended: bool,
}

/// Reads a plan, by a reader of its part, and then a node part from a feed of which no line was
/// read, and no byte after their last line. They may have 2^20 bytes. `form` is what a plan part
/// without an end fails.
///
/// `Refused` is the first line that fails, if it is shown within the limit; else `TooLong` comes.
/// `ReadFault` comes only if the source counted one fault and its end was not met, and `NoMemory`
/// if memory was refused. What decides is the last byte that was read, with which a line shows, or
/// the end; at `ReadFault` nothing does.
pub fn read_header_by<R: PlanReader, S: Source>(
    alloc: Global,
    feed: &mut Feed<'_, S>,
    line: &mut LineBuf,
    reader: R,
    form: R::Rule,
) -> Result<HeaderRead<R::Value>, HeaderError<R::Rule>>
where
    R::Value: Drop,
    requires { feed.old.line_bytes ≡ 0 }
    ensures same_reference { feed.new.source.ghost_name ≡ feed.old.source.ghost_name }
    ensures header { HeaderFed (read_by R.step reader form R.shape)
        (feed_left S.left feed.old) (feed_left S.left feed.new) result }
    ensures cause { HasHeaderCause (S.faults feed.old.source.now) (S.faults feed.new.source.now)
        (IsDry S.met feed.old feed.new) result }
    ensures met { IfOk result (λ x. S.met feed.new.source.now
        ≡ (x.ended || S.met feed.old.source.now)) }
    ensures shape { IfOk result (λ x. x.shape ≡ R.shape x.plan) }
    ensures fits { IfOk result (λ x. IsFit x.shape x.header) }
{
    let part = match feed_part(feed, line, reader, form, 1, LONGEST_HEADER) {
        Ok(part) => part,
        Err(error) => return Err(plan_failed(error)),
    };
    let plan = part.value;
    let first = 1 + part.lines;
    if part.ended {
        return Err(HeaderError::Refused(HeaderRefusal::Node {
            line: first,
            rule: Rule::Form,
        }));
    }
    let shape = R::shape_of(alloc, &plan)?;
    shape.facts();
    let node_lines = HeaderLines::new(alloc, &shape);
    let node = match feed_part(feed, line, node_lines, Rule::Form, first, LONGEST_HEADER) {
        Ok(node) => node,
        Err(error) => return Err(node_failed(error)),
    };
    Ok(HeaderRead {
        plan,
        shape,
        header: node.value,
        ended: node.ended,
    })
}

/// Reads the header of a plan of levels over blocks, as [`read_header_by`] does.
pub fn read_header<S: Source>(
    alloc: Global,
    feed: &mut Feed<'_, S>,
    line: &mut LineBuf,
) -> Result<HeaderRead<Plan>, HeaderError<Premise>>
    requires { feed.old.line_bytes ≡ 0 }
    ensures same_reference { feed.new.source.ghost_name ≡ feed.old.source.ghost_name }
    ensures header { HeaderFed plan_part
        (feed_left S.left feed.old) (feed_left S.left feed.new) result }
    ensures cause { HasHeaderCause (S.faults feed.old.source.now) (S.faults feed.new.source.now)
        (IsDry S.met feed.old feed.new) result }
    ensures met { IfOk result (λ x. S.met feed.new.source.now
        ≡ (x.ended || S.met feed.old.source.now)) }
    ensures shape { IfOk result (λ x. x.shape ≡ shape_of x.plan) }
    ensures fits { IfOk result (λ x. IsFit x.shape x.header) }
{
    read_header_by(alloc, feed, line, PlanLines::new(alloc), Premise::Form)
}
