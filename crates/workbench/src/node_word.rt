//! The word `node`: a node of a plan, which reads a header and packets, and writes its cells.

ghost use Rattle.std.specs.Prelude.{◌≡◌, Some};
ghost use Rattle.outcomes.specs.NodeAnswers.{node_status};
ghost use Rattle.outcomes.specs.Conduct.{Does, LeavesUnmet, LeavesUntouched};

use crate::plan_nodes::PlanNodes;
use edge_io::{Sink, Source};
use node_words::{HeaderRefusal, NodeError, serve_node};
use outcomes::Command;
use std::alloc::Global;
use sync_types::{Part, Premise, Status};

/// The status of a call that ended so.
fn node_status(ended: Result<u64, NodeError<Premise>>) -> Status
    ensures { result ≡ node_status ended }
{
    match ended {
        Ok(_) => Status::Ok,
        Err(NodeError::Refused(HeaderRefusal::Plan { line, premise })) => {
            Status::PlanRefused { line, premise }
        }
        Err(NodeError::Refused(HeaderRefusal::Node { line, rule })) => Status::PartRefused {
            part: Part::Node,
            line,
            rule,
        },
        Err(NodeError::ReadFault) => Status::ReadFault,
        Err(NodeError::WriteFault) => Status::WriteFault,
        Err(NodeError::TooLong) => Status::TooLong,
        Err(NodeError::Cut { packet, sender }) => Status::Cut { packet, sender },
        Err(NodeError::NoMemory) => Status::NoMemory,
    }
}

/// The word `node`.
pub fn node<S: Source, K: Sink>(alloc: Global, source: &mut S, sink: &mut K) -> Status
    ensures does { Does (Some Command.Node) result
        (S.left source.old) (S.left source.new) (S.faults source.old) (S.faults source.new)
        (K.told sink.old) (K.told sink.new) }
    ensures unmet { LeavesUnmet result (S.met source.old) (S.met source.new) }
    ensures untouched { LeavesUntouched (Some Command.Node) result sink.old sink.new }
{
    node_status(serve_node::<PlanNodes, S, K>(alloc, source, sink))
}
