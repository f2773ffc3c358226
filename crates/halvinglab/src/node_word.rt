//! One node of the plan that is read, which is given packets.

ghost use Rattle.std.specs.Prelude.{◌≡◌, IfErr, IsErrOf};
ghost use Rattle.program_words.specs.declared.asked.Asked.TheVariants as asked;
ghost use Rattle.halvinglab.specs.Conduct.{KeptAt};
ghost use Rattle.halvinglab.specs.NodeWord.{ServesNode, error_of};
ghost use Rattle.halvinglab.specs.declared.requests.Request.TheVariants as request;

use crate::reasons::{LabError, LabReason};
use edge_io::{Sink, Source};
use halving_runs::RunRefusal;
use halving_texts::{HalvingNodes, LinePremise};
use node_words::{HeaderRefusal, NodeError, serve_node};
use program_words::ProgramError;
use std::alloc::Global;
use sync_types::Part;

/// The error of a node that did not answer all of its input.
fn error_of(error: NodeError<LinePremise>) -> LabError
    ensures { result ≡ error_of error }
{
    match error {
        NodeError::Refused(HeaderRefusal::Plan { line, premise }) => {
            ProgramError::Refused(LabReason::Input(RunRefusal::Plan { line, premise }))
        }
        NodeError::Refused(HeaderRefusal::Node { line, rule }) => {
            let part = Part::Node;
            ProgramError::Refused(LabReason::Input(RunRefusal::Part { part, line, rule }))
        }
        NodeError::ReadFault => ProgramError::ReadFault,
        NodeError::WriteFault => ProgramError::WriteFault,
        NodeError::TooLong => ProgramError::TooLong,
        NodeError::Cut { packet, sender } => {
            ProgramError::Refused(LabReason::Cut { packet, sender })
        }
        NodeError::NoMemory => ProgramError::NoMemory,
    }
}

/// Reads a header and then packets, and writes the node's cells.
pub fn node<S: Source, K: Sink>(alloc: Global, source: &mut S, sink: &mut K) -> Result<(), LabError>
    ensures does { ServesNode result
        (S.left source.old) (S.left source.new) (S.faults source.old) (S.faults source.new)
        (K.told sink.old) (K.told sink.new) }
    ensures untouched { IfErr result (KeptAt (asked.Request request.Node) sink.old sink.new) }
    // At `ReadFault` the end of the source was not met.
    ensures unmet { IsErrOf result ProgramError.ReadFault → S.met source.new ≡ S.met source.old }
{
    match serve_node::<HalvingNodes, S, K>(alloc, source, sink) {
        Ok(_) => Ok(()),
        Err(error) => Err(error_of(error)),
    }
}
