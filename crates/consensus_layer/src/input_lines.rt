ghost use Rattle.edge_io.specs.Taking.{TakesSeen};
ghost use Rattle.consensus_layer.specs.AgreePart.{inputs_in};

use crate::part_lines::are_below;
use edge_io::{TakeError, all_numbers_after};
use std::alloc::Global;
use sync_types::Rule;

/// The inputs of a line: one below the values for each node.
pub fn read_inputs(
    alloc: Global,
    line: &[u8],
    values: u64,
    nodes: u32,
) -> Result<Vec<u64>, TakeError<Rule>>
    ensures { TakesSeen (λ inputs. inputs.items) result (inputs_in values nodes line.now) }
{
    let Some(inputs) = all_numbers_after(alloc, line, b"inputs")? else {
        return Err(TakeError::Refused(Rule::Form));
    };
    if inputs.len() != nodes as usize {
        return Err(TakeError::Refused(Rule::Form));
    }
    if !are_below(values, &inputs) {
        return Err(TakeError::Refused(Rule::Range));
    }
    Ok(inputs)
}
