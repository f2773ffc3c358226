ghost use Rattle.edge_io.specs.Taking.{TakesAsDefined};
ghost use Rattle.replicated_log.specs.LogPart.{commands_in};

use crate::commands::Commands;
use consensus_layer::are_below;
use edge_io::{TakeError, all_numbers_after};
use std::alloc::Global;
use sync_types::Rule;

/// The most commands that a node may have.
const MOST_COMMANDS: usize = 16;

/// The commands of the line of the next node, before which so many have their line.
pub fn read_commands(
    alloc: Global,
    line: &[u8],
    values: u64,
    nodes: u32,
    before: usize,
) -> Result<Commands, TakeError<Rule>>
    ensures { TakesAsDefined result (commands_in values nodes before line.now) }
{
    if before >= nodes as usize {
        return Err(TakeError::Refused(Rule::Form));
    }
    let Some(numbers) = all_numbers_after(alloc, line, b"commands")? else {
        return Err(TakeError::Refused(Rule::Form));
    };
    if numbers.len() < 2 {
        return Err(TakeError::Refused(Rule::Form));
    }
    let commands = &numbers[1..];
    if commands.len() > MOST_COMMANDS {
        return Err(TakeError::Refused(Rule::Limit));
    }
    if numbers[0] != before as u64 {
        return Err(TakeError::Refused(Rule::Node));
    }
    if !are_below(values, commands) {
        return Err(TakeError::Refused(Rule::Range));
    }
    Ok(Commands::new(Vec::from_slice(alloc, commands)?))
}
