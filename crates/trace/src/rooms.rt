//! Room for what is counted.

ghost use Rattle.std.specs.Prelude.{◌≤◌};
ghost use Rattle.counter_core.specs.Working.{IsWorkFor};

use counter_core::Work;
use majority_votes::Tally;
use std::alloc::Global;
use sync_types::NoMemory;

/// How many nodes a plan has, at most.
const NODES: u32 = 256;

/// Room for the values of the nodes of any plan.
#[derive(Drop)]
pub struct ValueRoom {
    /// The values that are counted.
    pub values: Tally,
    ghost room: { 256 ≤ values.capacity },
}

impl ValueRoom {
    /// It takes all the memory that it ever needs.
    pub fn new(alloc: Global) -> Result<ValueRoom, NoMemory> {
        let values = Tally::new(alloc, NODES as usize).map_err(|_| NoMemory)?;
        Ok(ValueRoom { values })
    }
}

/// Room for the votes and counts of the groups of any plan.
#[derive(Drop)]
pub struct VoteRoom {
    /// What is shown, what is voted and the values that are counted.
    pub work: Work,
    ghost room: { IsWorkFor 256 work },
}

impl VoteRoom {
    /// It takes all the memory that it ever needs.
    pub fn new(alloc: Global) -> Result<VoteRoom, NoMemory> {
        let work = Work::new(alloc, NODES)?;
        Ok(VoteRoom { work })
    }
}
