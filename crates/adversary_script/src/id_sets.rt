ghost use Rattle.std.specs.Prelude.{◌≡◌, ◌<◌, All, IfOk, true};
ghost use Rattle.adversary_script.specs.WordTests.{are_below, is_rising};
ghost use Rattle.adversary_script.specs.Answers.{Makes};

use edge_io::TakeError;
use std::alloc::Global;
use sync_types::{FaultSet, NoMemory, Rule};

/// The set of rising ids of nodes.
pub fn id_set(alloc: Global, nodes: u32, ids: &[u64]) -> Result<FaultSet, TakeError<Rule>>
    requires below { are_below nodes ids.now ≡ true }
    requires rising { is_rising ids.now ≡ true }
    ensures set { Makes (λ set. set ≡ record { nodes = nodes; ids = ids.now }) result }
    ensures below { IfOk result (λ set. All (λ id. id < nodes) set.ids) }
{
    let mut set = match FaultSet::new(alloc, nodes) {
        Ok(set) => set,
        Err(NoMemory) => return Err(TakeError::NoMemory),
    };
    for id in ids {
        set.push(*id as u32);
    }
    Ok(set)
}
