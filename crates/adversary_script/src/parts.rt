ghost use Rattle.std.specs.Prelude.{◌≡◌};
ghost use Rattle.adversary_script.specs.Scripts.{empty_script};
ghost use Rattle.adversary_script.specs.Seen.{script_seen};

use crate::lies::{CommonStart, Lie, Start};
use receiver_groups::Groups;
use std::alloc::Global;
use sync_types::FaultSet;

/// An era after the first: from a configuration on these nodes are faulty, and there some nodes are
/// put into states.
pub struct Era {
    pub first: u64,
    pub faulty: FaultSet,
    pub starts: Vec<Start>,
}

// Written out, so that code that drops one has a single call.
impl Drop for Era {
    fn drop(self) {
        let Era {
            first: _,
            faulty,
            starts,
        } = self;
        drop(faulty);
        drop(starts);
    }
}

/// What the lines of a script say, but for the nodes that are faulty at first.
pub struct Parts {
    pub version: u32,
    pub key: [u8; 32],
    pub common: CommonStart,
    pub starts: Vec<Start>,
    pub eras: Vec<Era>,
    pub groups: Groups,
    pub lies: Vec<Lie>,
    pub rounds: u64,
    pub first: u64,
    pub last: u64,
}

// Written out, so that code that drops one has a single call.
impl Drop for Parts {
    fn drop(self) {
        let Parts {
            version: _,
            key: _,
            common,
            starts,
            eras,
            groups,
            lies,
            rounds: _,
            first: _,
            last: _,
        } = self;
        drop(common);
        drop(starts);
        drop(eras);
        drop(groups);
        drop(lies);
    }
}

impl Parts {
    ghost use Rattle.std.specs.Prelude.{ℕ, []};
    ghost use Rattle.state_codec.specs.Shapes.{Shape};

    /// Parts that say nothing. They take no memory.
    pub fn none(alloc: Global) -> Parts
        ensures says { (shape : Shape) (nodes : ℕ)
            → script_seen shape (record { nodes = nodes; ids = [] }) result
            ≡ empty_script nodes shape }
        ensures eras { result.eras.items ≡ [] }
    {
        Parts {
            version: 1,
            key: [0; 32],
            common: CommonStart::Zero,
            starts: Vec::new(alloc),
            eras: Vec::new(alloc),
            groups: Groups::new(alloc),
            lies: Vec::new(alloc),
            rounds: 0,
            first: 0,
            last: 0,
        }
    }
}
