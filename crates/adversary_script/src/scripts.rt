ghost use Rattle.std.specs.Prelude.{◌≡◌, ◌≤◌};
ghost use Rattle.adversary_script.specs.Scripts.{IsScript, most_rounds};

use crate::links::Links;
use crate::parts::Parts;
use state_codec::StateShape;
use std::alloc::Global;
use std::marker::Model;
use sync_types::FaultSet;

/// A script: which nodes of a plan are faulty in which era, how all nodes start, what the faulty
/// ones tell in which rounds, how many rounds are played and which configurations are shown.
pub struct Script {
    pub(crate) shape: StateShape,
    pub(crate) faulty: FaultSet,
    pub(crate) parts: Parts,
    pub(crate) links: Links,
    pub(crate) alloc: Global,
}

// Written out, so that code that drops one has a single call.
impl Drop for Script {
    fn drop(self) {
        let Script {
            shape,
            faulty,
            parts,
            links,
            alloc,
        } = self;
        drop(shape);
        drop(faulty);
        drop(parts);
        drop(links);
        drop(alloc);
    }
}

impl Model for Script {
    ghost use Rattle.std.specs.Prelude.{◌≡◌, Some, length};
    ghost use Rattle.state_codec.specs.Shapes.{shape_nodes};
    ghost use Rattle.adversary_script.specs.Links.{IsLinked};
    ghost use Rattle.adversary_script.specs.Scripts.{Script as ScriptSaid, IsScript};
    ghost use Rattle.adversary_script.specs.Seen.{script_seen, IsOver};

    ghost Value = { ScriptSaid };

    ghost view = { λ s. script_seen s.shape s.faulty s.parts };

    ghost invariant = { λ s. IsScript (script_seen s.shape s.faulty s.parts)
        × IsOver s.faulty.nodes (Some s.faulty) s.parts × (shape_nodes s.shape ≡ s.faulty.nodes)
        × IsLinked s.faulty.nodes s.parts.lies.items s.links.firsts.items s.links.nexts.items };
}

impl Script {
    /// The version: 1, or 2 for a script that may have eras.
    pub fn version(&self) -> u32
        ensures { result ≡ self.now.version }
    {
        self.parts.version
    }

    /// The key of the noise.
    pub(crate) fn key(&self) -> [u8; 32]
        ensures { result ≡ self.now.key }
    {
        self.parts.key
    }

    /// Where what grows may take its memory from.
    pub(crate) fn alloc(&self) -> Global {
        self.alloc
    }

    /// The nodes that are faulty in era 0.
    pub fn faulty(&self) -> &FaultSet
        ensures { result.now ≡ record { nodes = self.now.nodes; ids = self.now.faulty } }
    {
        &self.faulty
    }

    /// How many rounds are played, at most 1,000,000. The configurations are 0 to that.
    pub fn rounds(&self) -> u64
        ensures value { result ≡ self.now.rounds }
        ensures few { result ≤ most_rounds }
        ensures script { IsScript self.now }
    {
        self.parts.rounds
    }

    /// The first and the last configuration that are shown.
    pub fn shown(&self) -> (u64, u64)
        ensures first { result.0 ≡ self.now.first }
        ensures last { result.1 ≡ self.now.last }
        ensures order { result.0 ≤ result.1 }
        ensures within { result.1 ≤ self.now.rounds }
    {
        (self.parts.first, self.parts.last)
    }
}
