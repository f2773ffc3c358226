ghost use Rattle.std.specs.Prelude.{◌≡◌, ◌++◌, ◌∷◌, [], None, OnOk, OnErr, IsTrue, ◌↔◌, length, slice_get};
ghost use Rattle.receiver_groups.specs.Groups.{group_at, in_group};

use indexmap::IndexMap;
use std::alloc::{AllocError, Global};
use std::marker::Model;
use sync_types::FaultSet;

/// Named sets of nodes, each at its place. No two have one name.
pub struct Groups {
    alloc: Global,
    sets: IndexMap<Vec<u8>, FaultSet>,
}

// Written out, so that code that drops one has a single call.
impl Drop for Groups {
    fn drop(self) {
        let Groups { alloc, sets } = self;
        drop(alloc);
        drop(sets);
    }
}

impl Model for Groups {
    ghost use Rattle.std.specs.Prelude.{List, map};
    ghost use Rattle.receiver_groups.specs.Groups.{Group};
    ghost use Rattle.receiver_groups.specs.Seen.{group_seen};

    ghost Value = { List Group };

    ghost view = { λ g. map group_seen g.sets.entries };
}

impl Groups {
    /// No groups. They take no memory.
    pub fn new(alloc: Global) -> Groups
        ensures { result ≡ [] }
    {
        Groups {
            alloc,
            sets: IndexMap::new(alloc),
        }
    }

    /// How many groups there are.
    pub fn len(&self) -> usize
        ensures { result ≡ length self.now }
    {
        self.sets.len()
    }

    /// Whether there are no groups.
    pub fn is_empty(&self) -> bool
        ensures { IsTrue result ↔ (self.now ≡ []) }
    {
        self.sets.is_empty()
    }

    /// The place of the group of a name, counted from 0.
    pub fn place_of(&self, name: &[u8]) -> Option<usize>
        ensures { result ≡ group_at self.now name.now }
    {
        self.sets.get_index_of(name)
    }

    /// Adds a group of a new name behind the others. If memory is refused, nothing is added.
    pub fn add(&mut self, name: &[u8], ids: FaultSet) -> Result<(), AllocError>
        requires { group_at self.old name.now ≡ None }
        ensures added { OnOk result
            (self.new ≡ self.old ++ record { name = name.now; ids = ids.ids } ∷ []) }
        ensures unchanged { OnErr result (self.new ≡ self.old) }
    {
        let name = Vec::from_slice(self.alloc, name)?;
        self.sets.insert(name, ids)?;
        Ok(())
    }

    /// Whether a node is in the group at a place. At a place past the last group nobody is.
    pub fn contains(&self, place: usize, id: u32) -> bool
        ensures { result ≡ in_group (slice_get self.now place) id }
    {
        match self.sets.get_index(place) {
            Some((_, ids)) => ids.contains(id),
            None => false,
        }
    }
}
