ghost use Rattle.std.specs.Prelude.{◌≡◌, ℕ, ◌-◌, ◌<◌, ◌≤◌, [], ◌∷◌, ◌++◌, length, false};
ghost use Rattle.std.specs.Prelude.{slice_index, slice_index_or, IfOk, IsTrue, ◌↔◌};
ghost use Rattle.sync_types.specs.FaultSets.{AreFaulty, is_in};

use crate::answers::NoMemory;
use std::alloc::Global;
use std::marker::Model;

/// The faulty nodes among so many: their ids in rising order.
#[derive(Debug)]
pub struct FaultSet {
    nodes: u32,
    ids: Vec<u32>,
    // Whether a node is faulty, by its id.
    marks: Vec<bool>,
}

// Written out, so that code that drops one has a single call.
impl Drop for FaultSet {
    fn drop(self) {
        let FaultSet {
            nodes: _,
            ids,
            marks,
        } = self;
        drop(ids);
        drop(marks);
    }
}

impl Model for FaultSet {
    ghost use Rattle.std.specs.Prelude.{vec_capacity};
    ghost use Rattle.sync_types.specs.FaultSets.{FaultIds, IsValidFaultSet};

    ghost Value = { FaultIds };

    ghost view = { λ s. record { nodes = s.nodes; ids = s.ids.items } };

    ghost invariant = { λ s. IsValidFaultSet s.nodes s.ids.items s.marks.items
        (vec_capacity s.ids) };
}

impl FaultSet {
    /// No faulty node among `nodes` nodes. It takes all the memory that the set ever needs.
    pub fn new(alloc: Global, nodes: u32) -> Result<FaultSet, NoMemory>
        ensures { IfOk result (λ set. set ≡ record { nodes = nodes; ids = [] }) }
    {
        let ids = Vec::with_capacity(alloc, nodes as usize)?;
        let marks = vec![in alloc; false; nodes as usize]?;
        Ok(FaultSet { nodes, ids, marks })
    }

    /// Adds the id of a node. It is above all ids so far, so it is enough that it is above the
    /// last.
    pub fn push(&mut self, id: u32)
        requires node { id < self.old.nodes }
        requires above { 0 < length self.old.ids
            → slice_index self.old.ids (length self.old.ids - 1) < id }
        ensures { self.new ≡ record self.old { ids = self.old.ids ++ id ∷ [] } }
    {
        self.ids.push(id).unwrap();
        self.marks[id as usize] = true;
    }

    /// Whether the node with this id is faulty.
    pub fn contains(&self, id: u32) -> bool
        ensures { result ≡ is_in self.now.ids id }
    {
        self.marks.get(id as usize).copied().unwrap_or(false)
    }

    /// How many nodes are faulty.
    pub fn len(&self) -> usize
        ensures exact { result ≡ length self.now.ids }
        ensures within { result ≤ self.now.nodes }
    {
        self.ids.len()
    }

    /// Whether no node is faulty.
    pub fn is_empty(&self) -> bool
        ensures { IsTrue result ↔ (self.now.ids ≡ []) }
    {
        self.ids.is_empty()
    }

    /// The id at place `i` in rising order.
    pub fn at(&self, i: usize) -> u32
        requires { i < length self.now.ids }
        ensures id { result ≡ slice_index self.now.ids i }
        ensures node { result < self.now.nodes }
    {
        self.ids[i]
    }

    /// Which nodes are faulty, by place: a mark for each node.
    pub fn marks(&self) -> &[bool]
        ensures size { length result.now ≡ self.now.nodes }
        ensures each { (v : ℕ) → slice_index_or result.now v false ≡ is_in self.now.ids v }
    {
        &self.marks
    }

    /// How many nodes there are, faulty or not.
    pub fn nodes(&self) -> u32
        ensures { result ≡ self.now.nodes }
    {
        self.nodes
    }

    /// Does nothing but tell that the ids rise and are those of nodes.
    pub fn facts(&self)
        ensures { AreFaulty self.now }
    {
        let _ids = &self.ids;
    }
}
