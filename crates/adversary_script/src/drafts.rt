ghost use Rattle.std.specs.Prelude.{◌≡◌, ◌<◌, ◌≤◌, ◌++◌, ◌∷◌, [], None, IfOk, length, map};
ghost use Rattle.std.specs.List.{list_any};
ghost use Rattle.sync_types.specs.FaultSets.{is_in};
ghost use Rattle.state_codec.specs.Shapes.{fields_at, shape_nodes};
ghost use Rattle.state_codec.specs.Ranges.{InRange};
ghost use Rattle.adversary_script.specs.Scripts.{IsLying, AreWithin, empty_script, most_rounds};
ghost use Rattle.adversary_script.specs.Seen.{faulty_or_none};
ghost use Rattle.adversary_script.specs.LieSteps.{group_at};
ghost use Rattle.adversary_script.specs.FaultySteps.{last_era, last_first, with_era};
ghost use Rattle.adversary_script.specs.StartSteps.{started};

use crate::lies::{CommonStart, Lie, Start};
use crate::links::link;
use crate::parts::{Era, Parts};
use crate::scripts::Script;
use state_codec::StateShape;
use std::alloc::{AllocError, AllocFailed, Global};
use std::marker::Model;
use std::mem;
use sync_types::{FaultSet, NoMemory};

/// What a script said so far.
pub struct Draft<'a> {
    alloc: Global,
    shape: &'a StateShape,
    faulty: Option<FaultSet>,
    parts: Parts,
}

// Written out, so that code that drops one has a single call.
impl<'a> Drop for Draft<'a> {
    fn drop(self) {
        let Draft {
            alloc,
            shape,
            faulty,
            parts,
        } = self;
        drop(alloc);
        drop(shape);
        drop(faulty);
        drop(parts);
    }
}

impl<'a> Model for Draft<'a> {
    ghost use Rattle.state_codec.specs.Shapes.{shape_nodes};
    ghost use Rattle.adversary_script.specs.Scripts.{Script as ScriptSaid, IsFormed};
    ghost use Rattle.adversary_script.specs.Seen.{script_seen, faulty_or_none, IsOver};

    ghost Value = { ScriptSaid };

    ghost view = { λ d.
        script_seen d.shape.now (faulty_or_none (shape_nodes d.shape.now) d.faulty) d.parts };

    ghost invariant = { λ d.
        IsFormed (script_seen d.shape.now (faulty_or_none (shape_nodes d.shape.now) d.faulty)
        d.parts) × IsOver (shape_nodes d.shape.now) d.faulty d.parts };
}

impl<'a> Draft<'a> {
    /// A script that says nothing yet.
    pub fn new(alloc: Global, shape: &'a StateShape) -> Draft<'a>
        ensures { result ≡ empty_script (shape_nodes shape.now) shape.now }
    {
        Draft {
            alloc,
            shape,
            faulty: None,
            parts: Parts::none(alloc),
        }
    }

    /// Gives away what was said.
    pub fn finish(&mut self) -> Result<Script, NoMemory>
        requires { AreWithin self.old }
        ensures { IfOk result (λ script. script ≡ self.old) }
    {
        let nodes = self.shape.nodes();
        let shape = self.shape.try_clone(self.alloc)?;
        let links = link(self.alloc, nodes, &self.parts.lies)?;
        let parts = mem::replace(&mut self.parts, Parts::none(self.alloc));
        let faulty = faulty_or_none(self.alloc, nodes, self.faulty.take())?;
        Ok(Script {
            shape,
            faulty,
            parts,
            links,
            alloc: self.alloc,
        })
    }

    /// Says of which version the script is.
    pub fn set_version(&mut self, version: u32)
        ensures { self.new ≡ record self.old { version = version } }
    {
        self.parts.version = version;
    }

    /// Says which nodes are faulty at first.
    pub fn set_faulty(&mut self, faulty: FaultSet)
        requires { faulty.nodes ≡ self.old.nodes }
        ensures { self.new ≡ record self.old { faulty = faulty.ids } }
    {
        faulty.facts();
        drop(self.faulty.replace(faulty));
    }

    /// Says the key of the noise.
    pub fn set_key(&mut self, key: [u8; 32])
        ensures { self.new ≡ record self.old { key = key } }
    {
        self.parts.key = key;
    }

    /// Says how the nodes start that have no start line of their own.
    pub fn set_common(&mut self, common: CommonStart)
        ensures { self.new ≡ record self.old { common = common } }
    {
        self.parts.common = common;
    }

    /// Adds the start of a node, in the last era that was said.
    pub fn add_start(&mut self, start: Start) -> Result<(), AllocFailed<Start>>
        requires { InRange (fields_at self.old.shape start.node) start.state }
        ensures { IfOk result (λ _. self.new ≡ started self.old (last_era self.old.eras) start) }
    {
        let count = self.parts.eras.len();
        if count == 0 {
            return self.parts.starts.push(start);
        }
        self.parts.eras[count - 1].starts.push(start)
    }

    /// Adds an era, which begins above the last one.
    pub fn add_era(&mut self, first: u64, faulty: FaultSet) -> Result<(), AllocFailed<Era>>
        requires many { length self.old.eras < 16 }
        requires above { last_first self.old < first }
        requires nodes { faulty.nodes ≡ self.old.nodes }
        ensures { IfOk result (λ _. self.new ≡ with_era self.old first faulty.ids) }
    {
        faulty.facts();
        self.parts.eras.push(Era {
            first,
            faulty,
            starts: Vec::new(self.alloc),
        })
    }

    /// Adds a group of a new name after the others.
    pub fn add_group(&mut self, name: &[u8], ids: FaultSet) -> Result<(), AllocError>
        requires { group_at self.old.groups name.now ≡ None }
        ensures { IfOk result
            (λ _. self.new
            ≡ record self.old
            { groups = self.old.groups ++ record { name = name.now; ids = ids.ids } ∷ [] }) }
    {
        self.parts.groups.add(name, ids)
    }

    /// Adds a rule of lies.
    pub fn add_lie(&mut self, lie: Lie) -> Result<(), AllocFailed<Lie>>
        requires sender { lie.sender < self.old.nodes }
        requires what { IsLying self.old.nodes (fields_at self.old.shape lie.sender) lie.what }
        ensures { IfOk result
            (λ _. self.new ≡ record self.old { lies = self.old.lies ++ lie ∷ [] }) }
    {
        self.parts.lies.push(lie)
    }

    /// Says how many rounds are played. What is shown of them is still to be said.
    pub fn set_rounds(&mut self, rounds: u64)
        requires { rounds ≤ most_rounds }
        ensures { self.new ≡ record self.old { rounds = rounds; first = 0; last = 0 } }
    {
        self.parts.rounds = rounds;
        self.parts.first = 0;
        self.parts.last = 0;
    }

    /// Says which configurations are shown.
    pub fn set_shown(&mut self, first: u64, last: u64)
        requires order { first ≤ last }
        requires within { last ≤ self.old.rounds }
        ensures { self.new ≡ record self.old { first = first; last = last } }
    {
        self.parts.first = first;
        self.parts.last = last;
    }
}

/// Whether a node is faulty in one of these eras.
fn is_faulty_in(eras: &[Era], id: u32) -> bool
    ensures { result ≡ list_any (λ era. is_in era.faulty.ids id) eras.now }
{
    eras.iter().any(|era| era.faulty.contains(id))
}

/// The set, or that of no faulty node.
fn faulty_or_none(alloc: Global, nodes: u32, faulty: Option<FaultSet>) -> Result<FaultSet, NoMemory>
    ensures { IfOk result (λ set. set ≡ faulty_or_none nodes faulty) }
{
    match faulty {
        Some(faulty) => Ok(faulty),
        None => FaultSet::new(alloc, nodes),
    }
}

impl<'a> Draft<'a> {
    ghost use Rattle.adversary_script.specs.Scripts.{faulty_sets, IsFormed};
    ghost use Rattle.adversary_script.specs.StartSteps.{last_starts};

    /// Where what grows takes its memory from. What was said so far is well formed.
    pub fn alloc(&self) -> Global
        ensures { IsFormed self.now }
    {
        self.alloc
    }

    /// Of which version the script is.
    pub fn version(&self) -> u32
        ensures { result ≡ self.now.version }
    {
        self.parts.version
    }

    /// How many nodes there are.
    pub fn nodes(&self) -> u32
        ensures { result ≡ self.now.nodes }
    {
        self.shape.nodes()
    }

    /// Whether a node is faulty in era 0.
    fn is_faulty_at_first(&self, id: u32) -> bool
        ensures { result ≡ is_in self.now.faulty id }
    {
        match &self.faulty {
            Some(faulty) => faulty.contains(id),
            None => false,
        }
    }

    /// Whether a node is faulty in a further era.
    fn is_faulty_later(&self, id: u32) -> bool
        ensures { result ≡ list_any (λ ids. is_in ids id) (map (λ era. era.faulty) self.now.eras) }
    {
        is_faulty_in(&self.parts.eras, id)
    }

    /// Whether a node is faulty in some era.
    pub fn is_faulty(&self, id: u32) -> bool
        ensures { result ≡ list_any (λ ids. is_in ids id) (faulty_sets self.now) }
    {
        self.is_faulty_at_first(id) || self.is_faulty_later(id)
    }

    /// The shape of the states.
    pub fn shape(&self) -> &StateShape
        ensures value { result.now ≡ self.now.shape }
        ensures nodes { shape_nodes result.now ≡ self.now.nodes }
    {
        self.shape
    }

    /// How many eras there are after the first.
    pub fn era_count(&self) -> usize
        ensures { result ≡ length self.now.eras }
    {
        self.parts.eras.len()
    }

    /// The first configuration of the last era.
    pub fn last_first(&self) -> u64
        ensures { result ≡ last_first self.now }
    {
        match self.parts.eras.last() {
            Some(era) => era.first,
            None => 0,
        }
    }

    /// The starts of single nodes in the last era.
    pub fn last_starts(&self) -> &[Start]
        ensures { result.now ≡ last_starts self.now }
    {
        match self.parts.eras.last() {
            Some(era) => &era.starts,
            None => &self.parts.starts,
        }
    }

    /// How many groups there are.
    pub fn group_count(&self) -> usize
        ensures { result ≡ length self.now.groups }
    {
        self.parts.groups.len()
    }

    /// The place of the group of a name.
    pub fn group_at(&self, name: &[u8]) -> Option<usize>
        ensures { result ≡ group_at self.now.groups name.now }
    {
        self.parts.groups.place_of(name)
    }

    /// How many rules of lies there are.
    pub fn lie_count(&self) -> usize
        ensures { result ≡ length self.now.lies }
    {
        self.parts.lies.len()
    }

    /// How many rounds are played.
    pub fn rounds(&self) -> u64
        ensures { result ≡ self.now.rounds }
    {
        self.parts.rounds
    }
}
