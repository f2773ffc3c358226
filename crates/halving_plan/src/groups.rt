ghost use Rattle.std.specs.Prelude.{◌≡◌, ◌+◌, ◌*◌, ◌≤◌, ◌<◌, IfSome};
ghost use Rattle.halving_plan.specs.Halves.{right_period, right_share, left_share, left_period};
ghost use Rattle.halving_plan.specs.Trees.{left_part, right_part};
ghost use Rattle.halving_plan.specs.Groups.{HalvingGroup, IsGroup, IsHalf, left_of, right_of, half_in};
ghost use Rattle.halving_plan.specs.Groups.{sizes_of};

use crate::bounds::left_part;
use std::marker::Model;

/// A group of nodes of a plan: all nodes, or a half of a group.
#[derive(Clone, Copy, Debug, PartialEq, Eq)]
pub struct Group {
    first: u32,
    nodes: u32,
    faults: u32,
    modulus: u64,
    register: usize,
}

impl Model for Group {
    ghost use Rattle.halving_plan.specs.Groups.{HalvingGroup, IsGroup};

    ghost Value = { HalvingGroup };

    ghost view = { λ g. record {
      first = g.first;
      nodes = g.nodes;
      faults = g.faults;
      modulus = g.modulus;
      register = g.register;
    } };

    ghost inverse = { λ v. record {
      first = v.first;
      nodes = v.nodes;
      faults = v.faults;
      modulus = v.modulus;
      register = v.register;
    } };

    ghost invariant = { λ g. IsGroup (record {
      first = g.first;
      nodes = g.nodes;
      faults = g.faults;
      modulus = g.modulus;
      register = g.register;
    }) };
}

impl Group {
    /// The group of so many nodes from the first node on, whose registers are the first ones.
    pub(crate) fn whole(nodes: u32, faults: u32, modulus: u64) -> Group
        requires { IsGroup (record {
          first = 0;
          nodes = nodes;
          faults = faults;
          modulus = modulus;
          register = 0;
        }) }
        ensures { result ≡ record {
          first = 0;
          nodes = nodes;
          faults = faults;
          modulus = modulus;
          register = 0;
        } }
    {
        Group {
            first: 0,
            nodes,
            faults,
            modulus,
            register: 0,
        }
    }

    /// Its first node.
    pub fn first(&self) -> u32
        ensures { result ≡ self.now.first }
    {
        self.first
    }

    /// How many nodes there are.
    pub fn nodes(&self) -> u32
        ensures { result ≡ self.now.nodes }
    {
        self.nodes
    }

    /// How many of them may be faulty.
    pub fn faults(&self) -> u32
        ensures { result ≡ self.now.faults }
    {
        self.faults
    }

    /// The modulus that they count by.
    pub fn modulus(&self) -> u64
        ensures { result ≡ self.now.modulus }
    {
        self.modulus
    }

    /// The index of the group's first register in a state.
    pub fn register(&self) -> usize
        ensures { result ≡ self.now.register }
    {
        self.register
    }

    /// Tells a caller's proof what is true of every group. It does nothing when it runs.
    pub fn facts(&self)
        ensures { IsGroup self.now }
    {
        let _first = self.first;
    }

    /// How many faults its left half tolerates.
    fn left_faults(&self) -> u32
        ensures { result ≡ left_part self.now.faults }
    {
        self.facts();
        left_part(self.faults)
    }

    /// How many faults its right half tolerates, if it has halves.
    fn right_faults(&self) -> u32
        requires { 0 < self.now.faults }
        ensures { result ≡ right_part self.now.faults }
    {
        self.facts();
        self.faults - 1 - self.left_faults()
    }

    /// The modulus that its right half counts by, if it has halves.
    pub fn right_period(&self) -> u64
        requires { 0 < self.now.faults }
        ensures { result ≡ right_period (sizes_of self.now) }
    {
        self.facts();
        3 * (u64::from(self.right_faults()) + 1)
    }

    /// How many rounds of its left half's period are the right half's share, if it has halves.
    pub fn right_share(&self) -> u64
        requires { 0 < self.now.faults }
        ensures { result ≡ right_share (sizes_of self.now) }
    {
        self.facts();
        self.right_period() + 2
    }

    /// How many rounds of its left half's period are the left half's own share, if it has halves.
    pub fn left_share(&self) -> u64
        requires { 0 < self.now.faults }
        ensures { result ≡ left_share (sizes_of self.now) }
    {
        self.facts();
        3 * (u64::from(self.left_faults()) + 1)
    }

    /// The modulus that its left half counts by, if it has halves.
    pub fn left_period(&self) -> u64
        requires { 0 < self.now.faults }
        ensures { result ≡ left_period (sizes_of self.now) }
    {
        self.facts();
        self.right_share() + self.left_share()
    }

    /// The left half, of a group that has halves.
    pub fn left(&self) -> Group
        requires { 0 < self.now.faults }
        ensures { result ≡ left_of self.now }
    {
        self.facts();
        let faults = self.left_faults();
        Group {
            first: self.first,
            nodes: 3 * faults + 1,
            faults,
            modulus: self.left_period(),
            register: self.register + 2,
        }
    }

    /// The right half, of a group that has halves.
    pub fn right(&self) -> Group
        requires { 0 < self.now.faults }
        ensures { result ≡ right_of self.now }
    {
        self.facts();
        let faults = self.right_faults();
        Group {
            first: self.first + 3 * self.left_faults() + 1,
            nodes: 3 * faults + 1,
            faults,
            modulus: self.right_period(),
            register: self.register + 2,
        }
    }

    /// The half in which a node of the group is, None if it is a spare. Of a group that has halves.
    pub fn half_of(&self, node: u32) -> Option<Group>
        requires { 0 < self.now.faults }
        ensures value { result ≡ half_in self.now node }
        ensures half { self.now.first ≤ node → IfSome result (IsHalf self.now node) }
    {
        self.facts();
        let right = self.right();
        right.facts();
        if node < right.first() {
            Some(self.left())
        } else if node < right.first() + right.nodes() {
            Some(right)
        } else {
            None
        }
    }
}
