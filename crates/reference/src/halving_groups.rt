//! Groups of nodes, and the halves in them. A halving plan is the group of all its nodes.

use crate::constructions::Construction;
use crate::halving_steps::stepped;
use crate::numbers::{Numbers, quotient};
use crate::states::{Fields, NO_FIELDS, State};
use crate::texts::Text;

/// How many levels of halves stand on a node at most: those of 85 faults.
pub const MOST_LEVELS: usize = 8;

/// How many faults a group tolerates at most, and one more.
const FAULTS: usize = 86;

/// So many nodes from a first one on, of which so many may be faulty, and what they count by. A
/// group that tolerates none is one node.
#[derive(Clone, Copy)]
pub struct Group {
    pub first: u64,
    pub nodes: u64,
    pub faults: u64,
    pub modulus: u64,
}

/// The place of the king's register of the level at a depth. After it stands what the left half
/// showed a round ago, with a mark if that is trusted.
pub fn king_at(depth: usize) -> usize {
    depth.saturating_mul(2)
}

/// The place of what the left half of the level at a depth showed.
pub fn seen_at(depth: usize) -> usize {
    king_at(depth).saturating_add(1)
}

impl Group {
    /// A plan.
    pub fn of(nodes: u64, faults: u64, modulus: u64) -> Group {
        Group {
            first: 0,
            nodes,
            faults,
            modulus,
        }
    }

    /// Whether the group is one node, which has no halves.
    pub fn is_single(&self) -> bool {
        self.faults == 0
    }

    /// How many faults its left half tolerates.
    fn left_faults(&self) -> u64 {
        self.faults.wrapping_mul(5) / 13
    }

    /// How many faults its right half tolerates.
    fn right_faults(&self) -> u64 {
        let others = self.left_faults().wrapping_add(1);
        self.faults.wrapping_sub(others)
    }

    /// What its right half counts by: three instructions for each of that half's kings.
    fn right_period(&self) -> u64 {
        self.right_faults().wrapping_add(1).wrapping_mul(3)
    }

    /// Of how many rounds of its left half's period the right half has its share.
    pub fn right_share(&self) -> u64 {
        self.right_period().wrapping_add(2)
    }

    /// What its left half counts by: the right half's share, and then three instructions for each
    /// of the left half's kings.
    fn left_period(&self) -> u64 {
        let left_share = self.left_faults().wrapping_add(1).wrapping_mul(3);
        self.right_share().wrapping_add(left_share)
    }

    /// The group of fewest nodes that tolerates so many faults.
    fn fewest(first: u64, faults: u64, modulus: u64) -> Group {
        Group {
            first,
            nodes: faults.wrapping_mul(3).wrapping_add(1),
            faults,
            modulus,
        }
    }

    /// Its left half.
    pub fn left(&self) -> Group {
        Group::fewest(self.first, self.left_faults(), self.left_period())
    }

    /// Its right half.
    pub fn right(&self) -> Group {
        let left = self.left();
        let first = left.first.wrapping_add(left.nodes);
        Group::fewest(first, self.right_faults(), self.right_period())
    }

    /// Whether a node is in it.
    fn has(&self, node: u64) -> bool {
        self.first <= node && node < self.first.wrapping_add(self.nodes)
    }

    /// The half in which a node is.
    pub fn half_of(&self, node: u64) -> Option<Group> {
        if self.is_single() {
            None
        } else if self.left().has(node) {
            Some(self.left())
        } else if self.right().has(node) {
            Some(self.right())
        } else {
            None
        }
    }

    /// In how many phases of one king of the right half the left half may disturb it, and one more.
    fn phases(&self) -> u64 {
        let left = self.left_faults().wrapping_add(1);
        let right = self.right_faults().wrapping_add(1);
        quotient(left, right).wrapping_add(2)
    }

    /// The bound of the group, from those of all that tolerate fewer faults.
    fn bound_over(&self, bounds: &[u64]) -> u64 {
        let bound = |half: Group| bounds.get(half.faults as usize).copied().unwrap_or(0);
        let left = self.left_period().wrapping_mul(2);
        let right = self.right_period().wrapping_mul(self.phases());
        let by_left = bound(self.left()).wrapping_add(left);
        let by_right = bound(self.right()).wrapping_add(right).wrapping_add(2);
        by_left.max(by_right)
    }

    /// The configuration from which all its correct nodes count.
    fn bound(&self) -> u64 {
        let mut bounds = [0; FAULTS];
        for faults in 1..FAULTS {
            let bound = Group::fewest(0, faults as u64, 0).bound_over(&bounds);
            if let Some(place) = bounds.get_mut(faults) {
                *place = bound;
            }
        }
        bounds.get(self.faults as usize).copied().unwrap_or(0)
    }

    /// Puts the fields of the level of a group at a depth: the registers of a group with halves, or
    /// the number of a node that is alone.
    fn put_fields(&self, depth: usize, fields: &mut Fields) {
        if self.is_single() {
            fields.base = self.modulus;
        } else {
            fields.put(king_at(depth), self.modulus);
            fields.put(seen_at(depth), self.left_period());
        }
    }
}

impl Construction for Group {
    fn numbers(&self) -> Numbers {
        Numbers {
            nodes: self.nodes,
            faults: self.faults,
            modulus: self.modulus,
            bound: self.bound(),
        }
    }

    fn fields(&self, node: u64) -> Fields {
        let mut fields = NO_FIELDS;
        let mut half = Some(*self);
        for depth in 0..=MOST_LEVELS {
            if let Some(group) = half {
                group.put_fields(depth, &mut fields);
                half = group.half_of(node);
            }
        }
        fields
    }

    fn top(&self) -> Option<usize> {
        if self.is_single() {
            None
        } else {
            Some(king_at(0))
        }
    }

    fn stepped(&self, node: u64, heard: &[State]) -> State {
        stepped(self, node, heard)
    }

    fn write(&self, out: &mut Text) {
        out.line("halving", &[1]);
        out.line("group", &[self.nodes, self.faults, self.modulus]);
        out.word("end\n");
    }
}
