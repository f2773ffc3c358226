ghost use Rattle.std.specs.Prelude.{◌≡◌, ◌≤◌, ◌<◌, ◌⊎◌, ℕ, None, length, All};
ghost use Rattle.counting.specs.Values.{count_of, least_above};

use crate::counted::Counted;
use crate::heard::Heard;
use majority_votes::Tally;
use std::marker::Model;
use sync_types::Reg;

/// What a node hears of one register of all nodes of its group. It counts what an instruction of
/// the phase king uses, and nothing else.
#[derive(Drop)]
pub struct HeardRegister<'a> {
    heard: &'a Heard<'a>,
    register: usize,
    nodes: u32,
    faults: u32,
}

impl<'a> Model for HeardRegister<'a> {
    ghost use Rattle.std.specs.Prelude.{◌≡◌, ◌≤◌, ◌<◌, length, All};
    ghost use Rattle.counter_core.specs.HeardRegisters.{RegisterHeard};

    ghost Value = { RegisterHeard };

    ghost view = { λ h. record {
      states = h.heard.now;
      register = h.register;
      faults = h.faults;
    } };

    ghost invariant = { λ h. (length h.heard.now ≡ h.nodes) × (h.faults ≤ h.nodes)
        × All (λ s. h.register < length s.registers) h.heard.now };
}

impl<'a> HeardRegister<'a> {
    ghost use Rattle.std.specs.Prelude.{◌≡◌, ◌≤◌, ◌<◌, ◌⊎◌, ℕ, None, length, All};
    ghost use Rattle.counting.specs.Values.{count_of, least_above};
    ghost use Rattle.counter_core.specs.HeardRegisters.{heard_at, values_heard, Suffices};
    ghost use Rattle.counter_core.specs.HeardRegisters.{AreHeardBelow, AreBelow};

    /// What is heard of the register with this index, of so many nodes, of which so many may be
    /// faulty.
    pub fn of(heard: &'a Heard<'a>, register: usize, nodes: u32, faults: u32) -> HeardRegister<'a>
        requires nodes { length heard.now ≡ nodes }
        requires faults { faults ≤ nodes }
        requires deep { All (λ s. register < length s.registers) heard.now }
        ensures { result
            ≡ record { states = heard.now; register = register; faults = faults } }
    {
        HeardRegister {
            heard,
            register,
            nodes,
            faults,
        }
    }

    /// How many nodes there are.
    pub fn nodes(&self) -> u32
        ensures { result ≡ length self.now.states }
    {
        self.nodes
    }

    /// How many of them may be faulty, all at most.
    pub fn faults(&self) -> u32
        ensures value { result ≡ self.now.faults }
        ensures within { result ≤ length self.now.states }
    {
        self.faults
    }

    /// The register of the node at a place.
    pub fn at(&self, place: u32) -> Reg
        requires { place < length self.now.states }
        ensures { result ≡ heard_at self.now place }
    {
        self.heard.state(place).reg(self.register)
    }

    /// How many nodes have this value; `None` is infinity.
    fn count_of(&self, value: Option<u64>) -> usize
        ensures { result ≡ count_of (values_heard self.now) value }
    {
        let mut count = 0;
        for place in 0..self.nodes {
            if self.at(place).a == value {
                count += 1;
            }
        }
        count
    }

    /// How many nodes have this value, or 0 if it is infinity.
    fn count_of_finite(&self, value: Option<u64>) -> usize
        ensures { (value ≡ None) ⊎ (result ≡ count_of (values_heard self.now) value) }
    {
        match value {
            Some(_) => self.count_of(value),
            None => 0,
        }
    }

    /// The least finite value that more nodes have than may be faulty, None if there is none. So
    /// many have `own`: what all but the faulty ones have is the only such value.
    pub fn least(&self, own: Option<u64>, same: usize, values: &mut Tally) -> Option<u64>
        requires same { same ≡ count_of (values_heard self.now) own }
        requires room { length self.now.states ≤ values.old.capacity }
        ensures least { result ≡ least_above self.now.faults (values_heard self.now) }
        ensures capacity { values.new.capacity ≡ values.old.capacity }
    {
        let faults = self.faults as usize;
        if own.is_some() && same > faults && same >= (self.nodes - self.faults) as usize {
            return own;
        }
        values.clear();
        for place in 0..self.nodes {
            values.add(self.at(place).a);
        }
        values.least_above(faults)
    }

    /// Counts what an instruction of a kind uses, for a node with this register and under the king
    /// at a place. `values` has room for all nodes.
    pub fn count_for(&self, kind: u64, own: Reg, king: u32, values: &mut Tally) -> Counted
        requires kind { kind ≤ 2 }
        requires king { king < length self.now.states }
        requires room { length self.now.states ≤ values.old.capacity }
        ensures suffices { Suffices self.now kind own king result }
        ensures below { (most : ℕ) → AreHeardBelow self.now most → AreBelow most result }
        ensures capacity { values.new.capacity ≡ values.old.capacity }
    {
        match kind {
            0 => Counted {
                same: self.count_of_finite(own.a),
                least: None,
                king: None,
            },
            1 => {
                let same = self.count_of(own.a);
                Counted {
                    same,
                    least: self.least(own.a, same, values),
                    king: None,
                }
            }
            _ => Counted {
                same: 0,
                least: None,
                king: self.at(king).a,
            },
        }
    }
}
