ghost use Rattle.std.specs.Prelude.{◌≡◌, ◌+◌, ◌*◌, ◌<◌, ◌≤◌, ◌↔◌, ℕ, false, IsTrue, IfSome, Some};
ghost use Rattle.std.specs.Prelude.{None, [], slice_index_or};
ghost use Rattle.construction.specs.PhaseKing.{locked_at};
ghost use Rattle.phase_king.specs.Groups.{IsLockedGroup};
ghost use Rattle.shared_board.specs.Senders.{is_liar, register_of, correct_in, values_of};

use crate::stretches::NodeRange;
use sync_types::Reg;

/// How a group is locked.
#[derive(Clone, Copy)]
pub(crate) struct Lock {
    /// The value at which its correct registers are locked, if it tolerates its liars.
    pub value: Option<u64>,
    /// Whether those of its liars are locked there too.
    pub is_settled: bool,
}

/// Whether a register is locked at a value.
pub(crate) fn is_locked_at(register: Reg, value: u64) -> bool
    ensures { IsTrue result ↔ (register ≡ locked_at value) }
{
    register.a == Some(value) && register.d
}

impl NodeRange<'_> {
    /// Whether the registers of all its nodes are locked at a value.
    fn all_locked(&self, value: u64) -> bool
        ensures { IsTrue result ↔ ((u : ℕ) → self.now.first ≤ u
            → u < self.now.first + self.now.count
            → register_of self.now.senders.now u ≡ locked_at value) }
    {
        for u in self.first..self.end() {
            if !is_locked_at(self.senders.register(u), value) {
                return false;
            }
        }
        true
    }

    /// Whether those of its correct nodes are.
    fn correct_locked(&self, value: u64) -> bool
        ensures { IsTrue result ↔ ((u : ℕ) → self.now.first ≤ u
            → u < self.now.first + self.now.count → is_liar self.now.senders.now u ≡ false
            → register_of self.now.senders.now u ≡ locked_at value) }
    {
        for u in self.first..self.end() {
            if !self.senders.is_liar(u) && !is_locked_at(self.senders.register(u), value) {
                return false;
            }
        }
        true
    }

    /// The value of its first correct node's register; None if it is infinite, or there is none.
    fn first_value(&self) -> Option<u64>
        ensures { result ≡ slice_index_or
            (values_of self.now.senders.now self.now.first self.now.count) 0 None }
    {
        for u in self.first..self.end() {
            if !self.senders.is_liar(u) {
                return self.senders.register(u).a;
            }
        }
        None
    }

    /// The value at which the registers of its correct nodes are locked; None if there is none.
    fn correct_value(&self) -> Option<u64>
        ensures some { IfSome result (λ value. (u : ℕ) → self.now.first ≤ u
            → u < self.now.first + self.now.count → is_liar self.now.senders.now u ≡ false
            → register_of self.now.senders.now u ≡ locked_at value) }
        ensures none { result ≡ None → (value : ℕ) → ((u : ℕ) → self.now.first ≤ u
            → u < self.now.first + self.now.count → is_liar self.now.senders.now u ≡ false
            → register_of self.now.senders.now u ≡ locked_at value)
            → correct_in self.now.senders.now self.now.first self.now.count ≡ [] }
    {
        match self.first_value() {
            Some(value) => {
                if self.correct_locked(value) {
                    Some(value)
                } else {
                    None
                }
            }
            None => None,
        }
    }

    /// How it is locked, as a group that tolerates so many liars.
    pub fn lock(&self, faults: usize) -> Lock
        requires { 3 * faults < self.now.count }
        ensures value { IfSome result.value (IsLockedGroup self.now.first self.now.count faults
            (is_liar self.now.senders.now) (register_of self.now.senders.now)) }
        ensures none { result.value ≡ None → (value : ℕ)
            → IsLockedGroup self.now.first self.now.count faults
            (is_liar self.now.senders.now) (register_of self.now.senders.now) value → ⊥ }
        ensures settled { IsTrue result.is_settled ↔ ((value : ℕ) × (result.value ≡ Some value)
            × ((u : ℕ) → self.now.first ≤ u → u < self.now.first + self.now.count
            → register_of self.now.senders.now u ≡ locked_at value)) }
    {
        if self.liars() <= faults {
            if let Some(value) = self.senders.register(self.first).a
                && self.all_locked(value)
            {
                return Lock {
                    value: Some(value),
                    is_settled: true,
                };
            }
            return Lock {
                value: self.correct_value(),
                is_settled: false,
            };
        }
        Lock {
            value: None,
            is_settled: false,
        }
    }
}
