ghost use Rattle.std.specs.Prelude.{◌≡◌, ◌<◌, length};
ghost use Rattle.std.specs.List.{list_all};
ghost use Rattle.sync_types.specs.States.{register_at};
ghost use Rattle.construction.specs.Steps.{state_of};
ghost use Rattle.machine_runner.specs.Locks.{are_locked, correct_registers, first_value};
ghost use Rattle.machine_runner.specs.Locks.{is_locked, is_locked_at, is_locked_by};

use machines::Machine;
use state_codec::Packed;
use sync_types::{FaultSet, Reg};

/// The register that stands where the states have none.
const ZERO: Reg = Reg {
    a: Some(0),
    d: false,
};

/// Whether a register is marked and has this value.
fn is_locked_at(value: u64, register: Reg) -> bool
    ensures { result ≡ is_locked_at value register }
{
    register.a == Some(value) && register.d
}

/// One register of the correct nodes of a configuration.
#[derive(Clone, Copy, Drop)]
struct Registers<'a> {
    register: usize,
    faulty: &'a FaultSet,
    config: &'a Packed,
    ghost size: { length config.now.current ≡ faulty.now.nodes },
}

impl Registers<'_> {
    /// That of node `v`.
    fn of(&self, v: u32) -> Reg
        requires { v < self.now.faulty.now.nodes }
        ensures { result ≡ register_at self.now.register
            (state_of self.now.config.now.current v) }
    {
        self.config.facts();
        if self.register < self.config.shape().depth() {
            self.config.reg(v, self.register)
        } else {
            ZERO
        }
    }

    /// The value of the first one, or 0 if that is infinite or no node is correct.
    fn first_value(&self) -> u64
        ensures { result ≡ first_value (correct_registers self.now.register
            self.now.faulty.now.nodes self.now.faulty.now.ids self.now.config.now.current) }
    {
        for v in 0..self.faulty.nodes() {
            if !self.faulty.contains(v) {
                return self.of(v).a.unwrap_or(0);
            }
        }
        0
    }

    /// Whether all of them are marked and have this value.
    fn all_locked_at(&self, value: u64) -> bool
        ensures { result ≡ list_all (is_locked_at value) (correct_registers self.now.register
            self.now.faulty.now.nodes self.now.faulty.now.ids self.now.config.now.current) }
    {
        for v in 0..self.faulty.nodes() {
            if !self.faulty.contains(v) && !is_locked_at(value, self.of(v)) {
                return false;
            }
        }
        true
    }

    /// Whether they are one, finite and marked.
    fn are_locked(&self) -> bool
        ensures { result ≡ are_locked (correct_registers self.now.register
            self.now.faulty.now.nodes self.now.faulty.now.ids self.now.config.now.current) }
    {
        let value = self.first_value();
        self.all_locked_at(value)
    }
}

/// Whether a configuration is locked by a register: that register is the same, finite and marked in
/// all correct nodes. Without a register each one is.
pub fn is_locked_by(lock: Option<usize>, faulty: &FaultSet, config: &Packed) -> bool
    requires { length config.now.current ≡ faulty.now.nodes }
    ensures { result ≡ is_locked_by lock faulty.now.nodes faulty.now.ids config.now.current }
{
    match lock {
        None => true,
        Some(register) => Registers {
            register,
            faulty,
            config,
        }
        .are_locked(),
    }
}

/// Whether a configuration of a machine's nodes is locked: by the register that tells it.
pub fn is_locked<M: Machine>(machine: &M, faulty: &FaultSet, config: &Packed) -> bool
    requires nodes { faulty.now.nodes ≡ (M.machine machine.now).nodes }
    requires size { length config.now.current ≡ faulty.now.nodes }
    ensures { result
        ≡ is_locked (M.machine machine.now) faulty.now.ids config.now.current }
{
    is_locked_by(machine.lock(), faulty, config)
}
