ghost use Rattle.std.specs.Prelude.{◌≡◌, ℕ, length};
ghost use Rattle.machine_runner.specs.FirstLocked.{first_of};
ghost use Rattle.machine_runner.specs.Locks.{is_locked};

use machine_runner::is_locked;
use machines::Machine;
use state_codec::Packed;
use sync_types::FaultSet;

/// Whether a configuration is locked, which is asked if no locked one of its era is known: else the
/// answer does not matter to what is known next.
pub fn known_or_locked<M: Machine>(
    known: Option<u64>,
    machine: &M,
    faulty: &FaultSet,
    config: &Packed,
) -> bool
    requires nodes { faulty.now.nodes ≡ (M.machine machine.now).nodes }
    requires size { length config.now.current ≡ faulty.now.nodes }
    ensures { (at : ℕ) → first_of known result at ≡ first_of known
        (is_locked (M.machine machine.now) faulty.now.ids config.now.current) at }
{
    match known {
        Some(_) => true,
        None => is_locked(machine, faulty, config),
    }
}
