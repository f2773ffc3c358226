ghost use Rattle.std.specs.Prelude.{◌≡◌, ℕ, length};
ghost use Rattle.construction.specs.Plans.{plan_nodes};
ghost use Rattle.round_runner.specs.Locks.{first_of, is_locked};

use counter_core::Counter;
use machine_runner::is_locked_by;
use state_codec::Packed;
use sync_types::FaultSet;
use tower::Tower;

/// Whether a configuration of a plan's nodes is locked: the top registers of all correct ones are
/// one, finite and marked. Without levels each one is.
pub fn is_locked(tower: &Tower, faulty: &FaultSet, config: &Packed) -> bool
    requires nodes { faulty.now.nodes ≡ plan_nodes tower.now }
    requires size { length config.now.current ≡ faulty.now.nodes }
    ensures { result ≡ is_locked tower.now faulty.now.ids config.now.current }
{
    match tower.depth() {
        0 => true,
        depth => is_locked_by(Some(depth - 1), faulty, config),
    }
}

/// Whether a configuration is locked, which is asked if no locked one of its era is known: else the
/// answer does not matter to what is known next.
pub fn known_or_locked(
    known: Option<u64>,
    tower: &Tower,
    faulty: &FaultSet,
    config: &Packed,
) -> bool
    requires nodes { faulty.now.nodes ≡ plan_nodes tower.now }
    requires size { length config.now.current ≡ faulty.now.nodes }
    ensures { (at : ℕ) → first_of known result at
        ≡ first_of known (is_locked tower.now faulty.now.ids config.now.current) at }
{
    match known {
        Some(_) => true,
        None => is_locked(tower, faulty, config),
    }
}
