//! Of each era of a script the first locked configuration so far.

ghost use Rattle.std.specs.Prelude.{◌≡◌, ◌+◌, ◌<◌, ◌∷◌, None, length, replicate, IfOk};
ghost use Rattle.std.specs.Prelude.{slice_set, slice_index_or};
ghost use Rattle.machine_runner.specs.FirstLocked.{first_of};

use adversary_script::Script;
use std::alloc::Global;
use sync_types::NoMemory;

/// The first locked configuration so far: that which was known before, or else this one, of that
/// number, if it is locked.
fn locked_so_far(known: Option<u64>, locked: bool, at: u64) -> Option<u64>
    ensures { result ≡ first_of known locked at }
{
    match known {
        Some(_) => known,
        None => { if locked { Some(at) } else { None } }
    }
}

/// Those of a script at configuration 0, which is locked or not.
pub fn first_locks(
    alloc: Global,
    script: &Script,
    locked: bool,
) -> Result<Vec<Option<u64>>, NoMemory>
    ensures { IfOk result (λ locks. locks.items
        ≡ first_of None locked 0 ∷ replicate (length script.now.eras) None) }
{
    let mut locks = vec![in alloc; None; script.eras()]?;
    locks[0] = locked_so_far(None, locked, 0);
    Ok(locks)
}

/// Makes them those of the script at configuration 0 again, which is locked or not.
pub fn begin_locks(script: &Script, locked: bool, locks: &mut Vec<Option<u64>>)
    requires { length locks.old.items ≡ length script.now.eras + 1 }
    ensures { locks.new.items ≡ first_of None locked 0 ∷ replicate (length script.now.eras) None }
{
    let _eras = script.eras();
    locks.fill(None);
    locks[0] = locked_so_far(None, locked, 0);
}

/// Notes whether configuration `at`, which is of that era, is locked.
pub fn note_lock(era: usize, locked: bool, at: u64, locks: &mut Vec<Option<u64>>)
    requires { era < length locks.old.items }
    ensures { locks.new.items ≡ slice_set locks.old.items era
        (first_of (slice_index_or locks.old.items era None) locked at) }
{
    locks[era] = locked_so_far(locks[era], locked, at);
}
