//! Plays the script of a text, until its first locked configuration is known.

ghost use Rattle.std.specs.Prelude.{◌≡◌, IfOk};
ghost use Rattle.machine_runner.specs.Laws.{IsReadFor};
ghost use Rattle.attack.specs.Tried.{lock_of, tried_of};

use crate::targets::Target;
use adversary_script::{Script, ScriptError, read_script_for};
use machine_runner::Runner;
use machine_runner::laws::readers_fit;
use machines::Machine;
use std::alloc::Global;
use sync_types::NoMemory;

/// What became of a text that was tried.
#[derive(Clone, Copy, Debug, PartialEq, Eq)]
pub enum Tried {
    /// It is no script for the target.
    Refused,
    /// Its script was played. This is the first locked configuration of its first era; None if none
    /// is locked.
    Played(Option<u64>),
}

/// The first locked configuration of era 0 of what is played, which is known when it is met.
fn first_lock<M: Machine>(runner: &mut Runner<'_, M>) -> Option<u64>
    requires { runner.old.at ≡ 0 }
    ensures { result ≡ lock_of (M.machine runner.old.machine) runner.old.script }
{
    let rounds = runner.rounds_left();
    for _ in 0..rounds {
        let lock = runner.lock_of(0);
        if lock.is_some() {
            return lock;
        }
        runner.round();
    }
    runner.lock_of(0)
}

impl<'a, M: Machine> Target<'a, M> {
    /// The first locked configuration of era 0 of a script.
    fn lock_of(&self, alloc: Global, script: Script) -> Result<Option<u64>, NoMemory>
        requires read { IsReadFor (M.machine self.now.machine) script }
        requires shape { script.shape ≡ self.now.shape }
        ensures { IfOk result
            (λ lock. lock ≡ lock_of (M.machine self.now.machine) script) }
    {
        let shape = self.shape().try_clone(alloc)?;
        let mut runner = Runner::new(alloc, self.machine(), shape, script)?;
        Ok(first_lock(&mut runner))
    }

    /// Reads a text as a script for the target, and plays it until the first locked configuration
    /// of its first era is known, or to its end. The only error is want of memory.
    pub fn try_text(&self, alloc: Global, text: &[u8]) -> Result<Tried, NoMemory>
        ensures { IfOk result (λ tried. tried
            ≡ tried_of (M.machine self.now.machine) self.now.shape self.now.first_line text.now) }
    {
        self.facts();
        readers_fit();
        let faults = self.machine().faults();
        match read_script_for(alloc, faults, self.shape(), text, self.first_line()) {
            Ok(script) => {
                let _rounds = script.rounds();
                Ok(Tried::Played(self.lock_of(alloc, script)?))
            }
            Err(ScriptError::Refused(_)) => Ok(Tried::Refused),
            Err(ScriptError::NoMemory) => Err(NoMemory),
        }
    }
}
