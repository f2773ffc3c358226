//! Why a script that says no noise is not swept.

ghost use Rattle.std.specs.Prelude.{◌≡◌, ℕ, false};
ghost use Rattle.construction.specs.Plans.{Plan};
ghost use Rattle.adversary_script.specs.NoiseSaid.{says_noise};
ghost use Rattle.adversary_script.specs.Scripts.{Script};
ghost use Rattle.machines.specs.Machines.{Machine};
ghost use Rattle.round_runner.specs.Played.{played_at};
ghost use Rattle.machine_runner.specs.Played as machine_runs;
ghost use Rattle.sweep.specs.Keys.{keyed};

/// A script that says no noise plays the same run with every key, on a plan and on any machine, so
/// that a sweep of it would say one line an era.
pub fn one_run_without_noise()
    ensures plans { (plan : Plan) (script : Script) (seed t : ℕ) → says_noise script ≡ false
        → played_at plan (keyed script seed) t ≡ played_at plan script t }
    ensures machines { (machine : Machine) (script : Script) (seed t : ℕ)
        → says_noise script ≡ false → machine_runs.played_at machine (keyed script seed) t
        ≡ machine_runs.played_at machine script t }
{}
