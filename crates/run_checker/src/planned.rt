ghost use Rattle.std.specs.Prelude.{◌≡◌};
ghost use Rattle.run_checker.specs.Grammar.{plan_version};

use crate::versions::Version;
use plan_numbers::Plan;

/// The lines of a plan in the head of a certificate.
#[derive(Drop)]
pub struct Planned {
    /// The certificate's version.
    pub version: Version,
    /// The plan of the lines that were read.
    pub plan: Plan,
    ghost kept: { plan.version ≡ plan_version version.number },
}
