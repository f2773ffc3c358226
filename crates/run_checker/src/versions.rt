ghost use Rattle.std.specs.Prelude.{◌≤◌};

/// The version of a certificate.
#[derive(Clone, Copy)]
pub struct Version {
    /// 1 to 3.
    pub number: u32,
    ghost oldest: { 1 ≤ number },
    ghost newest: { number ≤ 3 },
}
