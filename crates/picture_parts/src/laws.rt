//! The laws of colours. The function is empty: its clauses are the laws.

ghost use Rattle.std.specs.Prelude.{◌≡◌, ℕ, ◌+◌, ◌%◌, ◌<◌};
ghost use Rattle.picture_parts.specs.Faces.{lead_of};

/// An output that counts keeps its lead from one configuration to the next, and in a configuration
/// two outputs have one lead only if they are the same.
pub fn leads_tell_counts()
    ensures keeps { (m t o : ℕ) → o < m → lead_of m (t + 1) ((o + 1) % m) ≡ lead_of m t o }
    ensures tells { (m t o p : ℕ) → o < m → p < m → lead_of m t o ≡ lead_of m t p → o ≡ p }
{}
