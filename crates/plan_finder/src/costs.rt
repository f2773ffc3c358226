ghost use Rattle.std.specs.Prelude.{◌≡◌, ◌<◌, ◌≤◌, ◌^◌, MatchOption};
ghost use Rattle.plan_finder.specs.Steps.{cost_of};

/// The largest cost of a step, and the largest modulus.
pub const MOST_COST: u64 = 1 << 40;

/// The cost of a step to `g` faults, at most 85, by `k` blocks, 3 to 16: the rounds in which a
/// level of `k` blocks that tolerates `g` faults settles once its blocks count, 3 (g + 2) (2 m)^k
/// with m half of `k`, rounded up.
///
/// None exactly if it is above 2^40. No level has such a cost: it divides a modulus.
pub fn step_cost(k: u64, g: u64) -> Option<u64>
    requires blocks { (3 ≤ k) × (k ≤ 16) }
    requires faults { g ≤ 85 }
    ensures { MatchOption result (2 ^ 40 < cost_of k g)
        (λ cost. (cost ≡ cost_of k g) × (cost ≤ 2 ^ 40)) }
{
    let turns = 2 * u128::from(k.div_ceil(2));
    let cost = u128::from(3 * (g + 2)) * turns.pow(k as u32);
    if cost > u128::from(MOST_COST) {
        return None;
    }
    Some(cost as u64)
}
