ghost use Rattle.std.specs.Prelude.{◌≡◌, ℕ, ◌*◌, ◌≤◌};
ghost use Rattle.halving_plan.specs.Trees.{tree_for, tree_bound, left_part};
ghost use Rattle.halving_plan.specs.Steps.{tree_depth};

/// How many of so many faults the left half takes.
pub(crate) fn left_part(faults: u32) -> u32
    requires { faults ≤ 85 }
    ensures { result ≡ left_part faults }
{
    5 * faults / 13
}

/// From which round on the tree of so many faults counts. It goes down both halves, in two calls
/// for each fault.
pub(crate) fn bound_of(faults: u32) -> u64
    requires { faults ≤ 85 }
    ensures value { (spares : ℕ) → result ≡ tree_bound (tree_for faults spares) }
    ensures most { result ≤ 16 * faults }
{
    if faults == 0 {
        return 0;
    }
    let left_faults = left_part(faults);
    let right_faults = faults - 1 - left_faults;
    let left = bound_of(left_faults);
    let right = bound_of(right_faults);
    let (left_kings, right_kings) = (u64::from(left_faults) + 1, u64::from(right_faults) + 1);
    let right_period = 3 * right_kings;
    let left_period = right_period + 2 + 3 * left_kings;
    let phases = left_kings / right_kings + 2;
    (left + 2 * left_period).max(right + (phases * right_period + 2))
}

/// How many registers a state has in the tree of so many faults.
pub(crate) fn depth_of(faults: u32) -> usize
    requires { faults ≤ 85 }
    ensures value { (spares : ℕ) → result ≡ tree_depth (tree_for faults spares) }
    ensures most { result ≤ 2 * faults }
{
    if faults == 0 {
        return 0;
    }
    let left = left_part(faults);
    depth_of(faults - 1 - left) + 2
}
