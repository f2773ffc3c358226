ghost use Rattle.std.specs.Prelude.{◌≡◌, ◌≤◌, slice_get};
ghost use Rattle.halving_plan.specs.Fields.{fields_by};

use crate::groups::Group;

/// The modulus of register `i` of a node in a group, None if the node lacks the register.
pub(crate) fn modulus_in(group: &Group, node: u32, i: usize) -> Option<u64>
    requires { group.now.first ≤ node }
    ensures { result ≡ slice_get (fields_by group.now node).moduli i }
{
    group.facts();
    if group.faults() == 0 {
        return None;
    }
    match i {
        0 => Some(group.modulus()),
        1 => Some(group.left_period()),
        _ => match group.half_of(node) {
            Some(half) => modulus_in(&half, node, i - 2),
            None => None,
        },
    }
}

/// The modulus of the number of a node in a group, 1 if the node lacks it.
pub(crate) fn base_in(group: &Group, node: u32) -> u64
    requires { group.now.first ≤ node }
    ensures { result ≡ (fields_by group.now node).base }
{
    group.facts();
    if group.faults() == 0 {
        return group.modulus();
    }
    match group.half_of(node) {
        Some(half) => base_in(&half, node),
        None => 1,
    }
}
