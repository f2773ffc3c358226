ghost use Rattle.std.specs.Prelude.{◌≡◌, ◌<◌, ◌≤◌, ◌^◌, ℕ, List, Option, None, IfSome};
ghost use Rattle.std.specs.Prelude.{slice_index_or};
ghost use Rattle.counting.specs.Values.{count_of, least_above};
ghost use Rattle.construction.specs.PhaseKing.{own_or_kings, without_increment, incremented, up};
ghost use Rattle.construction.specs.PhaseKing.{instructed};

use sync_types::Reg;

/// The register of a node after one instruction of the counter.
///
/// `kind` is 0, 1 or 2. Of the values that the node hears from all nodes of its group, `same` is
/// how many are its own value, infinity being one; `least` is the least finite value that more than
/// `faults` nodes have, None if there is none; `king` is the king's value, None being infinity.
/// After the instruction a finite value goes to the next one modulo `modulus`, and infinity stays.
/// Values may be any, as a liar says them.
pub fn king_step(
    kind: u64,
    own: Reg,
    same: usize,
    least: Option<u64>,
    king: Option<u64>,
    nodes: u32,
    faults: u32,
    modulus: u64,
) -> Reg
    requires kind { kind ≤ 2 }
    requires faults { faults ≤ nodes }
    requires modulus { (2 ≤ modulus) × (modulus ≤ 2 ^ 40) }
    ensures value { result ≡ incremented (up modulus) (without_increment nodes faults kind own same
        least king) }

    // with the counts and the king's value of a list heard, it is the instruction on that list
    ensures heard { (values : List (Option ℕ)) (place : ℕ) →
        same ≡ count_of values own.a → least ≡ least_above faults values
        → king ≡ slice_index_or values place None →
        result ≡ instructed nodes faults (up modulus) kind own values place }
    ensures below { IfSome result.a (λ a. a < modulus) }
{
    increment(
        agree_step(kind, own, same, least, king, nodes, faults),
        modulus,
    )
}

/// The register of a node after one instruction without the increment, as consensus takes it.
///
/// The arguments are those of [`king_step`].
pub fn agree_step(
    kind: u64,
    own: Reg,
    same: usize,
    least: Option<u64>,
    king: Option<u64>,
    nodes: u32,
    faults: u32,
) -> Reg
    requires kind { kind ≤ 2 }
    requires faults { faults ≤ nodes }
    ensures value { result ≡ without_increment nodes faults kind own same least king }

    // with the counts and the king's value of a list heard, it is the instruction on that list,
    // with the value itself as the next one
    ensures heard { (values : List (Option ℕ)) (place : ℕ) →
        same ≡ count_of values own.a → least ≡ least_above faults values
        → king ≡ slice_index_or values place None →
        result ≡ instructed nodes faults (λ a. a) kind own values place }
{
    let enough = same >= (nodes - faults) as usize;
    match kind {
        0 => Reg {
            a: if enough { own.a } else { None },
            d: own.d,
        },
        1 => Reg {
            a: least,
            d: enough,
        },
        _ => Reg {
            a: Some(own_or_kings(own, king)),
            d: true,
        },
    }
}

// The own value if it is finite and marked, else the king's, or 0 if that is infinite.
fn own_or_kings(own: Reg, king: Option<u64>) -> u64
    ensures { result ≡ own_or_kings own.a own.d king }
{
    match own.a {
        Some(a) if own.d => a,
        _ => king.unwrap_or(0),
    }
}

/// The next number modulo `modulus`, of any number.
pub fn up(number: u64, modulus: u64) -> u64
    requires { (2 ≤ modulus) × (modulus ≤ 2 ^ 40) }
    ensures { result ≡ up modulus number }
{
    let next = number % modulus + 1;
    if next == modulus { 0 } else { next }
}

// A finite value goes to the next one.
fn increment(register: Reg, modulus: u64) -> Reg
    requires { (2 ≤ modulus) × (modulus ≤ 2 ^ 40) }
    ensures { result ≡ incremented (up modulus) register }
{
    match register.a {
        Some(a) => Reg {
            a: Some(up(a, modulus)),
            d: register.d,
        },
        None => register,
    }
}
