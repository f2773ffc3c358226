ghost use Rattle.std.specs.Prelude.{◌≡◌, ◌+◌, ◌*◌, ◌^◌, ◌<◌, ◌≤◌, OnOk, IfOk};
ghost use Rattle.std.specs.Int.{div_ceil};
ghost use Rattle.construction.specs.Widths.{width};
ghost use Rattle.construction.specs.Plans.{interval_of, span_of};
ghost use Rattle.plan_numbers.specs.Numbers.{line, numbers_over};
ghost use Rattle.plan_numbers.specs.Premises.{first_premise, unless, MeetsPremises};
ghost use Rattle.plan_numbers.specs.Sizes.{IsSized, IsSizedLevel};

use crate::numbers::{Below, LevelNums};
use crate::widths::width;
use sync_types::Premise;

/// The largest modulus.
pub(crate) const LARGEST_MODULUS: u64 = 1 << 40;

const MOST_BLOCKS: u64 = 16;

const MOST_FAULTS: u64 = 85;

const MOST_NODES: u64 = 256;

/// The rounds that the kings take in turn.
fn beat(f: u64) -> u64
    requires { f ≤ 85 }
    ensures { result ≡ 3 * (f + 2) }
{
    3 * (f + 2)
}

/// How many bits a level adds to a state: those of a value, infinity among them, and a mark.
fn register_bits(c: u64) -> u32
    requires { c ≤ 2 ^ 40 }
    ensures value { result ≡ width (c + 1) + 1 }
    ensures most { result ≤ 42 }
{
    width(c + 1) + 1
}

/// The span of a level under the limits, which may be above any modulus.
fn wide_span(k: u64, f: u64) -> u128
    requires blocks { (3 ≤ k) × (k ≤ 16) }
    requires faults { f ≤ 85 }
    ensures some { 0 < result }
    ensures value { result ≡ interval_of (3 * (f + 2)) (div_ceil k 2) k }
{
    let turns = 2 * u128::from(k.div_ceil(2));
    u128::from(beat(f)) * turns.pow(k as u32)
}

/// Tests the premises in their order, and gives the span if all are met.
fn tested_span(below: &Below, k: u64, f: u64, c: u64, s: u64) -> Result<u64, Premise>
    requires { IsSized below.now }
    ensures answer { result ≡ unless (first_premise below.now (line k f c s))
        (span_of (line k f c s)) }
    ensures met { OnOk result (MeetsPremises below.now (line k f c s)) }
    ensures span { IfOk result (λ span. (1 ≤ span) × (span ≤ 2 ^ 40)) }
{
    if k > MOST_BLOCKS || f > MOST_FAULTS || c > LARGEST_MODULUS || s > MOST_NODES {
        return Err(Premise::Limit);
    }
    let nodes = k * u64::from(below.nodes) + s;
    if nodes > MOST_NODES {
        return Err(Premise::Limit);
    }
    if k < 3 {
        return Err(Premise::Blocks);
    }
    if c < 2 {
        return Err(Premise::Modulus);
    }
    if nodes <= 3 * f {
        return Err(Premise::Quorum);
    }
    if f >= (u64::from(below.faults) + 1) * k.div_ceil(2) {
        return Err(Premise::Share);
    }
    let span = wide_span(k, f);
    if u128::from(below.modulus) % span != 0 {
        return Err(Premise::Multiple);
    }
    Ok(span as u64)
}

/// The numbers of a level with `k` blocks, `f` faults, the modulus `c` and `s` spare nodes over
/// what stands below it. An error is the first premise that the level fails, in the order `Limit`,
/// `Blocks`, `Modulus`, `Quorum`, `Share`, `Multiple`. It takes no memory.
pub fn level_nums(below: &Below, k: u64, f: u64, c: u64, s: u64) -> Result<LevelNums, Premise>
    requires { IsSized below.now }
    ensures answer { result ≡ unless (first_premise below.now (line k f c s))
        (numbers_over below.now (line k f c s)) }
    ensures sized { IfOk result (λ nums. IsSizedLevel nums) }
    ensures more { IfOk result (λ nums. 3 * below.now.nodes ≤ nums.nodes) }
{
    let span = tested_span(below, k, f, c, s)?;
    Ok(LevelNums {
        blocks: k as u32,
        leaders: k.div_ceil(2) as u32,
        nodes: k as u32 * below.nodes + s as u32,
        faults: f as u32,
        beat: beat(f),
        span,
        modulus: c,
        spares: s as u32,
        bound: below.bound + span,
        bits: below.bits + register_bits(c),
    })
}
