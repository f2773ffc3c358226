//! What the nodes of a block point to by their outputs, and the laws of pointers: how long a
//! pointer stays and what comes next, and that the pointers of all blocks meet for a whole beat. No
//! call takes memory.
#![tactic(auto)]

pub mod laws;

ghost use Rattle.std.specs.Prelude.{◌≡◌, ◌≤◌, ◌^◌};
ghost use Rattle.construction.specs.Plans.{interval_of};
ghost use Rattle.construction.specs.Pointers.{pointer_of, part_of};

/// The leader, below `leaders`, to which the nodes of block `i` point at the output `o`. Block `i`
/// keeps its pointer for `beat * (2 * leaders)^i` outputs, and then goes on to the next leader.
pub fn pointer(beat: u64, leaders: u32, i: u32, o: u64) -> u64
    requires beat { 1 ≤ beat }
    requires leaders { 1 ≤ leaders }
    requires interval { interval_of beat leaders i ≤ 2 ^ 40 }
    ensures { result ≡ pointer_of beat leaders i o }
{
    let interval = beat * (2 * u64::from(leaders)).pow(i);
    o / interval % u64::from(leaders)
}

/// The part of the beat, below `beat`, at the output `o`.
pub fn part(beat: u64, o: u64) -> u64
    requires { 1 ≤ beat }
    ensures { result ≡ part_of beat o }
{
    o % beat
}
