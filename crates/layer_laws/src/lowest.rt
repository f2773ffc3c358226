ghost use Rattle.std.specs.Prelude.{◌≡◌, ◌<◌};
ghost use Rattle.layer_laws.specs.Lowest.{lowest_correct};

use sync_types::FaultSet;

/// The lowest id below `nodes` of a correct node, 0 if there is none.
pub fn lowest_correct(nodes: u32, faulty: &FaultSet) -> u32
    ensures value { result ≡ lowest_correct nodes faulty.now.ids }
    ensures below { 0 < nodes → result < nodes }
{
    for v in 0..nodes {
        if !faulty.contains(v) {
            return v;
        }
    }
    0
}
