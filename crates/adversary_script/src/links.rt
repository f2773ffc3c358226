ghost use Rattle.std.specs.Prelude.{◌<◌, All, IfOk};
ghost use Rattle.adversary_script.specs.Links.{IsLinked};

use crate::lies::Lie;
use std::alloc::Global;
use sync_types::NoMemory;

/// Where the lies of each sender stand among all lies, so that those of one are found without the
/// others. If there is none, a place is the number of lies.
pub struct Links {
    /// For each node the place of its first lie.
    pub firsts: Vec<usize>,
    /// For each lie the place of the next one of its sender.
    pub nexts: Vec<usize>,
}

// Written out, so that code that drops one has a single call.
impl Drop for Links {
    fn drop(self) {
        let Links { firsts, nexts } = self;
        drop(firsts);
        drop(nexts);
    }
}

/// Links the lies of each sender, for so many nodes.
pub fn link(alloc: Global, nodes: u32, lies: &[Lie]) -> Result<Links, NoMemory>
    requires { All (λ lie. lie.sender < nodes) lies.now }
    ensures { IfOk result (λ links. IsLinked nodes lies.now links.firsts.items links.nexts.items) }
{
    let count = lies.len();
    let mut firsts = vec![in alloc; count; nodes as usize]?;
    let mut nexts = vec![in alloc; count; count]?;
    let mut i = count;
    while i > 0 {
        i -= 1;
        let sender = lies[i].sender as usize;
        nexts[i] = firsts[sender];
        firsts[sender] = i;
    }
    Ok(Links { firsts, nexts })
}
