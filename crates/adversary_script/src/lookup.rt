ghost use Rattle.std.specs.Prelude.{◌≡◌, ◌<◌, ◌≤◌, true, IfSome};
ghost use Rattle.std.specs.Option.{option_map};
ghost use Rattle.state_codec.specs.Shapes.{fields_at};
ghost use Rattle.adversary_script.specs.Scripts.{IsLying, most_rounds};
ghost use Rattle.sync_types.specs.FaultSets.{is_in};
ghost use Rattle.adversary_script.specs.Eras.{faulty_at};
ghost use Rattle.adversary_script.specs.Lookup.{hears, speaks, lie_for};

use crate::lies::{Lie, Who};
use crate::scripts::Script;

impl Script {
    /// Whether a node is among those who hear a lie.
    fn hears(&self, who: Who, v: u32) -> bool
        ensures { result ≡ hears self.now.groups who v }
    {
        match who {
            Who::All => true,
            Who::Ids(first, last) => first <= u64::from(v) && u64::from(v) <= last,
            Who::Group(i) => self.parts.groups.contains(i, v),
        }
    }

    /// Whether a rule says what node `u` tells node `v` in round `t`.
    fn speaks(&self, t: u64, u: u32, v: u32, lie: &Lie) -> bool
        ensures { result ≡ speaks self.now.groups t u v lie.now }
    {
        lie.sender == u64::from(u) && lie.first <= t && t <= lie.last && self.hears(lie.who, v)
    }

    /// The first rule that says what node `u`, faulty in round `t`, tells node `v` in it.
    pub(crate) fn lie_for(&self, t: u64, u: u32, v: u32) -> Option<&Lie>
        requires { is_in (faulty_at self.now t) u ≡ true }
        ensures found { option_map (λ lie. lie.now) result ≡ lie_for self.now t u v }
        ensures sender { u < self.now.nodes }
        ensures few { self.now.rounds ≤ most_rounds }
        ensures what { IfSome result
            (λ lie. IsLying self.now.nodes (fields_at self.now.shape u) lie.now.what) }
    {
        let mut at = self.links.firsts[u as usize];
        while at < self.parts.lies.len() {
            let lie = &self.parts.lies[at];
            if self.speaks(t, u, v, lie) {
                return Some(lie);
            }
            at = self.links.nexts[at];
        }
        None
    }
}
