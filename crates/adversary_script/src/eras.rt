ghost use Rattle.std.specs.Prelude.{◌≡◌, ◌≤◌, ◌+◌, length, is_some, unwrap_or, IfSome};
ghost use Rattle.std.specs.Option.{option_map};
ghost use Rattle.state_codec.specs.Shapes.{fields_at};
ghost use Rattle.state_codec.specs.Ranges.{InRange};
ghost use Rattle.adversary_script.specs.Scripts.{AreInRange};
ghost use Rattle.adversary_script.specs.Eras.{era_of, first_of_era, faulty_of_era, faulty_at};
ghost use Rattle.adversary_script.specs.Eras.{starts_of_era};
ghost use Rattle.adversary_script.specs.Lookup.{start_in};

use crate::lies::Start;
use crate::scripts::Script;
use sync_types::{FaultSet, NodeState};

impl Script {
    /// How many eras there are, era 0 among them: 1 to 17. A script of version 1 has one.
    pub fn eras(&self) -> usize
        ensures value { result ≡ length self.now.eras + 1 }
        ensures most { result ≤ 17 }
    {
        self.parts.eras.len() + 1
    }

    /// The first configuration of era `j`.
    pub fn era_start(&self, j: usize) -> u64
        requires { j ≤ length self.now.eras }
        ensures { result ≡ first_of_era self.now j }
    {
        if j == 0 {
            return 0;
        }
        self.parts.eras[j - 1].first
    }

    /// The era of configuration `t`, and of the round that begins with it.
    pub fn era_of(&self, t: u64) -> usize
        ensures value { result ≡ era_of self.now t }
        ensures most { result ≤ length self.now.eras }
    {
        let mut begun = 0;
        for era in &self.parts.eras {
            if era.first <= t {
                begun += 1;
            }
        }
        begun
    }

    /// The nodes that are faulty in era `j`.
    pub fn era_faulty(&self, j: usize) -> &FaultSet
        requires { j ≤ length self.now.eras }
        ensures { result.now ≡ record { nodes = self.now.nodes; ids = faulty_of_era self.now j } }
    {
        if j == 0 {
            return &self.faulty;
        }
        &self.parts.eras[j - 1].faulty
    }

    /// The nodes that are faulty in configuration `t`, and in the round that begins with it.
    pub fn faulty_at(&self, t: u64) -> &FaultSet
        ensures { result.now ≡ record { nodes = self.now.nodes; ids = faulty_at self.now t } }
    {
        self.era_faulty(self.era_of(t))
    }

    /// The start lines of era `j`.
    fn era_starts(&self, j: usize) -> &[Start]
        requires { j ≤ length self.now.eras }
        ensures value { result.now ≡ starts_of_era self.now j }
        ensures range { AreInRange self.now.shape result.now }
    {
        if j == 0 {
            return &self.parts.starts;
        }
        &self.parts.eras[j - 1].starts
    }

    /// The state that a start line of era `j` gives node `v`.
    pub(crate) fn start_in(&self, j: usize, v: u32) -> Option<&NodeState>
        requires { j ≤ length self.now.eras }
        ensures found { option_map (λ state. state.now) result
            ≡ start_in (starts_of_era self.now j) v }
        ensures range { IfSome result (λ state. InRange (fields_at self.now.shape v) state.now) }
        ensures depth { IfSome result (λ state. length state.now.registers
            ≡ self.now.shape.depth) }
    {
        for start in self.era_starts(j) {
            if start.node == u64::from(v) {
                return Some(&start.state);
            }
        }
        None
    }

    /// Whether a start line of era `j` gives node `v` its state.
    pub fn hits(&self, j: usize, v: u32) -> bool
        requires { j ≤ length self.now.eras }
        ensures { result ≡ is_some (start_in (starts_of_era self.now j) v) }
    {
        self.start_in(j, v).is_some()
    }

    /// Writes the state that a start line of era `j` gives node `v`, and answers whether there is
    /// one. Else `out` is unchanged. `out` has the depth of the states for which the script was
    /// read. It takes no memory.
    pub fn hit_into(&self, j: usize, v: u32, out: &mut NodeState) -> bool
        requires era { j ≤ length self.now.eras }
        requires depth { length out.old.registers ≡ self.now.shape.depth }
        ensures hits { result ≡ is_some (start_in (starts_of_era self.now j) v) }
        ensures value { out.new ≡ unwrap_or (start_in (starts_of_era self.now j) v) out.old }
        ensures range { InRange (fields_at self.now.shape v) out.old
            → InRange (fields_at self.now.shape v) out.new }
    {
        match self.start_in(j, v) {
            Some(state) => {
                out.copy_from(state);
                true
            }
            None => false,
        }
    }
}
