ghost use Rattle.std.specs.Prelude.{◌≡◌, ◌<◌, ◌≤◌, ◌^◌, slice_index, nat_lt};
ghost use Rattle.state_codec.specs.Shapes.{fields_at, shape_nodes};

use state_codec::StateShape;

/// Which fields the states of one node have.
#[derive(Clone, Copy, Drop)]
pub struct NodeShape<'a> {
    /// The shape of the states of all nodes.
    pub shape: &'a StateShape,
    /// The node.
    pub node: u32,
    ghost among: { node < shape_nodes shape.now },
}

impl NodeShape<'_> {
    /// Whether the node has a number that says something: it has more than one value.
    pub fn has_number(&self) -> bool
        ensures { result ≡ nat_lt 1 (fields_at self.now.shape.now self.now.node).base }
    {
        self.shape.base_of(self.node) > 1
    }

    /// The modulus of register `i`, at most 2^40, and 0 if the node lacks the register.
    pub fn modulus(&self, i: usize) -> u64
        requires { i < self.now.shape.now.depth }
        ensures value { result
            ≡ slice_index (fields_at self.now.shape.now self.now.node).moduli i }
        ensures most { result ≤ 2 ^ 40 }
    {
        self.shape.modulus_of(self.node, i)
    }
}
