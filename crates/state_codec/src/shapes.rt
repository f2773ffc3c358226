ghost use Rattle.std.specs.Prelude.{◌≡◌, ◌<◌, ◌≤◌, ◌+◌, ◌^◌, length, take, slice_index, All};
ghost use Rattle.std.specs.Prelude.{IfOk};
ghost use Rattle.construction.specs.Plans.{plan_depth, plan_nodes};
ghost use Rattle.state_codec.specs.Shapes.{shape_over, shape_of, shape_with, shape_nodes};
ghost use Rattle.state_codec.specs.Shapes.{fields_at, bits_in, bytes_in, IsShape};
ghost use Rattle.state_codec.specs.Ranges.{InRange};
ghost use Rattle.state_codec.specs.Writing.{written};
ghost use Rattle.state_codec.specs.Reading.{read};

use crate::fields::Fields;
use crate::making::{Moduli, copies, kind_among, kinds, level_moduli, node_lows};
use plan_numbers::Plan;
use std::alloc::Global;
use std::marker::Model;
use sync_types::{NoMemory, NodeState};

/// Which fields the states of nodes have, and so which bits they take: how many registers there
/// are, and for each node the modulus of its number, and that of each register, the lowest first,
/// each at most 2^40. A node that lacks its number has the modulus 1 there, and one that lacks a
/// register 0.
#[derive(Debug)]
pub struct StateShape {
    depth: usize,
    // The fields that there are, and which of these each node has.
    kinds: Vec<Fields>,
    which: Vec<usize>,
}

// Written out, so that code that drops one has a single call.
impl Drop for StateShape {
    fn drop(self) {
        let StateShape {
            depth: _,
            kinds,
            which,
        } = self;
        drop(kinds);
        drop(which);
    }
}

impl Model for StateShape {
    ghost use Rattle.state_codec.specs.Shapes.{Shape};
    ghost use Rattle.state_codec.specs.ShapesKept.{fields_by, IsValidShape};

    ghost Value = { Shape };

    ghost view = { λ s.
        record { depth = s.depth; fields = fields_by s.kinds.items s.which.items } };

    ghost invariant = { λ s.
        IsValidShape (record { depth = s.depth; fields = fields_by s.kinds.items s.which.items })
        s.kinds.items s.which.items };
}

impl StateShape {
    /// The shape of the states of a plan. It takes all the memory that the shape ever needs.
    pub fn of(alloc: Global, plan: &Plan) -> Result<StateShape, NoMemory>
        ensures shape { IfOk result (λ shape. shape ≡ shape_of plan.now) }
        ensures depth { IfOk result (λ shape. shape.depth ≡ plan_depth plan.now) }
        ensures nodes { IfOk result (λ shape. shape_nodes shape ≡ plan_nodes plan.now) }
    {
        plan.facts();
        let items = level_moduli(alloc, plan)?;
        StateShape::over(alloc, plan, Moduli { items })
    }

    /// The shape of a plan's states with one further register after the plan's, which every node
    /// has and whose values are those below `values`, 2 to 65536. It takes all the memory that the
    /// shape ever needs.
    pub fn with_register(alloc: Global, plan: &Plan, values: u64) -> Result<StateShape, NoMemory>
        requires least { 2 ≤ values }
        requires most { values ≤ 65536 }
        ensures { IfOk result (λ shape. shape ≡ shape_with plan.now values 1) }
    {
        StateShape::with_registers(alloc, plan, values, 1)
    }

    /// The shape of a plan's states with `count` further registers after the plan's, at most 2,
    /// which every node has and whose values are those below `values`, 2 to 65536. It takes all
    /// the memory that the shape ever needs.
    pub fn with_registers(
        alloc: Global,
        plan: &Plan,
        values: u64,
        count: usize,
    ) -> Result<StateShape, NoMemory>
        requires least { 2 ≤ values }
        requires most { values ≤ 65536 }
        requires few { count ≤ 2 }
        ensures { IfOk result (λ shape. shape ≡ shape_with plan.now values count) }
    {
        let mut items = level_moduli(alloc, plan)?;
        for _ in 0..count {
            items.push(values).map_err(|_| NoMemory)?;
        }
        StateShape::over(alloc, plan, Moduli { items })
    }

    /// A shape of these registers over a plan's number.
    fn over(alloc: Global, plan: &Plan, moduli: Moduli) -> Result<StateShape, NoMemory>
        ensures { IfOk result (λ shape. shape ≡ shape_over plan.now moduli.items.items) }
    {
        plan.facts();
        let depth = moduli.items.len();
        let kinds = kinds(alloc, plan, &moduli)?;
        let which = node_lows(alloc, plan)?;
        Ok(StateShape {
            depth,
            kinds,
            which,
        })
    }

    /// The shape of states of these fields by node, all of one depth. It takes all the memory that
    /// the shape ever needs.
    pub fn by_node(alloc: Global, depth: usize, nodes: &[Fields]) -> Result<StateShape, NoMemory>
        requires few { length nodes.now ≤ 256 }
        requires deep { All (λ fields. length fields.moduli ≡ depth) nodes.now }
        requires shape { IsShape (record { depth = depth; fields = nodes.now }) }
        ensures { IfOk result (λ shape. shape ≡ record { depth = depth; fields = nodes.now }) }
    {
        let mut kinds = Vec::new(alloc);
        let mut which = Vec::with_capacity(alloc, nodes.len())?;
        for v in 0..nodes.len() {
            let kind = kind_among(alloc, &mut kinds, &nodes[v])?;
            which.push(kind).map_err(|_| NoMemory)?;
        }
        Ok(StateShape {
            depth,
            kinds,
            which,
        })
    }

    /// The same shape. It takes all the memory that the shape ever needs.
    pub fn try_clone(&self, alloc: Global) -> Result<StateShape, NoMemory>
        ensures { IfOk result (λ made. made ≡ self.now) }
    {
        let kinds = copies(alloc, &self.kinds)?;
        let which = self.which.clone()?;
        Ok(StateShape {
            depth: self.depth,
            kinds,
            which,
        })
    }

    /// How many nodes there are, at most 256.
    pub fn nodes(&self) -> u32
        ensures value { result ≡ shape_nodes self.now }
        ensures most { result ≤ 256 }
    {
        self.which.len() as u32
    }

    /// How many registers a state has, those that a node lacks among them.
    pub fn depth(&self) -> usize
        ensures { result ≡ self.now.depth }
    {
        self.depth
    }

    /// Tells a caller's proof that the moduli are within the limits. It does nothing when it runs.
    pub fn facts(&self)
        ensures { IsShape self.now }
    {
        let _depth = self.depth;
    }

    /// The fields of node `v`.
    pub(crate) fn fields(&self, v: u32) -> &Fields
        requires { v < shape_nodes self.now }
        ensures { result.now ≡ fields_at self.now v }
    {
        &self.kinds[self.which[v as usize]]
    }

    /// The modulus of the number of node `v`, at most 2^40; it is 1 if the node lacks a number.
    pub fn base_of(&self, v: u32) -> u64
        requires { v < shape_nodes self.now }
        ensures value { result ≡ (fields_at self.now v).base }
        ensures least { 1 ≤ result }
        ensures most { result ≤ 2 ^ 40 }
    {
        self.fields(v).base()
    }

    /// The modulus of register `i` of node `v`, the lowest being 0. It is at most 2^40, and 0 if
    /// the node lacks the register.
    pub fn modulus_of(&self, v: u32, i: usize) -> u64
        requires node { v < shape_nodes self.now }
        requires register { i < self.now.depth }
        ensures value { result ≡ slice_index (fields_at self.now v).moduli i }
        ensures most { result ≤ 2 ^ 40 }
    {
        self.fields(v).register(i).modulus
    }

    /// How many bits a state of node `v` has, without padding.
    pub fn bits_of(&self, v: u32) -> u32
        requires { v < shape_nodes self.now }
        ensures { result ≡ bits_in (fields_at self.now v) }
    {
        self.fields(v).bits()
    }

    /// How many bytes a state of node `v` has, at most 128.
    pub fn bytes_of(&self, v: u32) -> usize
        requires { v < shape_nodes self.now }
        ensures value { result ≡ bytes_in (fields_at self.now v) }
        ensures most { result ≤ 128 }
    {
        self.fields(v).bytes()
    }

    /// How many bits a state of node 0 has, without padding. That node of a plan has all fields. It
    /// is 0 if there are no nodes.
    pub fn bits(&self) -> u32
        ensures { result ≡ bits_in (fields_at self.now 0) }
    {
        self.facts();
        if self.nodes() == 0 {
            return 0;
        }
        self.bits_of(0)
    }

    /// How many bytes a state of node 0 has, at most 128. That node of a plan has all fields. It is
    /// 0 if there are no nodes.
    pub fn bytes(&self) -> usize
        ensures value { result ≡ bytes_in (fields_at self.now 0) }
        ensures most { result ≤ 128 }
    {
        self.facts();
        if self.nodes() == 0 {
            return 0;
        }
        self.bytes_of(0)
    }

    /// The modulus of register `i` of node 0, the lowest being 0. That node of a plan has all
    /// fields. It is at most 2^40, and 0 if the node lacks the register.
    pub fn modulus(&self, i: usize) -> u64
        requires { i < self.now.depth }
        ensures value { result ≡ slice_index (fields_at self.now 0).moduli i }
        ensures most { result ≤ 2 ^ 40 }
    {
        self.facts();
        self.modulus_of(0, i)
    }

    /// Writes the bytes of a state of node `v` into `out`, which has just their length,
    /// `bytes_of(v)`.
    pub fn write_state(&self, v: u32, state: &NodeState, out: &mut [u8])
        requires node { v < shape_nodes self.now }
        requires range { InRange (fields_at self.now v) state.now }
        requires length { length out.old ≡ bytes_in (fields_at self.now v) }
        ensures { out.new ≡ written (fields_at self.now v) state.now }
    {
        self.fields(v).write_state(state, out);
    }

    /// Reads a state of node `v` from any bytes into `out`, which has the depth of the shape. Bytes
    /// that are not exactly as many as a state of the node has stand for the zero state. A number
    /// of its modulus or more is read as 0, and a value as infinity; padding is ignored, and what
    /// the node lacks is zero.
    pub fn read_state(&self, v: u32, bytes: &[u8], out: &mut NodeState)
        requires node { v < shape_nodes self.now }
        requires depth { length out.old.registers ≡ self.now.depth }
        ensures value { out.new ≡ read (fields_at self.now v) bytes.now }
        ensures range { InRange (fields_at self.now v) out.new }
    {
        self.fields(v).read_state(bytes, out);
    }

    /// Reads a state of node `v` from the beginning of bytes into `out`, which has the depth of the
    /// shape; eight more bytes stand after it. It is read as [`read_state`](StateShape::read_state)
    /// reads it.
    pub fn read_front(&self, v: u32, bytes: &[u8], out: &mut NodeState)
        requires node { v < shape_nodes self.now }
        requires within { bytes_in (fields_at self.now v) + 8 ≤ length bytes.now }
        requires depth { length out.old.registers ≡ self.now.depth }
        ensures value { out.new ≡ read (fields_at self.now v)
            (take (bytes_in (fields_at self.now v)) bytes.now) }
        ensures range { InRange (fields_at self.now v) out.new }
    {
        self.fields(v).read_front(bytes, out);
    }
}
