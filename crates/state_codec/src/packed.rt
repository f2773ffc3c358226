ghost use Rattle.std.specs.Prelude.{◌≡◌, ◌+◌, ◌*◌, ◌<◌, ◌≤◌, ℕ, ◌++◌, length, take, drop};
ghost use Rattle.std.specs.Prelude.{slice_set, IfOk};
ghost use Rattle.sync_types.specs.States.{register_at};
ghost use Rattle.construction.specs.Steps.{state_of};
ghost use Rattle.state_codec.specs.Shapes.{fields_at, bytes_in, shape_nodes, IsShape};
ghost use Rattle.state_codec.specs.Ranges.{InRange};
ghost use Rattle.state_codec.specs.Writing.{written};
ghost use Rattle.state_codec.specs.Reading.{read};
ghost use Rattle.state_codec.specs.Packs.{zeros, start_of, starts_of};

use crate::fields::Fields;
use crate::shapes::StateShape;
use std::alloc::Global;
use std::marker::Model;
use std::mem;
use sync_types::{NoMemory, NodeState, Reg};

/// Two configurations: the current one, whose states are read, and the next one, whose states are
/// written. Each is held as the bytes of its states, one node's after the other's. It is seen as
/// the states.
#[derive(Debug)]
pub struct Packed {
    shape: StateShape,
    nodes: u32,
    // Where the bytes of each node begin, and where the last ones end.
    starts: Vec<usize>,
    // The bytes of the states, and eight more, so that a field is read by one load.
    current: Vec<u8>,
    next: Vec<u8>,
}

// Written out, so that code that drops one has a single call.
impl Drop for Packed {
    fn drop(self) {
        let Packed {
            shape,
            nodes: _,
            starts,
            current,
            next,
        } = self;
        drop(shape);
        drop(starts);
        drop(current);
        drop(next);
    }
}

impl Model for Packed {
    ghost use Rattle.state_codec.specs.Packs.{Pack, IsPack, states_in};

    ghost Value = { Pack };

    ghost view = { λ p. record {
      shape = p.shape;
      current = states_in p.shape p.nodes p.current.items;
      next = states_in p.shape p.nodes p.next.items;
    } };

    ghost invariant = { λ p. IsPack p.shape p.nodes p.starts.items p.current.items p.next.items };
}

/// Where the bytes of each of so many nodes begin, and where the last ones end.
fn starts_of(alloc: Global, shape: &StateShape, nodes: u32) -> Result<Vec<usize>, NoMemory>
    requires { nodes ≤ shape_nodes shape.now }
    ensures starts { IfOk result (λ starts. starts.items ≡ starts_of shape.now nodes) }
    ensures most { IfOk result (λ starts. start_of shape.now nodes ≤ 128 * nodes) }
{
    let mut starts = Vec::with_capacity(alloc, nodes as usize + 1)?;
    let mut start = 0;
    for v in 0..nodes {
        starts.push(start).map_err(|_| NoMemory)?;
        start += shape.bytes_of(v);
    }
    starts.push(start).map_err(|_| NoMemory)?;
    Ok(starts)
}

/// Writes the bytes of a state into their place among others.
fn write_at(fields: &Fields, state: &NodeState, start: usize, bytes: &mut [u8])
    requires within { start + bytes_in fields.now ≤ length bytes.old }
    requires range { InRange fields.now state.now }
    ensures { bytes.new ≡ take start bytes.old
        ++ (written fields.now state.now ++ drop (start + bytes_in fields.now) bytes.old) }
{
    let end = start + fields.bytes();
    fields.write_state(state, &mut bytes[start..end]);
}

impl Packed {
    /// Two configurations of `nodes` nodes, at most those of the shape, whose states are all zero.
    /// It takes all the memory that they ever need.
    pub fn new(alloc: Global, shape: StateShape, nodes: u32) -> Result<Packed, NoMemory>
        requires { nodes ≤ shape_nodes shape }
        ensures { IfOk result (λ packed. packed
            ≡ record { shape = shape; current = zeros shape nodes; next = zeros shape nodes }) }
    {
        shape.facts();
        let _most = shape.nodes();
        let starts = starts_of(alloc, &shape, nodes)?;
        let room = starts[nodes as usize] + 8;
        let current = vec![in alloc; 0; room]?;
        let next = vec![in alloc; 0; room]?;
        Ok(Packed {
            shape,
            nodes,
            starts,
            current,
            next,
        })
    }

    /// The shape of the states.
    pub fn shape(&self) -> &StateShape
        ensures { result.now ≡ self.now.shape }
    {
        &self.shape
    }

    /// How many nodes each configuration has, at most 256.
    pub fn nodes(&self) -> u32
        ensures current { result ≡ length self.now.current }
        ensures next { result ≡ length self.now.next }
        ensures most { result ≤ 256 }
    {
        self.nodes
    }

    /// Tells a caller's proof that each configuration has a state in range for each node, and at
    /// most as many as the shape. It does nothing when it runs.
    pub fn facts(&self)
        ensures sound { IsShape self.now.shape }
        ensures few { length self.now.current ≤ shape_nodes self.now.shape }
        ensures size { length self.now.next ≡ length self.now.current }
        ensures current { (v : ℕ) → v < length self.now.current
            → InRange (fields_at self.now.shape v) (state_of self.now.current v) }
        ensures next { (v : ℕ) → v < length self.now.next
            → InRange (fields_at self.now.shape v) (state_of self.now.next v) }
    {
        let _nodes = self.nodes;
    }

    /// The bytes of the current state of node `v`, and after them at least eight more.
    fn rest(&self, v: u32) -> &[u8]
        requires { v < length self.now.current }
        ensures within { bytes_in (fields_at self.now.shape v) + 8 ≤ length result.now }
        ensures whole { take (bytes_in (fields_at self.now.shape v)) result.now
            ≡ written (fields_at self.now.shape v) (state_of self.now.current v) }
        ensures state { read (fields_at self.now.shape v)
            (take (bytes_in (fields_at self.now.shape v)) result.now)
            ≡ state_of self.now.current v }
    {
        &self.current[self.starts[v as usize]..]
    }

    /// The fields of the states of node `v`.
    fn fields(&self, v: u32) -> &Fields
        requires { v < length self.now.current }
        ensures same { result.now ≡ fields_at self.now.shape v }
        ensures depth { length result.now.moduli ≡ self.now.shape.depth }
    {
        self.shape.fields(v)
    }

    /// Reads the current state of node `v` into `out`, which has the depth of the shape.
    pub fn old(&self, v: u32, out: &mut NodeState)
        requires node { v < length self.now.current }
        requires depth { length out.old.registers ≡ self.now.shape.depth }
        ensures { out.new ≡ state_of self.now.current v }
    {
        self.fields(v).read_front(self.rest(v), out);
    }

    /// Reads the number and the lowest registers of the current state of node `v` into `out`, as
    /// many as that has, at most those of the shape.
    pub fn front(&self, v: u32, out: &mut NodeState)
        requires node { v < length self.now.current }
        requires depth { length out.old.registers ≤ self.now.shape.depth }
        ensures { out.new ≡ record {
          x = (state_of self.now.current v).x;
          registers = take (length out.old.registers) (state_of self.now.current v).registers;
        } }
    {
        self.fields(v).read_lowest(self.rest(v), out);
    }

    /// The number of the current state of node `v`.
    pub fn x(&self, v: u32) -> u64
        requires { v < length self.now.current }
        ensures { result ≡ (state_of self.now.current v).x }
    {
        self.fields(v).number_of(self.rest(v))
    }

    /// Register `i` of the current state of node `v`, the lowest being 0.
    pub fn reg(&self, v: u32, i: usize) -> Reg
        requires node { v < length self.now.current }
        requires register { i < self.now.shape.depth }
        ensures { result ≡ register_at i (state_of self.now.current v) }
    {
        self.fields(v).register_of(self.rest(v), i)
    }

    /// The bytes of the current state of node `v`.
    pub fn bytes(&self, v: u32) -> &[u8]
        requires { v < length self.now.current }
        ensures { result.now
            ≡ written (fields_at self.now.shape v) (state_of self.now.current v) }
    {
        &self.rest(v)[..self.fields(v).bytes()]
    }

    /// Makes a state the next one of node `v`.
    pub fn put(&mut self, v: u32, state: &NodeState)
        requires node { v < length self.old.next }
        requires range { InRange (fields_at self.old.shape v) state.now }
        ensures { self.new ≡ record self.old { next = slice_set self.old.next v state.now } }
    {
        let start = self.starts[v as usize];
        write_at(self.shape.fields(v), state, start, &mut self.next);
    }

    /// Makes a state the current one of node `v`.
    pub fn set(&mut self, v: u32, state: &NodeState)
        requires node { v < length self.old.current }
        requires range { InRange (fields_at self.old.shape v) state.now }
        ensures { self.new ≡ record self.old { current = slice_set self.old.current v state.now } }
    {
        self.flip();
        self.put(v, state);
        self.flip();
    }

    /// Exchanges the two configurations.
    pub fn flip(&mut self)
        ensures { self.new ≡ record self.old { current = self.old.next; next = self.old.current } }
    {
        mem::swap(&mut self.current, &mut self.next);
    }
}
