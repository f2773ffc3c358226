//! What both constructions have: plans, whose nodes have states of some fields, and step.

use crate::numbers::Numbers;
use crate::states::{Fields, LAYER, NO_FIELDS, State};
use crate::texts::Text;
use std::alloc::{AllocError, Global};

/// A plan of a construction.
pub trait Construction {
    /// Its numbers.
    fn numbers(&self) -> Numbers;

    /// The fields of the states of a node, without a layer.
    fn fields(&self, node: u64) -> Fields;

    /// The register that nodes show, and at which they are locked; none if they have none, and
    /// show their numbers.
    fn top(&self) -> Option<usize>;

    /// The state of a node after a round in which it hears these states, its own among them. What
    /// the node lacks, and the registers of a layer, stay as they stand.
    fn stepped(&self, node: u64, heard: &[State]) -> State;

    /// Writes the lines of the plan.
    fn write(&self, out: &mut Text);
}

/// How many registers a layer has, and below what their values are.
#[derive(Clone, Copy)]
pub struct Layer {
    pub registers: usize,
    pub values: u64,
}

/// The numbers of a plan, and the fields of the states of each node, with a layer.
#[derive(Drop)]
pub struct Shape {
    pub numbers: Numbers,
    fields: Vec<Fields>,
}

impl Shape {
    /// That of the nodes of a plan with a layer.
    pub fn of<C: Construction>(alloc: Global, plan: &C, layer: Layer) -> Result<Shape, AllocError> {
        let numbers = plan.numbers();
        let mut all = Vec::new(alloc);
        for node in 0..numbers.nodes {
            let mut fields = plan.fields(node);
            for register in 0..layer.registers {
                fields.put(LAYER.saturating_add(register), layer.values);
            }
            all.push(fields)?;
        }
        Ok(Shape {
            numbers,
            fields: all,
        })
    }

    /// The fields of a node.
    pub fn fields(&self, node: u64) -> Fields {
        self.fields.get(node as usize).copied().unwrap_or(NO_FIELDS)
    }
}

/// What a state of a plan shows: its number, or the value of the register on top, 0 if that is
/// infinite.
pub fn shown<C: Construction>(plan: &C, state: &State) -> u64 {
    match plan.top() {
        None => state.x,
        Some(top) => state.register(top).value.unwrap_or(0),
    }
}
