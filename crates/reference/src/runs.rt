//! Runs of scripts over plans of either construction, computed plainly and slowly from what a plan
//! and a script mean.

use crate::constructions::{Construction, Shape, shown};
use crate::layers::{Heard, Part};
use crate::scripts::Script;
use crate::states::{State, ZERO_STATE, state_of};
use std::alloc::{AllocError, Global};
use std::mem;

/// What is played: a script over a plan with a part, whose nodes are of a shape.
pub struct Played<'a, C> {
    pub plan: &'a C,
    pub shape: &'a Shape,
    pub script: &'a Script,
    pub part: &'a Part,
}

// Written out, since no parameter has to be dropped.
impl<C> Drop for Played<'_, C> {
    fn drop(self) {
        let Played {
            plan: _,
            shape: _,
            script: _,
            part: _,
        } = self;
    }
}

/// A run that is at a configuration.
pub struct Run<'a, C> {
    pub played: &'a Played<'a, C>,
    pub config: Vec<State>,
    next: Vec<State>,
    heard: Vec<State>,
    pub at: u64,
}

// Written out, so that code that drops one has a single call.
impl<C> Drop for Run<'_, C> {
    fn drop(self) {
        let Run {
            played: _,
            config,
            next,
            heard,
            at: _,
        } = self;
        drop(config);
        drop(next);
        drop(heard);
    }
}

impl<'a, C: Construction> Run<'a, C> {
    /// A run at its first configuration.
    pub fn begin(alloc: Global, played: &'a Played<'a, C>) -> Result<Run<'a, C>, AllocError> {
        let nodes = played.shape.numbers.nodes as usize;
        let mut run = Run {
            played,
            config: vec![in alloc; ZERO_STATE; nodes]?,
            next: vec![in alloc; ZERO_STATE; nodes]?,
            heard: vec![in alloc; ZERO_STATE; nodes]?,
            at: 0,
        };
        for (node, state) in run.config.iter_mut().enumerate() {
            let node = node as u64;
            *state = played.script.start(&played.shape.fields(node), node);
        }
        Ok(run)
    }

    /// Whether a node is faulty in the configuration.
    pub fn is_faulty(&self, node: u64) -> bool {
        self.played.script.faulty_at(self.at).contains(&node)
    }

    /// What a node says to another: a correct one its state, and a faulty one a lie.
    fn told(&self, sender: u64, receiver: u64) -> State {
        if sender != receiver && self.is_faulty(sender) {
            let fields = self.played.shape.fields(sender);
            let script = self.played.script;
            script.lie(&fields, &self.config, self.at, sender, receiver)
        } else {
            state_of(&self.config, sender)
        }
    }

    /// What a node hears in the round.
    pub fn hear(&mut self, receiver: u64) -> &[State] {
        for sender in 0..self.played.shape.numbers.nodes {
            let told = self.told(sender, receiver);
            if let Some(heard) = self.heard.get_mut(sender as usize) {
                *heard = told;
            }
        }
        &self.heard
    }

    /// Puts a node's new registers of the layer after those of the counter, by what it heard.
    fn put_layer(&self, node: u64, state: &mut State) {
        let heard = Heard {
            at: self.at,
            node,
            output: shown(self.played.plan, &state_of(&self.heard, node)),
            states: &self.heard,
        };
        let numbers = &self.played.shape.numbers;
        self.played.part.step(numbers, &heard, state);
    }

    /// The state of a node after the round. Some nodes are put into states when an era begins; what
    /// they keep goes on all the same.
    fn next_of(&mut self, node: u64) -> State {
        let plan = self.played.plan;
        let mut state = plan.stepped(node, self.hear(node));
        if self.played.part.is_layer() {
            self.put_layer(node, &mut state);
        }
        if let Some(bytes) = self.played.script.hit(self.at.wrapping_add(1), node) {
            let kept = state.kept;
            state = self.played.shape.fields(node).read(bytes);
            state.kept = kept;
        }
        state
    }

    /// Plays a round: every node steps from what it hears.
    pub fn round(&mut self) {
        for node in 0..self.played.shape.numbers.nodes {
            let state = self.next_of(node);
            if let Some(next) = self.next.get_mut(node as usize) {
                *next = state;
            }
        }
        mem::swap(&mut self.config, &mut self.next);
        self.at = self.at.wrapping_add(1);
    }

    /// What a node shows.
    pub fn output(&self, node: u64) -> u64 {
        shown(self.played.plan, &state_of(&self.config, node))
    }

    /// Whether the top registers of all correct nodes are one, finite and marked.
    pub fn is_locked(&self) -> bool {
        let Some(top) = self.played.plan.top() else {
            return true;
        };
        let mut common: Option<u64> = None;
        for (node, state) in self.config.iter().enumerate() {
            if !self.is_faulty(node as u64) {
                let register = state.register(top);
                let is_other = common.is_some() && common != register.value;
                if register.value.is_none() || !register.mark || is_other {
                    return false;
                }
                common = register.value;
            }
        }
        true
    }
}
