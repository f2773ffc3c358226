//! Scripts that are drawn.

use crate::drawn_states::Near;
use crate::draws::Draws;
use reference::constructions::Shape;
use reference::scripts::{Era, Lie, Receivers, Rule, Script, Start};
use std::alloc::AllocError;

/// How many lies a script may have.
const MOST_LIES: usize = 256;

/// How long eras are, by the version of their script: of version 1 there is one.
#[derive(Clone, Copy)]
pub struct Length {
    pub version: u64,
    /// For about how many rounds most eras go on after the bound. If 0, they are short.
    pub behind: u64,
}

impl Draws {
    /// How long an era is; one in three may be short.
    fn length(&mut self, shape: &Shape, behind: u64, may_be_short: bool) -> u64 {
        if behind == 0 || may_be_short && self.once_in(3) {
            self.between(1, 12)
        } else {
            shape.numbers.bound.wrapping_add(self.between(1, behind))
        }
    }

    /// Faulty nodes: mostly as many as the plan tolerates.
    fn faulty(&mut self, shape: &Shape) -> Result<Vec<u64>, AllocError> {
        let mut wanted = shape.numbers.faults;
        if self.once_in(4) {
            wanted = self.below(wanted.wrapping_add(1));
        }
        self.some(shape.numbers.nodes, wanted)
    }

    /// The bytes in which some nodes start: all but one in `often`.
    fn starts(&mut self, shape: &Shape, near: &Near, often: u64) -> Result<Vec<Start>, AllocError> {
        let mut starts = Vec::new(self.alloc);
        for node in 0..shape.numbers.nodes {
            if !self.once_in(often) {
                let bytes = self.state_bytes(shape, near, node)?;
                starts.push(Start { node, bytes })?;
            }
        }
        Ok(starts)
    }

    /// An era from a configuration on.
    fn era(&mut self, shape: &Shape, near: &Near, first: u64) -> Result<Era, AllocError> {
        let often = self.between(1, 3);
        Ok(Era {
            first,
            faulty: self.faulty(shape)?,
            starts: self.starts(shape, near, often)?,
        })
    }

    /// Puts a few eras into a script, and says with which configuration the last one begins.
    fn put_eras(
        &mut self,
        shape: &Shape,
        near: &Near,
        length: Length,
        script: &mut Script,
    ) -> Result<u64, AllocError> {
        let mut first = 0u64;
        let most = if length.behind == 0 { 4 } else { 3 };
        if length.version == 2 {
            for _ in 0..self.below(most) {
                first = first.wrapping_add(self.length(shape, length.behind, true));
                let era = self.era(shape, near, first)?;
                script.eras.push(era)?;
            }
        }
        Ok(first)
    }

    /// Groups of nodes.
    fn groups(&mut self, nodes: u64) -> Result<Vec<Vec<u64>>, AllocError> {
        let mut groups = Vec::new(self.alloc);
        for _ in 0..self.below(5) {
            let size = self.between(1, nodes);
            groups.push(self.some(nodes, size)?)?;
        }
        Ok(groups)
    }

    /// Who of so many nodes hears a lie, if there are so many groups.
    fn receivers(&mut self, nodes: u64, groups: u64) -> Receivers {
        match self.below(3) {
            0 => Receivers::All,
            1 if groups > 0 => Receivers::Group(self.below(groups) as usize),
            _ => {
                let first = self.below(nodes);
                Receivers::Between(first, self.between(first, nodes.wrapping_sub(1)))
            }
        }
    }

    /// What a sender's lie is.
    fn lie(&mut self, shape: &Shape, near: &Near, sender: u64) -> Result<Lie, AllocError> {
        Ok(match self.below(5) {
            0 => Lie::Noise,
            1 => Lie::Copy(self.below(shape.numbers.nodes)),
            2 => Lie::Shift(self.below(4)),
            3 => Lie::Shift(self.below(999999999999999)),
            _ => Lie::Bytes(self.state_bytes(shape, near, sender)?),
        })
    }

    /// A rule for a sender in a script.
    fn rule(
        &mut self,
        shape: &Shape,
        near: &Near,
        script: &Script,
        sender: u64,
    ) -> Result<Rule, AllocError> {
        let end = script.rounds.wrapping_add(1);
        let first = if self.once_in(2) { 0 } else { self.below(end) };
        let last = if self.once_in(3) {
            self.between(first, end)
        } else {
            end
        };
        Ok(Rule {
            first,
            last,
            sender,
            receivers: self.receivers(shape.numbers.nodes, script.groups.len() as u64),
            lie: self.lie(shape, near, sender)?,
        })
    }

    /// The nodes of a script that are faulty at some time.
    fn liars(&mut self, script: &Script) -> Result<Vec<u64>, AllocError> {
        let mut liars = Vec::from_slice(self.alloc, &script.faulty)?;
        for era in &script.eras {
            liars.extend_from_slice(&era.faulty)?;
        }
        Ok(liars)
    }

    /// Puts groups and rules into a script, for nodes that are faulty at some time.
    fn put_rules(
        &mut self,
        shape: &Shape,
        near: &Near,
        script: &mut Script,
    ) -> Result<(), AllocError> {
        script.groups = self.groups(shape.numbers.nodes)?;
        for sender in &self.liars(script)? {
            for _ in 0..self.below(5) {
                if script.rules.len() < MOST_LIES {
                    let rule = self.rule(shape, near, script, *sender)?;
                    script.rules.push(rule)?;
                }
            }
        }
        Ok(())
    }

    /// A script of a version whose nodes start by noise, zero or lines, with nothing else.
    fn bare_script(
        &mut self,
        shape: &Shape,
        near: &Near,
        version: u64,
    ) -> Result<Script, AllocError> {
        let often = self.between(1, 12);
        Ok(Script {
            version,
            faulty: self.faulty(shape)?,
            key: self.key(),
            noisy: self.once_in(2),
            starts: self.starts(shape, near, often)?,
            eras: Vec::new(self.alloc),
            groups: Vec::new(self.alloc),
            rules: Vec::new(self.alloc),
            rounds: 0,
            first: 0,
            last: 0,
        })
    }

    /// A script with eras of a length. Mostly all configurations are shown.
    pub fn script(&mut self, shape: &Shape, length: Length) -> Result<Script, AllocError> {
        let near = self.near(shape);
        let mut script = self.bare_script(shape, &near, length.version)?;
        let last_era = self.put_eras(shape, &near, length, &mut script)?;
        script.rounds = last_era.wrapping_add(self.length(shape, length.behind, false));
        self.put_rules(shape, &near, &mut script)?;
        script.last = script.rounds;
        if self.once_in(3) {
            script.first = self.between(0, script.rounds);
            script.last = self.between(script.first, script.rounds);
        }
        Ok(script)
    }
}
