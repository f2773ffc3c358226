//! Plans that are drawn.

use crate::draws::Draws;
use crate::given_plans::{Row, plan_of};
use reference::halving_groups::Group;
use reference::plans::{Level, Plan};
use std::alloc::AllocError;

/// The largest modulus.
const MOST: u64 = 1 << 40;

/// How many nodes a drawn boosting plan may have.
const MOST_NODES: u64 = 24;

/// How many nodes any plan may have.
const MOST_NODES_OF_ALL: u64 = 256;

/// A plan of either construction.
#[derive(Drop)]
pub enum AnyPlan {
    Boosting(Plan),
    Halving(Group),
}

/// Where a plan comes from.
#[derive(Clone, Copy)]
pub enum Source {
    Given(Row),
    /// A boosting plan of a version that is drawn.
    Boosting(u64),
    /// One of five levels, of a version.
    High(u64),
    /// A halving plan of so many faults with fewest nodes, which counts modulo 10.
    Fewest(u64),
    /// A halving plan that is drawn, of at most so many nodes.
    Halving(u64),
}

impl Draws {
    /// A level of so many blocks, without a modulus, that may stand above those of a plan.
    fn level(&mut self, plan: &Plan, blocks: u64, spares: u64) -> Level {
        let mut level = Level {
            blocks,
            faults: 0,
            modulus: 0,
            spares,
        };
        let all = blocks.wrapping_mul(plan.nodes()).wrapping_add(spares);
        let third = all.saturating_sub(1) / 3;
        let share = plan.faults().wrapping_add(1).wrapping_mul(level.leaders());
        level.faults = self.between(0, third.min(share.saturating_sub(1)));
        level
    }

    /// Makes a plan count: each modulus is a multiple of the span above it.
    fn put_moduli(&mut self, plan: &mut Plan) {
        let mut modulus = self.between(2, 30);
        for level in plan.levels.iter_mut().rev() {
            level.modulus = modulus;
            modulus = level.span().wrapping_mul(self.between(1, 3));
        }
        plan.base = modulus;
    }

    /// An accepted boosting plan of a version, with few nodes.
    fn boosting(&mut self, version: u64) -> Result<Plan, AllocError> {
        let mut plan = Plan::without_levels(self.alloc, version, 0);
        for _ in 0..self.between(1, 3) {
            let blocks = self.between(3, 5);
            let spares = if version == 2 { self.below(4) } else { 0 };
            let level = self.level(&plan, blocks, spares);
            let nodes = blocks.wrapping_mul(plan.nodes()).wrapping_add(spares);
            if nodes > MOST_NODES {
                break;
            }
            plan.levels.push(level)?;
        }
        self.put_moduli(&mut plan);
        Ok(plan)
    }

    /// An accepted boosting plan of a version, of five levels of three blocks. What nodes are left
    /// of the most that may be are spares on some of the levels.
    fn high(&mut self, version: u64) -> Result<Plan, AllocError> {
        let mut plan = Plan::without_levels(self.alloc, version, 0);
        for above in [81, 27, 9, 3, 1] {
            let blocks = plan.nodes().wrapping_mul(3);
            let room = (MOST_NODES_OF_ALL / above).saturating_sub(blocks);
            let most = if version == 2 { room } else { 0 };
            let spares = self.between(0, most);
            let level = self.level(&plan, 3, spares);
            plan.levels.push(level)?;
        }
        self.put_moduli(&mut plan);
        Ok(plan)
    }

    /// A modulus that is accepted.
    fn modulus(&mut self) -> u64 {
        match self.below(5) {
            0 => 2,
            1 => MOST,
            2 => self.between(2, MOST),
            _ => self.between(3, 30),
        }
    }

    /// An accepted halving plan with at most so many nodes, which may be four.
    pub fn halving(&mut self, most_nodes: u64) -> Group {
        let faults = self.below(most_nodes.wrapping_add(2) / 3);
        let fewest = faults.wrapping_mul(3).wrapping_add(1);
        let room = most_nodes.saturating_sub(fewest).min(3);
        let most = if faults == 0 { 0 } else { room };
        let spares = self.between(0, most);
        Group::of(fewest.wrapping_add(spares), faults, self.modulus())
    }

    /// A plan from a source.
    pub fn plan(&mut self, source: Source) -> Result<AnyPlan, AllocError> {
        Ok(match source {
            Source::Given(row) => AnyPlan::Boosting(plan_of(self.alloc, row)?),
            Source::Boosting(version) => AnyPlan::Boosting(self.boosting(version)?),
            Source::High(version) => AnyPlan::Boosting(self.high(version)?),
            Source::Fewest(faults) => {
                let nodes = faults.wrapping_mul(3).wrapping_add(1);
                AnyPlan::Halving(Group::of(nodes, faults, 10))
            }
            Source::Halving(most_nodes) => AnyPlan::Halving(self.halving(most_nodes)),
        })
    }
}
