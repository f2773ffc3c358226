ghost use Rattle.std.specs.Prelude.{◌≡◌, ◌<◌, ◌≤◌, ◌+◌, ◌-◌, ◌*◌, ℕ, List, [], length, All, IfOk};
ghost use Rattle.sync_types.specs.States.{State};
ghost use Rattle.construction.specs.Plans.{plan_nodes, plan_depth};
ghost use Rattle.construction.specs.PhaseKing.{up};
ghost use Rattle.construction.specs.Steps.{state_of, step_of};
ghost use Rattle.counter_core.specs.Meanings.{written};
ghost use Rattle.plan_laws.specs.PlanMeaning.{IsInRange};
ghost use Rattle.shared_board.specs.Sharing.{heard_with, stands_for, Tells};
ghost use Rattle.tower.specs.Told.{AreTold};

use crate::groups::{add_groups, gather_groups, open_levels, write_registers};
use crate::rows::rows_of;
use crate::shared::Shared;
use crate::towers::Tower;
use counter_core::Counter;
use majority_votes::Steps;
use plan_numbers::LevelNums;
use shared_board::Board;
use state_codec::Packed;
use std::alloc::Global;
use std::sync::ledger::Ledger;
use sync_types::{FaultSet, NoMemory, NodeState};

/// The same numbers of levels.
fn copy_levels(alloc: Global, levels: &[LevelNums]) -> Result<Vec<LevelNums>, NoMemory>
    ensures { IfOk result (λ copy. copy.items ≡ levels.now) }
{
    let mut copy = Vec::with_capacity(alloc, levels.len())?;
    for nums in levels {
        copy.push(*nums).unwrap();
    }
    Ok(copy)
}

/// The number after a number that is below the base.
fn after(x: u64, base: u64) -> u64
    requires { x < base }
    ensures { result ≡ up base x }
{
    if x + 1 == base { 0 } else { x + 1 }
}

impl Tower {
    /// Room for what all receivers of a round share; it stands for no configuration yet. It takes
    /// all the memory that rounds ever need. The only error is want of memory.
    pub fn shared(&self, alloc: Global) -> Result<Shared, NoMemory>
        ensures { IfOk result
            (λ shared. shared ≡ record { plan = self.now; faulty = []; states = [] }) }
    {
        let nodes = self.whole.nodes;
        let levels = copy_levels(alloc, &self.levels)?;
        let mut groups = Vec::new(alloc);
        add_groups(alloc, &self.levels, 0, &mut groups)?;
        Ok(Shared {
            version: self.version,
            base: self.base,
            levels,
            rows: rows_of(alloc, &self.levels)?,
            is_made: false,
            board: Board::new(alloc, nodes as usize, self.levels.len())?,
            groups,
            all_settled: false,
        })
    }

    /// Counts the correct nodes of the current states of a configuration, so that `shared` stands
    /// for these and the faulty set. It takes no memory, and at most three steps a level for each
    /// correct node.
    pub fn gather<G: Ledger>(
        &self,
        config: &Packed,
        faulty: &FaultSet,
        shared: &mut Shared,
        steps: &mut Steps<G>,
    )
        requires plan { shared.old.plan ≡ self.now }
        requires size { length config.now.current ≡ plan_nodes self.now }
        requires deep { plan_depth self.now ≤ config.now.shape.depth }
        requires range { All (IsInRange self.now) config.now.current }
        requires ids { All (λ id. id < plan_nodes self.now) faulty.now.ids }
        ensures stands { shared.new ≡ stands_for self.now config.now.current faulty.now.ids }
        ensures cost { steps.new ≤ steps.old
            + 3 * plan_depth self.now * (plan_nodes self.now - length faulty.now.ids) }
    {
        faulty.facts();
        shared.board.take(config, faulty);
        shared.all_settled = gather_groups(&shared.board, &mut shared.groups, steps);
        shared.is_made = true;
    }

    /// The step of a node from the current states of a configuration, for which `shared` stands, by
    /// what the liars say to it: `lies` has a state of each, in the order of their ids, that of the
    /// node itself being its own. It writes the number and a register for each level, and leaves
    /// the other registers of `out`. It takes no memory, and at most three steps a level for each
    /// liar; `shared` stands for the same afterwards.
    pub fn advance_shared<G: Ledger>(
        &self,
        node: u32,
        config: &Packed,
        lies: &[NodeState],
        shared: &mut Shared,
        out: &mut NodeState,
        steps: &mut Steps<G>,
    )
        requires stands { shared.old
            ≡ stands_for self.now config.now.current shared.old.faulty }
        requires size { length config.now.current ≡ plan_nodes self.now }
        requires node { node < plan_nodes self.now }
        requires tells { Tells shared.old node lies.now }
        requires told { AreTold self.now lies.now }
        requires out { plan_depth self.now ≤ length out.old.registers }
        ensures out { out.new ≡ written (plan_depth self.now) (step_of self.now node
            (heard_with shared.old.faulty lies.now config.now.current)) out.old }
        ensures same { shared.new ≡ shared.old }
        ensures cost { steps.new ≤ steps.old + 3 * plan_depth self.now * length shared.old.faulty }
    {
        config.facts();
        let row = &shared.rows[node as usize];
        let next = if row.low == 0 {
            after(shared.board.number(node as usize), shared.base)
        } else {
            0
        };
        out.set_x(next);
        write_registers(
            &shared.board,
            row,
            node as usize,
            lies,
            &mut shared.groups,
            out,
            steps,
        );
    }

    /// The liars, as a stretch of the faulty list from the first place to before the second, on
    /// which the step of a node depends: what the others say to it may be anything.
    pub fn relevant_liars(&self, node: u32, shared: &Shared) -> (usize, usize)
        requires plan { shared.now.plan ≡ self.now }
        requires size { length shared.now.states ≡ plan_nodes self.now }
        requires node { node < plan_nodes self.now }
        ensures range { (result.0 ≤ result.1) × (result.1 ≤ length shared.now.faulty) }
        ensures enough { (lies told : List State) → Tells shared.now node lies
            → Tells shared.now node told
            → ((j : ℕ) → result.0 ≤ j → j < result.1 → state_of lies j ≡ state_of told j) →
            step_of self.now node (heard_with shared.now.faulty lies shared.now.states)
            ≡ step_of self.now node (heard_with shared.now.faulty told shared.now.states) }
    {
        shared.board.facts();
        let row = &shared.rows[node as usize];
        if shared.all_settled {
            return (0, 0);
        }
        let open = open_levels(
            &shared.board,
            row,
            row.places.len(),
            node as usize,
            &shared.groups,
        );
        if open == 0 {
            return (0, 0);
        }
        shared.groups[row.places[open - 1]].liars(&shared.board)
    }
}
