ghost use Rattle.std.specs.Prelude.{◌≡◌, ◌<◌, ◌≤◌, ◌+◌, ◌*◌, [], ◌∷◌, ◌++◌, ℕ, map, length, drop};
ghost use Rattle.std.specs.Prelude.{true, false, All, IfOk, OnOk, sum_by};
ghost use Rattle.std.specs.List.{range_with_len};
ghost use Rattle.construction.specs.Plans.{nodes_of};
ghost use Rattle.plan_numbers.specs.Numbers.{level_of, levels_in};
ghost use Rattle.plan_numbers.specs.Sizes.{block_nodes};
ghost use Rattle.plan_numbers.specs.Stacked.{AreSomeLevels};
ghost use Rattle.shared_board.specs.GroupVotes.{AreNumbers, Stands};
ghost use Rattle.shared_board.specs.Boards.{Board, sent_of};
ghost use Rattle.shared_board.specs.Groups.{groups_of};
ghost use Rattle.shared_board.specs.Sharing.{place_among};
ghost use Rattle.tower.specs.Heeding.{Holds, IsShut, LeadsIn, AreShut};
ghost use Rattle.tower.specs.Placings.{key_of, cost_of, IsReady, IsPlacedOn, CanStep, Leads};
ghost use Rattle.tower.specs.Placings.{register_by};
ghost use Rattle.tower.specs.Placings.{row_register};
ghost use Rattle.tower.specs.Sharing.{AllStand};

use crate::rows::Row;
use majority_votes::Steps;
use plan_numbers::LevelNums;
use shared_board::{Board, Group};
use std::alloc::Global;
use std::marker::Model;
use std::sync::ledger::Ledger;
use sync_types::{NoMemory, NodeState, Reg};

/// A group, and how many levels stand below it.
#[derive(Drop)]
pub(crate) struct Placed {
    height: usize,
    group: Group,
}

impl Model for Placed {
    ghost use Rattle.shared_board.specs.GroupVotes.{contents};
    ghost use Rattle.tower.specs.Placings.{Placing};

    ghost Value = { Placing };

    ghost view = { λ p. record { height = p.height; group = contents p.group } };
}

impl Placed {
    /// Room for the group of a level, above so many levels, from a first node on.
    fn new(alloc: Global, nums: &LevelNums, height: usize, first: usize) -> Result<Placed, NoMemory>
        requires { AreNumbers nums.now }
        ensures ready { IfOk result IsReady }
        ensures key { IfOk result (λ p. key_of p
            ≡ record {
              level = level_of nums.now;
              below = height;
              block = block_nodes nums.now;
              first = first;
            }) }
    {
        let group = Group::new(alloc, nums, first)?;
        Ok(Placed { height, group })
    }

    /// Counts what it has of a board. The answer is whether all its registers are locked at one
    /// value.
    fn gather<G: Ledger>(&mut self, board: &Board, steps: &mut Steps<G>) -> bool
        requires { IsPlacedOn board.now self.old }
        ensures stands { Stands (sent_of board.now self.new.height) self.new.group }
        ensures same_height { self.new.height ≡ self.old.height }
        ensures same_nums { self.new.group.nums ≡ self.old.group.nums }
        ensures same_first { self.new.group.first ≡ self.old.group.first }
        ensures steps { steps.new ≤ steps.old + 3 * cost_of board.now self.old }
        ensures settled { result ≡ self.new.group.is_settled }
    {
        let senders = board.senders(self.height);
        self.group.gather(&senders, steps);
        self.group.is_settled()
    }

    /// The new register of a node of the group.
    fn register<G: Ledger>(
        &mut self,
        board: &Board,
        node: usize,
        lies: &[NodeState],
        steps: &mut Steps<G>,
    ) -> Reg
        requires { CanStep board.now node lies.now self.old }
        ensures register { result ≡ register_by board.now node lies.now self.old }
        ensures same { self.new ≡ self.old }
        ensures steps { steps.new ≤ steps.old + 3 * length board.now.faulty }
    {
        board.facts();
        if let Some(register) = self.group.common_register() {
            return register;
        }
        let senders = board.senders(self.height);
        self.group.register(&senders, node, lies, steps)
    }

    /// Whether the new register of a node of the group may hang on lies.
    fn is_open(&self, board: &Board, node: usize) -> bool
        requires { Holds board.now node self.now }
        ensures { result ≡ false → IsShut board.now node self.now }
    {
        if let Some(_register) = self.group.common_register() {
            return false;
        }
        let senders = board.senders(self.height);
        self.group.is_open(&senders, node)
    }

    /// The liars among its nodes, as a stretch of all liars, from the first place to before the
    /// second.
    pub(crate) fn liars(&self, board: &Board) -> (usize, usize)
        requires { self.now.group.first + self.now.group.nums.nodes ≤ length board.now.states }
        ensures first { result.0 ≡ place_among board.now.faulty self.now.group.first }
        ensures last { result.1 ≡ place_among board.now.faulty
            (self.now.group.first + self.now.group.nums.nodes) }
    {
        board.facts();
        let first = self.group.first;
        let end = first + self.group.nums.nodes as usize;
        (board.liars_below(first), board.liars_below(end))
    }
}

/// A register that a node lacks.
const NONE: Reg = Reg {
    a: Some(0),
    d: false,
};

/// Adds a group at the end.
fn push(groups: &mut Vec<Placed>, placed: Placed) -> Result<(), NoMemory>
    ensures { OnOk result (groups.new.items ≡ groups.old.items ++ placed ∷ []) }
{
    groups.push(placed).map_err(|_| NoMemory)
}

/// Adds the groups of levels, the lowest of which stands first, from a first node on: that of the
/// top level, and after it those of its first block, those of its second one, and so on.
pub(crate) fn add_groups(
    alloc: Global,
    levels: &[LevelNums],
    first: usize,
    groups: &mut Vec<Placed>,
) -> Result<(), NoMemory>
    requires levels { AreSomeLevels levels.now }
    requires small { first + nodes_of (levels_in levels.now) ≤ 256 }
    requires ready { All IsReady groups.old.items }
    ensures added { OnOk result (map key_of groups.new.items
        ≡ map key_of groups.old.items ++ groups_of (levels_in levels.now) first) }
    ensures ready { OnOk result (All IsReady groups.new.items) }
{
    let Some((nums, below)) = levels.split_last() else {
        return Ok(());
    };
    let top = Placed::new(alloc, nums, below.len(), first)?;
    push(groups, top)?;
    let n = nums.block_nodes() as usize;
    for b in 0..nums.blocks as usize {
        add_groups(alloc, below, first + b * n, groups)?;
    }
    Ok(())
}

/// Whether both are true.
fn both(one: bool, other: bool) -> bool
    ensures { result ≡ true → (one ≡ true) × (other ≡ true) }
{
    one && other
}

/// Counts what the groups have of a board: of each at most three steps for each correct node. The
/// answer is whether the registers of each group are locked at one value.
pub(crate) fn gather_groups<G: Ledger>(
    board: &Board,
    groups: &mut [Placed],
    steps: &mut Steps<G>,
) -> bool
    requires { All (IsPlacedOn board.now) groups.old }
    ensures keys { map key_of groups.new ≡ map key_of groups.old }
    ensures stand { AllStand board.now groups.new }
    ensures steps { steps.new ≤ steps.old + 3 * sum_by (cost_of board.now) groups.old }
    ensures settled { result ≡ true → All (λ p. p.group.is_settled ≡ true) groups.new }
{
    let mut all_settled = true;
    for g in 0..groups.len() {
        let settled = groups[g].gather(board, steps);
        all_settled = both(all_settled, settled);
    }
    all_settled
}

/// The new register of a node at a level: in its group, or none if the node has none there.
fn register_at<G: Ledger>(
    board: &Board,
    row: &Row,
    height: usize,
    node: usize,
    lies: &[NodeState],
    groups: &mut [Placed],
    steps: &mut Steps<G>,
) -> Reg
    requires height { height < length row.now.places.items }
    requires step { row.now.low ≤ height + 1
        → Leads board.now row.now node lies.now groups.old height }
    ensures register { result ≡ row_register board.now row.now node lies.now groups.old height }
    ensures same { groups.new ≡ groups.old }
    ensures steps { steps.new ≤ steps.old + 3 * length board.now.faulty }
{
    if row.low <= height + 1 {
        groups[row.places[height]].register(board, node, lies, steps)
    } else {
        NONE
    }
}

/// How many of the lowest `levels` levels stand up to the highest one at which the group of a node
/// is open to lies; 0 if none is.
pub(crate) fn open_levels(
    board: &Board,
    row: &Row,
    levels: usize,
    node: usize,
    groups: &[Placed],
) -> usize
    requires within { levels ≤ length row.now.places.items }
    requires leads { (l : ℕ) → l < length row.now.places.items → row.now.low ≤ l + 1
        → LeadsIn board.now row.now node groups.now l }
    requires shut { AreShut board.now row.now node groups.now levels }
    ensures within { result ≤ levels }
    ensures lowest { 0 < result → row.now.low ≤ result }
    ensures shut { AreShut board.now row.now node groups.now result }
{
    if levels == 0 {
        return 0;
    }
    if levels < row.low {
        return 0;
    }
    if groups[row.places[levels - 1]].is_open(board, node) {
        return levels;
    }
    open_levels(board, row, levels - 1, node, groups)
}

/// Writes the new registers of a node: at most three steps a level for each liar. The groups are as
/// before afterwards.
pub(crate) fn write_registers<G: Ledger>(
    board: &Board,
    row: &Row,
    node: usize,
    lies: &[NodeState],
    groups: &mut [Placed],
    out: &mut NodeState,
    steps: &mut Steps<G>,
)
    requires leads { (l : ℕ) → l < length row.now.places.items → row.now.low ≤ l + 1
        → Leads board.now row.now node lies.now groups.old l }
    requires out { length row.now.places.items ≤ length out.old.registers }
    ensures out { out.new ≡ record {
      x = out.old.x;
      registers = map (row_register board.now row.now node lies.now groups.old)
          (range_with_len 0 (length row.now.places.items))
          ++ drop (length row.now.places.items) out.old.registers;
    } }
    ensures same { groups.new ≡ groups.old }
    ensures steps { steps.new
        ≤ steps.old + 3 * length row.now.places.items * length board.now.faulty }
{
    for height in 0..row.places.len() {
        let register = register_at(board, row, height, node, lies, groups, steps);
        out.set_reg(height, register);
    }
}
