ghost use Rattle.std.specs.Prelude.{◌≡◌, ◌+◌, ◌*◌, ◌≤◌, true, length, IfOk};
ghost use Rattle.shared_board.specs.Senders.{correct_in};
ghost use Rattle.shared_board.specs.GroupVotes.{AreNumbers, IsGroup, StandsFor};

use crate::gathering::{gather_beat, gather_lead, gather_least};
use crate::polls::SharedTally;
use crate::rooms::{intervals, polls};
use crate::senders::Senders;
use crate::sites::Site;
use crate::stretches::NodeRange;
use majority_votes::Steps;
use plan_numbers::LevelNums;
use std::alloc::Global;
use std::sync::ledger::Ledger;
use sync_types::NoMemory;

/// One group of a level: what is counted of its correct nodes, and what is known of it whatever its
/// liars say.
#[derive(Drop)]
pub struct Group {
    /// The numbers of its level.
    pub nums: LevelNums,
    /// Its first node.
    pub first: usize,
    // How many nodes a block has, and the interval of each block.
    pub(crate) block: usize,
    pub(crate) intervals: Vec<u64>,
    // The value at which its correct registers are locked, and whether all are.
    pub(crate) locked: Option<u64>,
    pub(crate) is_settled: bool,
    // The vote of each block, the lead, the beat and the least value, if they are known.
    pub(crate) votes: Vec<Option<u64>>,
    pub(crate) lead: Option<u64>,
    pub(crate) beat: Option<u64>,
    pub(crate) least: Option<Option<u64>>,
    // The pointers of each block, the parts of each leader, and the values of all.
    pub(crate) pointers: Vec<SharedTally>,
    pub(crate) parts: Vec<SharedTally>,
    pub(crate) values: SharedTally,
}

impl Group {
    /// Room for the group of a level from node `first` on. It takes all the memory that the group
    /// ever needs, and stands for nothing so far.
    pub fn new(alloc: Global, nums: &LevelNums, first: usize) -> Result<Group, NoMemory>
        requires { AreNumbers nums.now }
        ensures { IfOk result (λ group. IsGroup group
            × (group.nums ≡ nums.now) × (group.first ≡ first)) }
    {
        let block = nums.block_nodes() as usize;
        let blocks = nums.blocks as usize;
        Ok(Group {
            nums: *nums,
            first,
            block,
            intervals: intervals(alloc, nums)?,
            locked: None,
            is_settled: false,
            votes: vec![in alloc; None; blocks]?,
            lead: None,
            beat: None,
            least: None,
            pointers: polls(alloc, blocks, block)?,
            parts: polls(alloc, nums.leaders as usize, block)?,
            values: SharedTally::new(alloc, nums.nodes as usize)?,
        })
    }

    /// Counts the group's correct nodes, as far as something may hang on it, and finds what is
    /// known whatever its liars say: at most three steps for each correct node. If the group is
    /// settled, their values are compared and nothing is placed: one step for each.
    pub fn gather<G: Ledger>(&mut self, senders: &Senders<'_>, steps: &mut Steps<G>)
        requires group { IsGroup self.old }
        requires within { self.old.first + self.old.nums.nodes ≤ length senders.now.registers }
        ensures stands { StandsFor senders.now self.new }
        ensures nums { self.new.nums ≡ self.old.nums }
        ensures first { self.new.first ≡ self.old.first }
        ensures steps { steps.new ≤ steps.old
            + 3 * length (correct_in senders.now self.old.first self.old.nums.nodes) }
        ensures settled { self.new.is_settled ≡ true → steps.new ≡ steps.old
            + length (correct_in senders.now self.old.first self.old.nums.nodes) }
    {
        let nodes = self.nums.nodes as usize;
        let faults = self.nums.faults as usize;
        let stretch = NodeRange {
            senders,
            first: self.first,
            count: nodes,
        };
        let lock = stretch.lock(faults);
        self.locked = lock.value;
        self.is_settled = lock.is_settled;
        if lock.is_settled {
            steps.compared(stretch.correct());
            return;
        }
        let site = Site {
            senders,
            first: self.first,
            nodes,
            size: self.block,
            intervals: &self.intervals,
            leaders: u64::from(self.nums.leaders),
            beat: self.nums.beat,
        };
        self.lead = gather_lead(&site, &mut self.pointers, &mut self.votes, steps);
        self.beat = gather_beat(&site, self.lead, &mut self.parts, steps);
        self.least = gather_least(&stretch, faults, self.beat, &mut self.values, steps);
    }
}
