ghost use Rattle.std.specs.Prelude.{◌≡◌, ◌≤◌};
ghost use Rattle.construction.specs.Plans.{plan_depth};
ghost use Rattle.run_explanations.specs.Tops.{IsTop, top_of};

use plan_numbers::Plan;

/// The numbers of the top level of a plan, and of what stands in its blocks.
#[derive(Clone, Copy, Debug)]
pub(crate) struct Top {
    /// How many blocks there are, 3 to 16.
    pub blocks: u32,
    /// How many of them may lead.
    pub leaders: u32,
    /// How many rounds the kings take in turn.
    pub beat: u64,
    /// How many nodes a block has.
    pub nodes: u32,
    /// How many faulty nodes a block tolerates.
    pub faults: u32,
}

/// The top level of a plan that has one: its numbers are as small as those of a plan are.
#[derive(Clone, Copy, Debug)]
pub(crate) struct TopLevel {
    /// The numbers.
    pub numbers: Top,
    ghost small: { IsTop numbers },
}

/// How many faulty nodes a block of the top level tolerates, 0 if there is no level.
fn block_faults(plan: &Plan) -> u32
    ensures { result ≡ (top_of plan.now).faults }
{
    let depth = plan.depth();
    if depth < 2 {
        return 0;
    }
    plan.level(depth - 2).faults
}

/// The top level of a plan that has one.
pub(crate) fn top_of(plan: &Plan) -> TopLevel
    requires { 1 ≤ plan_depth plan.now }
    ensures { result.numbers ≡ top_of plan.now }
{
    plan.facts();
    let nums = plan.level(plan.depth() - 1);
    TopLevel {
        numbers: Top {
            blocks: nums.blocks,
            leaders: nums.leaders,
            beat: nums.beat,
            nodes: nums.block_nodes(),
            faults: block_faults(plan),
        },
    }
}
