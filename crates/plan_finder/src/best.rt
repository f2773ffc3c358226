ghost use Rattle.std.specs.Prelude.{◌≡◌, ◌+◌, ◌*◌, ◌<◌, ◌^◌, [], length};
ghost use Rattle.std.specs.Bool.{Decides};
ghost use Rattle.plan_finder.specs.Orders.{IsLess};
ghost use Rattle.plan_finder.specs.Best.{numbers_by, steps_in, rank_in, IsValidBest, IsLesser};
ghost use Rattle.plan_finder.specs.Best.{IsWith};

/// A level, its modulus left aside.
#[derive(Clone, Copy, Debug, PartialEq, Eq)]
pub struct Step {
    /// How many blocks.
    pub blocks: u64,
    /// How many faults it tolerates.
    pub faults: u64,
}

/// Levels that a search keeps.
#[derive(Clone, Copy, Debug)]
pub struct Best {
    /// The sum of their costs.
    pub value: u64,
    /// How many nodes they have.
    pub nodes: u64,
    /// How many there are.
    pub depth: usize,
    /// The levels, the lowest first, and nothing that counts after them.
    pub steps: [Step; 5],
}

/// Whether steps are less than others, of which there are as many.
fn are_less(steps: &[Step], others: &[Step]) -> bool
    requires { length steps.now ≡ length others.now }
    ensures { Decides result (IsLess (numbers_by steps.now) (numbers_by others.now)) }
{
    for i in 0..steps.len() {
        let step = steps[i];
        let other = others[i];
        if step.blocks != other.blocks {
            return step.blocks < other.blocks;
        }
        if step.faults != other.faults {
            return step.faults < other.faults;
        }
    }
    false
}

impl Best {
    /// No levels.
    pub fn start() -> Best
        ensures none { steps_in result ≡ [] }
        ensures kept { IsValidBest result }
    {
        Best {
            value: 0,
            nodes: 1,
            depth: 0,
            steps: [Step {
                blocks: 0,
                faults: 0,
            }; 5],
        }
    }

    /// The levels, the lowest first.
    fn levels(&self) -> &[Step]
        ensures { result.now ≡ steps_in self.now }
    {
        &self.steps[..self.depth.min(self.steps.len())]
    }

    /// Whether these levels come before others.
    pub fn is_before(&self, other: &Best) -> bool
        ensures { Decides result (IsLess (rank_in self.now) (rank_in other.now)) }
    {
        if self.value != other.value {
            return self.value < other.value;
        }
        if self.nodes != other.nodes {
            return self.nodes < other.nodes;
        }
        if self.depth != other.depth {
            return self.depth < other.depth;
        }
        are_less(self.levels(), other.levels())
    }

    /// These levels with one more on top.
    pub fn with(&self, step: Step, cost: u64) -> Best
        requires room { self.now.depth < 5 }
        requires value { self.now.value + cost < 2 ^ 64 }
        requires nodes { step.blocks * self.now.nodes < 2 ^ 64 }
        ensures { IsWith self.now step cost result }
    {
        let mut steps = self.steps;
        steps[self.depth] = step;
        Best {
            value: self.value + cost,
            nodes: step.blocks * self.nodes,
            depth: self.depth + 1,
            steps,
        }
    }
}

/// Of two, the levels that come first, if there are any; the first ones if neither is before the
/// other.
pub fn lesser(known: Option<Best>, other: Option<Best>) -> Option<Best>
    ensures { IsLesser known other result }
{
    let Some(more) = other else {
        return known;
    };
    match known {
        None => other,
        Some(best) => { if more.is_before(&best) { other } else { known } }
    }
}
