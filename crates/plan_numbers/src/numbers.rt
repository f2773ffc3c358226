ghost use Rattle.std.specs.Prelude.{◌≡◌};
ghost use Rattle.plan_numbers.specs.Numbers.{to_below};
ghost use Rattle.plan_numbers.specs.Sizes.{block_nodes, IsSizedLevel};

/// What a level has to know of all that stands below it.
#[derive(Clone, Copy, Debug, PartialEq, Eq)]
pub struct Below {
    /// How many nodes there are, 1 to 256.
    pub nodes: u32,
    /// How many of them may be faulty, fewer than a third.
    pub faults: u32,
    /// The modulus that they count by, 2 to 2^40.
    pub modulus: u64,
    /// In how many rounds they settle.
    pub bound: u64,
    /// How many bits a state has.
    pub bits: u32,
}

/// The numbers of a level, with those of the levels below in `nodes`, `bound` and `bits`.
#[derive(Clone, Copy, Debug, PartialEq, Eq)]
pub struct LevelNums {
    /// How many blocks the nodes stand in, 3 to 16.
    pub blocks: u32,
    /// How many blocks may lead: half of them, rounded up.
    pub leaders: u32,
    /// How many nodes there are, the spare ones among them, 3 to 256.
    pub nodes: u32,
    /// How many of them may be faulty, fewer than a third.
    pub faults: u32,
    /// How many rounds the kings take in turn: three for each of `faults + 2`.
    pub beat: u64,
    /// In how many rounds the level settles, once its blocks count.
    pub span: u64,
    /// The modulus that the level counts by, 2 to 2^40.
    pub modulus: u64,
    /// How many spare nodes stand after the blocks, those of this level alone; 0 in version 1.
    pub spares: u32,
    /// In how many rounds it settles, from any states.
    pub bound: u64,
    /// How many bits a state has that has all fields, those of a node that is no spare.
    pub bits: u32,
}

impl LevelNums {
    /// How many nodes a block has, 1 to 85: those of the levels below.
    pub fn block_nodes(&self) -> u32
        requires { IsSizedLevel self.now }
        ensures { result ≡ block_nodes self.now }
    {
        (self.nodes - self.spares) / self.blocks
    }

    /// What stands below a level that is put on top of this one.
    pub fn to_below(&self) -> Below
        ensures { result ≡ to_below self.now }
    {
        Below {
            nodes: self.nodes,
            faults: self.faults,
            modulus: self.modulus,
            bound: self.bound,
            bits: self.bits,
        }
    }
}
