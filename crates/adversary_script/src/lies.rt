use sync_types::NodeState;

/// How the nodes start that have no start line of their own.
#[derive(Clone, Copy)]
pub enum CommonStart {
    /// In the zero state.
    Zero,
    /// In a state of noise.
    Noise,
}

/// Who hears a lie.
#[derive(Clone, Copy)]
pub enum Who {
    /// Every node.
    All,
    /// The nodes from one id to another, both included.
    Ids(u64, u64),
    /// The nodes of the group at that place among the groups.
    Group(usize),
}

/// What a lie says.
#[derive(Drop)]
pub enum What {
    /// A state of noise.
    Noise,
    /// The state of that node.
    Copy(u64),
    /// That state.
    State(NodeState),
    /// The state of the sender's puppet, with its number and its finite values that much larger.
    Shift(u64),
}

/// A rule of lies: from the round `first` to the round `last`, both included, the node `sender`
/// tells those nodes that.
pub struct Lie {
    pub first: u64,
    pub last: u64,
    pub sender: u64,
    pub who: Who,
    pub what: What,
}

// Written out, so that code that drops one has a single call.
impl Drop for Lie {
    fn drop(self) {
        let Lie {
            first: _,
            last: _,
            sender: _,
            who,
            what,
        } = self;
        drop(who);
        drop(what);
    }
}

/// The state in which a node starts.
pub struct Start {
    pub node: u64,
    pub state: NodeState,
}

// Written out, so that code that drops one has a single call.
impl Drop for Start {
    fn drop(self) {
        let Start { node: _, state } = self;
        drop(state);
    }
}
