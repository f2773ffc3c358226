//! What `trace` writes.

ghost use Rattle.std.specs.Prelude.{◌≡◌};

use picture_parts::Frame;

/// How a register holds its value.
#[derive(Clone, Copy)]
pub enum Held {
    Unmarked,
    Marked,
    Locked,
}

/// Which of its three instructions a king's phase has come to.
#[derive(Clone, Copy, PartialEq, Eq)]
pub enum Turn {
    Keep,
    Mark,
    King,
}

/// Which group of a halving plan it is.
#[derive(Clone, Copy, PartialEq, Eq)]
pub enum Side {
    Whole,
    Left,
    Right,
}

/// A group of a halving plan.
#[derive(Clone, Copy, PartialEq, Eq)]
pub struct Group {
    pub side: Side,
    /// The id of its first node.
    pub first: u64,
    /// The id of its last node.
    pub last: u64,
}

/// What a strip is of.
#[derive(Clone, Copy, PartialEq, Eq)]
pub enum StripName {
    /// A level of a boosting plan, the lowest being 1.
    Level(u64),
    /// A group of a halving plan.
    Group(Group),
}

/// One half of a group.
#[derive(Clone, Copy)]
pub enum Half {
    Left,
    Right,
}

/// What a node of a group holds besides its register.
#[derive(Clone, Copy)]
pub struct LeftSeen {
    /// Whether no more nodes of the group are faulty than it tolerates.
    pub is_sound: bool,
    /// What the left half showed a round ago.
    pub seen: u64,
    pub is_trusted: bool,
    /// In whose share of the left half's period that stands.
    pub share: Half,
}

/// The beat that a node of a boosting plan hears.
pub struct Beat {
    /// The vote of each block.
    pub votes: Vec<u64>,
    pub lead: u64,
    pub position: u64,
}

// Written out, so that code that drops one has a single call.
impl Drop for Beat {
    fn drop(self) {
        let Beat {
            votes,
            lead: _,
            position: _,
        } = self;
        drop(votes);
    }
}

/// Which half a node of a halving plan follows.
#[derive(Clone, Copy)]
pub struct Following {
    /// How many nodes saw what it saw of the left half.
    pub saw: u64,
    pub is_backed: bool,
    pub half: Half,
    pub instruction: u64,
}

/// By what a node has its instruction.
#[derive(Drop)]
pub enum Basis {
    Votes(Beat),
    Follows(Following),
}

/// What a node makes of what it hears.
pub struct Heard {
    pub basis: Basis,
    pub turn: Turn,
    pub king: u64,
    pub same: u64,
    pub least: Option<u64>,
}

// Written out, so that code that drops one has a single call.
impl Drop for Heard {
    fn drop(self) {
        let Heard {
            basis,
            turn: _,
            king: _,
            same: _,
            least: _,
        } = self;
        drop(basis);
    }
}

/// What a node shows, and its number if it has one.
#[derive(Clone, Copy)]
pub struct Output {
    pub number: Option<u64>,
    pub output: u64,
}

/// A register, and what the node makes of what it hears, if it goes on.
pub struct Register {
    /// The number of its strip.
    pub level: u64,
    pub name: StripName,
    pub value: Option<u64>,
    pub held: Held,
    /// What the node holds besides, on a halving plan.
    pub own: Option<LeftSeen>,
    pub heard: Option<Heard>,
}

// Written out, so that code that drops one has a single call.
impl Drop for Register {
    fn drop(self) {
        let Register {
            level: _,
            name: _,
            value: _,
            held: _,
            own: _,
            heard,
        } = self;
        drop(heard);
    }
}

/// What a line is about.
#[derive(Drop)]
pub enum Seen {
    Shows(Output),
    Holds(Register),
}

/// A line of a trace, and where it is drawn.
pub struct Note {
    /// How many configurations stand before that of the line.
    pub column: u32,
    /// The top of its line of cells, in its band.
    pub top: u32,
    pub node: u64,
    /// Whether it is the first line of its configuration.
    pub is_first: bool,
    pub is_faulty: bool,
    /// Whether the numbers show that the start of an era put the node into another state.
    pub is_hit: bool,
    /// Whether it is an output of a node that has no value, which shows as 0.
    pub is_lost: bool,
    pub seen: Seen,
}

// Written out, so that code that drops one has a single call.
impl Drop for Note {
    fn drop(self) {
        let Note {
            column: _,
            top: _,
            node: _,
            is_first: _,
            is_faulty: _,
            is_hit: _,
            is_lost: _,
            seen,
        } = self;
        drop(seen);
    }
}

/// A king's phase, as some correct nodes obey it.
#[derive(Clone, Copy)]
pub struct KingPhase {
    pub column: u32,
    /// The number of its strip.
    pub level: u64,
    pub name: StripName,
    pub king: u64,
    pub turn: Turn,
    /// How many others of this column and strip stand before it.
    pub lane: u32,
    /// Whether all correct nodes of that strip obey it.
    pub is_common: bool,
    /// The top of its cell, in its band.
    pub top: u32,
}

/// The word before a strip, in a band.
#[derive(Clone, Copy)]
pub struct Title {
    pub column: u32,
    pub top: u32,
    /// The number of its strip.
    pub level: u64,
    pub name: StripName,
}

/// A level or a group, in the caption, and its strip.
#[derive(Clone, Copy)]
pub struct Level {
    /// How many stand before it.
    pub place: u32,
    /// The number of the strip: they rise.
    pub level: u64,
    pub name: StripName,
    /// How many nodes of the trace stand before its first one.
    pub before: u16,
    /// For how many nodes it has a line.
    pub members: u16,
    /// How many blocks vote at it, if a line says it.
    pub blocks: Option<u64>,
    /// The top of its kings' phases, in each band.
    pub top: u32,
    /// The top of its cells, in each band.
    pub cells: u32,
}

/// What `trace` wrote, and what is drawn of it.
pub struct Trace {
    pub frame: Frame,
    pub nodes: u16,
    /// The ids of the nodes.
    pub ids: Vec<u64>,
    /// Where the last strip of a band ends.
    pub cells: u32,
    /// The lines.
    pub notes: Vec<Note>,
    pub reigns: Vec<KingPhase>,
    pub titles: Vec<Title>,
    pub levels: Vec<Level>,
    /// The columns where an era must begin.
    pub eras: Vec<u32>,
}

// Written out, so that code that drops one has a single call.
impl Drop for Trace {
    fn drop(self) {
        let Trace {
            frame: _,
            nodes: _,
            ids,
            cells: _,
            notes,
            reigns,
            titles,
            levels,
            eras,
        } = self;
        drop(ids);
        drop(notes);
        drop(reigns);
        drop(titles);
        drop(levels);
        drop(eras);
    }
}

impl Trace {
    /// The lines.
    pub fn lines(&self) -> &[Note]
        ensures { result.now ≡ self.now.notes.items }
    {
        &self.notes
    }

    /// The kings' phases.
    pub fn turns(&self) -> &[KingPhase]
        ensures { result.now ≡ self.now.reigns.items }
    {
        &self.reigns
    }

    /// The words before the strips.
    pub fn heads(&self) -> &[Title]
        ensures { result.now ≡ self.now.titles.items }
    {
        &self.titles
    }

    /// The levels of the caption.
    pub fn captions(&self) -> &[Level]
        ensures { result.now ≡ self.now.levels.items }
    {
        &self.levels
    }

    /// The columns where an era must begin.
    pub fn starts(&self) -> &[u32]
        ensures { result.now ≡ self.now.eras.items }
    {
        &self.eras
    }
}
