use std::marker::Model;

/// What a slot puts into the logs.
#[derive(Clone, Copy, Debug, PartialEq, Eq, Drop)]
pub struct Entry {
    /// The output with which the slot began.
    pub slot: u64,
    /// The value that was agreed on.
    pub value: u64,
}

/// A log as a list, the newest entry first. It says what a node keeps; a log itself is held in a
/// ring.
#[derive(Debug, Drop)]
pub struct Entries {
    items: Vec<Entry>,
}

impl Model for Entries {
    ghost use Rattle.std.specs.Prelude.{List};
    ghost use Rattle.replicated_log.specs.declared.entries.Entry.{Entry};

    ghost Value = { List Entry };

    ghost view = { λ e. e.items.items };
}
