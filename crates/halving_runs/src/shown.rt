/// Which lines are written of a run.
#[derive(Clone, Copy, Debug, PartialEq, Eq)]
pub enum Shown {
    /// A row of what the nodes show.
    Rows,
    /// Which nodes hold, by the slot table between the plan and the script.
    Holds,
    /// What the nodes decide in each slot that counts, by the inputs between the plan and the
    /// script.
    Decisions,
    /// Which nodes fire at the end of each such slot, by the requests between them.
    Fires,
    /// The entry that each such slot puts into the logs, by what is said of a log between them.
    Entries,
}
