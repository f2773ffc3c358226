use crate::groups::Placed;
use crate::rows::Row;
use plan_numbers::LevelNums;
use shared_board::Board;
use std::marker::Model;

/// What all receivers of a round share: what is counted of the correct nodes of each group, for one
/// configuration and faulty set. It is seen as what it stands for.
pub struct Shared {
    pub(crate) version: u32,
    pub(crate) base: u64,
    pub(crate) levels: Vec<LevelNums>,
    // From which level on each node takes part, and in which groups.
    pub(crate) rows: Vec<Row>,
    // Whether it stands for a configuration.
    pub(crate) is_made: bool,
    pub(crate) board: Board,
    pub(crate) groups: Vec<Placed>,
    // Whether the registers of each group are locked at one value.
    pub(crate) all_settled: bool,
}

// Written out, so that code that drops one has a single call.
impl Drop for Shared {
    fn drop(self) {
        let Shared {
            version: _,
            base: _,
            levels,
            rows,
            is_made: _,
            board,
            groups,
            all_settled: _,
        } = self;
        drop(levels);
        drop(rows);
        drop(board);
        drop(groups);
    }
}

impl Model for Shared {
    ghost use Rattle.shared_board.specs.Sharing.{Shares};
    ghost use Rattle.tower.specs.Sharing.{shares_of, IsShared};

    ghost Value = { Shares };

    ghost view = { λ s. shares_of s.version s.base s.levels.items s.is_made s.board };

    ghost invariant = { λ s. IsShared s.version s.base s.levels.items s.rows.items s.is_made s.board
        s.groups.items s.all_settled };
}
