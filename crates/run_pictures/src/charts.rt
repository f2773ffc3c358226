//! What `run` writes.

ghost use Rattle.std.specs.Prelude.{◌≡◌};
ghost use Rattle.run_pictures.specs.Charts.{frame_of};

use picture_parts::{Frame, band_height};

/// What a node shows in a row. Rows and nodes are counted from 0.
#[derive(Clone, Copy)]
pub struct Cell {
    pub row: u32,
    pub node: u16,
    /// The output, or None if a star stands for a faulty node.
    pub shown: Option<u64>,
    /// Whether the rows show that the start of an era put it into another state.
    pub is_hit: bool,
}

/// A line after the rows: the first locked configuration of an era, if there is one.
#[derive(Clone, Copy)]
pub struct End {
    /// How many such lines stand before it.
    pub place: u32,
    /// Where the era begins, or None for the one line that names none.
    pub era: Option<u32>,
    /// The first locked configuration.
    pub locked: Option<u32>,
    /// Where the next era begins, if there is one.
    pub next: Option<u32>,
}

/// What `run` wrote: the bound, the rows, and the lines after them.
pub struct Chart {
    pub bound: u64,
    /// The configuration of the first row.
    pub first: u32,
    /// How many words each row has.
    pub nodes: u16,
    pub rows: u32,
    /// How many digits the longest number of a row has, that of its configuration too.
    pub digits: u16,
    /// One more than the largest output, or 0 if there is none.
    pub modulus: u64,
    /// The words of all rows, one after the other.
    pub cells: Vec<Cell>,
    pub ends: Vec<End>,
}

// Written out, so that code that drops one has a single call.
impl Drop for Chart {
    fn drop(self) {
        let Chart {
            bound: _,
            first: _,
            nodes: _,
            rows: _,
            digits: _,
            modulus: _,
            cells,
            ends,
        } = self;
        drop(cells);
        drop(ends);
    }
}

impl Chart {
    /// The words of all rows, one after the other.
    pub fn words(&self) -> &[Cell]
        ensures { result.now ≡ self.now.cells.items }
    {
        &self.cells
    }

    /// The lines after the rows.
    pub fn lines(&self) -> &[End]
        ensures { result.now ≡ self.now.ends.items }
    {
        &self.ends
    }

    /// What its picture stands in.
    pub fn frame(&self) -> Frame
        ensures { result ≡ frame_of self.now }
    {
        Frame {
            first: self.first,
            columns: self.rows,
            digits: self.digits,
            height: band_height(self.nodes),
            modulus: self.modulus,
        }
    }
}
