use crate::lines::SlotLine;
use std::marker::Model;

/// A slot table. No output stands in two of its lines.
#[derive(Debug, Drop)]
pub struct SlotTable {
    pub(crate) lines: Vec<SlotLine>,
}

impl Model for SlotTable {
    ghost use Rattle.std.specs.Prelude.{List};
    ghost use Rattle.slot_table.specs.declared.lines.SlotLine.{SlotLine};
    ghost use Rattle.slot_table.specs.Tables.{AreApart};

    ghost Value = { List SlotLine };

    ghost view = { λ t. t.lines.items };

    ghost invariant = { λ t. AreApart t.lines.items };
}

impl SlotTable {
    ghost use Rattle.std.specs.Prelude.{◌≡◌};
    ghost use Rattle.slot_table.specs.Tables.{holder_of};

    /// The node that holds at output `o`, None if the output stands in no line. It takes no memory.
    pub fn holder(&self, o: u64) -> Option<u32>
        ensures { result ≡ holder_of self.now o }
    {
        for line in &self.lines {
            if line.first <= o && o <= line.last {
                return Some(line.node);
            }
        }
        None
    }
}
