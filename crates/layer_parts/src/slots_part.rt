ghost use Rattle.std.specs.Prelude.{◌≡◌};
ghost use Rattle.sync_types.specs.declared.answers.Part.TheVariants as part;
ghost use Rattle.layer_parts.specs.Slots.{slots_over, no_registers, AreForNumbers};
ghost use Rattle.layer_parts.specs.SoundSlots.{slots_sound};

use crate::counter_parts::CounterPart;
use crate::registers::Registers;
use edge_io::PartError;
use layer_laws::CounterNumbers;
use slot_table::{SlotTable, read_slots_for};
use std::alloc::Global;
use sync_types::{Part, Rule};

impl CounterPart for SlotTable {
    type Content = SlotTable;

    ghost NAME = { part.Slots };

    ghost said_in = { slots_over };

    ghost registers = { no_registers };

    ghost fits = { AreForNumbers };

    ghost is_made = { λ numbers said table. table ≡ said };

    const NAME: Part = Part::Slots;

    fn read(
        alloc: Global,
        numbers: &CounterNumbers,
        bytes: &[u8],
        first_line: u64,
    ) -> Result<(SlotTable, usize, u64), PartError<Rule>> {
        read_slots_for(alloc, numbers.nodes(), numbers.modulus(), bytes, first_line)
    }

    fn registers(&self) -> Option<Registers> {
        None
    }

    ghost sound = { slots_sound };
}
