ghost use Rattle.sync_types.specs.declared.answers.Part.TheVariants as part;
ghost use Rattle.replicated_log.specs.LogPart.{part_over, IsForNumbers};
ghost use Rattle.replicated_log.specs.LogReadings.{IsFreshOver};
ghost use Rattle.layer_parts.specs.Layers.{log_registers, log_words};
ghost use Rattle.layer_parts.specs.SoundLayers.{log_sound, log_right};

use crate::counter_parts::CounterPart;
use crate::layer_parts::LayerPart;
use crate::registers::Registers;
use edge_io::PartError;
use layer_laws::CounterNumbers;
use layer_runner::Logged;
use replicated_log::{LogPart, Replica, read_log_over};
use std::alloc::Global;
use sync_types::{Part, Rule};

impl CounterPart for Replica {
    type Content = LogPart;

    ghost NAME = { part.Log };

    ghost said_in = { part_over };

    ghost registers = { log_registers };

    ghost fits = { IsForNumbers };

    ghost is_made = { IsFreshOver };

    const NAME: Part = Part::Log;

    fn read(
        alloc: Global,
        numbers: &CounterNumbers,
        bytes: &[u8],
        first_line: u64,
    ) -> Result<(Replica, usize, u64), PartError<Rule>> {
        read_log_over(alloc, numbers, bytes, first_line)
    }

    fn registers(&self) -> Option<Registers> {
        Some(Registers {
            values: self.values(),
            count: 2,
        })
    }

    ghost sound = { log_sound };
}

impl LayerPart for Replica {
    type LayerLines = Logged;

    ghost words = { log_words };

    fn lines(numbers: &CounterNumbers) -> Logged {
        Logged::new(numbers)
    }

    ghost fresh = { λ numbers said part made. record {
      layer_is = made.layer;
      kept_is = made.kept;
    } };

    ghost right = { log_right };
}
