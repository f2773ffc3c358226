ghost use Rattle.sync_types.specs.declared.answers.Part.TheVariants as part;
ghost use Rattle.firing.specs.FirePart.{part_over, AreForNumbers};
ghost use Rattle.firing.specs.FireAnswers.{IsFreshOver};
ghost use Rattle.layer_parts.specs.Layers.{fire_registers, fire_words};
ghost use Rattle.layer_parts.specs.SoundLayers.{fire_sound, fire_right};

use crate::counter_parts::CounterPart;
use crate::layer_parts::LayerPart;
use crate::registers::Registers;
use edge_io::PartError;
use firing::{Firing, Requests, read_fire_over};
use layer_laws::CounterNumbers;
use layer_runner::Fires;
use std::alloc::Global;
use sync_types::{Part, Rule};

impl CounterPart for Firing {
    type Content = Requests;

    ghost NAME = { part.Fire };

    ghost said_in = { part_over };

    ghost registers = { fire_registers };

    ghost fits = { AreForNumbers };

    ghost is_made = { IsFreshOver };

    const NAME: Part = Part::Fire;

    fn read(
        alloc: Global,
        numbers: &CounterNumbers,
        bytes: &[u8],
        first_line: u64,
    ) -> Result<(Firing, usize, u64), PartError<Rule>> {
        read_fire_over(alloc, numbers, bytes, first_line)
    }

    fn registers(&self) -> Option<Registers> {
        Some(Registers {
            values: 2,
            count: 1,
        })
    }

    ghost sound = { fire_sound };
}

impl LayerPart for Firing {
    type LayerLines = Fires;

    ghost words = { fire_words };

    fn lines(numbers: &CounterNumbers) -> Fires {
        numbers.facts();
        Fires::new(numbers.faults())
    }

    ghost fresh = { λ numbers said part made. record {
      layer_is = made.layer;
      kept_is = made.kept;
    } };

    ghost right = { fire_right };
}
