ghost use Rattle.sync_types.specs.declared.answers.Part.TheVariants as part;
ghost use Rattle.consensus_layer.specs.AgreePart.{part_over, IsForNumbers};
ghost use Rattle.consensus_layer.specs.AgreeAnswers.{IsFreshOver};
ghost use Rattle.layer_parts.specs.Layers.{agree_registers, agree_words};
ghost use Rattle.layer_parts.specs.SoundLayers.{agree_sound, agree_right};

use crate::counter_parts::CounterPart;
use crate::layer_parts::LayerPart;
use crate::registers::Registers;
use consensus_layer::{AgreePart, Agreement, read_agree_over};
use edge_io::PartError;
use layer_laws::CounterNumbers;
use layer_runner::DecisionLines;
use std::alloc::Global;
use sync_types::{Part, Rule};

impl CounterPart for Agreement {
    type Content = AgreePart;

    ghost NAME = { part.Agree };

    ghost said_in = { part_over };

    ghost registers = { agree_registers };

    ghost fits = { IsForNumbers };

    ghost is_made = { IsFreshOver };

    const NAME: Part = Part::Agree;

    fn read(
        alloc: Global,
        numbers: &CounterNumbers,
        bytes: &[u8],
        first_line: u64,
    ) -> Result<(Agreement, usize, u64), PartError<Rule>> {
        read_agree_over(alloc, numbers, bytes, first_line)
    }

    fn registers(&self) -> Option<Registers> {
        Some(Registers {
            values: self.values(),
            count: 1,
        })
    }

    ghost sound = { agree_sound };
}

impl LayerPart for Agreement {
    type LayerLines = DecisionLines;

    ghost words = { agree_words };

    fn lines(numbers: &CounterNumbers) -> DecisionLines {
        numbers.facts();
        DecisionLines::new(numbers.faults())
    }

    ghost fresh = { λ numbers said part made. record {
      layer_is = made.layer;
      kept_is = made.kept;
    } };

    ghost right = { agree_right };
}
