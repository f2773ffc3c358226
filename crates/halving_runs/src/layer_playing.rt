ghost use Rattle.std.specs.Prelude.{◌≡◌, MatchResult, IfErr};
ghost use Rattle.halving_plan.specs.Laws.{machine_in};
ghost use Rattle.machine_runner.specs.Locks.{is_locked};
ghost use Rattle.player.specs.Counters.{machine_counter};
ghost use Rattle.player.specs.ReadOver.{IsReadWithLayer};
ghost use Rattle.layer_runner.specs.PlayedTexts.{played_text};
ghost use Rattle.halving_runs.specs.RunTexts.{IsPlayed, FailsToPlay, IsWritten, KeepsSink};
ghost use Rattle.halving_runs.specs.RunTexts.{layer_run};

use crate::errors::PlayError;
use crate::reading::{Scripted, numbers_of, read_layered};
use crate::refusals::put_error;
use counter_core::Overlay;
use edge_io::Sink;
use layer_parts::LayerPart;
use layer_runner::{Lines, put_played};
use machines::Machine;
use player::Player;
use rounds::Plain;
use std::alloc::Global;

/// Plays a script that was read for a machine with a layer above, and writes the lines.
fn play_above<K: Sink, O: Overlay, L: Lines<O>>(
    alloc: Global,
    scripted: Scripted,
    overlay: O,
    lines: &L,
    sink: &mut K,
) -> Result<(), PlayError>
    requires read { IsReadWithLayer (machine_in scripted.0) (O.layer overlay) scripted.2 }
    requires shape { scripted.2.shape ≡ scripted.1 }
    ensures does { IsWritten result
        (played_text (machine_counter (machine_in scripted.0)) (is_locked (machine_in scripted.0))
        scripted.2 (O.layer overlay) (O.kept overlay) (L.wording lines.now))
        (K.told sink.old) (K.told sink.new) }
    ensures untouched { IfErr result (KeepsSink sink.old sink.new) }
{
    let (machine, shape, script) = scripted;
    let machine = Plain::of(&machine);
    let mut player = Player::new(alloc, &machine, shape, script, overlay)?;
    put_played(sink, &mut player, lines)?;
    Ok(())
}

/// Plays the script of an input with the layer that its part says, and writes what comes of it.
pub(crate) fn play_layer<P: LayerPart, K: Sink>(
    alloc: Global,
    input: &[u8],
    sink: &mut K,
) -> Result<(), PlayError>
    ensures does { MatchResult result
        (λ _. IsPlayed (layer_run P.NAME P.said_in P.registers P.words input.now)
        (K.told sink.old) (K.told sink.new))
        (FailsToPlay (layer_run P.NAME P.said_in P.registers P.words input.now)
        (K.told sink.old) (K.told sink.new)) }
    ensures untouched { IfErr result (KeepsSink sink.old sink.new) }
{
    match read_layered::<P>(alloc, input) {
        Ok((layer, scripted)) => {
            let lines = P::lines(&numbers_of(&scripted.0.plan()));
            play_above(alloc, scripted, layer, &lines, sink)
        }
        Err(error) => Err(put_error(sink, error)),
    }
}
