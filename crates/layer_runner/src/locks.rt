ghost use Rattle.std.specs.Prelude.{None, slice_index_or};
ghost use Rattle.edge_io.specs.Writing.{Writes};
ghost use Rattle.machine_runner.specs.RunTexts.{lock_lines};

use counter_core::Overlay;
use edge_io::{Sink, Writer};
use layer_laws::Play;
use machine_runner::{put_era, put_locked};

/// Writes the first locked configuration so far of each era: for a script of version 1 one line,
/// else one for each era, with the configuration that it begins with.
pub fn put_locks<K: Sink, O: Overlay, P: Play<O>>(writer: &mut Writer<'_, K>, play: &P)
    ensures { Writes K.told (lock_lines (P.position play.now).script
        (λ j. slice_index_or (P.position play.now).locks j None))
        writer.old writer.new }
{
    if play.script().version() == 1 {
        put_locked(writer, play.lock_of(0));
        return;
    }
    for era in 0..play.script().eras() {
        let first = play.script().era_start(era);
        put_era(writer, first, play.lock_of(era));
    }
}
