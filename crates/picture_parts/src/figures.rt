ghost use Rattle.std.specs.Prelude.{◌≡◌, ℕ, List, true};
ghost use Rattle.edge_io.specs.Writing.{Writes};

use edge_io::{Sink, Writer};

/// What was read of a text, with all that is drawn of it.
pub trait Figure {
    // The text that it is of.
    ghost text: { Self → List ℕ };

    // Its picture.
    ghost picture: { Self → List ℕ };

    // That all of it stands where it belongs.
    ghost laid: { Self → Type 0 };

    /// Writes the text that it is of.
    fn put_text<K: Sink>(&self, writer: &mut Writer<'_, K>)
        ensures { Writes K.told (text self.now) writer.old writer.new };

    /// Writes its picture.
    fn put_picture<K: Sink>(&self, writer: &mut Writer<'_, K>)
        ensures { Writes K.told (picture self.now) writer.old writer.new };

    /// Whether all of it stands where it belongs.
    fn is_laid(&self) -> bool
        ensures { result ≡ true → laid self.now };
}
