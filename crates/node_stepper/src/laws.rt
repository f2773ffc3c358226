//! Laws of packets.

ghost use Rattle.node_stepper.specs.Laws.{PacketsReadBack};

/// Packets that are written are the packets that are read.
pub fn packets_read_back()
    ensures { PacketsReadBack }
{}
