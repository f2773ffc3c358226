//! Tells how the program is used, and its version.

ghost use Rattle.texts.specs.Growth.{Puts};
ghost use Rattle.halvinglab.specs.HelpText.{help_text, version_text};

use edge_io::{Piece, Sink, WriteFault, put_all, put_pieces};

/// Writes how the program is used.
pub fn write_help<K: Sink>(sink: &mut K) -> Result<(), WriteFault>
    ensures { Puts result help_text (K.told sink.old) (K.told sink.new) }
{
    put_pieces(
        sink,
        &[
            Piece::Text(b"usage: halvinglab plan < PLAN, halvinglab run < PLAN_AND_SCRIPT,\n"),
            Piece::Text(b"halvinglab slots < PLAN_SLOTS_AND_SCRIPT,\n"),
            Piece::Text(b"halvinglab consensus < PLAN_INPUTS_AND_SCRIPT,\n"),
            Piece::Text(b"halvinglab fire < PLAN_REQUESTS_AND_SCRIPT,\n"),
            Piece::Text(b"halvinglab log < PLAN_LOG_AND_SCRIPT,\n"),
            Piece::Text(b"or halvinglab node < HEADER_AND_PACKETS\n"),
            Piece::Text(b"plan: reads a halving plan, the lines `halving 1`, `group N F C` and\n"),
            Piece::Text(b"`end`, and writes its table: its numbers and bound, what a state\n"),
            Piece::Text(b"takes, a line for each group, from all nodes down to single ones, and\n"),
            Piece::Text(
                b"one for each node, with its bytes and where the output stands in them.\n",
            ),
            Piece::Text(b"run: reads a halving plan and a script for it, plays the script, and\n"),
            Piece::Text(b"writes the bound, a row of what the nodes show in each configuration\n"),
            Piece::Text(b"that is shown, and which configuration is the first locked one.\n"),
            Piece::Text(b"slots: the same with a slot table between plan and script, and with a\n"),
            Piece::Text(b"line of which nodes hold in place of a row.\n"),
            Piece::Text(
                b"consensus, fire, log: the same with what is to be agreed on between plan\n",
            ),
            Piece::Text(
                b"and script, and in place of rows a line of each slot that begins later\n",
            ),
            Piece::Text(
                b"than the bound in its era and ends in it: what the nodes decided, which\n",
            ),
            Piece::Text(b"of them fire, or the slot's owner and what they put into their logs.\n"),
            Piece::Text(
                b"node: reads a halving plan and the lines `node 1`, `id V`, `state H` and\n",
            ),
            Piece::Text(b"`end`, and then packets, and writes the state of node V at the start\n"),
            Piece::Text(b"and behind each packet, as bytes.\n"),
        ],
    )
}

/// Writes the program's name and version.
pub fn write_version<K: Sink>(sink: &mut K) -> Result<(), WriteFault>
    ensures { Puts result version_text (K.told sink.old) (K.told sink.new) }
{
    put_all(sink, b"halvinglab 2.0\n")
}
