//! Draws what a node of a group saw of the left half, and which half it follows.

ghost use Rattle.std.specs.Prelude.{◌≡◌};
ghost use Rattle.edge_io.specs.Writing.{Writes};
ghost use Rattle.trace_pictures.specs.Shares.{arrow, arrow_by, arrow_edge, arrow_if, share_bar};
ghost use Rattle.trace_pictures.specs.Shares.{tint};

use crate::traces::{Basis, Following, Half, Heard, LeftSeen};
use edge_io::{Piece, Sink, Writer};
use picture_parts::{CellPosition, left, middle, spot_top, width};

/// The colour of a share, darker if the left half is trusted.
fn tint(share: Half, is_trusted: bool) -> &'static [u8]
    ensures { result.now ≡ tint share is_trusted }
{
    match (share, is_trusted) {
        (Half::Left, true) => b"#4292c6",
        (Half::Left, false) => b"#c6dbef",
        (Half::Right, true) => b"#f16913",
        (Half::Right, false) => b"#fdd0a2",
    }
}

/// Draws a bar below a cell, in the colour of the share.
pub fn put_share<K: Sink>(writer: &mut Writer<'_, K>, spot: CellPosition, own: LeftSeen)
    ensures { Writes K.told (share_bar spot own) writer.old writer.new }
{
    writer.pieces(&[
        Piece::Text(b"<rect x='"),
        Piece::Number(left(spot)),
        Piece::Text(b"' y='"),
        Piece::Number(spot_top(spot) + 18),
        Piece::Text(b"' width='"),
        Piece::Number(width(spot)),
        Piece::Text(b"' height='8' stroke='white' fill='"),
        Piece::Text(tint(own.share, own.is_trusted)),
        Piece::Text(b"'/>\n"),
    ]);
}

/// The rest of an arrow, filled if what the node saw is backed.
fn arrow_edge(is_backed: bool) -> &'static [u8]
    ensures { result.now ≡ arrow_edge is_backed }
{
    match is_backed {
        true => b"z' stroke='black'/>\n",
        false => b"z' fill='white' stroke='black'/>\n",
    }
}

/// Draws an arrow in that bar, to the half that the node follows.
fn put_arrow<K: Sink>(writer: &mut Writer<'_, K>, spot: CellPosition, following: Following)
    ensures { Writes K.told (arrow spot following.half (arrow_edge following.is_backed))
        writer.old writer.new }
{
    let edge = arrow_edge(following.is_backed);
    match following.half {
        Half::Left => writer.pieces(&[
            Piece::Text(b"<path d='M"),
            Piece::Number(middle(spot) + 3),
            Piece::Text(b" "),
            Piece::Number(spot_top(spot) + 20),
            Piece::Text(b"v4l-6 -2"),
            Piece::Text(edge),
        ]),
        Half::Right => writer.pieces(&[
            Piece::Text(b"<path d='M"),
            Piece::Number(middle(spot) - 3),
            Piece::Text(b" "),
            Piece::Number(spot_top(spot) + 20),
            Piece::Text(b"v4l6 -2"),
            Piece::Text(edge),
        ]),
    }
}

/// Draws the arrow of a node that follows a half.
fn put_arrow_by<K: Sink>(writer: &mut Writer<'_, K>, spot: CellPosition, basis: &Basis)
    ensures { Writes K.told (arrow_by spot basis.now) writer.old writer.new }
{
    match basis {
        Basis::Votes(_) => {}
        Basis::Follows(following) => put_arrow(writer, spot, *following),
    }
}

/// Draws it if the node hears something.
pub fn put_arrow_if<K: Sink>(writer: &mut Writer<'_, K>, spot: CellPosition, heard: &Option<Heard>)
    ensures { Writes K.told (arrow_if spot heard.now) writer.old writer.new }
{
    match heard {
        None => {}
        Some(heard) => put_arrow_by(writer, spot, &heard.basis),
    }
}
