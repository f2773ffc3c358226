ghost use Rattle.std.specs.Prelude.{◌≡◌, ◌||◌, not, ℕ, List, OnErr, IfOk};
ghost use Rattle.texts.specs.Causes.{HasCause};
ghost use Rattle.edge_io.specs.Feeds.{feed_left, ReadsSoMany, Fills, IsDry};

use crate::{Feed, ReadFault, Source};

/// Reads `count` bytes and keeps none: true if they were there, false if the input ended before.
///
/// `ReadFault` comes only if the source counted one fault; all bytes that it gave were then read.
pub fn skip_bytes<S: Source>(feed: &mut Feed<'_, S>, count: usize) -> Result<bool, ReadFault>
    ensures same_reference { feed.new.source.ghost_name ≡ feed.old.source.ghost_name }
    ensures bytes { (bytes : List ℕ)
        × ReadsSoMany count (feed_left S.left feed.old) (feed_left S.left feed.new) bytes result }
    ensures cause { HasCause (S.faults feed.old.source.now) (S.faults feed.new.source.now) result }
    ensures met { IfOk result (λ all. S.met feed.new.source.now
        ≡ (not all || S.met feed.old.source.now)) }
    ensures dry { OnErr result (IsDry S.met feed.old feed.new) }
    ensures still { feed.new.line_bytes ≡ feed.old.line_bytes }
{
    for _ in 0..count {
        match feed.byte() {
            Ok(Some(_)) => {}
            Ok(None) => return Ok(false),
            Err(ReadFault) => return Err(ReadFault),
        }
    }
    Ok(true)
}

/// Fills a buffer: true if so many bytes were there, false if the input ended before.
///
/// `ReadFault` comes only if the source counted one fault; all bytes that it gave were then read.
pub fn take_bytes<S: Source>(feed: &mut Feed<'_, S>, buf: &mut [u8]) -> Result<bool, ReadFault>
    ensures same_reference { feed.new.source.ghost_name ≡ feed.old.source.ghost_name }
    ensures bytes { Fills (feed_left S.left feed.old) (feed_left S.left feed.new) buf.old buf.new
        result }
    ensures cause { HasCause (S.faults feed.old.source.now) (S.faults feed.new.source.now) result }
    ensures met { IfOk result (λ all. S.met feed.new.source.now
        ≡ (not all || S.met feed.old.source.now)) }
    ensures dry { OnErr result (IsDry S.met feed.old feed.new) }
    ensures still { feed.new.line_bytes ≡ feed.old.line_bytes }
{
    if feed.take_held_bytes(buf) {
        return Ok(true);
    }
    for i in 0..buf.len() {
        match feed.byte() {
            Ok(Some(byte)) => buf[i] = byte,
            Ok(None) => return Ok(false),
            Err(ReadFault) => return Err(ReadFault),
        }
    }
    Ok(true)
}
