ghost use Rattle.texts.specs.Growth.{Puts};

use crate::{Failed, Sink};
use thiserror::Error;

/// A write that failed, which the sink has counted.
#[derive(Clone, Copy, Debug, PartialEq, Eq, Error)]
#[error("a write failed")]
pub struct WriteFault;

/// Writes all the bytes.
///
/// `WriteFault` comes only if the sink counted one fault, which ended the call; a prefix of the
/// bytes was then taken, and not all of them came through.
pub fn put_all<K: Sink>(sink: &mut K, bytes: &[u8]) -> Result<(), WriteFault>
    ensures { Puts result bytes.now (K.told sink.old) (K.told sink.new) }
{
    let mut rest = bytes;
    while !rest.is_empty() {
        match sink.write(rest) {
            Ok(count) => rest = &rest[count..],
            Err(Failed) => return Err(WriteFault),
        }
    }
    Ok(())
}
