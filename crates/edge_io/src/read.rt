ghost use Rattle.std.specs.Prelude.{◌≡◌, ◌<◌, ◌≤◌, length, IfOk, IfSome, IsErrOf, OnOk, OnErr};
ghost use Rattle.std.specs.Io.KnownBytes.{Consumes, IsAtEnd};
ghost use Rattle.texts.specs.Causes.{Counted};
ghost use Rattle.edge_io.specs.Reading.{LosesFront, LosesWithin, LosesMore};
ghost use Rattle.edge_io.specs.declared.read.InputFault.TheVariants.{NoMemory};

use crate::{Failed, Source};
use std::alloc::{AllocError, Global};
use thiserror::Error;

/// A read that failed, which the source has counted.
#[derive(Clone, Copy, Debug, PartialEq, Eq, Error)]
#[error("a read failed")]
pub struct ReadFault;

/// Why an input was not read.
#[derive(Clone, Copy, Debug, PartialEq, Eq, Error)]
pub enum InputFault {
    #[error("a read failed")]
    ReadFault,
    #[error("the input is too long")]
    TooLong,
    #[error("out of memory")]
    NoMemory,
}

impl From<AllocError> for InputFault {
    ghost from_gives = { λ _ e. e ≡ NoMemory };

    fn from(_: AllocError) -> Self {
        InputFault::NoMemory
    }
}

/// How many bytes one read asks for.
const PIECE: usize = 4096;

/// Reads to the end of an input of at most `limit` bytes, in time linear in its length.
///
/// `TooLong` comes at the first piece that goes past the limit, so at most 4096 bytes after it.
/// `ReadFault` comes only if the source counted one fault and its end was not met, and `NoMemory`
/// if memory ran out; then at most `limit` bytes were read.
pub fn read_all<S: Source>(
    alloc: Global,
    source: &mut S,
    limit: usize,
) -> Result<Vec<u8>, InputFault>
    // All was read, and it is within the limit.
    ensures bytes { IfOk result (λ v. Consumes (S.left source.old) (S.left source.new) v.items) }
    ensures end { OnOk result (IsAtEnd (S.left source.new)) }
    ensures short { IfOk result (λ v. length v.items ≤ limit) }

    ensures long { IsErrOf result InputFault.TooLong
        → IfSome (S.left source.old) (λ bytes. limit < length bytes) }
    ensures past { IsErrOf result InputFault.TooLong
        → LosesMore limit (S.left source.old) (S.left source.new) }

    // What was read before an error is lost, and what is after it is left. Only at `TooLong` was a
    // byte after the limit read.
    ensures lost { OnErr result (LosesFront (S.left source.old) (S.left source.new)) }
    ensures within { IsErrOf result InputFault.ReadFault
        → LosesWithin limit (S.left source.old) (S.left source.new) }
    ensures kept { IsErrOf result InputFault.NoMemory
        → LosesWithin limit (S.left source.old) (S.left source.new) }

    // Only a read fault was counted, and one, and before it the end was not met.
    ensures fault { IsErrOf result InputFault.ReadFault
        → Counted (S.faults source.old) (S.faults source.new) }
    ensures unmet { IsErrOf result InputFault.ReadFault → S.met source.new ≡ S.met source.old }
    ensures still { IsErrOf result InputFault.TooLong → S.faults source.new ≡ S.faults source.old }
    ensures memory { IsErrOf result InputFault.NoMemory
        → S.faults source.new ≡ S.faults source.old }
    ensures ok { OnOk result (S.faults source.new ≡ S.faults source.old) }
{
    let mut bytes = Vec::new(alloc);
    let mut piece = [0u8; PIECE];
    loop {
        let count = match source.read(&mut piece) {
            Ok(count) => count,
            Err(Failed) => return Err(InputFault::ReadFault),
        };
        if count == 0 {
            return Ok(bytes);
        }
        if count > limit - bytes.len() {
            return Err(InputFault::TooLong);
        }
        bytes.extend_from_slice(&piece[..count])?;
    }
}
