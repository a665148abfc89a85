// Reading a source to its end.
ghost use Rattle.std.specs.Prelude.{◌≡◌, ◌+◌, ◌<◌, ◌≤◌, IfOk, IfSome, OnOk, IsErr, IsErrOf, vec_len};
ghost use Rattle.std.specs.Io.KnownBytes.{IsAtEnd};
ghost use Rattle.cosim_io.specs.declared.whole.ReadEnd.TheVariants.{Fault, NoMemory};
ghost use Rattle.cosim_io.specs.Faults.{Rose};
ghost use Rattle.cosim_io.specs.Pieces.{ConsumesAtMost, ConsumesExactly, IsLongerThan};

use crate::{Failed, Source};
use std::alloc::{AllocError, Global};
use thiserror::Error;

/// Why a source was not read to its end.
#[derive(Clone, Copy, Debug, PartialEq, Eq, Error)]
pub enum ReadEnd {
    /// A read failed.
    #[error("reading failed")]
    Fault,
    /// More bytes were left than the limit allows.
    #[error("the input is longer than allowed")]
    TooLong,
    /// There was no memory for the bytes.
    #[error("no memory for the input")]
    NoMemory,
}

impl From<Failed> for ReadEnd {
    ghost from_gives = { λ _ end. end ≡ Fault };

    fn from(_: Failed) -> Self {
        ReadEnd::Fault
    }
}

impl From<AllocError> for ReadEnd {
    ghost from_gives = { λ _ end. end ≡ NoMemory };

    fn from(_: AllocError) -> Self {
        ReadEnd::NoMemory
    }
}

// The most bytes that one read requests.
const CHUNK: usize = 4096;

/// Reads all the bytes that are left, up to the end of input, if these are at most `limit` bytes.
///
/// No more than the byte after the limit is taken: `TooLong` is returned as soon as that byte was taken, and the rest
/// is left unread. `Fault` is returned at the first read that fails, before which at most `limit` bytes were taken.
/// After `Fault` and `NoMemory` the bytes that were taken are lost.
pub fn read_all<S: Source>(alloc: Global, source: &mut S, limit: usize) -> Result<Vec<u8>, ReadEnd>
    ensures all { IfOk result (λ bytes. IfSome (S.left source.old) (λ left. bytes.items ≡ left)) }
    ensures ended { OnOk result (IsAtEnd (S.left source.new)) }
    ensures same { OnOk result (S.faults source.new ≡ S.faults source.old) }
    ensures within { IfOk result (λ bytes. vec_len bytes ≤ limit) }

    // The byte after the limit was taken and none after it. A longer input never gives `Ok`.
    ensures too_long { IsErrOf result ReadEnd.TooLong → ConsumesExactly (S.left source.old) (S.left source.new) (limit + 1) }
    ensures longer { IsLongerThan (S.left source.old) limit → IsErr result }
    ensures taken { ConsumesAtMost (S.left source.old) (S.left source.new) (limit + 1) }

    // `Fault` is returned exactly for a fault of the source, and no byte after the limit was taken before one.
    ensures fault { IsErrOf result ReadEnd.Fault → Rose (S.faults source.old) (S.faults source.new) }
    ensures fault_taken { IsErrOf result ReadEnd.Fault → ConsumesAtMost (S.left source.old) (S.left source.new) limit }
    ensures greater { S.faults source.old < S.faults source.new → IsErrOf result ReadEnd.Fault }
    ensures later { S.faults source.old ≤ S.faults source.new }
{
    let mut bytes = Vec::new(alloc);
    let mut chunk = [0; CHUNK];
    'reading: loop {
        // Room for one byte more than the limit leaves, since only that byte shows that a text is too long.
        let room = (limit - bytes.len()).min(CHUNK - 1) + 1;
        let count = source.read(&mut chunk[..room])?;
        if count == 0 {
            return Ok(bytes);
        }
        if count > limit - bytes.len() {
            return Err(ReadEnd::TooLong);
        }
        bytes.extend_from_slice(&chunk[..count])?;
    }
}
