//! Reading a source: to its end, until a buffer is full, or one byte.
ghost use Rattle.std.specs.Prelude.{◌≡◌, ◌+◌, ◌<◌, ◌≤◌, ◌⊎◌, IfOk, IsOk, IsErrOf, OnOk, OnErr, Err, length, take, vec_len};
ghost use Rattle.std.specs.Io.KnownBytes.{Consumes, IsAtEnd, Keeps};
ghost use Rattle.sdh_basics.specs.Causes.{HasCause, Rose, IsCounted};
ghost use Rattle.sdh_outside.specs.Reading.{TakesCount, TakesFewer, TakesNext, TellsAtMost};

use crate::source::{Failed, Source};
use std::alloc::{AllocError, Global};
use thiserror::Error;

/// The most bytes that `read_all` returns: 1 MiB.
pub const READ_MAX: usize = 1_048_576;

/// Why `read_all` returned no bytes. The bytes that it took from the source are lost.
#[derive(Clone, Copy, Debug, PartialEq, Eq, Error)]
pub enum ReadAllError {
    /// Memory ran out before the first read, so nothing was taken.
    #[error("no memory")]
    Memory,
    /// A read failed.
    #[error("a read failed")]
    ReadFault,
    /// The source had more than `READ_MAX` bytes; `READ_MAX` and one more were taken.
    #[error("more than 1,048,576 bytes")]
    TooLong,
}

// Returns `count` bytes, each 0.
fn zeros(alloc: Global, count: usize) -> Result<Vec<u8>, AllocError>
    ensures { IfOk result (λ bytes. vec_len bytes ≡ count) }
{
    vec![in alloc; 0u8; count]
}

/// Reads until the buffer is full, the source ends or a call fails, and returns the number of bytes read.
pub fn fill<R: Source>(source: &mut R, buf: &mut [u8]) -> Result<usize, Failed>
    ensures within { IfOk result (λ count. count ≤ length buf.new) }
    ensures took { IfOk result (λ count. Consumes (R.left source.old) (R.left source.new) (take count buf.new)) }
    ensures end { IfOk result (λ count. count < length buf.new → IsAtEnd (R.left source.new)) }
    ensures failed { OnErr result (TakesFewer (R.left source.old) (R.left source.new) (length buf.new)) }
    ensures cause { HasCause R.exact (R.faults source.old) (R.faults source.new) result }
{
    let mut taken = 0;
    while taken < buf.len() {
        let count = source.read(&mut buf[taken..])?;
        if count == 0 {
            return Ok(taken);
        }
        taken += count;
    }
    Ok(taken)
}

/// Returns the next byte that the source has left, and takes no other; `None` at its end.
pub fn next_byte<R: Source>(source: &mut R) -> Result<Option<u8>, Failed>
    ensures next { IfOk result (λ next. TakesNext (R.left source.old) (R.left source.new) next) }
    ensures err { OnErr result (Keeps (R.left source.old) (R.left source.new)) }
    ensures cause { HasCause R.exact (R.faults source.old) (R.faults source.new) result }
{
    let mut one = [0u8; 1];
    let count = source.read(&mut one)?;
    if count == 0 {
        return Ok(None);
    }
    Ok(Some(one[0]))
}

/// Returns all bytes that the source has left, if they are at most `READ_MAX`. It reserves room for `READ_MAX` + 1
/// bytes before the first read. It stops when the source ends, a read fails or the room is full.
pub fn read_all<R: Source>(alloc: Global, source: &mut R) -> Result<Vec<u8>, ReadAllError>
    ensures all { IfOk result (λ bytes. Consumes (R.left source.old) (R.left source.new) bytes.items) }
    ensures end { OnOk result (IsAtEnd (R.left source.new)) }
    ensures short { IfOk result (λ bytes. length bytes.items ≤ READ_MAX) }

    ensures fault { IsErrOf result ReadAllError.ReadFault → Rose (R.faults source.old) (R.faults source.new) }
    ensures fault_taken { IsErrOf result ReadAllError.ReadFault → TakesFewer (R.left source.old) (R.left source.new) (READ_MAX + 1) }
    ensures too_long { IsErrOf result ReadAllError.TooLong → TakesCount (R.left source.old) (R.left source.new) (READ_MAX + 1) }
    ensures memory { IsErrOf result ReadAllError.Memory → source.new ≡ source.old }

    // Where the source shows at most `READ_MAX` bytes left and no read fails, the result is Ok, or memory ran out.
    ensures complete { TellsAtMost (R.left source.old) READ_MAX → ¬ (Rose (R.faults source.old) (R.faults source.new))
        → IsOk result ⊎ IsErrOf result ReadAllError.Memory }
    ensures later { R.faults source.old ≤ R.faults source.new }

    // Where the source's count of faults is exact, one read failed if the result is `ReadFault`, and none otherwise.
    ensures counted { IsCounted R.exact (IsErrOf result ReadAllError.ReadFault) (R.faults source.old) (R.faults source.new) }
{
    let Ok(mut bytes) = zeros(alloc, READ_MAX + 1) else {
        return Err(ReadAllError::Memory);
    };
    let Ok(count) = fill(source, &mut bytes) else {
        return Err(ReadAllError::ReadFault);
    };
    if count > READ_MAX {
        return Err(ReadAllError::TooLong);
    }
    bytes.truncate(count);
    Ok(bytes)
}
