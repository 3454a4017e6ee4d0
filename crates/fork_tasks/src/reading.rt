//! Inputs that are read to their end.

ghost use Rattle.std.specs.Prelude.{◌≡◌, ◌≤◌, IfOk, IfSome, vec_len};

use crate::host::ReadError;
use std::alloc::Global;
use std::io::{ErrorKind, Read};

/// Reads an input to its end; memory for `room` bytes is taken first. Refuses an input that fails
/// while it is read, or that has more than `most` bytes; of an input without end, `most` bytes and
/// one more are read.
pub fn read_all<R: Read>(
    alloc: Global,
    reader: &mut R,
    room: usize,
    most: u32,
) -> Result<Vec<u8>, ReadError>
    // The bytes that are returned are all that the reader had, if these are known.
    ensures whole { IfOk result (λ bytes.
        IfSome (R.remaining reader.old) (λ all. bytes.items ≡ all)) }
    ensures bound { IfOk result (λ bytes. vec_len bytes ≤ most) }
{
    let mut bytes = Vec::with_capacity(alloc, room)?;
    match reader.take(most as u64 + 1).read_to_end(&mut bytes) {
        Ok(_) if bytes.len() <= most as usize => Ok(bytes),
        Err(error) if error.kind() == ErrorKind::OutOfMemory => Err(ReadError::HostMemory),
        _ => Err(ReadError::CannotRead),
    }
}
