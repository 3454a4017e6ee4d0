//! Bytes that are handed over to C, as `snprintf` hands over a text: as many as there is room for,
//! and the number of all.

ghost use Rattle.std.specs.Prelude.{◌≡◌, IfOk, IfErr, length};
ghost use Rattle.mac_words.specs.Codes.{noErr};
ghost use Rattle.macmem_c.specs.Codes.{code_of, host_memory};
ghost use Rattle.macmem_c.specs.Delivered.{laid_over, front_of, count_of};
ghost use Rattle.macmem_c.specs.Faults.{Tells};

use crate::codes::HOST_MEMORY;
use crate::faults::{Fault, tell};
use fork_commands::WorkFault;
use mac_words::OsErr;
use std::alloc::AllocError;

/// Copies bytes to the front of C's memory, as many as there is room for, and returns how many
/// bytes there are.
pub fn deliver(bytes: &[u8], out: &mut [u8]) -> usize
    ensures count { result ≡ length bytes.now }
    ensures front { out.new ≡ laid_over bytes.now out.old }
{
    let count = bytes.len().min(out.len());
    out[..count].copy_from_slice(&bytes[..count]);
    bytes.len()
}

/// Hands over the bytes that a call shows, and returns the code.
pub fn show_in(shown: Result<&[u8], OsErr>, out: &mut [u8], len: &mut usize) -> i32
    ensures code { result ≡ code_of shown.entry }
    ensures front { out.new ≡ front_of out.old shown.entry }
    ensures count { len.new ≡ count_of len.old shown.entry }
{
    match shown {
        Ok(bytes) => {
            *len = deliver(bytes, out);
            0
        }
        Err(code) => i32::from(code.number()),
    }
}

/// Hands over what was made of a file, or why nothing was, and returns the code. In the second case
/// only the fault changes.
pub fn hand_over(
    made: Result<Vec<u8>, WorkFault>,
    out: &mut [u8],
    len: &mut usize,
    fault: &mut Fault,
) -> i32
    ensures handed { IfOk made (λ v.
        (result ≡ noErr) × (out.new ≡ laid_over v.items out.old) × (len.new ≡ length v.items)
        × (fault.new ≡ fault.old)) }
    ensures stopped { IfErr made (λ f.
        Tells f fault.old fault.new result × (out.new ≡ out.old) × (len.new ≡ len.old)) }
{
    match made {
        Ok(bytes) => {
            *len = deliver(bytes.as_slice(), out);
            0
        }
        Err(stopped) => tell(stopped, fault),
    }
}

/// Hands over bytes that are made whatever a file or a text holds, and returns the code. Where the
/// host is out of memory nothing changes.
pub fn give(made: Result<Vec<u8>, AllocError>, out: &mut [u8], len: &mut usize) -> i32
    ensures given { IfOk made (λ v.
        (result ≡ noErr) × (out.new ≡ laid_over v.items out.old) × (len.new ≡ length v.items)) }
    ensures unchanged { IfErr made (λ _.
        (result ≡ host_memory) × (out.new ≡ out.old) × (len.new ≡ len.old)) }
{
    match made {
        Ok(bytes) => {
            *len = deliver(bytes.as_slice(), out);
            0
        }
        Err(_) => HOST_MEMORY,
    }
}
