//! A wrapped file with another fork in the place of its resource fork.

ghost use Rattle.std.specs.Prelude.{◌≡◌, ◌≤◌, length, IfOk, IfErr, Ok, IsTrue, bytes_eq, is_ok};
ghost use Rattle.fork_wrappers.specs.Rewrapped.{remade, same_wrapping, recognized, placed};
ghost use Rattle.fork_wrappers.specs.Rewrapped.{rewrapped, Refuses};
ghost use Rattle.fork_wrappers.specs.Unwrapped.{wrapping_of, is_mac_binary, fork_in, unwrapped};

use crate::fault::RewrapFault;
use crate::finding::{unwrap, wrapping};
use crate::new_entries::with_fork_of;
use crate::new_header::with_padded_of;
use crate::wrapping::Wrapping;
use std::alloc::Global;

/// Returns whether two wrappings are the same.
fn is_same(a: Wrapping, b: Wrapping) -> bool
    ensures { result ≡ same_wrapping a b }
{
    a == b
}

/// Returns whether bytes are the same.
fn are_same(a: &[u8], b: &[u8]) -> bool
    ensures { result ≡ bytes_eq a.now b.now }
{
    a == b
}

/// Returns a file that is wrapped so, with another fork.
fn remade_of(alloc: Global, how: Wrapping, file: &[u8], fork: &[u8]) -> Result<Vec<u8>, RewrapFault>
    requires header { IsTrue (is_mac_binary how) → 128 ≤ length file.now }
    requires whole { IsTrue (is_ok (fork_in how file.now)) }
    ensures made { IfOk result (λ new. remade how file.now fork.now ≡ Ok new.items) }
    ensures fault { IfErr result (λ why. Refuses why (remade how file.now fork.now)) }
{
    match how {
        Wrapping::Plain => Ok(Vec::from_slice(alloc, fork)?),
        Wrapping::AppleSingle | Wrapping::AppleDouble => with_fork_of(alloc, file, fork),
        Wrapping::MacBinaryI | Wrapping::MacBinaryII | Wrapping::MacBinaryIII => {
            with_padded_of(alloc, how, file, fork)
        }
    }
}

/// Returns a file that is wrapped so, with another fork, if it is taken for such a file.
#[tactic(auto, using(crate::proofs::Rewraps::is_refused))]
fn recognized_of(
    alloc: Global,
    how: Wrapping,
    file: &[u8],
    fork: &[u8],
) -> Result<Vec<u8>, RewrapFault>
    requires header { IsTrue (is_mac_binary how) → 128 ≤ length file.now }
    requires whole { IsTrue (is_ok (fork_in how file.now)) }
    ensures made { IfOk result (λ new. recognized how (remade how file.now fork.now)
        ≡ Ok new.items) }
    ensures fault { IfErr result (λ why.
        Refuses why (recognized how (remade how file.now fork.now))) }
{
    match remade_of(alloc, how, file, fork) {
        Ok(new) => {
            if is_same(wrapping(new.as_slice()), how) {
                Ok(new)
            } else {
                Err(RewrapFault::Unrecognized)
            }
        }
        Err(fault) => Err(fault),
    }
}

/// Returns a file that holds an old fork, with a fork in its place.
fn placed_of(
    alloc: Global,
    how: Wrapping,
    old: &[u8],
    file: &[u8],
    fork: &[u8],
) -> Result<Vec<u8>, RewrapFault>
    requires header { IsTrue (is_mac_binary how) → 128 ≤ length file.now }
    requires whole { IsTrue (is_ok (fork_in how file.now)) }
    ensures made { IfOk result (λ new. placed how old.now file.now fork.now ≡ Ok new.items) }
    ensures fault { IfErr result (λ why. Refuses why (placed how old.now file.now fork.now)) }
{
    if are_same(old, fork) {
        Ok(Vec::from_slice(alloc, file)?)
    } else {
        recognized_of(alloc, how, file, fork)
    }
}

/// Returns a file with a fork in the place of its resource fork.
fn rewrapped_of(alloc: Global, file: &[u8], fork: &[u8]) -> Result<Vec<u8>, RewrapFault>
    ensures made { IfOk result (λ new. rewrapped file.now fork.now ≡ Ok new.items) }
    ensures fault { IfErr result (λ why. Refuses why (rewrapped file.now fork.now)) }
{
    match unwrap(file) {
        Ok(found) => placed_of(alloc, found.wrapping, found.fork, file, fork),
        Err(fault) => Err(RewrapFault::Damaged(fault)),
    }
}

/// Returns a file with a fork in the place of its resource fork, wrapped as it was. A file that
/// holds this fork stays as it is.
///
/// # Errors
/// `Damaged` where `unwrap` has a fault, `Overlap` where another entry shares bytes with the
/// resource fork or with the list of entries, `TooLong` where a number does not fit the wrapper,
/// `Unrecognized` where the file would be taken for one that is wrapped otherwise, and
/// `HostMemory`.
///
/// *AppleSingle/AppleDouble Formats for Foreign Files*, Developer's Note (1990); MacBinary II
/// Standard (1987).
pub fn rewrap(alloc: Global, file: &[u8], fork: &[u8]) -> Result<Vec<u8>, RewrapFault>
    ensures made { IfOk result (λ new. rewrapped file.now fork.now ≡ Ok new.items) }
    ensures fault { IfErr result (λ why. Refuses why (rewrapped file.now fork.now)) }

    // The file is wrapped as it was, and the fork is found in it.
    ensures wrapping { IfOk result (λ new. wrapping_of new.items ≡ wrapping_of file.now) }
    ensures found { IfOk result (λ new. unwrapped new.items ≡ Ok fork.now) }
{
    match rewrapped_of(alloc, file, fork) {
        Ok(new) => Ok(new),
        Err(fault) => Err(fault),
    }
}
