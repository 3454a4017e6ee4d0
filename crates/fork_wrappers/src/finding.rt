//! Finding the resource fork in the bytes of a file.

ghost use Rattle.std.specs.Prelude.{◌≡◌, ◌≤◌, length, IfOk, IfErr, Ok, Err, IsTrue};
ghost use Rattle.fork_wrappers.specs.Unwrapped.{wrapping_of, is_mac_binary, unwrapped};
ghost use Rattle.fork_wrappers.specs.Unwrapped as spec;

use crate::entries::{fork_of_entries, is_apple_double_file, is_apple_single_file};
use crate::fault::WrapFault;
use crate::mac_binary::{
    checked_fork_of, fork_behind_of, is_first_file, is_second_file, is_third_file,
};
use crate::wrapping::{Unwrapped, Wrapping};
use fork_format::is_resource_fork;

/// Returns how a file wraps its resource fork.
pub fn wrapping(bytes: &[u8]) -> Wrapping
    ensures wrapping { result ≡ wrapping_of bytes.now }
    ensures header { IsTrue (is_mac_binary result) → 128 ≤ length bytes.now }
{
    if is_resource_fork(bytes) {
        Wrapping::Plain
    } else if is_apple_single_file(bytes) {
        Wrapping::AppleSingle
    } else if is_apple_double_file(bytes) {
        Wrapping::AppleDouble
    } else if is_third_file(bytes) {
        Wrapping::MacBinaryIII
    } else if is_second_file(bytes) {
        Wrapping::MacBinaryII
    } else if is_first_file(bytes) {
        Wrapping::MacBinaryI
    } else {
        Wrapping::Plain
    }
}

/// Returns the resource fork in bytes that are wrapped so.
fn fork_in<'b>(how: Wrapping, bytes: &'b [u8]) -> Result<&'b [u8], WrapFault>
    requires { IsTrue (is_mac_binary how) → 128 ≤ length bytes.now }
    ensures fork { IfOk result (λ fork. spec.fork_in how bytes.now ≡ Ok fork.now) }
    ensures fault { IfErr result (λ fault. spec.fork_in how bytes.now ≡ Err fault) }
{
    match how {
        Wrapping::Plain => Ok(bytes),
        Wrapping::AppleSingle => fork_of_entries(bytes).map_err(WrapFault::AppleSingle),
        Wrapping::AppleDouble => fork_of_entries(bytes).map_err(WrapFault::AppleDouble),
        Wrapping::MacBinaryI => fork_behind_of(bytes).map_err(WrapFault::MacBinary),
        Wrapping::MacBinaryII | Wrapping::MacBinaryIII => {
            checked_fork_of(bytes).map_err(WrapFault::MacBinary)
        }
    }
}

/// Finds the resource fork in the bytes of a file. Nothing is allocated.
pub fn unwrap(bytes: &[u8]) -> Result<Unwrapped<'_>, WrapFault>
    ensures wrapping { IfOk result (λ found. found.wrapping ≡ wrapping_of bytes.now) }
    ensures fork { IfOk result (λ found. unwrapped bytes.now ≡ Ok found.fork.now) }
    ensures fault { IfErr result (λ fault. unwrapped bytes.now ≡ Err fault) }
{
    let how = wrapping(bytes);
    match fork_in(how, bytes) {
        Ok(fork) => Ok(Unwrapped {
            wrapping: how,
            fork,
        }),
        Err(fault) => Err(fault),
    }
}
