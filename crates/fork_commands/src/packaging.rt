//! How a fork that was made is written: alone, or in the wrapper of the file in whose place it
//! stands, or in BinHex.

ghost use Rattle.std.specs.Prelude.{◌≡◌, Ok, IfOk, IfErr};
ghost use Rattle.fork_commands.specs.Faults.{Stops};
ghost use Rattle.bin_hex.specs.Putting.{with_resource_fork};
ghost use Rattle.fork_wrappers.specs.Rewrapped.{rewrapped};
ghost use Rattle.fork_commands.specs.Packaging.{recognized, put_or_fault, wrapped_or_fault, packed};
ghost use Rattle.fork_commands.specs.Packaging.{of_rewrap, of_put};
ghost use Rattle.fork_commands.specs.declared.packaging.Packaging.TheVariants.{AsRead};

use crate::fault::{FileFault, WorkFault};
use crate::opening::is_encoded_file;
use bin_hex::{PutFault, put_fork};
use fork_wrappers::{RewrapFault, rewrap};
use std::alloc::Global;

/// How a fork that is made of a file's fork is written.
#[derive(Clone, Copy)]
pub enum Packaging {
    /// The fork alone.
    Bare,
    /// In the wrapper of the file, or in BinHex as the file is, with all else that the file holds.
    AsRead,
}

impl WorkFault {
    /// Returns the fault of a fork that was not put into a file.
    fn of_rewrap(fault: RewrapFault) -> WorkFault
        ensures { result ≡ of_rewrap fault }
    {
        match fault {
            RewrapFault::HostMemory => WorkFault::HostMemory,
            fault => WorkFault::File(FileFault::Unfit { fault }),
        }
    }

    /// Returns the fault of a fork that was not put into a BinHex file.
    fn of_put(fault: PutFault) -> WorkFault
        ensures { result ≡ of_put fault }
    {
        match fault {
            PutFault::Damaged(fault) => WorkFault::File(FileFault::BinHex { fault }),
            PutFault::TooLong => WorkFault::File(FileFault::Unfit {
                fault: RewrapFault::TooLong,
            }),
            PutFault::HostMemory => WorkFault::HostMemory,
        }
    }
}

/// Returns a file that is wrapped, or is the fork itself, with a fork in the place of its own.
fn wrapped(alloc: Global, file: &[u8], fork: &[u8]) -> Result<Vec<u8>, WorkFault>
    ensures made { IfOk result (λ out. wrapped_or_fault (rewrapped file.now fork.now)
        ≡ Ok out.items) }
    ensures fault { IfErr result (λ fault.
        Stops fault (wrapped_or_fault (rewrapped file.now fork.now))) }
{
    match rewrap(alloc, file, fork) {
        Ok(made) => Ok(made),
        Err(fault) => Err(WorkFault::of_rewrap(fault)),
    }
}

/// Returns a BinHex file that was made, if it is taken for one.
#[tactic(auto, using(crate::proofs::Wrappers::is_recognized, crate::proofs::Wrappers::not_recognized))]
fn recognized(file: Vec<u8>) -> Result<Vec<u8>, WorkFault>
    ensures made { IfOk result (λ out. recognized file.items ≡ Ok out.items) }
    ensures fault { IfErr result (λ fault. Stops fault (recognized file.items)) }
{
    if is_encoded_file(file.as_slice()) {
        Ok(file)
    } else {
        Err(WorkFault::File(FileFault::Unfit {
            fault: RewrapFault::Unrecognized,
        }))
    }
}

/// Returns a BinHex file with a fork in the place of its own.
fn encoded(alloc: Global, file: &[u8], fork: &[u8]) -> Result<Vec<u8>, WorkFault>
    ensures made { IfOk result (λ out. put_or_fault (with_resource_fork file.now fork.now)
        ≡ Ok out.items) }
    ensures fault { IfErr result (λ fault.
        Stops fault (put_or_fault (with_resource_fork file.now fork.now))) }
{
    match put_fork(alloc, file, fork) {
        Ok(made) => recognized(made),
        Err(fault) => Err(WorkFault::of_put(fault)),
    }
}

/// Returns a file with a fork in the place of its own.
///
/// # Errors
///
/// The file is damaged, or the fork doesn't fit its wrapper.
#[tactic(auto, using(crate::proofs::Wrappers::packed_encoded, crate::proofs::Wrappers::stopped_encoded, crate::proofs::Wrappers::packed_wrapped, crate::proofs::Wrappers::stopped_wrapped))]
pub fn with_fork(alloc: Global, file: &[u8], fork: &[u8]) -> Result<Vec<u8>, WorkFault>
    ensures made { IfOk result (λ out. packed AsRead file.now fork.now ≡ Ok out.items) }
    ensures fault { IfErr result (λ fault. Stops fault (packed AsRead file.now fork.now)) }
{
    if is_encoded_file(file) {
        encoded(alloc, file, fork)
    } else {
        wrapped(alloc, file, fork)
    }
}

/// Returns a fork as it is written: alone, or the file with the fork in the place of its own.
///
/// # Errors
///
/// The file is damaged, or the fork doesn't fit its wrapper.
#[tactic(auto, using(crate::proofs::Wrappers::packed_bare))]
pub(crate) fn packed(
    alloc: Global,
    packaging: Packaging,
    file: &[u8],
    fork: Vec<u8>,
) -> Result<Vec<u8>, WorkFault>
    ensures made { IfOk result (λ out. packed packaging file.now fork.items ≡ Ok out.items) }
    ensures fault { IfErr result (λ fault. Stops fault (packed packaging file.now fork.items)) }
{
    match packaging {
        Packaging::Bare => Ok(fork),
        Packaging::AsRead => with_fork(alloc, file, fork.as_slice()),
    }
}
