//! The resource fork in the bytes of a file, and its content.

ghost use Rattle.std.specs.Prelude.{◌≡◌, Ok, Err, IfOk, IfErr};
ghost use Rattle.fork_format.specs.View.{view};
ghost use Rattle.fork_commands.specs.Faults.{Stops};
ghost use Rattle.fork_commands.specs.Opening.{container_of, bytes_of, IsOpen};
ghost use Rattle.fork_commands.specs.Reading.{content_of_fork, fork_in, content_in};

use crate::fault::{FileFault, WorkFault};
use crate::opening::{Container, OpenFile, open_file};
use fork_format::{Content, is_resource_fork, read_fork};
use fork_wrappers::{Wrapping, unwrap};
use std::alloc::{AllocError, Global};

/// A resource fork that was found in a file.
#[derive(Clone, Copy)]
pub struct ForkFound<'f> {
    /// In what the fork stands.
    pub container: Container,
    /// The bytes of the fork, which may be none.
    pub fork: &'f [u8],
}

/// Reads the content of a resource fork.
///
/// # Errors
///
/// -39 (eofErr) where the fork has no bytes, -199 (mapReadErr) where they spell no content.
pub fn content_of_fork<'b>(alloc: Global, fork: &'b [u8]) -> Result<Content<'b>, WorkFault>
    ensures content { IfOk result (λ c. content_of_fork fork.now ≡ Ok (view c)) }
    ensures fault { IfErr result (λ fault. Stops fault (content_of_fork fork.now)) }
{
    match read_fork(alloc, fork) {
        Ok(content) => Ok(content),
        Err(fault) => Err(WorkFault::of(fault.code())),
    }
}

/// Returns the resource fork in a file, and in what it stands: that of the file for which a BinHex
/// file stands, else the bytes as they are, or what AppleSingle, AppleDouble or MacBinary wrap.
///
/// # Errors
///
/// The wrapper is damaged.
#[tactic(auto, using(crate::proofs::Opens::bare_fork, crate::proofs::Opens::bare_container, crate::proofs::Opens::plain_fork, crate::proofs::Opens::plain_container, crate::proofs::Opens::decoded_fork, crate::proofs::Opens::decoded_container))]
pub fn fork_in<'f>(file: &'f OpenFile<'_>) -> Result<ForkFound<'f>, FileFault>
    requires { IsOpen file.now }
    ensures container { IfOk result (λ found. found.container ≡ container_of (bytes_of file.now)) }
    ensures fork { IfOk result (λ found. fork_in (bytes_of file.now) ≡ Ok found.fork.now) }
    ensures fault { IfErr result (λ fault. fork_in (bytes_of file.now) ≡ Err fault) }
{
    match file {
        OpenFile::Fork(bytes) => Ok(ForkFound {
            container: Container::Wrapped(Wrapping::Plain),
            fork: bytes,
        }),
        OpenFile::Plain(bytes) => match unwrap(bytes) {
            Ok(found) => Ok(ForkFound {
                container: Container::Wrapped(found.wrapping),
                fork: found.fork,
            }),
            Err(fault) => Err(FileFault::Wrapper { fault }),
        },
        OpenFile::BinHex { file, .. } => Ok(ForkFound {
            container: Container::BinHex,
            fork: &file.resource_fork,
        }),
    }
}

/// Reads the content of the resource fork in a file.
///
/// # Errors
///
/// The wrapper is damaged, or the fork has no content.
#[tactic(auto, using(crate::proofs::Contents::content_there, crate::proofs::Contents::stopped_there))]
pub fn content_in<'f>(alloc: Global, file: &'f OpenFile<'_>) -> Result<Content<'f>, WorkFault>
    requires { IsOpen file.now }
    ensures content { IfOk result (λ c. content_in (bytes_of file.now) ≡ Ok (view c)) }
    ensures fault { IfErr result (λ fault. Stops fault (content_in (bytes_of file.now))) }
{
    match fork_in(file) {
        Ok(found) => content_of_fork(alloc, found.fork),
        Err(fault) => Err(WorkFault::File(fault)),
    }
}

/// Returns a copy of bytes.
pub fn copied(alloc: Global, bytes: &[u8]) -> Result<Vec<u8>, AllocError>
    ensures { IfOk result (λ copy. copy.items ≡ bytes.now) }
{
    let mut copy = Vec::with_capacity(alloc, bytes.len())?;
    copy.extend_from_slice(bytes)?;
    Ok(copy)
}

/// Returns the resource fork of a file that was opened: it is moved out of what a BinHex file
/// stands for, else copied.
#[tactic(auto, using(crate::proofs::Opens::bare_fork, crate::proofs::Opens::plain_fork, crate::proofs::Opens::decoded_fork))]
pub(crate) fn fork_out(alloc: Global, file: OpenFile<'_>) -> Result<Vec<u8>, WorkFault>
    requires { IsOpen file }
    ensures fork { IfOk result (λ fork. fork_in (bytes_of file.entry) ≡ Ok fork.items) }
    ensures fault { IfErr result (λ fault. Stops fault (fork_in (bytes_of file.entry))) }
{
    match file {
        OpenFile::Fork(bytes) => Ok(copied(alloc, bytes)?),
        OpenFile::Plain(bytes) => match unwrap(bytes) {
            Ok(found) => Ok(copied(alloc, found.fork)?),
            Err(fault) => Err(WorkFault::File(FileFault::Wrapper { fault })),
        },
        OpenFile::BinHex { file, .. } => Ok(file.resource_fork),
    }
}

/// Returns a copy of the resource fork in the bytes of a file.
fn fork_copy(alloc: Global, bytes: &[u8]) -> Result<Vec<u8>, WorkFault>
    ensures fork { IfOk result (λ fork. fork_in bytes.now ≡ Ok fork.items) }
    ensures fault { IfErr result (λ fault. Stops fault (fork_in bytes.now)) }
{
    let file = open_file(alloc, bytes)?;
    fork_out(alloc, file)
}

/// Returns the resource fork in the bytes of a file: the bytes themselves if they are a resource
/// fork, else a copy.
///
/// # Errors
///
/// The file is damaged.
#[tactic(auto, using(crate::proofs::Opens::bare_fork))]
pub fn fork_bytes(alloc: Global, bytes: Vec<u8>) -> Result<Vec<u8>, WorkFault>
    ensures fork { IfOk result (λ fork. fork_in bytes.items ≡ Ok fork.items) }
    ensures fault { IfErr result (λ fault. Stops fault (fork_in bytes.items)) }
{
    if is_resource_fork(bytes.as_slice()) {
        return Ok(bytes);
    }
    fork_copy(alloc, bytes.as_slice())
}
