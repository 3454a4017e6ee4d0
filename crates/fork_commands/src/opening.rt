//! Files that are opened: their bytes, and what those of a BinHex file stand for.

ghost use Rattle.std.specs.Prelude.{◌≡◌, true, false, IfOk, IfErr};
ghost use Rattle.fork_format.specs.Fork.{is_fork};
ghost use Rattle.fork_wrappers.specs.Unwrapped.{wrapping_of};
ghost use Rattle.fork_commands.specs.Faults.{Stops};
ghost use Rattle.fork_commands.specs.Reading.{fork_in, content_in};
ghost use Rattle.fork_commands.specs.Opening.{is_unwrapped, is_encoded, opened, bytes_of, IsOpen};

use crate::fault::{FileFault, WorkFault};
use bin_hex::{BinHexFault, BinHexFile, is_bin_hex, read};
use fork_format::is_resource_fork;
use fork_wrappers::{Wrapping, unwrap};
use std::alloc::Global;
use std::fmt;

/// In what the resource fork of a file stands.
#[derive(Clone, Copy, Debug, PartialEq, Eq)]
pub enum Container {
    /// In a wrapper, or in none: the file is the fork itself.
    Wrapped(Wrapping),
    /// In a BinHex file.
    BinHex,
}

impl fmt::Display for Container {
    fn fmt<W: fmt::Write>(&self, f: &mut fmt::Formatter<W>) -> fmt::Result {
        match self {
            Container::Wrapped(wrapping) => write!(f, "{wrapping}"),
            Container::BinHex => f.write_str("BinHex"),
        }
    }
}

/// A file that was opened.
#[derive(Drop)]
pub enum OpenFile<'b> {
    /// A file that is a resource fork itself.
    Fork(&'b [u8]),
    /// Another file that is not encoded: in a wrapper, or in none that is known.
    Plain(&'b [u8]),
    /// A BinHex file.
    BinHex {
        /// The bytes of the file.
        bytes: &'b [u8],
        /// The file of the Macintosh for which they stand.
        file: BinHexFile,
    },
}

/// Returns whether this is no wrapper.
fn is_none(wrapping: Wrapping) -> bool
    ensures { result ≡ is_unwrapped wrapping }
{
    wrapping == Wrapping::Plain
}

/// Returns whether the bytes of a file are in no wrapper.
fn is_in_none(bytes: &[u8]) -> bool
    ensures { result ≡ is_unwrapped (wrapping_of bytes.now) }
{
    match unwrap(bytes) {
        Ok(found) => is_none(found.wrapping),
        Err(_) => false,
    }
}

/// Returns whether a file that is no resource fork is encoded: its bytes are in no wrapper, and
/// they are those of a BinHex file.
#[tactic(auto, unfolding(crate::specs::Opening::is_encoded))]
fn is_encoded_other(bytes: &[u8]) -> bool
    requires { is_fork bytes.now ≡ false }
    ensures { result ≡ is_encoded bytes.now }
{
    is_in_none(bytes) && is_bin_hex(bytes)
}

/// Returns whether a file is encoded: its bytes are no resource fork, they are in no wrapper, and
/// they are those of a BinHex file.
#[tactic(auto, unfolding(crate::specs::Opening::is_encoded))]
pub(crate) fn is_encoded_file(bytes: &[u8]) -> bool
    ensures { result ≡ is_encoded bytes.now }
{
    !is_resource_fork(bytes) && is_encoded_other(bytes)
}

/// Opens an encoded file.
#[tactic(auto, using(crate::proofs::Opens::encoded_there, crate::proofs::Opens::encoded_damaged, crate::proofs::Opens::no_fork_in, crate::proofs::Opens::no_content_in))]
fn decoded_file<'b>(alloc: Global, bytes: &'b [u8]) -> Result<OpenFile<'b>, WorkFault>
    requires { is_encoded bytes.now ≡ true }
    ensures bytes { IfOk result (λ file. bytes_of file ≡ bytes.now) }
    ensures is_open { IfOk result IsOpen }
    ensures fault { IfErr result (λ fault. Stops fault (opened bytes.now)) }
    ensures no_fork { IfErr result (λ fault. Stops fault (fork_in bytes.now)) }
    ensures no_content { IfErr result (λ fault. Stops fault (content_in bytes.now)) }
{
    match read(alloc, bytes) {
        Ok(file) => Ok(OpenFile::BinHex { bytes, file }),
        Err(BinHexFault::Damaged(fault)) => Err(WorkFault::File(FileFault::BinHex { fault })),
        Err(BinHexFault::HostMemory) => Err(WorkFault::HostMemory),
    }
}

/// Opens a file, once it is known that it is not encoded.
#[tactic(auto, using(crate::proofs::Opens::plain_there))]
fn plain_file<'b>(bytes: &'b [u8]) -> OpenFile<'b>
    requires { is_encoded bytes.now ≡ false }
    ensures bytes { bytes_of result ≡ bytes.now }
    ensures is_open { IsOpen result }
{
    OpenFile::Plain(bytes)
}

/// Opens a file, once it is known that it is no resource fork.
fn other_file<'b>(alloc: Global, bytes: &'b [u8]) -> Result<OpenFile<'b>, WorkFault>
    requires { is_fork bytes.now ≡ false }
    ensures bytes { IfOk result (λ file. bytes_of file ≡ bytes.now) }
    ensures is_open { IfOk result IsOpen }
    ensures fault { IfErr result (λ fault. Stops fault (opened bytes.now)) }
    ensures no_fork { IfErr result (λ fault. Stops fault (fork_in bytes.now)) }
    ensures no_content { IfErr result (λ fault. Stops fault (content_in bytes.now)) }
{
    if is_encoded_other(bytes) {
        decoded_file(alloc, bytes)
    } else {
        Ok(plain_file(bytes))
    }
}

/// Opens a file: what its bytes stand for is read if they are those of a BinHex file, in no wrapper
/// and no resource fork. Whether they are a fork is judged here, and not again.
///
/// RFC 1741, appendix A.
///
/// # Errors
///
/// How a BinHex file is damaged; if the host is out of memory nothing is said of the file.
pub fn open_file<'b>(alloc: Global, bytes: &'b [u8]) -> Result<OpenFile<'b>, WorkFault>
    ensures bytes { IfOk result (λ file. bytes_of file ≡ bytes.now) }
    ensures is_open { IfOk result IsOpen }
    ensures fault { IfErr result (λ fault. Stops fault (opened bytes.now)) }
    ensures no_fork { IfErr result (λ fault. Stops fault (fork_in bytes.now)) }
    ensures no_content { IfErr result (λ fault. Stops fault (content_in bytes.now)) }
{
    if is_resource_fork(bytes) {
        return Ok(OpenFile::Fork(bytes));
    }
    other_file(alloc, bytes)
}
