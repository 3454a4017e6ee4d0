//! A BinHex file with another resource fork.

ghost use Rattle.std.specs.Prelude.{◌≡◌, ◌-◌, ◌≤◌, ◌<◌, ◌^◌, ◌++◌, length, bytes_eq, IfOk, IfErr};
ghost use Rattle.std.specs.Prelude.{None, Ok};
ghost use Rattle.bin_hex.specs.BinHex.{decoded};
ghost use Rattle.bin_hex.specs.File.{view, refusal};
ghost use Rattle.bin_hex.specs.Putting.{encoded_text, opening, closing, with_file, with_fork};
ghost use Rattle.bin_hex.specs.Putting.{placed, with_resource_fork, Prevents};

use crate::fault::{BinHexFault, PutFault};
use crate::file::BinHexFile;
use crate::reading::read;
use crate::text::{after_colon, after_mark};
use crate::writing::{groups_of_file, push_lines};
use std::alloc::{AllocError, Global};

/// Returns whether bytes are the same.
fn are_same(a: &[u8], b: &[u8]) -> bool
    ensures { result ≡ bytes_eq a.now b.now }
{
    a == b
}

/// Returns the bytes from the encoded text on, after the first colon after the mark; none where
/// there is none.
fn text_in<'b>(bytes: &'b [u8]) -> &'b [u8]
    ensures text { result.now ≡ encoded_text bytes.now }
    ensures within { length result.now ≤ length bytes.now }
{
    let marked = after_mark(bytes).unwrap_or(&[]);
    after_colon(marked).unwrap_or(&[])
}

/// Returns the bytes before the encoded text, the colon among them.
fn opening_of<'b>(bytes: &'b [u8]) -> &'b [u8]
    ensures { result.now ≡ opening bytes.now }
{
    &bytes[..bytes.len() - text_in(bytes).len()]
}

/// Returns the bytes after the colon that ends the encoded text.
fn closing_of<'b>(bytes: &'b [u8]) -> &'b [u8]
    ensures { result.now ≡ closing bytes.now }
{
    after_colon(text_in(bytes)).unwrap_or(&[])
}

/// Returns the bytes of a BinHex file with another file in the encoded text.
fn with_file_of(alloc: Global, bytes: &[u8], file: &BinHexFile) -> Result<Vec<u8>, AllocError>
    requires name { length file.now.name.items ≤ 63 }
    requires data_fork { length file.now.data_fork.items < 2 ^ 32 }
    requires resource_fork { length file.now.resource_fork.items < 2 ^ 32 }
    ensures { IfOk result (λ out. out.items ≡ with_file bytes.now (view file.now)) }
{
    let groups = groups_of_file(alloc, file)?;
    let mut out = Vec::from_slice(alloc, opening_of(bytes))?;
    push_lines(&mut out, &groups)?;
    out.extend_from_slice(closing_of(bytes))?;
    Ok(out)
}

/// Returns a file with another resource fork.
fn with_fork_of(alloc: Global, file: BinHexFile, fork: &[u8]) -> Result<BinHexFile, AllocError>
    ensures { IfOk result (λ new. view new ≡ with_fork fork.now (view file)) }
{
    let resource_fork = Vec::from_slice(alloc, fork)?;
    Ok(BinHexFile {
        name: file.name,
        file_type: file.file_type,
        creator: file.creator,
        flags: file.flags,
        data_fork: file.data_fork,
        resource_fork,
    })
}

/// Returns the bytes of a BinHex file, which stand for a file, with a resource fork in the place of
/// its own.
#[tactic(auto, using(crate::proofs::Fitting::name_fits, crate::proofs::Fitting::data_fork_fits))]
fn placed_of(
    alloc: Global,
    bytes: &[u8],
    file: BinHexFile,
    fork: &[u8],
) -> Result<Vec<u8>, PutFault>
    requires { refusal (view file) ≡ None }
    ensures made { IfOk result (λ new. placed bytes.now fork.now (view file) ≡ Ok new.items) }
    ensures fault { IfErr result (λ why. Prevents why (placed bytes.now fork.now (view file))) }
{
    if are_same(&file.resource_fork, fork) {
        return Ok(Vec::from_slice(alloc, bytes)?);
    }
    if 0xffffffff < fork.len() {
        return Err(PutFault::TooLong);
    }
    let new = with_fork_of(alloc, file, fork)?;
    Ok(with_file_of(alloc, bytes, &new)?)
}

/// Puts a resource fork into a BinHex file in the place of its own. The text up to the first colon
/// after the line that says that the file must be converted stays as it is, and so does the text
/// after the colon that ends the encoded text; that is written anew, in lines of 64 characters,
/// which end with LF. A file that holds this fork stays as it is. Time and memory are linear in the
/// text, the file and the fork.
///
/// RFC 1741, appendix A.
///
/// # Errors
///
/// `Damaged` where `read` finds damage, `TooLong` where the fork has 2^32 bytes or more, and
/// `HostMemory` where the host is out of memory.
#[tactic(auto, unfolding(crate::specs::Putting::with_resource_fork))]
pub fn put_fork(alloc: Global, bytes: &[u8], fork: &[u8]) -> Result<Vec<u8>, PutFault>
    ensures made { IfOk result (λ new. with_resource_fork bytes.now fork.now ≡ Ok new.items) }
    ensures fault { IfErr result (λ why. Prevents why (with_resource_fork bytes.now fork.now)) }
{
    match read(alloc, bytes) {
        Ok(file) => placed_of(alloc, bytes, file, fork),
        Err(BinHexFault::Damaged(damage)) => Err(PutFault::Damaged(damage)),
        Err(BinHexFault::HostMemory) => Err(PutFault::HostMemory),
    }
}
