//! Reading a BinHex file.

ghost use Rattle.std.specs.Prelude.{◌≡◌, ◌+◌, ◌≤◌, ◌<◌, ◌^◌, length, IfOk, IfErr, OnOk, IsTrue};
ghost use Rattle.std.specs.Prelude.{None, Ok};
ghost use Rattle.bin_hex.specs.BinHex.{decoded, unpacked};
ghost use Rattle.bin_hex.specs.Contents as contents;
ghost use Rattle.bin_hex.specs.Contents.{checked, header_in, fork_in, file_of, file_in, field};
ghost use Rattle.bin_hex.specs.Contents.{name_length};
ghost use Rattle.bin_hex.specs.Faults.{Tells};
ghost use Rattle.bin_hex.specs.File.{view, refusal, is_name_length};
ghost use Rattle.bin_hex.specs.Reader.{rest_of};
ghost use Rattle.bin_hex.specs.Runs as runs_text;
ghost use Rattle.bin_hex.specs.declared.fault.Part.TheVariants as part_of;

use crate::fault::{BinHexFault, Damage, Part};
use crate::file::BinHexFile;
use crate::runs::Runs;
use crate::text::{after_colon, after_mark, packed_of};
use byteorder::{BigEndian, ByteOrder};
use checksums::checksum_of;
use std::alloc::Global;

impl Runs {
    /// Judges the checksum that follows a part.
    fn check(&mut self, alloc: Global, part: Part, bytes: &[u8]) -> Result<(), BinHexFault>
        ensures right { OnOk result (checked part bytes.now (rest_of self.old)
            ≡ Ok (bytes.now, rest_of self.new)) }
        ensures fault { IfErr result (λ fault.
            Tells fault (checked part bytes.now (rest_of self.old))) }
    {
        let sum = self.piece(alloc, 2)?;
        if BigEndian::read_u16(&sum) == checksum_of(bytes) {
            Ok(())
        } else {
            Err(BinHexFault::Damaged(Damage::WrongChecksum(part)))
        }
    }

    /// Returns the header after the length of its name.
    fn after_length(&mut self, alloc: Global, name_len: u8) -> Result<Vec<u8>, BinHexFault>
        ensures rest { IfOk result (λ rest. contents.after_length name_len (rest_of self.old)
            ≡ Ok (rest.items, rest_of self.new)) }
        ensures length { IfOk result (λ rest. length rest.items ≡ name_len + 19) }
        ensures named { OnOk result (IsTrue (is_name_length name_len)) }
        ensures fault { IfErr result (λ fault.
            Tells fault (contents.after_length name_len (rest_of self.old))) }
    {
        if name_len < 1 || 63 < name_len {
            return Err(BinHexFault::Damaged(Damage::NameLength));
        }
        self.piece(alloc, name_len as usize + 19)
    }

    /// Returns the header.
    #[tactic(auto, unfolding(crate::specs::Contents::header_in))]
    fn header(&mut self, alloc: Global) -> Result<Vec<u8>, BinHexFault>
        ensures header { IfOk result (λ header. header_in (rest_of self.old)
            ≡ Ok (header.items, rest_of self.new)) }
        ensures length { IfOk result (λ header. length header.items
            ≡ name_length header.items + 20) }
        ensures named { IfOk result (λ header. IsTrue (is_name_length (name_length header.items))) }
        ensures fault { IfErr result (λ fault. Tells fault (header_in (rest_of self.old))) }
    {
        let mut header = self.piece(alloc, 1)?;
        let rest = self.after_length(alloc, header[0])?;
        header.extend_from_slice(&rest)?;
        self.check(alloc, Part::Header, &header)?;
        Ok(header)
    }

    /// Returns a fork of `count` bytes.
    #[tactic(auto, unfolding(crate::specs::Contents::fork_in))]
    fn fork(&mut self, alloc: Global, part: Part, count: usize) -> Result<Vec<u8>, BinHexFault>
        requires { count < 2 ^ 32 }
        ensures fork { IfOk result (λ fork. fork_in part count (rest_of self.old)
            ≡ Ok (fork.items, rest_of self.new)) }
        ensures length { IfOk result (λ fork. length fork.items ≡ count) }
        ensures fault { IfErr result (λ fault.
            Tells fault (fork_in part count (rest_of self.old))) }
    {
        let fork = self.piece(alloc, count)?;
        self.check(alloc, part, &fork)?;
        Ok(fork)
    }

    /// Returns the file.
    #[tactic(auto, unfolding(crate::specs::Contents::file_in))]
    fn file(&mut self, alloc: Global) -> Result<BinHexFile, BinHexFault>
        ensures file { IfOk result (λ file. file_in (rest_of self.old) ≡ Ok (view file)) }
        ensures fits { IfOk result (λ file. refusal (view file) ≡ None) }
        ensures fault { IfErr result (λ fault. Tells fault (file_in (rest_of self.old))) }
    {
        let header = self.header(alloc)?;
        let data_fork = self.fork(alloc, Part::DataFork, word(&header, 12))?;
        let resource_fork = self.fork(alloc, Part::ResourceFork, word(&header, 16))?;
        if self.has_more_than_two() {
            return Err(BinHexFault::Damaged(Damage::TooLong));
        }
        file_with(alloc, &header, data_fork, resource_fork)
    }
}

/// Returns the number of four bytes that stands so far after the name.
fn word(header: &[u8], offset: usize) -> usize
    requires length { length header.now ≡ name_length header.now + 20 }
    requires offset { offset ≤ 16 }
    ensures value { result ≡ field 4 offset header.now }
    ensures small { result < 2 ^ 32 }
{
    BigEndian::read_u32(&header[header[0] as usize + offset..]) as usize
}

/// Returns the file of a header and two forks.
#[tactic(auto, using(crate::proofs::Fitting::can_be_written))]
fn file_with(
    alloc: Global,
    header: &[u8],
    data_fork: Vec<u8>,
    resource_fork: Vec<u8>,
) -> Result<BinHexFile, BinHexFault>
    requires length { length header.now ≡ name_length header.now + 20 }
    requires named { IsTrue (is_name_length (name_length header.now)) }
    requires data_fork { length data_fork.items < 2 ^ 32 }
    requires resource_fork { length resource_fork.items < 2 ^ 32 }
    ensures fits { IfOk result (λ file. refusal (view file) ≡ None) }
    ensures file { IfOk result (λ file. view file
        ≡ file_of header.now data_fork.items resource_fork.items) }
    ensures fault { IfErr result (λ fault.
        Tells fault (Ok (file_of header.now data_fork.items resource_fork.items))) }
{
    let name_len = header[0] as usize;
    Ok(BinHexFile {
        name: Vec::from_slice(alloc, &header[1..1 + name_len])?,
        file_type: BigEndian::read_u32(&header[name_len + 2..]),
        creator: BigEndian::read_u32(&header[name_len + 6..]),
        flags: BigEndian::read_u16(&header[name_len + 10..]),
        data_fork,
        resource_fork,
    })
}

/// Returns whether a text with runs begins with a run.
fn does_begin_with_run(packed: &[u8]) -> bool
    ensures { result ≡ runs_text.begins_with_run packed.now }
{
    2 <= packed.len() && packed[0] == 0x90 && packed[1] != 0
}

/// Returns the file that bytes with runs stand for.
fn unpack(alloc: Global, packed: Vec<u8>) -> Result<BinHexFile, BinHexFault>
    ensures file { IfOk result (λ file. unpacked packed.items ≡ Ok (view file)) }
    ensures fits { IfOk result (λ file. refusal (view file) ≡ None) }
    ensures fault { IfErr result (λ fault. Tells fault (unpacked packed.items)) }
{
    if does_begin_with_run(&packed) {
        return Err(BinHexFault::Damaged(Damage::NoByteToRepeat));
    }
    Runs::new(packed).file(alloc)
}

/// Reads a BinHex file. Time and memory are linear in the text and in the file: memory for a fork
/// is taken once, for as many bytes as the header gives, and only where the text stands for so
/// many.
///
/// Any text may stand before the line that says that the file must be converted, between it and the
/// first colon, and after the colon that ends the encoded text; CR, LF, blanks and tabs may stand
/// anywhere within that.
///
/// RFC 1741, appendix A.
///
/// # Errors
///
/// Returns what is damaged: the text as a whole is judged first, from its beginning on, then the
/// file part by part. Returns `HostMemory` where the host is out of memory.
pub fn read(alloc: Global, bytes: &[u8]) -> Result<BinHexFile, BinHexFault>
    ensures file { IfOk result (λ file. decoded bytes.now ≡ Ok (view file)) }
    ensures fits { IfOk result (λ file. refusal (view file) ≡ None) }
    ensures fault { IfErr result (λ fault. Tells fault (decoded bytes.now)) }
{
    let Some(marked) = after_mark(bytes) else {
        return Err(BinHexFault::Damaged(Damage::NoMark));
    };
    let Some(encoded) = after_colon(marked) else {
        return Err(BinHexFault::Damaged(Damage::NoStart));
    };
    let packed = packed_of(alloc, encoded, bytes.len() - encoded.len())?;
    unpack(alloc, packed)
}
