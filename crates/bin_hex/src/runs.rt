//! Runs of equal bytes.

ghost use Rattle.std.specs.Prelude.{◌≡◌, ◌+◌, ◌≤◌, ◌<◌, ◌^◌, ◌++◌, ◌∷◌, [], false, length, drop};
ghost use Rattle.std.specs.Prelude.{replicate, nat_le, nat_lt, flat_map, OnOk, IfOk, IfErr, IfSome};
ghost use Rattle.std.specs.Prelude.{IfNone, Ok};
ghost use Rattle.bin_hex.specs.Contents as contents;
ghost use Rattle.bin_hex.specs.Faults.{Tells};
ghost use Rattle.bin_hex.specs.Runs.{expanded, literal, run, runs_after, compressed};
ghost use Rattle.bin_hex.specs.Reader.{rest_of, given, marked_after};

use crate::fault::{BinHexFault, Damage};
use std::alloc::{AllocError, Global};

/// The byte after which stands how often the byte before it is repeated.
const MARKER: u8 = 0x90;

/// A reader of a text with runs, byte by byte.
#[derive(Drop)]
pub struct Runs {
    /// The text.
    pub packed: Vec<u8>,
    /// How many of its bytes were read.
    pub at: usize,
    /// Whether the last one that was read is a marker that is not yet followed up.
    pub marked: bool,
    /// The last byte that the text stood for.
    pub last: u8,
    /// How many of that byte are still to be given.
    pub left: u8,
}

impl Runs {
    /// Returns a reader of a text.
    pub fn new(packed: Vec<u8>) -> Runs
        ensures { rest_of result ≡ expanded false 0 packed.items }
    {
        Runs {
            packed,
            at: 0,
            marked: false,
            last: 0,
            left: 0,
        }
    }

    /// Reads the next byte of the text.
    fn step(&mut self)
        requires none { self.old.left ≡ 0 }
        requires there { self.old.at < length self.old.packed.items }
        ensures rest { rest_of self.new ≡ rest_of self.old }
        ensures text { self.new.packed.items ≡ self.old.packed.items }
        ensures at { self.new.at ≡ self.old.at + 1 }
    {
        let byte = self.packed[self.at];
        self.at += 1;
        if self.marked {
            self.marked = false;
            if byte == 0 {
                self.last = MARKER;
                self.left = 1;
            } else {
                self.left = byte - 1;
            }
        } else if byte == MARKER {
            self.marked = true;
        } else {
            self.last = byte;
            self.left = 1;
        }
    }

    /// Returns the next byte that the text stands for.
    pub fn next(&mut self) -> Option<u8>
        ensures some { IfSome result (λ byte. rest_of self.old ≡ byte ∷ rest_of self.new) }
        ensures none { IfNone result (rest_of self.old ≡ []) }
    {
        while self.left == 0 {
            if self.packed.len() <= self.at {
                return None;
            }
            self.step();
        }
        self.left -= 1;
        Some(self.last)
    }

    /// Returns whether the text stands for `count` more bytes.
    #[tactic(auto, using(crate::proofs::Holding::at_first, crate::proofs::Holding::enough, crate::proofs::Holding::at_end))]
    fn holds(&self, count: usize) -> bool
        requires { count < 2 ^ 32 }
        ensures { result ≡ nat_le count (length (rest_of self.now)) }
    {
        let mut marked = self.marked;
        let mut found = self.left as usize;
        for at in self.at..self.packed.len() {
            if count <= found {
                return true;
            }
            let byte = self.packed[at];
            found += given_by(marked, byte) as usize;
            marked = is_marked_after(marked, byte);
        }
        count <= found
    }

    /// Returns the next `count` bytes that the text stands for. Memory is taken once, for exactly
    /// as many, and only where the text stands for so many.
    #[tactic(auto, using(crate::proofs::Pieces::cut_off, crate::proofs::Pieces::too_few, crate::proofs::Pieces::whole))]
    pub fn piece(&mut self, alloc: Global, count: usize) -> Result<Vec<u8>, BinHexFault>
        requires { count < 2 ^ 32 }
        ensures piece { IfOk result (λ bytes. contents.piece count (rest_of self.old)
            ≡ Ok (bytes.items, rest_of self.new)) }
        ensures length { IfOk result (λ bytes. length bytes.items ≡ count) }
        ensures fault { IfErr result (λ fault.
            Tells fault (contents.piece count (rest_of self.old))) }
    {
        if !self.holds(count) {
            return Err(BinHexFault::Damaged(Damage::CutOff));
        }
        let mut bytes = Vec::with_capacity(alloc, count)?;
        for _ in 0..count {
            match self.next() {
                Some(byte) => bytes.push(byte)?,
                None => return Err(BinHexFault::Damaged(Damage::CutOff)),
            }
        }
        Ok(bytes)
    }

    /// Returns whether more than two bytes follow.
    pub fn has_more_than_two(&mut self) -> bool
        ensures { result ≡ nat_lt 2 (length (rest_of self.old)) }
    {
        if self.next().is_none() {
            return false;
        }
        if self.next().is_none() {
            return false;
        }
        self.next().is_some()
    }
}

/// Returns how many bytes a byte of a text with runs gives, after a marker that is not yet followed
/// up, or not.
fn given_by(marked: bool, byte: u8) -> u8
    ensures { result ≡ given marked byte }
{
    if marked {
        if byte == 0 { 1 } else { byte - 1 }
    } else if byte == MARKER {
        0
    } else {
        1
    }
}

/// Returns whether it is a marker that is not yet followed up.
fn is_marked_after(marked: bool, byte: u8) -> bool
    ensures { result ≡ marked_after marked byte }
{
    !marked && byte == MARKER
}

/// Appends a byte of a text with runs.
fn push_literal(out: &mut Vec<u8>, byte: u8) -> Result<(), AllocError>
    ensures { OnOk result (out.new.items ≡ out.old.items ++ literal byte) }
{
    if byte == MARKER {
        out.extend_from_slice(&[MARKER, 0])?;
    } else {
        out.push(byte)?;
    }
    Ok(())
}

/// Appends a byte so many times, one by one.
fn push_literals(out: &mut Vec<u8>, byte: u8, count: u8) -> Result<(), AllocError>
    ensures { OnOk result (out.new.items
        ≡ out.old.items ++ flat_map literal (replicate count byte)) }
{
    for i in 0..count {
        push_literal(out, byte)?;
    }
    Ok(())
}

/// Appends a run of a byte.
fn push_run(out: &mut Vec<u8>, byte: u8, count: u8) -> Result<(), AllocError>
    ensures { OnOk result (out.new.items ≡ out.old.items ++ run byte count) }
{
    if 4 <= count && byte != MARKER {
        out.extend_from_slice(&[byte, MARKER, count])?;
        Ok(())
    } else {
        push_literals(out, byte, count)
    }
}

/// Returns bytes as a text with runs.
pub fn compressed_of(alloc: Global, bytes: &[u8]) -> Result<Vec<u8>, AllocError>
    ensures { IfOk result (λ packed. packed.items ≡ compressed bytes.now) }
{
    let mut out = Vec::new(alloc);
    let mut last = 0;
    let mut count = 0;
    for byte in bytes {
        if *byte == last && count < 255 {
            count += 1;
        } else {
            push_run(&mut out, last, count)?;
            last = *byte;
            count = 1;
        }
    }
    push_run(&mut out, last, count)?;
    Ok(out)
}
