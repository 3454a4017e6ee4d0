//! A part that is cut from a region.
ghost use Rattle.std.specs.Prelude.{◌≡◌, ◌+◌, ◌%◌, ◌≤◌, ◌++◌, length, take, drop, replicate};
ghost use Rattle.std.specs.Borrow.{sem, Lends, Array, u8};
ghost use Rattle.raw_region.specs.Memory.{with_bytes};
ghost use Rattle.memory_windows.specs.Writes.{written};
ghost use Rattle.raw_region.specs.declared.region.TheConstants.{UNIT};
ghost use Rattle.raw_region.specs.contracts.part.Part.{the_row};

use crate::moves::{FEW, move_down, move_far_down, move_few, move_up};
use std::marker::Model;
use std_alloc::vec::Lodged;

/// A stretch of a region's bytes that no other part shares, as a heap zone has its own memory
/// (Inside Macintosh: Memory, chapter 1). Places are counted in bytes from the part's start. A part
/// can't be dropped: it is returned to its region by `Region::join`.
pub struct Part {
    pub(crate) bytes: Vec<u8, Lodged>,
    pub(crate) home: *mut u8,
    pub(crate) at: usize,
}

impl Model for Part {
    ghost use Rattle.raw_region.specs.Memory.{Bytes};

    ghost Value = { Bytes };

    ghost use Rattle.raw_region.specs.Parts.{part_view, IsPart};

    ghost view = { part_view };

    ghost invariant = { IsPart };
}

impl Part {
    /// Returns the number of bytes of the part, which is a multiple of `UNIT`.
    pub fn len(&self) -> usize
        ensures count { result ≡ length self.now.bytes }
        ensures multiple { result % UNIT ≡ 0 }
    {
        self.bytes.len()
    }

    /// Returns all bytes of the part, to be read.
    pub fn bytes(&self) -> &[u8]
        ensures { result.now ≡ self.now.bytes }
    {
        self.bytes.as_slice()
    }

    /// Returns all bytes of the part, to be written.
    pub fn bytes_mut(&mut self) -> &mut [u8]
        ensures* writes_back { sem 𝓛
            (Lends the_row (Array u8 0) self.entry result (with_bytes self.old)) }
        ensures value { result.now ≡ self.old.bytes }
    {
        let bytes = &mut self.bytes;
        bytes.as_mut_slice()
    }

    /// Returns the four bytes at `at`, which is a multiple of 4.
    pub fn word(&self, at: usize) -> [u8; 4]
        requires multiple { at % 4 ≡ 0 }
        requires inside { at + 4 ≤ length self.now.bytes }
        ensures { result ≡ take 4 (drop at self.now.bytes) }
    {
        match self.bytes()[at..at + 4].split_first_chunk::<4>() {
            Some((word, _)) => *word,
            None => [0; 4],
        }
    }

    /// Writes the four bytes at `at`, which is a multiple of 4.
    pub fn put_word(&mut self, at: usize, word: [u8; 4])
        requires multiple { at % 4 ≡ 0 }
        requires inside { at + 4 ≤ length self.old.bytes }
        ensures same_home { self.new.home ≡ self.old.home }
        ensures same_place { self.new.at ≡ self.old.at }
        ensures same_length { length self.new.bytes ≡ length self.old.bytes }
        ensures bytes { self.new.bytes ≡ written at word self.old.bytes }
    {
        self.bytes.as_mut_slice()[at..at + 4].copy_from_slice(&word);
    }

    /// Moves `count` bytes from `from` to `to`; source and destination may overlap. The bytes are
    /// moved in strides, at about the speed of a plain copy, whatever the distance.
    pub fn slide(&mut self, from: usize, to: usize, count: usize)
        requires from_inside { from + count ≤ length self.old.bytes }
        requires to_inside { to + count ≤ length self.old.bytes }
        ensures same_home { self.new.home ≡ self.old.home }
        ensures same_place { self.new.at ≡ self.old.at }
        ensures same_length { length self.new.bytes ≡ length self.old.bytes }
        ensures bytes { self.new.bytes
            ≡ written to (take count (drop from self.old.bytes)) self.old.bytes }
    {
        let bytes = self.bytes.as_mut_slice();
        if to < from && count <= from - to {
            move_far_down(bytes, from, to, count);
        } else if count <= FEW {
            move_few(bytes, from, to, count);
        } else if to < from {
            move_down(bytes, from, to, count);
        } else {
            move_up(bytes, from, to, count);
        }
    }

    /// Rotates the `count` bytes at `at`, so that the byte at index `by` among them comes first.
    pub fn rotate(&mut self, at: usize, count: usize, by: usize)
        requires turn { by ≤ count }
        requires inside { at + count ≤ length self.old.bytes }
        ensures same_home { self.new.home ≡ self.old.home }
        ensures same_place { self.new.at ≡ self.old.at }
        ensures same_length { length self.new.bytes ≡ length self.old.bytes }
        ensures bytes { let run = take count (drop at self.old.bytes) in
            self.new.bytes ≡ written at (drop by run ++ take by run) self.old.bytes }
    {
        self.bytes.as_mut_slice()[at..at + count].rotate_left(by);
    }

    /// Sets each of the `count` bytes at `from` to `byte`.
    pub fn fill(&mut self, from: usize, count: usize, byte: u8)
        requires { from + count ≤ length self.old.bytes }
        ensures same_home { self.new.home ≡ self.old.home }
        ensures same_place { self.new.at ≡ self.old.at }
        ensures same_length { length self.new.bytes ≡ length self.old.bytes }
        ensures bytes { self.new.bytes ≡ written from (replicate count byte) self.old.bytes }
    {
        self.bytes.as_mut_slice()[from..from + count].fill(byte);
    }
}
