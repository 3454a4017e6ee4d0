//! The region: one allocation, and the list of the windows in use.
ghost use Rattle.std.specs.Prelude.{◌≡◌, ◌+◌, ◌%◌, ◌^◌, ◌<◌, ◌≤◌, [], length, take, drop};
ghost use Rattle.std.specs.Prelude.{replicate, IfOk};
ghost use Rattle.std.specs.List.{Contains};
ghost use Rattle.memory_windows.specs.Windows.{window, InOrder, IsApart, with_window, without_window};
ghost use Rattle.memory_windows.specs.Writes.{written};

use crate::gaps::{Gap, index_after, index_of, open, shut, wake};
use crate::part::Part;
use crate::raw::{Frame, attach, detach, house, vacate};
use memory_windows::GREATEST_MEMORY;
use std::alloc::{AllocError, Global};
use std::marker::Model;

/// The length of a region, and the place and length of a part, are multiples of this.
pub const UNIT: usize = 16;

/// The greatest number of bytes of a region: 128 MB.
pub const MOST_BYTES: usize = GREATEST_MEMORY as usize;

/// The greatest number of windows in use at a time.
pub const MOST_OUT: usize = 64;

/// One block of host memory, from which parts are cut, and to which they are returned in any order.
/// The region begins at place 0. The bytes of a window in use read as 0. No byte is written before
/// a part is cut that has it, or that lies above it: up to the place `used` bytes are awake.
pub struct Region {
    frame: Frame,
    home: *mut u8,
    gaps: Vec<Gap>,
    len: usize,
    used: usize,
}

impl Model for Region {
    ghost use Rattle.raw_region.specs.Memory.{Whole};

    ghost Value = { Whole };

    ghost use Rattle.raw_region.specs.Regions.{region_view, IsRegion};

    ghost view = { region_view };

    ghost invariant = { IsRegion };
}

impl Region {
    /// Makes a region of `len` bytes, all 0. All its memory is taken here, and that for the list of
    /// windows too, so no other call takes host memory; but none of it is written yet.
    ///
    /// # Errors
    ///
    /// Returns `AllocError` if the host is out of memory.
    pub fn new(alloc: Global, len: usize) -> Result<Region, AllocError>
        requires multiple { len % UNIT ≡ 0 }
        requires some { UNIT ≤ len }
        requires small { len ≤ MOST_BYTES }
        ensures bytes { IfOk result (λ r. r.bytes ≡ replicate len 0) }
        ensures out { IfOk result (λ r. r.out ≡ []) }
    {
        let mut gaps = Vec::with_capacity(alloc, MOST_OUT + 1)?;
        let mut vec = Vec::with_capacity(alloc, len)?;
        let home = vec.as_mut_ptr();
        let (after, frame) = detach(vec);
        let start = Gap {
            at: 0,
            len: 0,
            after,
        };
        match gaps.push(start) {
            Ok(()) => Ok(Region {
                frame,
                home,
                gaps,
                len,
                used: 0,
            }),
            Err(_) => unreachable!(),
        }
    }

    /// Returns the number of bytes of the region, including those of the windows in use.
    pub fn len(&self) -> usize
        ensures { result ≡ length self.now.bytes }
    {
        self.len
    }

    /// Cuts a part of `len` bytes at `at` from the region. After this, no byte belongs to two of
    /// the windows in use. Bytes below the part's end that nobody wrote yet are written with 0.
    pub fn cut(&mut self, at: usize, len: usize) -> Part
        requires place { at % UNIT ≡ 0 }
        requires multiple { len % UNIT ≡ 0 }
        requires some { UNIT ≤ len }
        requires inside { at + len ≤ length self.old.bytes }
        requires apart { IsApart at len self.old.out }
        requires few { length self.old.out < MOST_OUT }
        ensures part_home { result.home ≡ self.old.home }
        ensures part_place { result.at ≡ at }
        ensures part_length { length result.bytes ≡ len }
        ensures part_bytes { result.bytes ≡ take len (drop at self.old.bytes) }
        ensures same_home { self.new.home ≡ self.old.home }
        ensures same_length { length self.new.bytes ≡ length self.old.bytes }
        ensures bytes { self.new.bytes ≡ written at (replicate len 0) self.old.bytes }
        ensures out { self.new.out ≡ with_window at len self.old.out }
        ensures in_order { InOrder 0 self.new.out (length self.new.bytes) }
    {
        let used = wake(&mut self.gaps, self.home, self.used, self.len, at + len);
        self.used = used;
        let i = index_after(self.gaps.as_slice(), at) - 1;
        let home = self.home;
        let run = open(&mut self.gaps, i, at, len);
        let ptr = unsafe { home.byte_add(at) };
        let bytes = house(ptr, len, len, run);
        Part { bytes, home, at }
    }

    /// Returns a part to the region; the part's bytes keep their values. The other windows stay in
    /// use. No two windows have a byte in common, before or after.
    pub fn join(&mut self, part: Part)
        requires of_this { part.home ≡ self.old.home }
        requires out { Contains self.old.out (window part.at (length part.bytes)) }
        ensures same_home { self.new.home ≡ self.old.home }
        ensures same_length { length self.new.bytes ≡ length self.old.bytes }
        ensures bytes { self.new.bytes ≡ written part.at part.bytes self.old.bytes }
        ensures out { self.new.out ≡ without_window part.at (length part.bytes) self.old.out }
        ensures was_in_order { InOrder 0 self.old.out (length self.old.bytes) }
        ensures in_order { InOrder 0 self.new.out (length self.new.bytes) }
    {
        let Part { bytes, home, at } = part;
        let len = bytes.len();
        let run = vacate(bytes, home, at);
        let i = index_of(self.gaps.as_slice(), at, len);
        shut(&mut self.gaps, i, run);
    }

    /// Gives the region's memory back to the host.
    pub fn close(self)
        requires { self.out ≡ [] }
    {
        let Region {
            frame,
            home: _,
            mut gaps,
            len: _,
            used: _,
        } = self;
        match gaps.pop() {
            Some(
                Gap {
                    at: _,
                    len: _,
                    after,
                },
            ) => drop(attach(after, frame)),
            None => unreachable!(),
        }
    }
}
