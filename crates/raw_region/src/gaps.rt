//! The windows in use, in order of address, each with the free bytes that follow it up to the next
//! window. The first entry stands for the start of the region and has a window of no bytes.
ghost use Rattle.std.specs.Prelude.{◌≡◌, ℕ, ◌+◌, ◌-◌, ◌^◌, ◌<◌, ◌≤◌, List, [], ◌∷◌, ◌++◌, length};
ghost use Rattle.std.specs.Prelude.{take, drop, slice_index_or, nat_le, nat_eq, ◌&&◌, not, vec_len};
ghost use Rattle.std.specs.Prelude.{vec_capacity, replicate, max};
ghost use Rattle.std.specs.List.{prefix_len, position_or_len};
ghost use Rattle.std.specs.Vec.{vec_ptr};
ghost use denote.RawPtr.{InBlock};
ghost use Rattle.raw_region.specs.Gaps.{gap_ends_by, gap_is, EndsFit, Fits, front, middle, back};
ghost use Rattle.raw_region.specs.Gaps.{Beside, joined, IsLaid, IsStart, bytes_of, room_of};
ghost use Rattle.raw_region.specs.Gaps.{awake};
ghost use Rattle.raw_region.specs.declared.gaps.Gap.{Gap};

use crate::raw::{OwnBytes, house, vacate};
use std::mem::replace;
use std_alloc::vec::Lodged;

#[derive(Drop)]
pub(crate) struct Gap {
    pub(crate) at: usize,
    pub(crate) len: usize,
    pub(crate) after: OwnBytes,
}

// Returns the index of the first window that ends above `at`, or the number of entries if every
// window ends at or below `at`. The entry of the region's start is not considered.
pub(crate) fn index_after(gaps: &[Gap], at: usize) -> usize
    requires start { 0 < length gaps.now }
    requires ends_fit { EndsFit gaps.now }
    ensures { result ≡ 1 + prefix_len (gap_ends_by at) (drop 1 gaps.now) }
{
    let mut i = 1;
    while i < gaps.len() && gaps[i].at + gaps[i].len <= at {
        i += 1;
    }
    i
}

// Returns the index of the window of `len` bytes at `at`, or the number of entries if there is no
// such window.
pub(crate) fn index_of(gaps: &[Gap], at: usize, len: usize) -> usize
    requires { 0 < length gaps.now }
    ensures { result ≡ 1 + position_or_len (gap_is at len) (drop 1 gaps.now) }
{
    let mut i = 1;
    while i < gaps.len() && !(gaps[i].at == at && gaps[i].len == len) {
        i += 1;
    }
    i
}

// Cuts a window of `len` bytes at `at` out of the free bytes after the `i`-th window, and returns
// the bytes of the new window. The new window is entered after the `i`-th.
pub(crate) fn open(gaps: &mut Vec<Gap>, i: usize, at: usize, len: usize) -> OwnBytes
    requires there { i < vec_len gaps.old }
    requires room { vec_len gaps.old < vec_capacity gaps.old }
    requires fits { (d : Gap) → Fits at len (slice_index_or gaps.old.items i d) }
    ensures items { (d : Gap) →
        let gs = gaps.old.items in
        let g = slice_index_or gs i d in
        gaps.new.items ≡ take i gs ++ front at g ∷ back at len g ∷ drop (i + 1) gs }
    ensures run { (d : Gap) → result ≡ middle at len (slice_index_or gaps.old.items i d) }
    ensures capacity { vec_capacity gaps.new ≡ vec_capacity gaps.old }
{
    let gap = &mut gaps[i];
    let mid = at - (gap.at + gap.len);
    let run = replace(&mut gap.after, OwnBytes::empty());
    let (front, rest) = run.cut(mid);
    let (run, after) = rest.cut(len);
    gap.after = front;
    match gaps.insert(i + 1, Gap { at, len, after }) {
        Ok(()) => run,
        Err(_) => unreachable!(),
    }
}

// Returns the bytes of a window: removes the `i`-th entry and joins its bytes, and the free bytes
// on both sides of them, in the entry below it.
pub(crate) fn shut(gaps: &mut Vec<Gap>, i: usize, run: OwnBytes)
    requires not_start { 0 < i }
    requires there { i < vec_len gaps.old }
    requires beside { (d : Gap) →
        let gs = gaps.old.items in
        Beside (slice_index_or gs (i - 1) d) run (slice_index_or gs i d) }
    ensures items { (d : Gap) →
        let gs = gaps.old.items in
        let a = slice_index_or gs (i - 1) d in
        let b = slice_index_or gs i d in
        gaps.new.items ≡ take (i - 1) gs ++ joined a run b ∷ drop (i + 1) gs }
    ensures capacity { vec_capacity gaps.new ≡ vec_capacity gaps.old }
{
    let Gap {
        at: _,
        len: _,
        after,
    } = gaps.remove(i);
    let gap = &mut gaps[i - 1];
    let front = replace(&mut gap.after, OwnBytes::empty());
    gap.after = front.glue(run).glue(after);
}

// Appends `count` bytes of 0 to a `Vec` that has room for them.
fn filled(mut vec: Vec<u8, Lodged>, count: usize) -> Vec<u8, Lodged>
    requires room { vec_len vec + count ≤ vec_capacity vec }
    ensures items { result.items ≡ vec.items ++ replicate count 0 }
    ensures count { vec_len result ≡ vec_len vec + count }
    ensures capacity { vec_capacity result ≡ vec_capacity vec }
    ensures there { vec_ptr result ≡ vec_ptr vec }
{
    let mut i = 0;
    while i < count {
        vec.push_reserved(0);
        i += 1;
    }
    vec
}

// Wakes the bytes of a region of `len` bytes at `home` up to the place `end`: zeros are written
// from the place `used` on, into the room after the last entry, whose bytes they then are. Returns
// the place up to which bytes are awake.
pub(crate) fn wake(gaps: &mut Vec<Gap>, home: *mut u8, used: usize, len: usize, end: usize) -> usize
    requires first { IsStart gaps.old.items }
    requires placed { InBlock home }
    requires laid { IsLaid home 0 gaps.old.items }
    requires whole { length (bytes_of gaps.old.items) ≡ used }
    requires rest { used + room_of gaps.old.items ≡ len }
    requires small { len < 2 ^ 63 }
    requires inside { end ≤ len }
    ensures reaches { result ≡ max used end }
    ensures items { gaps.new.items ≡ awake (end - used) gaps.old.items }
    ensures capacity { vec_capacity gaps.new ≡ vec_capacity gaps.old }
{
    if end <= used {
        return used;
    }
    let last = gaps.len() - 1;
    let gap = &mut gaps[last];
    let at = gap.at + gap.len;
    let run = replace(&mut gap.after, OwnBytes::empty());
    let ptr = unsafe { home.byte_add(at) };
    let vec = house(ptr, used - at, len - at, run);
    gap.after = vacate(filled(vec, end - used), home, at);
    end
}
