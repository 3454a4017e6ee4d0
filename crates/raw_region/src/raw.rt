//! The functions that take, give and split the ownership of raw memory; the memory's owner is ghost
//! state, which takes no memory when the program runs. Four of them take the memory of a `Vec` or
//! give it back (`detach`, `attach`, `house`, `vacate`), and the three of `OwnBytes` make, split
//! and join runs. A run owns bytes, and the room after them: memory that nobody wrote yet.
ghost use Rattle.std.specs.Prelude.{◌≡◌, ℕ, ◌+◌, ◌-◌, ◌^◌, ◌<◌, ◌≤◌, List, [], ◌∷◌, ◌++◌, length};
ghost use Rattle.std.specs.Prelude.{take, drop};
ghost use base.Fml.{ftrue, fex, fwand, fsep, feq};
ghost use denote.RawPtr.{Ptr, InBlock, ◌+ₚ◌};
ghost use Rattle.raw_region.specs.Ownership.{Extent, extent_code, room_owns, run_owns};

use std::marker::{Model, Move, Owns};
use std_alloc::vec::{Lodged, lodge};

// The bytes at distance `at` from the address `home`, and the `room` bytes of memory after them,
// which nothing else can reach. Nothing is known of what lies in the room.
#[derive(Drop)]
pub(crate) struct OwnBytes {
    ghost home: { Ptr },
    ghost at: { ℕ },
    ghost items: { List ℕ },
    ghost room: { ℕ },
}

impl Model for OwnBytes {
    ghost also_owns = { λ r. run_owns (r.home +ₚ r.at) r.items r.room };
}

// A `Vec` without elements, whose memory is owned by runs.
pub(crate) struct Frame {
    vec: Vec<u8>,
}

impl Owns for Frame {
    ghost Value = { Extent };

    ghost coded = { extent_code };

    ghost shr_at = { λ _ _ _. ftrue };
}

impl Move for Frame {
    ghost own_val = { λ e vs.
        fex Inside (λ v.
        fsep (feq ℕ v.vec.len 0) (fwand (room_owns e.ptr e.len) (Fields.own_val v vs))) };
}

// Separates a `Vec` without elements from its memory.
pub(crate) fn detach(vec: Vec<u8>) -> (OwnBytes, Frame)
    requires empty { vec.len ≡ 0 }
    requires some { 0 < vec.cap }
    ensures home { result.0.home ≡ vec.ptr }
    ensures start { result.0.at ≡ 0 }
    ensures bytes { result.0.items ≡ [] }
    ensures room { result.0.room ≡ vec.cap }
    ensures frame { result.1.ptr ≡ vec.ptr }
    ensures waits { result.1.len ≡ vec.cap }
    ensures placed { InBlock vec.ptr }
{
    (OwnBytes {}, Frame { vec })
}

// Gives the memory of a run back to the `Vec` from which it was separated.
pub(crate) fn attach(run: OwnBytes, frame: Frame) -> Vec<u8>
    requires home { run.home ≡ frame.ptr }
    requires start { run.at ≡ 0 }
    requires whole { length run.items + run.room ≡ frame.len }
    ensures { result.items ≡ [] }
{
    let OwnBytes {} = run;
    let Frame { vec } = frame;
    vec
}

// Makes a `Vec` over the bytes of a run, whose capacity is that of the room after them too. The
// `Vec` neither grows nor frees the bytes.
pub(crate) fn house(ptr: *mut u8, len: usize, cap: usize, run: OwnBytes) -> Vec<u8, Lodged>
    requires there { run.home +ₚ run.at ≡ ptr }
    requires whole { length run.items ≡ len }
    requires room { len + run.room ≡ cap }
    requires some { 0 < cap }
    requires small { cap < 2 ^ 63 }
    ensures bytes { result.items ≡ run.items }
    ensures count { result.len ≡ len }
    ensures full { result.cap ≡ cap }
    ensures there { result.ptr ≡ ptr }
{
    let OwnBytes {} = run;
    unsafe { lodge(ptr, len, cap) }
}

// Takes the run back from a `Vec` that `house` made.
pub(crate) fn vacate(vec: Vec<u8, Lodged>, _home: *mut u8, _at: usize) -> OwnBytes
    requires some { 0 < vec.len }
    requires there { vec.ptr ≡ _home +ₚ _at }
    ensures home { result.home ≡ _home }
    ensures place { result.at ≡ _at }
    ensures bytes { result.items ≡ vec.items }
    ensures room { result.room ≡ vec.cap - vec.len }
{
    let _len = vec.dislodge();
    OwnBytes {}
}

impl OwnBytes {
    // Makes a run of no bytes.
    pub(crate) fn empty() -> OwnBytes
        ensures { result.items ≡ [] }
    {
        OwnBytes {}
    }

    // Splits a run into its first `mid` bytes and the others, which keep the room.
    pub(crate) fn cut(self, mid: usize) -> (OwnBytes, OwnBytes)
        requires { mid ≤ length self.items }
        ensures front_home { result.0.home ≡ self.home }
        ensures front_place { result.0.at ≡ self.at }
        ensures front_bytes { result.0.items ≡ take mid self.items }
        ensures front_room { result.0.room ≡ 0 }
        ensures back_home { result.1.home ≡ self.home }
        ensures back_place { result.1.at ≡ self.at + mid }
        ensures back_bytes { result.1.items ≡ drop mid self.items }
        ensures back_room { result.1.room ≡ self.room }
    {
        let OwnBytes {} = self;
        (OwnBytes {}, OwnBytes {})
    }

    // Joins the bytes of two runs that lie side by side. The room is that of the second.
    pub(crate) fn glue(self, other: OwnBytes) -> OwnBytes
        requires home { other.home ≡ self.home }
        requires behind { other.at ≡ self.at + length self.items }
        ensures home { result.home ≡ self.home }
        ensures place { result.at ≡ self.at }
        ensures bytes { result.items ≡ self.items ++ other.items }
        ensures room { result.room ≡ other.room }
    {
        let OwnBytes {} = self;
        let OwnBytes {} = other;
        OwnBytes {}
    }
}
