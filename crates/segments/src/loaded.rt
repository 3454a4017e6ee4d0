//! What the calls of the Segment Manager return.

ghost use Rattle.std.specs.Prelude.{◌≡◌, None, false};

use heap_calls::Refusal;
use mac_words::OsErr;

/// A segment that was called through the jump table.
#[derive(Clone, Copy, Debug, PartialEq, Eq)]
pub struct Called {
    /// The segment's number.
    pub segment: i16,
    /// Whether the segment was read for the call.
    pub read: bool,
}

/// An entry of the jump table.
#[derive(Clone, Copy, Debug, PartialEq, Eq)]
pub struct Shown {
    /// The number of the entry's segment.
    pub segment: i16,
    /// Whether the entry is loaded.
    pub loaded: bool,
}

/// A segment that was not loaded, or not called.
#[derive(Clone, Copy, Debug, PartialEq, Eq)]
pub struct Unloaded {
    /// Why the segment was not loaded, or not called.
    pub refusal: Refusal,
    /// The number of the empty handle into whose block the segment would have been read again, if
    /// there is one.
    pub reading: Option<usize>,
    /// Whether the segment's block found no room.
    pub wants_room: bool,
}

impl Unloaded {
    /// Makes a refusal with a code, for another reason than that there is no room.
    pub(crate) fn with_code(code: OsErr) -> Unloaded
        ensures refusal { result.refusal ≡ Refusal.Code code }
        ensures reading { result.reading ≡ None }
        ensures wants { result.wants_room ≡ false }
    {
        Unloaded {
            refusal: Refusal::Code(code),
            reading: None,
            wants_room: false,
        }
    }
}
