//! The calls of the Segment Manager.

/// A call of the Segment Manager, or a call through the jump table. A segment is named by its
/// resource ID; the entries of the jump table are counted from 0.
///
/// *Inside Macintosh: Processes*, chapter 7, "Segment Manager Routines". `CallEntry` stands for
/// what an application does when it calls a routine through its jump table, and `ShowEntry` for an
/// inspection of an entry.
#[derive(Drop)]
pub enum SegmentCall {
    /// Loads a segment and locks its block.
    LoadSeg(i16),
    /// Unlocks a segment's block and makes it purgeable; the next call of one of its routines loads
    /// the segment again.
    UnloadSeg(i16),
    /// Calls the routine of an entry, loading its segment first if the entry is not loaded, and
    /// returns the segment and whether its stored data was read for the call, as 1 or 0.
    CallEntry(u32),
    /// Returns the segment of an entry and whether the entry is loaded, as 1 or 0.
    ShowEntry(u32),
}
