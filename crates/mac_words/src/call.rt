//! The calls of a script.

use crate::name::Label;
use crate::resource_call::ResourceCall;
use crate::segment_call::SegmentCall;

/// A call of a script. Each table of calls is an enum of its own.
#[derive(Drop)]
pub enum Call {
    /// A call of the Memory Manager.
    Heap(HeapCall),
    /// A call of the Resource Manager.
    Resource(ResourceCall),
    /// A call of the Segment Manager, or a call through the jump table.
    Segment(SegmentCall),
    /// A call by which an application says how it is run.
    Control(ControlCall),
}

/// A call of the Memory Manager. Sizes and offsets are in bytes.
///
/// *Inside Macintosh: Memory*, chapter 2, "Memory Manager Routines". `Put`, `Show`, `PutPtr`,
/// `ShowPtr` and `Where` stand for what an application does with a pointer, or with the master
/// pointer to which a handle leads.
#[derive(Drop)]
pub enum HeapCall {
    /// Binds the name to a new handle, whose block has the given number of bytes 0.
    NewHandle(Label, u32),
    /// Binds the name to a new empty handle.
    NewEmptyHandle(Label),
    /// Disposes of a handle and its block.
    DisposeHandle(Label),
    /// Returns the logical size of a handle's block.
    GetHandleSize(Label),
    /// Changes the logical size of a handle's block; new bytes are 0.
    SetHandleSize(Label, u32),
    /// Allocates a new block with the given number of bytes 0 for a handle, and releases the
    /// handle's old block, if there is one.
    ReallocateHandle(Label, u32),
    /// Purges the block of a handle; the handle becomes an empty handle.
    EmptyHandle(Label),
    /// Locks a handle's block: the block is neither moved nor purged until it is unlocked.
    HLock(Label),
    /// Unlocks a handle's block.
    HUnlock(Label),
    /// Makes a handle's block purgeable.
    HPurge(Label),
    /// Makes a handle's block unpurgeable.
    HNoPurge(Label),
    /// Returns the flags of a handle as a sum: locked 128, purgeable 64, resource 32.
    HGetState(Label),
    /// Sets whether a handle's block is locked and whether it is purgeable, from the bits 128 and
    /// 64 of the byte.
    HSetState(Label, u8),
    /// Returns the place of the heap zone that a handle is of, as the offset from its start.
    HandleZone(Label),
    /// Binds the name to the handle of the relocatable block whose content stands at the given
    /// offset from the start of the partition.
    RecoverHandle(Label, u32),
    /// Moves a handle's block to the top of its run of movable blocks.
    MoveHHi(Label),
    /// Moves a handle's block to the top of its run of movable blocks, and locks the block.
    HLockHi(Label),
    /// Binds the first name to a new handle, whose block is a copy of the block of the second.
    HandToHand(Label, Box<Label>),
    /// Binds the name to a new handle, whose block is a copy of the bytes.
    PtrToHand(Label, Vec<u8>),
    /// Appends the bytes of the first handle's block to the block of the second.
    HandAndHand(Label, Box<Label>),
    /// Appends bytes to a handle's block.
    PtrAndHand(Label, Vec<u8>),
    /// Replaces the bytes of a handle's block with other bytes; the block gets their size.
    PtrToXHand(Label, Vec<u8>),
    /// Searches a handle's block for bytes, from an offset on, and replaces them; returns the offset
    /// after the new bytes, or where the bytes were found if nothing is to replace them, or -1.
    Munger(Label, u32, Box<Target>, Box<Replacement>),
    /// Binds the name to a pointer to a new nonrelocatable block with the given number of bytes 0.
    NewPtr(Label, u32),
    /// Disposes of a nonrelocatable block.
    DisposePtr(Label),
    /// Returns the logical size of a nonrelocatable block.
    GetPtrSize(Label),
    /// Changes the logical size of a nonrelocatable block; new bytes are 0.
    SetPtrSize(Label, u32),
    /// Returns the place of the heap zone that a nonrelocatable block is in, as the offset from its
    /// start.
    PtrZone(Label),
    /// Copies bytes of the first block, from an offset on, into the second, from another offset on.
    /// Each is the block of a handle or of a pointer, and both may be the same. The last number is
    /// how many bytes.
    BlockMove(Label, u32, Box<Label>, u32, u32),
    /// Returns the total size in bytes of the free blocks, headers included.
    FreeMem,
    /// Returns the size of the largest block that could be allocated after compaction, without
    /// purging.
    MaxBlock,
    /// Returns the total size in bytes of the free and the purgeable blocks, and the size of the
    /// largest block that could be allocated if these were purged and no block were moved.
    PurgeSpace,
    /// Compacts the zone run by run until a block of the given size fits, and returns the size of
    /// the largest block that then could be allocated without another move.
    CompactMem(u32),
    /// Purges blocks until a block of the given size fits.
    PurgeMem(u32),
    /// Purges all purgeable blocks, compacts the zone, and returns the size of the largest block
    /// that then could be allocated.
    MaxMem,
    /// Makes room for a block of the given size as low in the zone as possible.
    ReserveMem(u32),
    /// Allocates a new master pointer block.
    MoreMasters,
    /// Returns the result code of the last Memory Manager call; this call and those below it in
    /// this table set none.
    MemError,
    /// Writes bytes into a handle's block, from an offset on.
    Put(Label, u32, Vec<u8>),
    /// Returns the bytes of a handle's block.
    Show(Label),
    /// Writes bytes into a nonrelocatable block, from an offset on.
    PutPtr(Label, u32, Vec<u8>),
    /// Returns the bytes of a nonrelocatable block.
    ShowPtr(Label),
    /// Returns the offset of a block's content from the start of the partition.
    Where(Label),
}

/// What `Munger` replaces: the first bytes like these, or a number of bytes at the offset itself, for
/// which the manual has the pointer NIL and a length.
#[derive(Drop)]
pub enum Target {
    Bytes(Vec<u8>),
    Length(u32),
}

/// What `Munger` puts there: bytes, or with the pointer NIL nothing, and the block stays as it is.
#[derive(Drop)]
pub enum Replacement {
    Bytes(Vec<u8>),
    Nil,
}

/// A call by which an application says how it is run: which grow-zone script is run when there is
/// no room, and when its turn or its run ends.
///
/// *Inside Macintosh: Memory*, chapter 2, "Memory Manager Routines"; *Inside Macintosh: Processes*,
/// chapter 2, "Process Manager Routines"; *Inside Macintosh: Macintosh Toolbox Essentials*, chapter
/// 2, "Event Manager Routines".
#[derive(Drop)]
pub enum ControlCall {
    /// Sets the grow-zone script; the name `none` removes it.
    SetGrowZone(Label),
    /// Ends the application's turn.
    WaitNextEvent,
    /// Ends the application.
    ExitToShell,
}
