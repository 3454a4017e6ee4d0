//! Calls on a zone, in kinds by what they return.

ghost use Rattle.std.specs.Prelude.{◌≡◌, false, Ok, Err, Some};
ghost use Rattle.mac_words.specs.Told.{Given, Number, Offset};
ghost use Rattle.heap_calls.specs.Row.{done};
ghost use Rattle.heap_calls.specs.declared.refusal.Refusal.TheVariants as refusal;
ghost use Rattle.macmem_c.specs.Called.{AnswersRow, IsAnswered, changing, asking, fitting, making};
ghost use Rattle.macmem_c.specs.Called.{counting, munging};

use block_store::BlockStore;
use heap_calls::{Heap, NoSink, Refusal};
use mac_words::{OsErr, Target};

/// A call on what a handle or a pointer names that returns no value, and takes no host memory.
#[derive(Clone, Copy)]
pub enum Change<'a> {
    DisposeHandle,
    EmptyHandle,
    HLock,
    HUnlock,
    HPurge,
    HNoPurge,
    MoveHHi,
    HLockHi,
    HSetState(u8),
    DisposePtr,
    BlockMove(u32, usize, u32, u32),
    Put(u32, &'a [u8]),
    PutPtr(u32, &'a [u8]),
}

/// A call that returns a number of the block of a handle or a pointer.
#[derive(Clone, Copy)]
pub enum Question {
    GetHandleSize,
    HandleZone,
    GetPtrSize,
    PtrZone,
    Where,
}

/// A call that seeks room, and returns no value.
#[derive(Clone, Copy)]
pub enum Fitting<'a> {
    SetHandleSize(usize, u32),
    ReallocateHandle(usize, u32),
    HandAndHand(usize, usize),
    PtrAndHand(usize, &'a [u8]),
    PtrToXHand(usize, &'a [u8]),
    SetPtrSize(usize, u32),
    PurgeMem(u32),
    ReserveMem(u32),
    MoreMasters,
}

/// A call that makes a handle or a pointer.
#[derive(Clone, Copy)]
pub enum Making<'a> {
    NewHandle(u32),
    NewEmptyHandle,
    HandToHand(usize),
    PtrToHand(&'a [u8]),
    NewPtr(u32),
}

/// A call that returns a number, and no code.
#[derive(Clone, Copy)]
pub enum Counting {
    FreeMem,
    MaxBlock,
    CompactMem(u32),
}

/// A call that seeks bytes in the block of a handle, and returns an offset.
#[derive(Clone, Copy)]
pub enum Munging<'a> {
    Munger(usize, u32, &'a Target, &'a [u8]),
    MungerNil(usize, u32, &'a Target),
}

/// Makes a call that returns no value.
pub fn apply<S: BlockStore>(heap: &mut Heap<S>, call: Change<'_>, name: usize) -> Result<(), OsErr>
    ensures answer { IsAnswered (changing call.entry (Some name)) done heap.old.memory result
        heap.new.memory }
    ensures lies { heap.new.memory.window ≡ heap.old.memory.window }
{
    let name = Some(name);
    match call {
        Change::DisposeHandle => heap.dispose_handle(name),
        Change::EmptyHandle => heap.empty_handle(name),
        Change::HLock => heap.h_lock(name),
        Change::HUnlock => heap.h_unlock(name),
        Change::HPurge => heap.h_purge(name),
        Change::HNoPurge => heap.h_no_purge(name),
        Change::MoveHHi => heap.move_h_hi(name),
        Change::HLockHi => heap.h_lock_hi(name),
        Change::HSetState(state) => heap.h_set_state(name, state),
        Change::DisposePtr => heap.dispose_pointer(name),
        Change::BlockMove(start, to, offset, count) => {
            heap.block_move(name, start, Some(to), offset, count)
        }
        Change::Put(from, bytes) => heap.put(name, from, bytes),
        Change::PutPtr(from, bytes) => heap.put_pointer(name, from, bytes),
    }
}

/// Makes a call that returns a number of a block.
pub fn ask<S: BlockStore>(heap: &mut Heap<S>, call: Question, name: usize) -> Result<u32, OsErr>
    ensures answer { IsAnswered (asking call (Some name)) Number heap.old.memory result
        heap.new.memory }
    ensures lies { heap.new.memory.window ≡ heap.old.memory.window }
{
    let name = Some(name);
    match call {
        Question::GetHandleSize => heap.get_handle_size(name),
        Question::HandleZone => heap.handle_zone(name),
        Question::GetPtrSize => heap.get_pointer_size(name),
        Question::PtrZone => heap.pointer_zone(name),
        Question::Where => heap.place_of(name),
    }
}

/// Makes a call that seeks room. Where the host is out of memory, the heap is as it was.
pub fn fit<S: BlockStore>(heap: &mut Heap<S>, call: Fitting<'_>) -> Result<(), Refusal>
    requires { S.TAKES_HOST ≡ false }
    ensures answer { AnswersRow (fitting call.entry) done heap.old.memory result heap.new.memory }
    ensures host { result ≡ Err refusal.HostMemory → heap.new ≡ heap.old }
    ensures lies { heap.new.memory.window ≡ heap.old.memory.window }
{
    let sink = &mut NoSink;
    match call {
        Fitting::SetHandleSize(handle, size) => heap.set_handle_size(Some(handle), size, sink),
        Fitting::ReallocateHandle(handle, size) => {
            heap.reallocate_handle(Some(handle), size, sink)
        }
        Fitting::HandAndHand(from, to) => heap.hand_and_hand(Some(from), Some(to), sink),
        Fitting::PtrAndHand(handle, bytes) => heap.pointer_and_hand(Some(handle), bytes, sink),
        Fitting::PtrToXHand(handle, bytes) => heap.pointer_to_x_hand(Some(handle), bytes, sink),
        Fitting::SetPtrSize(pointer, size) => heap.set_pointer_size(Some(pointer), size, sink),
        Fitting::PurgeMem(size) => heap.purge_mem(size, sink),
        Fitting::ReserveMem(size) => heap.reserve_mem(size, sink),
        Fitting::MoreMasters => heap.more_masters(sink),
    }
}

/// Makes a call that makes a handle or a pointer, and returns its number. Where the host is out of
/// memory, the heap is as it was.
pub fn make<S: BlockStore>(heap: &mut Heap<S>, call: Making<'_>) -> Result<usize, Refusal>
    requires { S.TAKES_HOST ≡ false }
    ensures answer { AnswersRow (making call.entry) Given heap.old.memory result heap.new.memory }
    ensures host { result ≡ Err refusal.HostMemory → heap.new ≡ heap.old }
    ensures lies { heap.new.memory.window ≡ heap.old.memory.window }
{
    let sink = &mut NoSink;
    match call {
        Making::NewHandle(size) => heap.new_handle(size, sink),
        Making::NewEmptyHandle => heap.new_empty_handle(sink),
        Making::HandToHand(handle) => heap.hand_to_hand(Some(handle), sink),
        Making::PtrToHand(bytes) => heap.pointer_to_hand(bytes, sink),
        Making::NewPtr(size) => heap.new_pointer(size, sink),
    }
}

/// Makes a call that returns a number, and no code.
pub fn count<S: BlockStore>(heap: &mut Heap<S>, call: Counting) -> u32
    ensures answer { IsAnswered (counting call) Number heap.old.memory (Ok result) heap.new.memory }
    ensures lies { heap.new.memory.window ≡ heap.old.memory.window }
{
    match call {
        Counting::FreeMem => heap.free_mem(),
        Counting::MaxBlock => heap.max_block(),
        Counting::CompactMem(size) => heap.compact_mem(size),
    }
}

/// Makes a call that seeks bytes. Where the host is out of memory, the heap is as it was.
pub fn munge<S: BlockStore>(heap: &mut Heap<S>, call: Munging<'_>) -> Result<i64, Refusal>
    requires { S.TAKES_HOST ≡ false }
    ensures answer { AnswersRow (munging call.entry) Offset heap.old.memory result heap.new.memory }
    ensures host { result ≡ Err refusal.HostMemory → heap.new ≡ heap.old }
    ensures lies { heap.new.memory.window ≡ heap.old.memory.window }
{
    match call {
        Munging::Munger(handle, from, old, new) => {
            heap.munger(Some(handle), from, old, new, &mut NoSink)
        }
        Munging::MungerNil(handle, from, old) => match heap.munger_nil(Some(handle), from, old) {
            Ok(offset) => Ok(offset),
            Err(code) => Err(Refusal::Code(code)),
        },
    }
}
