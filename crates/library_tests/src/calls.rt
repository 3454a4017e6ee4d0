//! A heap over a list of blocks, on which rows of a call and its expected result are run.

use heap_calls::{Heap, NoSink, Refusal};
use list_store::ListStore;
use mac_words::OsErr;
use std::alloc::{AllocError, Global};
use std::process::Abort;

/// The number of the handle or pointer to which a name is bound, or `None` for an unbound name.
pub type Name = Option<usize>;

/// A call of the Memory Manager, or a method of the heap that the layers above use.
#[derive(Clone, Copy)]
pub enum Call {
    NewHandle(u32),
    NewEmptyHandle,
    DisposeHandle(Name),
    GetHandleSize(Name),
    SetHandleSize(Name, u32),
    EmptyHandle(Name),
    HLock(Name),
    HPurge(Name),
    MoveHHi(Name),
    HandAndHand(Name, Name),
    NewPointer(u32),
    CompactMem(u32),
    MaxMem,
    SetBusy(usize, bool),
    IsBusy(usize),
    /// Makes a handle the handle of a System resource.
    Guard(usize),
    /// Writes bytes at the beginning of a handle's block.
    Put(Name, &'static [u8]),
    /// Makes this many empty handles.
    NewEmptyHandles(u32),
    Ask(Question),
}

/// A question about a heap.
#[derive(Clone, Copy)]
pub enum Question {
    /// The number of searches for room.
    Searches,
    /// The number of blocks that were moved.
    Moves,
    FreeOrPurgeable,
}

/// The result of a call.
#[derive(Clone, Copy, Debug, PartialEq, Eq)]
pub enum Answer {
    Done,
    Made(usize),
    Number(u64),
    Is(bool),
    Refused(OsErr),
    HostMemory,
}

/// The result of a call on an unbound name, or on an empty handle: -109 (nilHandleErr).
pub const NIL: Answer = Answer::Refused(OsErr::NIL_HANDLE);

/// The result of a call on a name that is not found, or is of the other kind: -111 (memWZErr).
pub const WRONG: Answer = Answer::Refused(OsErr::WRONG_ZONE);

/// The result of a call that finds no room: -108 (memFullErr).
pub const FULL: Answer = Answer::Refused(OsErr::MEM_FULL);

/// The result of a call that a handle's role bars: -30001 (profileErr).
pub const BARRED: Answer = Answer::Refused(OsErr::PROFILE);

/// The result of a call on a busy name: -117 (memLockedErr).
pub const BUSY: Answer = Answer::Refused(OsErr::LOCKED);

/// The names that are bound to the first three numbers.
pub const A: Name = Some(0);

pub const B: Name = Some(1);

pub const C: Name = Some(2);

pub const D: Name = Some(3);

pub const E: Name = Some(4);

/// Returns the result of a call that is refused.
pub fn refused(refusal: Refusal) -> Answer {
    match refusal {
        Refusal::Code(code) => Answer::Refused(code),
        Refusal::HostMemory => Answer::HostMemory,
    }
}

/// Returns the result of a call that makes nothing.
pub fn done(answer: Result<(), Refusal>) -> Answer {
    match answer {
        Ok(()) => Answer::Done,
        Err(refusal) => refused(refusal),
    }
}

/// Returns the result of a call that makes a handle or a pointer.
pub fn made(answer: Result<usize, Refusal>) -> Answer {
    match answer {
        Ok(number) => Answer::Made(number),
        Err(refusal) => refused(refusal),
    }
}

/// Returns the result of a call that counts bytes.
pub fn number(answer: Result<u32, Refusal>) -> Answer {
    match answer {
        Ok(number) => Answer::Number(u64::from(number)),
        Err(refusal) => refused(refusal),
    }
}

fn answer_about(heap: &Heap<ListStore>, question: Question) -> Answer {
    match question {
        Question::Searches => Answer::Number(heap.searches()),
        Question::Moves => Answer::Number(heap.moves()),
        Question::FreeOrPurgeable => Answer::Number(u64::from(heap.free_or_purgeable())),
    }
}

fn guard(heap: &mut Heap<ListStore>, number: usize) {
    heap.set_resource(number, true);
    heap.set_guard(number, true);
}

/// Makes this many empty handles, if there is room for their master pointers.
fn new_empty_handles(heap: &mut Heap<ListStore>, count: u32) -> Answer {
    for _ in 0..count {
        if let Err(refusal) = heap.new_empty_handle(&mut NoSink) {
            return refused(refusal);
        }
    }
    Answer::Done
}

/// Makes a call, and returns its result.
fn answer_to(heap: &mut Heap<ListStore>, call: Call) -> Answer {
    match call {
        Call::NewHandle(size) => made(heap.new_handle(size, &mut NoSink)),
        Call::NewEmptyHandle => made(heap.new_empty_handle(&mut NoSink)),
        Call::DisposeHandle(handle) => done(heap.dispose_handle(handle).map_err(Refusal::Code)),
        Call::GetHandleSize(handle) => number(heap.get_handle_size(handle).map_err(Refusal::Code)),
        Call::SetHandleSize(handle, size) => done(heap.set_handle_size(handle, size, &mut NoSink)),
        Call::EmptyHandle(handle) => done(heap.empty_handle(handle).map_err(Refusal::Code)),
        Call::HLock(handle) => done(heap.h_lock(handle).map_err(Refusal::Code)),
        Call::HPurge(handle) => done(heap.h_purge(handle).map_err(Refusal::Code)),
        Call::MoveHHi(handle) => done(heap.move_h_hi(handle).map_err(Refusal::Code)),
        Call::HandAndHand(from, to) => done(heap.hand_and_hand(from, to, &mut NoSink)),
        Call::NewPointer(size) => made(heap.new_pointer(size, &mut NoSink)),
        Call::CompactMem(size) => Answer::Number(u64::from(heap.compact_mem(size))),
        Call::MaxMem => number(heap.max_mem(&mut NoSink)),
        Call::SetBusy(number, busy) => {
            heap.set_busy(number, busy);
            Answer::Done
        }
        Call::IsBusy(number) => Answer::Is(heap.is_busy(number)),
        Call::Guard(number) => {
            guard(heap, number);
            Answer::Done
        }
        Call::Put(handle, bytes) => done(heap.put(handle, 0, bytes).map_err(Refusal::Code)),
        Call::NewEmptyHandles(count) => new_empty_handles(heap, count),
        Call::Ask(question) => answer_about(heap, question),
    }
}

/// Returns a heap over a zone of 1024 bytes.
pub fn heap_of(alloc: Global) -> Result<Heap<ListStore>, AllocError> {
    Ok(Heap::new(alloc, ListStore::new(alloc, 1024)?))
}

/// Makes calls one after another, and asserts that each has its expected result. Where `again` is
/// set, a call for which the host was out of memory is made once more.
pub fn assert_rows(
    rt: &impl Abort,
    heap: &mut Heap<ListStore>,
    rows: &[(Call, Answer)],
    again: bool,
) {
    for (call, expected) in rows {
        let mut found = answer_to(heap, *call);
        if again && found == Answer::HostMemory {
            found = answer_to(heap, *call);
        }
        assert_eq!(rt; found, *expected);
    }
}

/// Makes calls one after another in a zone of 1024 bytes, and asserts that each has its expected
/// result. Where `again` is set, a call for which the host was out of memory is made once more.
pub fn assert_answers(
    rt: &impl Abort,
    alloc: Global,
    rows: &[(Call, Answer)],
    again: bool,
) -> Result<(), AllocError> {
    let mut heap = heap_of(alloc)?;
    assert_rows(rt, &mut heap, rows, again);
    Ok(())
}
