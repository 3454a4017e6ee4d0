//! Calls that purge blocks for room, made with a sink to which the blocks are reported, and with
//! one that does not listen.

ghost use Rattle.heap_calls.specs.Gone.{IsIdle};

use crate::calls::{
    Answer, BARRED, Call, Name, assert_rows, done, heap_of, made, number as counted,
};
use crate::recorder::Recorder;
use block_store::Flags;
use heap_calls::{Heap, NoSink, PurgeSink};
use list_store::ListStore;
use std::alloc::{AllocError, Global};
use std::process::Abort;

/// A call of the Memory Manager that may purge blocks for room, or a method of the heap that may.
#[derive(Clone, Copy)]
pub enum RoomCall {
    NewHandle(u32),
    NewEmptyHandle,
    SetHandleSize(Name, u32),
    ReallocateHandle(Name, u32),
    HandToHand(Name),
    PtrToHand(&'static [u8]),
    HandAndHand(Name, Name),
    PtrAndHand(Name, &'static [u8]),
    NewPointer(u32),
    SetPointerSize(Name, u32),
    PurgeMem(u32),
    MaxMem,
    ReserveMem(u32),
    MoreMasters,
    /// Gives an empty handle a block of these bytes.
    Refill(usize, &'static [u8]),
}

/// Calls one after another, with their expected results.
pub type Rows = &'static [(Call, Answer)];

/// The number of a handle, and the bytes of its block.
pub type Block = (usize, &'static [u8]);

/// A call in a zone of its own: the calls before it, the call, its expected result, the blocks that
/// are to be reported to a sink, in order, and the numbers of the handles that are to have a block
/// after it.
pub type Case = (Rows, RoomCall, Answer, &'static [Block], &'static [usize]);

/// Cases in zones in which the same calls come first.
#[derive(Clone, Copy)]
pub struct Scene {
    pub first: &'static [Rows],
    pub cases: &'static [Case],
    /// How many blocks each call purges for a new master pointer block, if it makes one and purges
    /// as many: they stay purged where the sink refuses a block that is purged after them.
    pub for_masters: usize,
}

/// More than the numbers of all handles that a case has.
const NUMBERS: usize = 66;

/// Gives an empty handle a block of these bytes; a handle that has a block stays as it is.
fn refill<K: PurgeSink>(
    heap: &mut Heap<ListStore>,
    number: usize,
    bytes: &[u8],
    sink: &mut K,
) -> Answer
    requires { IsIdle K.told K.waits sink.old }
    ensures { IsIdle K.told K.waits sink.new }
{
    if heap.has_block(number) {
        return BARRED;
    }
    done(heap.refill(number, bytes, Flags::NONE, sink))
}

/// Makes a call with a sink, and returns the result of the call.
fn room_answer<K: PurgeSink>(heap: &mut Heap<ListStore>, call: RoomCall, sink: &mut K) -> Answer
    requires { IsIdle K.told K.waits sink.old }
    ensures { IsIdle K.told K.waits sink.new }
{
    match call {
        RoomCall::NewHandle(size) => made(heap.new_handle(size, sink)),
        RoomCall::NewEmptyHandle => made(heap.new_empty_handle(sink)),
        RoomCall::SetHandleSize(handle, size) => done(heap.set_handle_size(handle, size, sink)),
        RoomCall::ReallocateHandle(handle, size) => {
            done(heap.reallocate_handle(handle, size, sink))
        }
        RoomCall::HandToHand(handle) => made(heap.hand_to_hand(handle, sink)),
        RoomCall::PtrToHand(bytes) => made(heap.pointer_to_hand(bytes, sink)),
        RoomCall::HandAndHand(from, to) => done(heap.hand_and_hand(from, to, sink)),
        RoomCall::PtrAndHand(handle, bytes) => done(heap.pointer_and_hand(handle, bytes, sink)),
        RoomCall::NewPointer(size) => made(heap.new_pointer(size, sink)),
        RoomCall::SetPointerSize(pointer, size) => done(heap.set_pointer_size(pointer, size, sink)),
        RoomCall::PurgeMem(size) => done(heap.purge_mem(size, sink)),
        RoomCall::MaxMem => counted(heap.max_mem(sink)),
        RoomCall::ReserveMem(size) => done(heap.reserve_mem(size, sink)),
        RoomCall::MoreMasters => done(heap.more_masters(sink)),
        RoomCall::Refill(number, bytes) => refill(heap, number, bytes, sink),
    }
}

/// Returns a heap over a zone of 1024 bytes in which these calls were made.
fn heap_after(
    rt: &impl Abort,
    alloc: Global,
    first: &[Rows],
    before: Rows,
) -> Result<Heap<ListStore>, AllocError> {
    let mut heap = heap_of(alloc)?;
    for rows in first {
        assert_rows(rt, &mut heap, *rows, false);
    }
    assert_rows(rt, &mut heap, before, false);
    Ok(heap)
}

/// Asserts that these blocks were reported to a sink, in order, and that it was offered nothing
/// else that it keeps.
fn assert_reported(rt: &impl Abort, sink: &Recorder, expected: &[Block]) {
    assert!(rt; sink.is_idle());
    assert!(rt; sink.reported().len() == expected.len());
    for ((handle, bytes), block) in sink.reported().iter().zip(expected) {
        assert!(rt; *handle == block.0, "handle {handle}");
        assert!(rt; bytes.as_slice() == block.1, "handle {handle}");
    }
}

/// Asserts that the handles of these numbers have a block, and no others have one.
fn assert_left(rt: &impl Abort, heap: &Heap<ListStore>, left: &[usize]) {
    for number in 0..NUMBERS {
        let expected = left.contains(&number);
        assert!(rt; heap.has_block(number) == expected, "handle {number}");
    }
}

/// Reports whether the handle of a number has a block with the same bytes in both heaps, or has no
/// block in either.
fn is_same(heap: &Heap<ListStore>, other: &Heap<ListStore>, number: usize) -> bool {
    match (heap.bytes(number), other.bytes(number)) {
        (Some(bytes), Some(others)) => *bytes == *others,
        (None, None) => true,
        _ => false,
    }
}

/// Reports whether the block of a handle was reported to a sink.
fn is_reported(sink: &Recorder, number: usize) -> bool {
    sink.reported().iter().any(|(handle, _)| *handle == number)
}

/// Asserts that the blocks that were reported to a sink are purged, and that all others have the
/// bytes that they have in a heap in which nothing was purged.
fn assert_purged(
    rt: &impl Abort,
    heap: &Heap<ListStore>,
    unpurged: &Heap<ListStore>,
    sink: &Recorder,
) {
    for number in 0..NUMBERS {
        if is_reported(sink, number) {
            assert!(rt; !heap.has_block(number), "handle {number}");
        } else {
            assert!(rt; is_same(heap, unpurged, number), "handle {number}");
        }
    }
}

/// Asserts what a case is expected to do, with a sink that listens and with one that does not.
fn assert_case(
    rt: &impl Abort,
    alloc: Global,
    first: &[Rows],
    case: Case,
) -> Result<(), AllocError> {
    let (before, call, answer, reported, left) = case;
    let mut heap = heap_after(rt, alloc, first, before)?;
    let mut sink = Recorder::new(alloc, None);
    assert_eq!(rt; room_answer(&mut heap, call, &mut sink), answer);
    assert_reported(rt, &sink, reported);
    assert_left(rt, &heap, left);
    let mut unheard = heap_after(rt, alloc, first, before)?;
    assert_eq!(rt; room_answer(&mut unheard, call, &mut NoSink), answer);
    assert_left(rt, &unheard, left);
    Ok(())
}

/// Asserts that a call fails where the sink refuses an offer, that as many blocks are reported to
/// it as stay purged all the same and that no others are purged, and that the call does what is
/// expected of it once it is made again.
fn assert_refusal(
    rt: &impl Abort,
    alloc: Global,
    first: &[Rows],
    case: Case,
    refused: usize,
    stay: usize,
) -> Result<(), AllocError> {
    let (before, call, answer, reported, left) = case;
    let mut heap = heap_after(rt, alloc, first, before)?;
    let mut sink = Recorder::new(alloc, Some(refused));
    assert_eq!(rt; room_answer(&mut heap, call, &mut sink), Answer::HostMemory);
    assert!(rt; stay <= reported.len());
    assert_reported(rt, &sink, &reported[..stay]);
    assert_purged(rt, &heap, &heap_after(rt, alloc, first, before)?, &sink);
    assert_eq!(rt; room_answer(&mut heap, call, &mut sink), answer);
    assert_reported(rt, &sink, reported);
    assert_left(rt, &heap, left);
    Ok(())
}

/// Makes the call of a case with each of its offers refused in turn.
fn assert_refusals(
    rt: &impl Abort,
    alloc: Global,
    scene: Scene,
    case: Case,
) -> Result<(), AllocError> {
    let (_, _, _, reported, _) = case;
    for refused in 0..reported.len() {
        let stay = if refused < scene.for_masters {
            0
        } else {
            scene.for_masters
        };
        assert_refusal(rt, alloc, scene.first, case, refused, stay)?;
    }
    Ok(())
}

/// Asserts what each case of a scene is expected to do, with a sink that refuses no offer, with
/// each offer refused in turn, and with a sink that does not listen.
pub fn assert_scene(rt: &impl Abort, alloc: Global, scene: Scene) -> Result<(), AllocError> {
    for case in scene.cases {
        assert_case(rt, alloc, scene.first, *case)?;
        assert_refusals(rt, alloc, scene, *case)?;
    }
    Ok(())
}
