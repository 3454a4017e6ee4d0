//! Calls of a heap over a list of blocks, with the values of the worked examples.

use crate::calls::{
    A, Answer, B, BARRED, BUSY, C, Call, FULL, NIL, Question, WRONG, assert_answers,
};
use mac_words::OsErr;
use std::test::Fail;

const SEARCHES: Call = Call::Ask(Question::Searches);

const MOVES: Call = Call::Ask(Question::Moves);

const FREE_OR_PURGEABLE: Call = Call::Ask(Question::FreeOrPurgeable);

#[test]
fn searches_for_room_are_counted(rt: HostRuntime) -> Result<(), Fail> {
    const ROWS: &[(Call, Answer)] = &[
        (SEARCHES, Answer::Number(0)),
        (Call::NewHandle(300), Answer::Made(0)),
        (Call::NewHandle(300), Answer::Made(1)),
        (SEARCHES, Answer::Number(2)),
        (Call::HPurge(A), Answer::Done),
        (SEARCHES, Answer::Number(2)),
        // The zone has no room, and then has room with A purged.
        (Call::NewHandle(200), Answer::Made(2)),
        (SEARCHES, Answer::Number(4)),
        // The zone has no room, and no block to purge.
        (Call::NewHandle(737), FULL),
        (SEARCHES, Answer::Number(5)),
        // A size that no block can have, and a block that becomes shorter, need no search.
        (Call::NewHandle(2147483647), FULL),
        (Call::SetHandleSize(B, 100), Answer::Done),
        (SEARCHES, Answer::Number(5)),
        // A free block is large enough already.
        (Call::CompactMem(16), Answer::Number(288)),
        (SEARCHES, Answer::Number(6)),
        // All runs are compacted; the largest is one that has blocks.
        (Call::CompactMem(5000), Answer::Number(384)),
        (SEARCHES, Answer::Number(8)),
    ];
    Ok(assert_answers(&rt, rt.alloc(), ROWS, false)?)
}

#[test]
fn blocks_that_packing_moves_down_are_counted(rt: HostRuntime) -> Result<(), Fail> {
    const ROWS: &[(Call, Answer)] = &[
        (Call::NewHandle(100), Answer::Made(0)),
        (Call::NewHandle(3), Answer::Made(1)),
        (Call::DisposeHandle(A), Answer::Done),
        (MOVES, Answer::Number(0)),
        (Call::CompactMem(700), Answer::Number(704)),
        (MOVES, Answer::Number(1)),
        (Call::CompactMem(700), Answer::Number(704)),
        (MOVES, Answer::Number(1)),
        (Call::MoveHHi(B), Answer::Done),
        (MOVES, Answer::Number(1)),
        (Call::MaxMem, Answer::Number(704)),
        (MOVES, Answer::Number(2)),
        (Call::SetHandleSize(B, 700), Answer::Done),
        (MOVES, Answer::Number(2)),
    ];
    Ok(assert_answers(&rt, rt.alloc(), ROWS, false)?)
}

#[test]
fn free_and_purgeable_bytes_are_counted(rt: HostRuntime) -> Result<(), Fail> {
    const ROWS: &[(Call, Answer)] = &[
        (FREE_OR_PURGEABLE, Answer::Number(752)),
        (Call::NewHandle(100), Answer::Made(0)),
        (Call::NewHandle(100), Answer::Made(1)),
        (FREE_OR_PURGEABLE, Answer::Number(496)),
        (Call::HPurge(A), Answer::Done),
        (FREE_OR_PURGEABLE, Answer::Number(624)),
        (Call::HPurge(B), Answer::Done),
        (Call::HLock(B), Answer::Done),
        (FREE_OR_PURGEABLE, Answer::Number(624)),
    ];
    Ok(assert_answers(&rt, rt.alloc(), ROWS, false)?)
}

#[test]
fn what_is_not_there_goes_before_what_is_busy(rt: HostRuntime) -> Result<(), Fail> {
    const ROWS: &[(Call, Answer)] = &[
        (Call::NewHandle(10), Answer::Made(0)),
        (Call::NewEmptyHandle, Answer::Made(1)),
        (Call::NewPointer(10), Answer::Made(2)),
        (Call::HLock(A), Answer::Done),
        (Call::SetBusy(0, true), Answer::Done),
        (Call::SetBusy(1, true), Answer::Done),
        (Call::SetBusy(2, true), Answer::Done),
        // The name is unbound, and the name is bound to a pointer where the call takes a handle.
        (Call::GetHandleSize(None), NIL),
        (Call::GetHandleSize(C), WRONG),
        // B is an empty handle and A is locked, but the error of a busy handle comes first.
        (Call::GetHandleSize(B), BUSY),
        (Call::EmptyHandle(A), BUSY),
        (Call::DisposeHandle(A), BUSY),
        (Call::SetBusy(0, false), Answer::Done),
        (Call::SetBusy(1, false), Answer::Done),
        (Call::GetHandleSize(B), NIL),
        (Call::EmptyHandle(A), Answer::Refused(OsErr::PURGED)),
        // A handle that was disposed of is not found, whether its number is busy or not.
        (Call::DisposeHandle(A), Answer::Done),
        (Call::SetBusy(0, true), Answer::Done),
        (Call::GetHandleSize(A), WRONG),
    ];
    Ok(assert_answers(&rt, rt.alloc(), ROWS, false)?)
}

#[test]
fn the_second_handle_is_asked_for_where_the_first_has_a_block(rt: HostRuntime) -> Result<(), Fail> {
    const ROWS: &[(Call, Answer)] = &[
        (Call::NewHandle(10), Answer::Made(0)),
        (Call::NewHandle(10), Answer::Made(1)),
        (Call::SetBusy(1, true), Answer::Done),
        (Call::HandAndHand(A, B), BUSY),
        (Call::SetBusy(0, true), Answer::Done),
        (Call::HandAndHand(A, B), BUSY),
        (Call::SetBusy(0, false), Answer::Done),
        (Call::SetBusy(1, false), Answer::Done),
        (Call::HandAndHand(A, B), Answer::Done),
        (Call::GetHandleSize(B), Answer::Number(20)),
        // The first handle is empty, and the second is not examined.
        (Call::EmptyHandle(A), Answer::Done),
        (Call::SetBusy(1, true), Answer::Done),
        (Call::HandAndHand(A, B), NIL),
    ];
    Ok(assert_answers(&rt, rt.alloc(), ROWS, false)?)
}

#[test]
fn a_guard_goes_after_busy_and_before_empty(rt: HostRuntime) -> Result<(), Fail> {
    const ROWS: &[(Call, Answer)] = &[
        (Call::NewHandle(10), Answer::Made(0)),
        (Call::NewEmptyHandle, Answer::Made(1)),
        (Call::Guard(0), Answer::Done),
        (Call::SetBusy(0, true), Answer::Done),
        (Call::SetHandleSize(A, 4), BUSY),
        (Call::SetBusy(0, false), Answer::Done),
        (Call::SetHandleSize(A, 4), BARRED),
        (Call::EmptyHandle(A), Answer::Done),
        (Call::SetHandleSize(A, 4), BARRED),
        // The second handle is examined only where the first has a block.
        (Call::HandAndHand(B, A), NIL),
    ];
    Ok(assert_answers(&rt, rt.alloc(), ROWS, false)?)
}

#[test]
fn three_numbers_are_busy_at_most(rt: HostRuntime) -> Result<(), Fail> {
    const ROWS: &[(Call, Answer)] = &[
        (Call::SetBusy(7, true), Answer::Done),
        (Call::SetBusy(7, true), Answer::Done),
        (Call::SetBusy(7, false), Answer::Done),
        (Call::IsBusy(7), Answer::Is(false)),
        (Call::SetBusy(1, true), Answer::Done),
        (Call::SetBusy(2, true), Answer::Done),
        (Call::SetBusy(3, true), Answer::Done),
        (Call::SetBusy(4, true), Answer::Done),
        (Call::IsBusy(1), Answer::Is(true)),
        (Call::IsBusy(2), Answer::Is(true)),
        (Call::IsBusy(3), Answer::Is(true)),
        (Call::IsBusy(4), Answer::Is(false)),
        // A number that is idle again makes room for another.
        (Call::SetBusy(2, false), Answer::Done),
        (Call::SetBusy(4, true), Answer::Done),
        (Call::IsBusy(1), Answer::Is(true)),
        (Call::IsBusy(3), Answer::Is(true)),
        (Call::IsBusy(4), Answer::Is(true)),
    ];
    Ok(assert_answers(&rt, rt.alloc(), ROWS, false)?)
}

/// This test is run with each allocation refused in turn.
#[test]
fn a_call_that_was_refused_memory_is_made_again(rt: HostRuntime) {
    const ROWS: &[(Call, Answer)] = &[
        (Call::NewHandle(4), Answer::Made(0)),
        // The block grows in place, becomes shorter, moves past the next block, and becomes shorter
        // again.
        (Call::SetHandleSize(A, 40), Answer::Done),
        (Call::SetHandleSize(A, 4), Answer::Done),
        (Call::NewHandle(20), Answer::Made(1)),
        (Call::SetHandleSize(A, 40), Answer::Done),
        (Call::SetHandleSize(A, 4), Answer::Done),
        (FREE_OR_PURGEABLE, Answer::Number(672)),
        (Call::HandAndHand(B, A), Answer::Done),
        (Call::GetHandleSize(A), Answer::Number(24)),
        // The run is packed upward to make room for a pointer.
        (Call::NewPointer(100), Answer::Made(2)),
        (Call::NewEmptyHandle, Answer::Made(3)),
        (Call::GetHandleSize(B), Answer::Number(20)),
    ];
    let _refused = assert_answers(&rt, rt.alloc(), ROWS, true).is_err();
}
