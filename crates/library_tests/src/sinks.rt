//! The blocks that calls purge for room are reported to a sink.
//!
//! A block of `n` bytes takes 16 bytes for its header, and `n` rounded up to a multiple of 16. The
//! zone of 1024 bytes begins with a master pointer block of 272 bytes, which has 64 master
//! pointers; 752 bytes are free.

use crate::calls::{A, Answer, B, C, Call, D, E, FULL};
use crate::room_calls::{Block, Case, RoomCall, Rows, Scene, assert_scene};
use std::test::Fail;

const VERMILION: Block = (0, b"vermilion");

const CHARTREUSE: Block = (1, b"chartreuse");

const TURQUOISE: Block = (2, b"turquoise");

/// The numbers of the four handles of a full zone.
const ALL: &[usize] = &[0, 1, 2, 3];

/// Fills the zone. The blocks of A, B and C take 32 bytes each, and are purgeable. A moves to the
/// top, and then B; D takes the 752 - 96 = 656 bytes between A and B, and is not purgeable. So the
/// blocks stand in the order C, A, D, B.
const FULL_ZONE: Rows = &[
    (Call::NewHandle(9), Answer::Made(0)),
    (Call::NewHandle(10), Answer::Made(1)),
    (Call::NewHandle(9), Answer::Made(2)),
    (Call::Put(A, b"vermilion"), Answer::Done),
    (Call::Put(B, b"chartreuse"), Answer::Done),
    (Call::Put(C, b"turquoise"), Answer::Done),
    (Call::MoveHHi(A), Answer::Done),
    (Call::MoveHHi(B), Answer::Done),
    (Call::NewHandle(640), Answer::Made(3)),
    (Call::HPurge(A), Answer::Done),
    (Call::HPurge(B), Answer::Done),
    (Call::HPurge(C), Answer::Done),
];

#[test]
fn the_lowest_blocks_that_serve_are_reported(rt: HostRuntime) -> Result<(), Fail> {
    const CASES: &[Case] = &[
        // 32 bytes: C alone.
        (
            &[],
            RoomCall::NewHandle(16),
            Answer::Made(4),
            &[TURQUOISE],
            &[0, 1, 3, 4],
        ),
        // 48 bytes: C and A, which make one free block of 64 bytes.
        (
            &[],
            RoomCall::NewHandle(17),
            Answer::Made(4),
            &[TURQUOISE, VERMILION],
            &[1, 3, 4],
        ),
        // A copy of 17 bytes takes as many.
        (
            &[],
            RoomCall::PtrToHand(b"ultramarine, cyan"),
            Answer::Made(4),
            &[TURQUOISE, VERMILION],
            &[1, 3, 4],
        ),
        // 96 bytes: all three, once D has moved down.
        (
            &[],
            RoomCall::NewHandle(65),
            Answer::Made(4),
            &[TURQUOISE, VERMILION, CHARTREUSE],
            &[3, 4],
        ),
        // 112 bytes are more than all three have, and no block can have 2147483647 bytes.
        (&[], RoomCall::NewHandle(81), FULL, &[], ALL),
        (&[], RoomCall::NewHandle(2147483647), FULL, &[], ALL),
        // The block of B is free, and nothing is purged.
        (
            &[(Call::DisposeHandle(B), Answer::Done)],
            RoomCall::NewHandle(16),
            Answer::Made(4),
            &[],
            &[0, 2, 3, 4],
        ),
        // A locked block is not purged.
        (
            &[(Call::HLock(C), Answer::Done)],
            RoomCall::NewHandle(16),
            Answer::Made(4),
            &[VERMILION],
            &[1, 2, 3, 4],
        ),
        // E has the place of A, and its master pointer.
        (
            &[
                (Call::DisposeHandle(A), Answer::Done),
                (Call::NewHandle(3), Answer::Made(4)),
                (Call::HPurge(E), Answer::Done),
            ],
            RoomCall::NewHandle(17),
            Answer::Made(5),
            &[TURQUOISE, (4, &[0; 3])],
            &[1, 3, 5],
        ),
        (
            &[],
            RoomCall::NewPointer(16),
            Answer::Made(4),
            &[TURQUOISE],
            &[0, 1, 3],
        ),
        (
            &[],
            RoomCall::ReserveMem(17),
            Answer::Done,
            &[TURQUOISE, VERMILION],
            &[1, 3],
        ),
    ];
    const SCENE: Scene = Scene {
        first: &[FULL_ZONE],
        cases: CASES,
        for_masters: 0,
    };
    Ok(assert_scene(&rt, rt.alloc(), SCENE)?)
}

/// Cuts D to 416 bytes, so that 240 bytes are free above it, and uses the other 60 of the 64 master
/// pointers. A block of more, of 272 bytes, then takes these 240 bytes and the 32 bytes of a block
/// that is purged for it.
const NO_MASTERS: Rows = &[
    (Call::SetHandleSize(D, 400), Answer::Done),
    (Call::NewEmptyHandles(60), Answer::Done),
];

#[test]
fn what_a_master_pointer_block_purges_is_reported(rt: HostRuntime) -> Result<(), Fail> {
    const CASES: &[Case] = &[
        // C is purged for the master pointers; then A and B, which have the 64 bytes of the new
        // block.
        (
            &[],
            RoomCall::NewHandle(33),
            Answer::Made(64),
            &[TURQUOISE, VERMILION, CHARTREUSE],
            &[3, 64],
        ),
        // A and B do not have 80 bytes: they stay, and C is purged all the same.
        (&[], RoomCall::NewHandle(49), FULL, &[TURQUOISE], &[0, 1, 3]),
        (
            &[],
            RoomCall::NewHandle(2147483647),
            FULL,
            &[TURQUOISE],
            &[0, 1, 3],
        ),
        // D has 512 bytes: the 144 free bytes and the 96 of A, B and C are less than 272.
        (
            &[(Call::SetHandleSize(D, 496), Answer::Done)],
            RoomCall::NewHandle(1),
            FULL,
            &[],
            ALL,
        ),
        (
            &[],
            RoomCall::NewEmptyHandle,
            Answer::Made(64),
            &[TURQUOISE],
            &[0, 1, 3],
        ),
        (
            &[],
            RoomCall::MoreMasters,
            Answer::Done,
            &[TURQUOISE],
            &[0, 1, 3],
        ),
        // C is the block to be copied: A is purged for the master pointers, and B for the 32 bytes
        // of the copy.
        (
            &[],
            RoomCall::HandToHand(C),
            Answer::Made(64),
            &[VERMILION, CHARTREUSE],
            &[2, 3, 64],
        ),
    ];
    const SCENE: Scene = Scene {
        first: &[FULL_ZONE, NO_MASTERS],
        cases: CASES,
        for_masters: 1,
    };
    Ok(assert_scene(&rt, rt.alloc(), SCENE)?)
}

#[test]
fn blocks_that_are_purged_for_no_block_are_reported(rt: HostRuntime) -> Result<(), Fail> {
    const CASES: &[Case] = &[
        // 48 bytes: C and A, which make one free block of 64 bytes.
        (
            &[],
            RoomCall::PurgeMem(17),
            Answer::Done,
            &[TURQUOISE, VERMILION],
            &[1, 3],
        ),
        // 96 bytes: all three have as many, but nothing moves, and B stands above D.
        (
            &[],
            RoomCall::PurgeMem(65),
            FULL,
            &[TURQUOISE, VERMILION, CHARTREUSE],
            &[3],
        ),
        (
            &[],
            RoomCall::PurgeMem(2147483647),
            FULL,
            &[TURQUOISE, VERMILION, CHARTREUSE],
            &[3],
        ),
        // A free block of 96 bytes, its header included.
        (
            &[],
            RoomCall::MaxMem,
            Answer::Number(80),
            &[TURQUOISE, VERMILION, CHARTREUSE],
            &[3],
        ),
        // The 32 bytes of C stand below A, which is locked, and those of B above it.
        (
            &[(Call::HLock(A), Answer::Done)],
            RoomCall::MaxMem,
            Answer::Number(16),
            &[TURQUOISE, CHARTREUSE],
            &[0, 3],
        ),
    ];
    const SCENE: Scene = Scene {
        first: &[FULL_ZONE],
        cases: CASES,
        for_masters: 0,
    };
    Ok(assert_scene(&rt, rt.alloc(), SCENE)?)
}

#[test]
fn the_blocks_that_a_call_names_are_not_reported(rt: HostRuntime) -> Result<(), Fail> {
    const CASES: &[Case] = &[
        // 16 bytes more: C, the lowest, grows into the place of A, the next.
        (
            &[],
            RoomCall::SetHandleSize(C, 17),
            Answer::Done,
            &[VERMILION],
            &[1, 2, 3],
        ),
        // 64 bytes more are the 64 bytes of A and B; 80 bytes more are not there without those of
        // C.
        (
            &[],
            RoomCall::SetHandleSize(C, 65),
            Answer::Done,
            &[VERMILION, CHARTREUSE],
            &[2, 3],
        ),
        (&[], RoomCall::SetHandleSize(C, 81), FULL, &[], ALL),
        // The place of A is free, and nothing is purged; nor is where C gets less.
        (
            &[(Call::DisposeHandle(A), Answer::Done)],
            RoomCall::SetHandleSize(C, 17),
            Answer::Done,
            &[],
            &[1, 2, 3],
        ),
        (&[], RoomCall::SetHandleSize(C, 1), Answer::Done, &[], ALL),
        // 48 bytes: those of C, which are free from the first, and of A.
        (
            &[],
            RoomCall::ReallocateHandle(C, 17),
            Answer::Done,
            &[VERMILION],
            &[1, 2, 3],
        ),
        // 32 bytes are those of C; 112 are more than all three have.
        (
            &[],
            RoomCall::ReallocateHandle(C, 9),
            Answer::Done,
            &[],
            ALL,
        ),
        (&[], RoomCall::ReallocateHandle(C, 81), FULL, &[], ALL),
        (
            &[],
            RoomCall::HandToHand(C),
            Answer::Made(4),
            &[VERMILION],
            &[1, 2, 3, 4],
        ),
        // 9 + 9 bytes take 48: 16 more, which neither C nor A gives.
        (
            &[],
            RoomCall::HandAndHand(A, C),
            Answer::Done,
            &[CHARTREUSE],
            &[0, 2, 3],
        ),
        // 9 + 11 bytes take 48: 16 more.
        (
            &[],
            RoomCall::PtrAndHand(C, b"ultramarine"),
            Answer::Done,
            &[VERMILION],
            &[1, 2, 3],
        ),
        // 18 bytes take 48: the 32 bytes that C had, and those of A.
        (
            &[(Call::EmptyHandle(C), Answer::Done)],
            RoomCall::Refill(2, b"ultramarine violet"),
            Answer::Done,
            &[VERMILION],
            &[1, 2, 3],
        ),
    ];
    const SCENE: Scene = Scene {
        first: &[FULL_ZONE],
        cases: CASES,
        for_masters: 0,
    };
    Ok(assert_scene(&rt, rt.alloc(), SCENE)?)
}

#[test]
fn the_run_above_a_block_that_stays_is_purged(rt: HostRuntime) -> Result<(), Fail> {
    const CASES: &[Case] = &[
        // 16 bytes more: not from C, which is the lowest, but from B above A.
        (
            &[(Call::HLock(A), Answer::Done)],
            RoomCall::SetHandleSize(A, 17),
            Answer::Done,
            &[CHARTREUSE],
            &[0, 2, 3],
        ),
        // B stands above D, which is locked and ends the run.
        (
            &[
                (Call::HLock(A), Answer::Done),
                (Call::HLock(D), Answer::Done),
            ],
            RoomCall::SetHandleSize(A, 17),
            FULL,
            &[],
            ALL,
        ),
        // The place of A above C is free, and nothing is purged.
        (
            &[
                (Call::DisposeHandle(A), Answer::Done),
                (Call::HLock(C), Answer::Done),
            ],
            RoomCall::SetHandleSize(C, 17),
            Answer::Done,
            &[],
            &[1, 2, 3],
        ),
        // E, a pointer, takes the place of C. 16 bytes more are those of A; 48 bytes more those of
        // A and B.
        (
            &[
                (Call::EmptyHandle(C), Answer::Done),
                (Call::NewPointer(16), Answer::Made(4)),
            ],
            RoomCall::SetPointerSize(E, 17),
            Answer::Done,
            &[VERMILION],
            &[1, 3],
        ),
        (
            &[
                (Call::EmptyHandle(C), Answer::Done),
                (Call::NewPointer(16), Answer::Made(4)),
            ],
            RoomCall::SetPointerSize(E, 49),
            Answer::Done,
            &[VERMILION, CHARTREUSE],
            &[3],
        ),
        (
            &[
                (Call::EmptyHandle(C), Answer::Done),
                (Call::NewPointer(16), Answer::Made(4)),
                (Call::HLock(D), Answer::Done),
            ],
            RoomCall::SetPointerSize(E, 49),
            FULL,
            &[],
            &[0, 1, 3],
        ),
    ];
    const SCENE: Scene = Scene {
        first: &[FULL_ZONE],
        cases: CASES,
        for_masters: 0,
    };
    Ok(assert_scene(&rt, rt.alloc(), SCENE)?)
}
