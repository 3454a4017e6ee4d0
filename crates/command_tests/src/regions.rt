//! The bytes that a script and a job leave in the region in which they run.

use crate::jobs::{add, empty_job};
use crate::zones::{image_of, read_zone, used_region};
use applications::Unwatched;
use desk::{Job, run, run_script};
use script_text::{Act, Event, read_script};
use std::alloc::Global;
use std::process::Abort;
use std::test::Fail;

/// Asserts that these bytes stand at these places.
fn lies_there(rt: &impl Abort, image: &[u8], laid: &[(usize, &[u8])]) -> Result<(), Fail> {
    for (place, expected) in laid {
        let end = place.wrapping_add(expected.len());
        match image.get(*place..end) {
            Some(found) => assert_eq!(rt; found, *expected),
            None => return Err(Fail::new("a place past the region")),
        }
    }
    Ok(())
}

#[test]
fn a_script_leaves_its_zone_in_the_region(rt: HostRuntime) -> Result<(), Fail> {
    const LAID: &[(usize, &[u8])] = &[
        (0, b"\0\0\x01\x12\0\0\x01\0\0\0\0\0\0\0\0\0"),
        (16, b"\0\0\x01\x10\0\0\x01\x81\0\0\x01\xc1"),
        (272, b"\0\0\0\x23\0\0\0\x03\0\0\0\x10\0\0\0\0"),
        (288, b"abc"),
        (304, b"\0\0\0\xd0"),
    ];
    let alloc = rt.alloc();
    let Ok(script) = read_script(alloc, b"NewHandle a 3\nPut a 0 \"abc\"\n") else {
        return Err(Fail::new("a faulty script"));
    };
    let region = used_region(alloc, 512)?;
    let (transcript, region) = run_script(alloc, region, &script, &mut Unwatched);
    let image = image_of(alloc, region)?;
    lies_there(&rt, &image, LAID)?;
    assert_eq!(rt; read_zone(&rt, &image)?, 208);
    assert_eq!(rt;
        transcript?.as_slice(),
        b"launch 0 512\n1 NewHandle 0\n2 Put 0\nend 0\n".as_slice()
    );
    Ok(())
}

/// The sizes of the smallest partition: 512 and 512 bytes.
const LEAST: &[u8] = b"\0\0\0\0\x02\0\0\0\x02\0";

/// The script of an application with one block.
const ONE: &[u8] = b"NewHandle a 3\nPut a 0 \"abc\"\nWaitNextEvent\n";

/// The script of an application with a nonrelocatable block, a locked block, an empty handle, and
/// an empty handle of a resource.
const TWO: &[u8] = b"NewPtr p 4
PutPtr p 0 \"Hi\"
NewHandle b 16
HLock b
NewHandle c 0
EmptyHandle c
NewHandle d 1
AddResource d 'TEXT' 1 \"\"
EmptyHandle d
WaitNextEvent
";

/// Returns a job of both applications, which still run after its last event.
fn two_apps(alloc: Global) -> Result<Job, Fail> {
    const EVENTS: &[Event] = &[
        Event::Launch(0),
        Event::Launch(1),
        Event::Act(0, Act::Turn),
        Event::Act(1, Act::Turn),
    ];
    let mut job = empty_job(alloc, 1040, EVENTS)?;
    add(alloc, &mut job, b"one", LEAST, ONE)?;
    add(alloc, &mut job, b"two", LEAST, TWO)?;
    Ok(job)
}

#[test]
fn applications_that_run_have_their_zones_in_the_region(rt: HostRuntime) -> Result<(), Fail> {
    // The pieces stand in the first partition, in the second partition, and past both.
    const LAID: &[(usize, &[u8])] = &[
        (0, b"\0\0\x01\x12\0\0\x01\0\0\0\0\0\0\0\0\0"),
        (16, b"\0\0\x01\x10\0\0\x01\x81\0\0\x01\xc1"),
        (272, b"\0\0\0\x23\0\0\0\x03\0\0\0\x10\0\0\0\0"),
        (288, b"abc"),
        (304, b"\0\0\0\xd0"),
        (512, b"\0\0\x01\x12\0\0\x01\0\0\0\0\0\0\0\0\0"),
        (528, b"\0\0\x01\x30\0\0\0\x02\0\0\0\x12\0\0\x02\x01"),
        (780, b"\0\0\0\x01"),
        (784, b"\0\0\0\x21\0\0\0\x04\0\0\0\0\0\0\0\0"),
        (800, b"Hi"),
        (816, b"\0\0\0\x23\0\0\0\x10\0\0\0\x10\0\0\0\x80"),
        (848, b"\0\0\0\xb0"),
        (1024, &[0xa5; 16]),
    ];
    let alloc = rt.alloc();
    let job = two_apps(alloc)?;
    if job.memory != 1040 || 64 < job.apps.len() {
        return Err(Fail::new("no job"));
    }
    let region = used_region(alloc, 1040)?;
    let (outcome, region) = run(alloc, region, &job, &mut Unwatched);
    lies_there(&rt, &image_of(alloc, region)?, LAID)?;
    assert!(rt; outcome.is_ok());
    Ok(())
}
