//! A fork, and the resource map of an open file, report that the host is out of memory.

ghost use Rattle.std.specs.Prelude.{◌≡◌, ◌≤◌};

use crate::forks::{NOTE, joined};
use arrayvec::ArrayVec;
use fork_format::{ForkFault, WriteFault, fits, read_fork, write_fork};
use mac_words::{Name, OsType};
use res_map::ResFile;
use std::alloc::{AllocError, Global};
use std::process::Abort;

/// This test is run with each allocation refused in turn.
#[test]
fn a_fork_reports_that_memory_is_full(rt: HostRuntime) {
    let alloc = rt.alloc();
    let Ok(bytes) = joined(alloc, NOTE) else {
        return;
    };
    match read_fork(alloc, &bytes) {
        Ok(content) => match write_fork(alloc, &content) {
            Ok(fork) => assert_eq!(rt; fork.as_slice(), bytes.as_slice()),
            Err(fault) => assert!(rt; fault == WriteFault::HostMemory),
        },
        Err(fault) => assert!(rt; fault == ForkFault::HostMemory),
    }
}

/// Returns the resource map of a file that has one 'TEXT' resource.
fn opened(rt: &impl Abort, alloc: Global) -> Result<ResFile, AllocError> {
    let bytes = joined(alloc, NOTE)?;
    let Ok(content) = read_fork(alloc, &bytes) else {
        return Err(AllocError);
    };
    assert!(rt; fits(&content));
    ResFile::open(alloc, &content)
}

/// Returns the number of types in the fork that an update of the resource map would write.
fn stored(rt: &impl Abort, alloc: Global, file: &ResFile) -> Result<usize, AllocError> {
    let mut fresh = Vec::new(alloc);
    for _ in 0..file.len() {
        fresh.push(None)?;
    }
    assert!(rt; fresh.len() == file.len());
    Ok(file.content(alloc, &fresh)?.groups.len())
}

/// This test is run with each allocation refused in turn.
#[test]
fn a_map_reports_that_memory_is_full(rt: HostRuntime) {
    let alloc = rt.alloc();
    let Ok(mut file) = opened(&rt, alloc) else {
        return;
    };
    let name = Name(ArrayVec::new());
    let added = file.add(alloc, OsType(*b"MENU"), 1, &name, 40).is_ok();
    let types = if added { 2 } else { 1 };
    assert_eq!(rt; file.len(), types);
    if let Ok(held) = stored(&rt, alloc, &file) {
        assert_eq!(rt; held, types);
    }
}
