//! What a quit leaves for which the host is out of memory.

use crate::jobs::sized_fork;
use applications::empty_content;
use arrayvec::ArrayVec;
use heap_calls::{Heap, NoSink};
use list_store::ListStore;
use mac_words::{FileName, OsErr, OsType};
use res_calls::{File, Resources};
use std::alloc::{AllocError, Global};
use std::process::Abort;

/// The stored data of the 'SIZE' -1 of each file.
const SIZES: &[u8] = b"\0\0\0\0\x02\0\0\0\x02\0";

/// Returns a file whose fork has the 'SIZE' -1.
fn file_of(alloc: Global, name: FileName) -> Result<File, AllocError> {
    Ok(File {
        name,
        fork: sized_fork(alloc, SIZES)?,
        written: false,
    })
}

/// Changes the 'SIZE' -1 of the current file in its block.
fn change(resources: &mut Resources, heap: &mut Heap<ListStore>) -> Result<(), AllocError> {
    let found = resources.get1_resource(heap, OsType(*b"SIZE"), -1, &mut NoSink);
    let handle = Some(found.map_err(|_| AllocError)?.handle);
    let _code = heap.put(handle, 0, b"\x01").is_err();
    resources.changed_resource(handle).map_err(|_| AllocError)
}

/// Quits with two open files that were changed.
fn quit(rt: &impl Abort, alloc: Global) -> Result<(), AllocError> {
    let as_it_was = sized_fork(alloc, SIZES)?;
    let mut name = ArrayVec::new();
    let _full = name.try_push(b'b').is_err();
    let own = file_of(alloc, FileName(ArrayVec::new()))?;
    let other = file_of(alloc, FileName(name.clone()?))?;
    let files = vec![in alloc; own, other]?;
    let opened = Resources::new(alloc, files, &empty_content(alloc));
    let mut resources = opened.map_err(|_| AllocError)?;
    let mut heap = Heap::new(alloc, ListStore::new(alloc, 1024)?);
    change(&mut resources, &mut heap)?;
    let opened = resources.open_res_file(alloc, &mut heap, &FileName(name), &mut NoSink);
    let _number = opened.map_err(|_| AllocError)?;
    change(&mut resources, &mut heap)?;
    let is_stopped = resources.leave(alloc, &mut heap).is_err();
    assert!(rt; resources.res_error() == OsErr::NO_ERR);
    for file in resources.files() {
        assert!(rt; (file.fork.as_slice() == as_it_was.as_slice()) == is_stopped);
    }
    Ok(())
}

/// A quit that is stopped leaves both forks, and the code that `ResError` returns, as they were.
/// This test is run with each allocation refused in turn.
#[test]
fn a_stopped_quit_leaves_files_and_code(rt: HostRuntime) {
    let _stopped = quit(&rt, rt.alloc()).is_err();
}
