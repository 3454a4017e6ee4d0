//! What a caller writes of each library below applications: the README of the library shows the
//! same lines.

use crate::forks::{NOTE, joined};
use arrayvec::ArrayVec;
use block_store::BlockStore;
use fork_format::{Content, read_fork, write_fork};
use heap_calls::{Heap, NoSink, Refusal};
use lint::script_faults;
use list_store::ListStore;
use mac_words::{Attrs, Name, OsErr, OsType, phys};
use partitions::Grants;
use res_map::ResFile;
use script_text::{FaultKind, read_script};
use std::test::Fail;

/// Shows `mac_words`: a physical size, a result code and an attribute byte.
#[test]
fn a_block_takes_its_header_and_padding(rt: HostRuntime) {
    assert_eq!(rt; phys(100), Some(128));
    assert_eq!(rt; phys(2_147_483_617), None);
    assert_eq!(rt; OsErr::MEM_FULL.number(), -108);
    assert!(rt; Attrs(Attrs::LOCKED).changed().has(Attrs::CHANGED));
}

/// Shows `block_store`: a fresh zone of 1024 bytes, and a nonrelocatable block in it.
#[test]
fn a_block_is_carved_from_a_free_one(rt: HostRuntime) -> Result<(), Fail> {
    let mut store = ListStore::new(rt.alloc(), 1024)?;
    assert_eq!(rt; store.free_bytes(), 752);
    if let Some(place) = store.find_free(128) {
        store.carve_nonrelocatable(place, 100)?;
    }
    assert_eq!(rt; store.free_bytes(), 624);
    Ok(())
}

/// Shows `partitions`: a partition is granted and given back.
#[test]
fn a_partition_is_granted(rt: HostRuntime) -> Result<(), Fail> {
    let mut grants = Grants::new(rt.alloc(), 4096)?;
    let partition = grants.grant(1024, 512)?;
    assert_eq!(rt; (partition.at, partition.len), (0, 1024));
    grants.give_back(partition);
    assert!(rt; grants.windows().is_empty());
    Ok(())
}

/// Shows `heap_calls`: a handle is made, written, shown and disposed of.
#[test]
fn a_heap_is_opened_over_a_list(rt: HostRuntime) -> Result<(), Fail> {
    let alloc = rt.alloc();
    let mut heap = Heap::new(alloc, ListStore::new(alloc, 1024)?);
    let handle = Some(heap.new_handle(5, &mut NoSink)?);
    heap.put(handle, 0, b"Hello").map_err(Refusal::Code)?;
    assert_eq!(rt;
        heap.show(handle).map_err(Refusal::Code)?,
        b"Hello".as_slice()
    );
    heap.dispose_handle(handle).map_err(Refusal::Code)?;
    let store = heap.into_store();
    assert_eq!(rt; store.free_bytes(), 752);
    Ok(())
}

/// Shows `fork_format`: a fork with one resource is read, and written again.
#[test]
fn a_fork_is_read(rt: HostRuntime) -> Result<(), Fail> {
    let alloc = rt.alloc();
    let fork = joined(alloc, NOTE)?;
    let content = read_fork(alloc, &fork)?;
    for group in &content.groups {
        for resource in &group.refs {
            assert_eq!(rt; (resource.id, resource.datum), (129, b"Hi!".as_slice()));
        }
    }
    assert!(rt; write_fork(alloc, &content)? == fork);
    Ok(())
}

/// Shows `res_map`: a reference is added to the map of a file without resources.
#[test]
fn a_reference_is_added_to_a_map(rt: HostRuntime) -> Result<(), Fail> {
    let alloc = rt.alloc();
    let empty = Content {
        area: [0; 240],
        attrs: 0,
        groups: Vec::new(alloc),
    };
    let mut file = ResFile::open(alloc, &empty)?;
    file.add(alloc, OsType(*b"TEXT"), 128, &Name(ArrayVec::new()), 0)?;
    assert_eq!(rt; file.find(OsType(*b"TEXT"), 128), Some(0));
    assert_eq!(rt; file.find(OsType(*b"TEXT"), 129), None);
    Ok(())
}

/// Shows `script_text`: a script is read, and the first faulty line of another one is reported.
#[test]
fn a_script_is_read(rt: HostRuntime) -> Result<(), Fail> {
    let script = read_script(rt.alloc(), b"NewHandle a 100\nHLock a\n")?;
    assert_eq!(rt; script.steps().len(), 2);
    match read_script(rt.alloc(), b"NewHandle a 100\nHLock\n") {
        Ok(_) => return Err(Fail::new("no fault")),
        Err(fault) => assert_eq!(rt; (fault.line, fault.kind), (2, FaultKind::BadArgument)),
    }
    Ok(())
}

/// Shows `lint`: what is wrong with each faulty line of a script, in words.
#[test]
fn faulty_lines_are_said(rt: HostRuntime) -> Result<(), Fail> {
    let mut said = String::new(rt.alloc());
    for fault in &script_faults(rt.alloc(), b"FreeMem\nFreeMen\n")? {
        write!(said, "note.script:{fault}")?;
    }
    let wanted = "note.script:2:1: unknown call FreeMen: did you mean FreeMem?";
    assert_eq!(rt; said.as_str(), wanted);
    Ok(())
}
