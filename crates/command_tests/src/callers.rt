//! What a caller writes of each library from the Resource Manager up: the README of the library
//! shows the same lines.

use crate::hosts::Memory;
use crate::jobs::sized_fork;
use applications::{Application, Unwatched, empty_content};
use arrayvec::ArrayVec;
use commands::tool;
use desk::run_script;
use heap_calls::{Heap, NoSink, Refusal};
use list_store::ListStore;
use mac_words::{FileName, OsType};
use raw_region::Region;
use res_calls::{File, Resources};
use script_text::read_script;
use segments::{JumpTable, Shown};
use std::test::Fail;

/// Shows `res_calls`: a resource of the application's own file is read into its heap.
#[test]
fn a_resource_is_read_into_a_heap(rt: HostRuntime) -> Result<(), Fail> {
    let alloc = rt.alloc();
    let sizes = b"\0\0\0\0\x02\0\0\0\x02\0";
    let own = File {
        name: FileName(ArrayVec::new()),
        fork: sized_fork(alloc, sizes)?,
        written: false,
    };
    let mut resources = Resources::new(alloc, vec![in alloc; own]?, &empty_content(alloc))?;
    let mut heap = Heap::new(alloc, ListStore::new(alloc, 1024)?);
    let found = resources.get_resource(&mut heap, OsType(*b"SIZE"), -1, &mut NoSink)?;
    assert_eq!(rt;
        heap.show(Some(found.handle)).map_err(Refusal::Code)?,
        sizes.as_slice()
    );
    Ok(())
}

/// Shows `segments`: the jump table of a 'CODE' 0 with one entry.
#[test]
fn a_jump_table_is_read(rt: HostRuntime) -> Result<(), Fail> {
    let code = b"\0\0\0\x28\0\0\0\0\0\0\0\x08\0\0\0\x20\0\0\x3f\x3c\0\x01\xa9\xf0";
    let table = JumpTable::read(rt.alloc(), Some(code))?;
    let entry = Shown {
        segment: 1,
        loaded: false,
    };
    assert_eq!(rt; table.show(0), Ok(entry));
    assert!(rt; table.show(1).is_err());
    Ok(())
}

/// Shows `applications`: an application that is a script alone runs in a partition of 1024 bytes.
#[test]
fn an_application_is_launched(rt: HostRuntime) -> Result<(), Fail> {
    let alloc = rt.alloc();
    let script = read_script(alloc, b"NewHandle a 3\nPut a 0 \"abc\"\nShow a\n")?;
    let mut application = Application::launch(alloc, ListStore::new(alloc, 1024)?)?;
    let mut lines = Vec::new(alloc);
    let exit = application.run(&script, script.steps(), &mut lines, &mut Unwatched)?;
    assert!(rt; exit.is_none());
    let wanted = b"1 NewHandle 0\n2 Put 0\n3 Show 0 $616263\n";
    assert_eq!(rt; lines.as_slice(), wanted.as_slice());
    Ok(())
}

/// Shows `desk`: a script runs in a partition that fills a region.
#[test]
fn a_script_runs_in_a_region(rt: HostRuntime) -> Result<(), Fail> {
    let alloc = rt.alloc();
    let script = read_script(alloc, b"NewHandle a 3\n")?;
    let region = Region::new(alloc, 512)?;
    let (transcript, region) = run_script(alloc, region, &script, &mut Unwatched);
    region.close();
    let wanted = b"launch 0 512\n1 NewHandle 0\nend 0\n";
    assert_eq!(rt; transcript?.as_slice(), wanted.as_slice());
    Ok(())
}

/// Shows `commands`: a command is done with a host in memory.
#[test]
fn a_command_is_done(rt: HostRuntime) -> Result<(), Fail> {
    let alloc = rt.alloc();
    let mut host = Memory {
        file: b"NewHandle a 3\n",
        prints: 1,
        printed: Vec::new(alloc),
    };
    let words = &["macmem", "script", "512", "file"];
    tool(alloc, words, &mut host, &mut Unwatched)?;
    let wanted = b"launch 0 512\n1 NewHandle 0\nend 0\n";
    assert_eq!(rt; host.printed.as_slice(), wanted.as_slice());
    Ok(())
}
