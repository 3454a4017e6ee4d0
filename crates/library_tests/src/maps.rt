//! The index by handle of the resource map of an open file.

use arrayvec::ArrayVec;
use fork_format::Content;
use mac_words::{Name, OsType};
use res_map::ResFile;
use std::test::Fail;

#[test]
fn a_handle_is_found_at_the_reference_that_still_has_it(rt: HostRuntime) -> Result<(), Fail> {
    let alloc = rt.alloc();
    let empty = Content {
        area: [0; 240],
        attrs: 0,
        groups: Vec::new(alloc),
    };
    let mut file = ResFile::open(alloc, &empty)?;
    let name = Name(ArrayVec::new());
    file.add(alloc, OsType(*b"TEXT"), 128, &name, 40)?;
    file.add(alloc, OsType(*b"TEXT"), 129, &name, 40)?;
    assert_eq!(rt; file.find_handle(40), Some(0));
    if file.len() == 2 {
        file.set_handle(0, None);
    }
    assert_eq!(rt; file.find_handle(40), Some(1));
    Ok(())
}
