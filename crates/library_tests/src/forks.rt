//! Forks that are truncated or damaged, forks of many types, and contents of many references.

ghost use Rattle.std.specs.Prelude.{◌<◌};

use fork_format::{Content, ForkFault, Group, Ref, WriteFault, fits, read_fork, write_fork};
use mac_words::{Attrs, OsType};
use std::alloc::{AllocError, Global};
use std::process::Abort;
use std::test::Fail;

/// The bytes between a header and the data of a fork.
const AREA: &[u8] = &[0; 240];

/// A fork without resources: its header, its data area, which has no bytes, the copy of the header,
/// and the rest of the resource map.
const EMPTY: &[&[u8]] = &[
    b"\0\0\x01\0\0\0\x01\0\0\0\0\0\0\0\0\x1e",
    AREA,
    b"\0\0\x01\0\0\0\x01\0\0\0\0\0\0\0\0\x1e",
    b"\0\0\0\0\0\0\0\0\0\x1c\0\x1e\xff\xff",
];

/// A fork with the resource 'TEXT' 128, whose data is `Hi`.
const HI: &[&[u8]] = &[
    b"\0\0\x01\0\0\0\x01\x06\0\0\0\x06\0\0\0\x32",
    AREA,
    b"\0\0\0\x02Hi",
    b"\0\0\x01\0\0\0\x01\x06\0\0\0\x06\0\0\0\x32",
    b"\0\0\0\0\0\0\0\0\0\x1c\0\x32\0\0TEXT\0\0\0\x0a\0\x80\xff\xff\0\0\0\0\0\0\0\0",
];

/// A fork with the resource 'TEXT' 129, whose data is `Hi!` and whose name is `Note`.
pub const NOTE: &[&[u8]] = &[
    b"\0\0\x01\0\0\0\x01\x07\0\0\0\x07\0\0\0\x37",
    AREA,
    b"\0\0\0\x03Hi!",
    b"\0\0\x01\0\0\0\x01\x07\0\0\0\x07\0\0\0\x37",
    b"\0\0\0\0\0\0\0\0\0\x1c\0\x32\0\0TEXT\0\0\0\x0a\0\x81\0\0\0\0\0\0\0\0\0\0\x04Note",
];

const FORKS: &[&[&[u8]]] = &[EMPTY, HI, NOTE];

/// Returns the bytes of these pieces, one after another.
pub fn joined(alloc: Global, pieces: &[&[u8]]) -> Result<Vec<u8>, AllocError> {
    let mut bytes = Vec::new(alloc);
    for piece in pieces {
        bytes.extend_from_slice(*piece)?;
    }
    Ok(bytes)
}

/// Asserts that each prefix of a fork is refused.
fn refuses_prefixes(rt: &impl Abort, alloc: Global, fork: &[u8]) {
    for len in 0..fork.len() {
        let fault = if len == 0 {
            ForkFault::Empty
        } else {
            ForkFault::BadMap
        };
        assert!(rt;
            read_fork(alloc, &fork[..len]) == Err(fault),
            "of {len} bytes"
        );
    }
}

#[test]
fn each_prefix_is_refused(rt: HostRuntime) -> Result<(), Fail> {
    for pieces in FORKS {
        refuses_prefixes(&rt, rt.alloc(), &joined(rt.alloc(), *pieces)?);
    }
    Ok(())
}

/// Reads a fork, and returns the fork that is written of its content.
fn rewritten(alloc: Global, fork: &[u8]) -> Result<Vec<u8>, Fail> {
    let content = read_fork(alloc, fork)?;
    Ok(write_fork(alloc, &content)?)
}

/// Asserts that bytes are refused, or are written again as a fork that is read as the same content.
fn is_refused_or_rewritten(rt: &impl Abort, alloc: Global, bytes: &[u8]) -> Result<(), Fail> {
    match read_fork(alloc, bytes) {
        Ok(content) => {
            let fork = write_fork(alloc, &content)?;
            assert!(rt; rewritten(alloc, &fork)? == fork);
        }
        Err(fault) => assert!(rt; fault == ForkFault::BadMap),
    }
    Ok(())
}

/// Returns the bytes with `byte` in the place `at`.
fn changed(alloc: Global, bytes: &[u8], at: usize, byte: u8) -> Result<Vec<u8>, AllocError> {
    let mut all = Vec::from_slice(alloc, bytes)?;
    if let Some(place) = all.get_mut(at) {
        *place = byte;
    }
    Ok(all)
}

/// Asserts that a fork is refused or written again, whichever of its bytes is changed.
fn is_changed_anywhere(rt: &impl Abort, alloc: Global, fork: &[u8]) -> Result<(), Fail> {
    for at in 0..fork.len() {
        for byte in [0, 1, 127, 128, 255] {
            is_refused_or_rewritten(rt, alloc, &changed(alloc, fork, at, byte)?)?;
        }
    }
    Ok(())
}

#[test]
fn each_changed_byte_is_refused_or_rewritten(rt: HostRuntime) -> Result<(), Fail> {
    for pieces in FORKS {
        is_changed_anywhere(&rt, rt.alloc(), &joined(rt.alloc(), *pieces)?)?;
    }
    Ok(())
}

/// Returns a fork whose type list has 65,535 entries, which share one reference. The type of an
/// entry is its number modulo `kinds`.
fn fork_of_types(alloc: Global, kinds: u32) -> Result<Vec<u8>, AllocError>
    requires { 0 < kinds }
{
    const HEADER: &[u8] = b"\0\0\x01\0\0\0\x01\x04\0\0\0\x04\0\x08\0\x22";
    const LISTS: &[u8] = b"\0\0\0\0\0\0\0\0\0\x1c\0\0\xff\xfe";
    let mut fork = joined(alloc, &[HEADER, AREA, &[0; 4], HEADER, LISTS])?;
    for number in 0..65_535_u32 {
        fork.extend_from_slice(&(number % kinds).to_be_bytes())?;
        fork.extend_from_slice(&[0; 4])?;
    }
    fork.extend_from_slice(b"\0\0\xff\xff\0\0\0\0\0\0\0\0")?;
    Ok(fork)
}

/// Reports whether the types are 0, 1, 2 and so on.
fn are_in_order(groups: &[Group<'_>]) -> bool {
    for (number, group) in (0..u32::MAX).zip(groups) {
        if group.ty != OsType(number.to_be_bytes()) {
            return false;
        }
    }
    true
}

/// Returns the number of types that are read from a fork of `fork_of_types`, and whether the types
/// are in order.
fn types_read(alloc: Global, kinds: u32) -> Result<(usize, bool), Fail>
    requires { 0 < kinds }
{
    let fork = fork_of_types(alloc, kinds)?;
    let content = read_fork(alloc, &fork)?;
    Ok((content.groups.len(), are_in_order(&content.groups)))
}

#[test]
fn types_are_read_in_order_however_many(rt: HostRuntime) -> Result<(), Fail> {
    assert_eq!(rt; types_read(rt.alloc(), 65_535)?, (65_535, true));
    assert_eq!(rt; types_read(rt.alloc(), 2)?, (2, true));
    Ok(())
}

/// Returns a content of one type with `count` references, whose data have no bytes, and which have
/// no names.
fn content_of(alloc: Global, count: i16) -> Result<Content<'static>, AllocError> {
    let mut refs = Vec::new(alloc);
    for id in 0..count {
        refs.push(Ref {
            id,
            name: None,
            attrs: Attrs(0),
            datum: b"",
        })?;
    }
    let group = Group {
        ty: OsType(*b"TEXT"),
        refs,
    };
    Ok(Content {
        area: [0; 240],
        attrs: 0,
        groups: vec![in alloc; group]?,
    })
}

#[test]
fn one_type_has_5458_references_at_most(rt: HostRuntime) -> Result<(), Fail> {
    // The map begins past the header, the area and the data, which have a length word each; its
    // bytes 26 and 27 are the offset of the name list.
    const NAME_LIST: usize = 256 + 4 * 5_458 + 26;
    let most = content_of(rt.alloc(), 5_458)?;
    assert!(rt; fits(&most));
    let fork = write_fork(rt.alloc(), &most)?;
    assert_eq!(rt;
        fork.get(NAME_LIST..NAME_LIST + 2),
        Some(b"\xff\xfe".as_slice())
    );
    let more = content_of(rt.alloc(), 5_459)?;
    assert!(rt; !fits(&more));
    assert!(rt; write_fork(rt.alloc(), &more) == Err(WriteFault::TooLarge));
    Ok(())
}

#[test]
fn a_content_has_each_type_once(rt: HostRuntime) -> Result<(), Fail> {
    let mut twice = content_of(rt.alloc(), 1)?;
    assert!(rt; fits(&twice));
    let again = content_of(rt.alloc(), 1)?;
    for group in again.groups {
        twice.groups.push(group)?;
    }
    assert!(rt; !fits(&twice));
    assert!(rt; write_fork(rt.alloc(), &twice) == Err(WriteFault::TooLarge));
    Ok(())
}
