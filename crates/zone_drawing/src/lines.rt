//! The lines of blocks.

ghost use Rattle.std.specs.Prelude.{◌≡◌, ◌≤◌, map, IfOk};
ghost use Rattle.std.specs.BTreeMap.{get};
ghost use Rattle.std.specs.Ordering.{nat_cmp};
ghost use Rattle.block_store.specs.declared.measures.TheConstants.{GREATEST_ZONE};
ghost use Rattle.zone_drawing.specs.Line.{shape_of, logical, tag_of, lines, seen_sizes};
ghost use Rattle.zone_drawing.specs.View.{view_tag, view_line, tag_in, known_by};

use crate::line::{BlockLine, Shape, Tag};
use block_store::{Seen, size_of_seen};
use std::alloc::{AllocError, Global};
use std::collections::BTreeMap;

/// Returns what a block is.
fn shape_of(block: Seen) -> Shape
    ensures { result ≡ shape_of block }
{
    match block {
        Seen::Free(_) => Shape::Free,
        Seen::Nonrelocatable(_) => Shape::Nonrelocatable,
        Seen::Masters => Shape::Masters,
        Seen::Relocatable(_, flags, _) => Shape::Relocatable(flags),
    }
}

/// Returns the logical size of a block.
fn logical_size(block: Seen) -> u32
    ensures { result ≡ logical block }
{
    match block {
        Seen::Free(_) => 0,
        Seen::Nonrelocatable(bytes) => bytes,
        Seen::Masters => 0,
        Seen::Relocatable(_, _, bytes) => bytes,
    }
}

/// Returns what a map has of a handle or a pointer.
fn tag_in<'a>(key: u32, tags: &BTreeMap<u32, Tag<'a>>) -> Tag<'a>
    ensures { view_tag result ≡ tag_in (get nat_cmp tags.now key) }
{
    match tags.get(&key) {
        Some(tag) => *tag,
        None => Tag {
            name: None,
            owner: None,
            number: None,
        },
    }
}

/// Returns what is known of a block that begins at a place.
fn tag_of<'a>(
    place: u32,
    block: Seen,
    handles: &BTreeMap<u32, Tag<'a>>,
    pointers: &BTreeMap<u32, Tag<'a>>,
) -> Tag<'a>
    ensures { view_tag result ≡ tag_of (known_by handles.now pointers.now) place block }
{
    match block {
        Seen::Nonrelocatable(_) => tag_in(place, pointers),
        Seen::Relocatable(slot, _, _) => tag_in(slot, handles),
        Seen::Free(_) | Seen::Masters => Tag {
            name: None,
            owner: None,
            number: None,
        },
    }
}

/// Returns the lines of the blocks of a zone, lowest first. What is known of handles is given by
/// the slots of their master pointers, and what is known of pointers by the places of their blocks.
pub fn lines_of<'a>(
    alloc: Global,
    blocks: &[Seen],
    handles: &BTreeMap<u32, Tag<'a>>,
    pointers: &BTreeMap<u32, Tag<'a>>,
) -> Result<Vec<BlockLine<'a>>, AllocError>
    requires { seen_sizes blocks.now ≤ GREATEST_ZONE }
    ensures { IfOk result (λ shown. map view_line shown.items
        ≡ lines (known_by handles.now pointers.now) 0 blocks.now) }
{
    let mut shown = Vec::with_capacity(alloc, blocks.len())?;
    let mut place: u32 = 0;
    for block in blocks {
        let size = size_of_seen(*block);
        shown.push(BlockLine {
            place,
            size,
            shape: shape_of(*block),
            bytes: logical_size(*block),
            tag: tag_of(place, *block, handles, pointers),
        })?;
        place += size;
    }
    Ok(shown)
}
