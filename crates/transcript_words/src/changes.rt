//! What a step moved and purged.

ghost use Rattle.std.specs.Prelude.{◌≡◌, ◌++◌, ℕ, List, IfOk, OnOk, map, option_map};
ghost use Rattle.std.specs.BTreeMap.{get};
ghost use Rattle.std.specs.Ordering.{nat_cmp};
ghost use Rattle.std.specs.List.{flat_map};
ghost use Rattle.zone_drawing.specs.View.{view_line};
ghost use Rattle.transcript_words.specs.Changes.{Placed as placed_block, placed_at, placed};
ghost use Rattle.transcript_words.specs.Changes.{place_of, is_handle, name_words, moved_words};
ghost use Rattle.transcript_words.specs.Changes.{purged_words, change_words, change_by, changes};
ghost use Rattle.transcript_words.specs.View.{view_placed, view_standing};

use itoa::Buffer;
use mac_words::Label;
use std::alloc::{AllocError, Global};
use std::collections::BTreeMap;
use zone_drawing::BlockLine;

/// The block of a handle or a pointer at a moment.
#[derive(Drop)]
pub struct Placed {
    /// The number of the handle or pointer, by which its block is known again at another moment.
    pub number: usize,
    /// The distance in bytes from the bottom of the zone.
    pub place: u32,
    /// The script's name for the handle or pointer, if it has one.
    pub name: Option<Label>,
}

/// A zone at a moment.
#[derive(Drop)]
pub struct Standing {
    /// The blocks of handles and pointers, the lowest first.
    pub blocks: Vec<Placed>,
    /// Of each number that was given, whether it is that of a handle that was not disposed of.
    pub handles: Vec<bool>,
}

/// Returns the script's name for the handle or pointer of a block, if it has one.
fn name_at(line: &BlockLine<'_>) -> Result<Option<Label>, AllocError>
    ensures { IfOk result (λ name. option_map (λ n. n.0.items) name
        ≡ (view_line line.now).tag.name) }
{
    match line.tag.name {
        Some(name) => Ok(Some(name.clone()?)),
        None => Ok(None),
    }
}

/// Adds a block, if it is that of a handle or a pointer.
fn push_placed(blocks: &mut Vec<Placed>, line: &BlockLine<'_>) -> Result<(), AllocError>
    ensures { OnOk result ((later : List placed_block)
        → map view_placed blocks.new.items ++ later
        ≡ map view_placed blocks.old.items
        ++ placed_at (view_line line.now) (view_line line.now).tag.number later) }
{
    let Some(number) = line.tag.number else {
        return Ok(());
    };
    let name = name_at(line)?;
    blocks.push(Placed {
        number,
        place: line.place,
        name,
    })?;
    Ok(())
}

/// Returns the blocks of handles and pointers among those of a zone.
pub fn placed_in(alloc: Global, lines: &[BlockLine<'_>]) -> Result<Vec<Placed>, AllocError>
    ensures { IfOk result (λ blocks. map view_placed blocks.items
        ≡ placed (map view_line lines.now)) }
{
    let mut blocks = Vec::new(alloc);
    for line in lines {
        push_placed(&mut blocks, line)?;
    }
    Ok(blocks)
}

/// Returns where the blocks of handles and pointers begin, by their numbers.
fn places_of(alloc: Global, blocks: &[Placed]) -> Result<BTreeMap<usize, u32>, AllocError>
    ensures { IfOk result (λ places. (number : ℕ)
        → get nat_cmp places number ≡ place_of (map view_placed blocks.now) number) }
{
    let mut places = BTreeMap::new(alloc);
    for index in (0..blocks.len()).rev() {
        places.insert(blocks[index].number, blocks[index].place)?;
    }
    Ok(places)
}

/// Reports whether a number is that of a handle.
fn is_handle(handles: &[bool], number: usize) -> bool
    ensures { result ≡ is_handle handles.now number }
{
    match handles.get(number) {
        Some(handle) => *handle,
        None => false,
    }
}

/// Appends a name, or a - for none.
fn push_name(text: &mut Vec<u8>, name: &Option<Label>) -> Result<(), AllocError>
    ensures { OnOk result (text.new.items
        ≡ text.old.items ++ name_words (option_map (λ n. n.0.items) name.now)) }
{
    match name {
        Some(name) => text.extend_from_slice(name.0.as_slice()),
        None => text.extend_from_slice(b"-"),
    }
}

/// Appends that a block moved.
fn push_moved(text: &mut Vec<u8>, block: &Placed, place: u32) -> Result<(), AllocError>
    ensures { OnOk result (text.new.items
        ≡ text.old.items ++ moved_words (view_placed block.now) place) }
{
    text.extend_from_slice(b"; moved ")?;
    push_name(text, &block.name)?;
    text.extend_from_slice(b" ")?;
    text.extend_from_slice(Buffer::new().format(block.place).as_bytes())?;
    text.extend_from_slice(b" -> ")?;
    text.extend_from_slice(Buffer::new().format(place).as_bytes())
}

/// Appends that a block was purged.
fn push_purged(text: &mut Vec<u8>, block: &Placed) -> Result<(), AllocError>
    ensures { OnOk result (text.new.items
        ≡ text.old.items ++ purged_words (view_placed block.now)) }
{
    text.extend_from_slice(b"; purged ")?;
    push_name(text, &block.name)
}

/// Appends what became of a block, by where it begins now, and by whether its number is that of a
/// handle.
fn push_change(
    text: &mut Vec<u8>,
    block: &Placed,
    place: Option<u32>,
    handle: bool,
) -> Result<(), AllocError>
    ensures { OnOk result (text.new.items
        ≡ text.old.items ++ change_words (view_placed block.now) place handle) }
{
    match place {
        Some(place) if place == block.place => Ok(()),
        Some(place) => push_moved(text, block, place),
        None if handle => push_purged(text, block),
        None => Ok(()),
    }
}

/// Appends what became of blocks, by where blocks begin now, and by which numbers are those of
/// handles.
fn push_changes(
    text: &mut Vec<u8>,
    blocks: &[Placed],
    places: &BTreeMap<usize, u32>,
    handles: &[bool],
) -> Result<(), AllocError>
    ensures { OnOk result (text.new.items ≡ text.old.items
        ++ flat_map (change_by (get nat_cmp places.now) handles.now) (map view_placed blocks.now)) }
{
    for block in blocks {
        push_change(
            text,
            block,
            places.get(&block.number).copied(),
            is_handle(handles, block.number),
        )?;
    }
    Ok(())
}

/// Appends what became of the blocks of handles and pointers from one moment to the next: each that
/// begins at another place, and each that was purged, the lowest first.
#[tactic(auto, using(crate::proofs::Moving::same_changes))]
pub fn write_changes(
    alloc: Global,
    text: &mut Vec<u8>,
    before: &Standing,
    after: &Standing,
) -> Result<(), AllocError>
    ensures { OnOk result (text.new.items
        ≡ text.old.items ++ changes (view_standing before.now) (view_standing after.now)) }
{
    let places = places_of(alloc, after.blocks.as_slice())?;
    push_changes(
        text,
        before.blocks.as_slice(),
        &places,
        after.handles.as_slice(),
    )
}
