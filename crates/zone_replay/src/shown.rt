//! The zone of an application as it is shown.

ghost use Rattle.std.specs.Prelude.{◌≡◌, ◌++◌, None, map, IfOk, OnOk};
ghost use Rattle.std.specs.BTreeMap.{get};
ghost use Rattle.std.specs.Ordering.{nat_cmp};
ghost use Rattle.heap_calls.specs.Inner.Numbered.{no_number};
ghost use Rattle.zone_drawing.specs.Bytes.{block_text};
ghost use Rattle.zone_drawing.specs.Totals.{largest_of};
ghost use Rattle.zone_drawing.specs.View.{view_line};
ghost use Rattle.zone_replay.specs.Known.{tag_by};
ghost use Rattle.applications.specs.Names.{bound_to};
ghost use Rattle.zone_replay.specs.Shown.{zone_lines, content_in, content_of, lines_shown};
ghost use Rattle.zone_replay.specs.Shown.{zone_shown};
ghost use Rattle.zone_replay.specs.Spelled.{spelled};

use crate::form::{BlockName, Form};
use crate::known::{names_of, owners_of};
use crate::named::{content_of, listing_of, number_of};
use crate::places::{handles_of, pointers_of};
use applications::{Application, Names};
use block_store::BlockStore;
use heap_calls::Heap;
use mac_words::Label;
use std::alloc::{AllocError, Global};
use std::collections::BTreeMap;
use zone_drawing::{
    BlockLine, Largest, Owner, Style, blocks_of, largest_of, lines_of, widest, write_bytes,
    write_svg, write_zone,
};

/// The lines of the blocks of a zone, and what could be allocated in it.
#[derive(Drop)]
pub struct Seen<'a> {
    pub lines: Vec<BlockLine<'a>>,
    pub largest: Largest,
}

/// Returns the lines of the blocks of a heap's zone, and what could be allocated in it.
pub fn seen_in<'a, S: BlockStore>(
    alloc: Global,
    heap: &Heap<S>,
    names: &BTreeMap<usize, &'a Label>,
    owners: &BTreeMap<usize, Owner>,
) -> Result<Seen<'a>, AllocError>
    requires names { get nat_cmp names.now no_number ≡ None }
    requires owners { get nat_cmp owners.now no_number ≡ None }
    ensures lines { IfOk result (λ seen. map view_line seen.lines.items
        ≡ zone_lines (tag_by names.now owners.now) heap.now.memory.heap.zone) }
    ensures largest { IfOk result (λ seen. seen.largest ≡ largest_of heap.now.memory.heap.zone) }
{
    let (store, anchors) = heap.numbered();
    let blocks = blocks_of(alloc, store)?;
    let handles = handles_of(alloc, anchors, names, owners)?;
    let pointers = pointers_of(alloc, anchors, names, owners)?;
    let lines = lines_of(alloc, blocks.as_slice(), &handles, &pointers)?;
    let largest = largest_of(store, blocks.as_slice());
    Ok(Seen { lines, largest })
}

/// Appends the bytes of the block of what a name stands for, after a step.
fn write_block<S: BlockStore>(
    alloc: Global,
    text: &mut Vec<u8>,
    name: BlockName,
    names: &Names,
    heap: &Heap<S>,
    behind: &[u8],
) -> Result<(), AllocError>
    ensures { OnOk result (text.new.items ≡ text.old.items
        ++ block_text (spelled name) (content_of (λ n. content_in heap.now.memory n)
        (bound_to (spelled name) names.now)) behind.now) }
{
    let number = number_of(alloc, names, name)?;
    let bytes = content_of(heap, number);
    write_bytes(alloc, text, name.as_bytes(), bytes, behind)
}

/// Appends a zone in a form.
fn write_in<S: BlockStore>(
    alloc: Global,
    text: &mut Vec<u8>,
    form: Form,
    names: &Names,
    heap: &Heap<S>,
    seen: &Seen<'_>,
    behind: &[u8],
) -> Result<(), AllocError>
    ensures { OnOk result (text.new.items ≡ text.old.items
        ++ lines_shown form names.now (λ n. content_in heap.now.memory n)
        (map view_line seen.now.lines.items) seen.now.largest behind.now) }
{
    let lines = seen.lines.as_slice();
    match form {
        Form::Columns(details) => {
            let style = Style::Columns(widest(lines));
            let listing = listing_of(alloc, names, details, style)?;
            write_zone(alloc, text, listing, lines, seen.largest, behind)?;
            Ok(())
        }
        Form::Tabs(details) => {
            let listing = listing_of(alloc, names, details, Style::Tabs)?;
            write_zone(alloc, text, listing, lines, seen.largest, behind)?;
            Ok(())
        }
        Form::Picture(part) => {
            write_svg(alloc, text, part, lines, behind)?;
            Ok(())
        }
        Form::Bytes(name) => {
            write_block(alloc, text, name, names, heap, behind)?;
            Ok(())
        }
    }
}

/// Returns the zone of an application as it lies, in a form, after a step of its script.
///
/// # Errors
///
/// The host is out of memory.
pub fn show_zone<S: BlockStore>(
    alloc: Global,
    application: &Application<'_, S>,
    form: Form,
    behind: &[u8],
) -> Result<Vec<u8>, AllocError>
    ensures { IfOk result (λ text. text.items ≡ zone_shown form application.now behind.now) }
{
    let bound = application.names().bound(alloc)?;
    let names = names_of(alloc, bound.as_slice())?;
    let owners = owners_of(alloc, application.resources().open_files())?;
    let seen = seen_in(alloc, application.heap(), &names, &owners)?;
    let mut text = Vec::new(alloc);
    write_in(
        alloc,
        &mut text,
        form,
        application.names(),
        application.heap(),
        &seen,
        behind,
    )?;
    Ok(text)
}
