//! What is known of the handles and pointers of a zone, by the slots of their master pointers and
//! by their places.

ghost use Rattle.std.specs.Prelude.{◌≡◌, ℕ, None, IfOk, OnOk};
ghost use Rattle.std.specs.BTreeMap.{get};
ghost use Rattle.std.specs.Option.{option_or};
ghost use Rattle.std.specs.Ordering.{nat_cmp};
ghost use Rattle.heap_calls.specs.Inner.Numbered.{no_number, handle_number, pointer_number};
ghost use Rattle.zone_drawing.specs.View.{tag_in};
ghost use Rattle.zone_replay.specs.Known.{entered, tag_by};

use crate::known::tag_of;
use heap_calls::Anchor;
use mac_words::Label;
use std::alloc::{AllocError, Global};
use std::collections::BTreeMap;
use zone_drawing::{Owner, Tag};

/// Enters what is known of a handle or a pointer at a slot or a place that has none yet.
fn enter_at<'a>(tags: &mut BTreeMap<u32, Tag<'a>>, key: u32, tag: Tag<'a>) -> Result<(), AllocError>
    ensures { OnOk result ((k : ℕ) → get nat_cmp tags.new k
        ≡ option_or (get nat_cmp tags.old k) (entered key tag.entry k)) }
{
    if !tags.contains_key(&key) {
        tags.insert(key, tag)?;
    }
    Ok(())
}

/// Returns what is known of handles, by the slots of their master pointers.
pub fn handles_of<'a>(
    alloc: Global,
    anchors: &[Anchor],
    names: &BTreeMap<usize, &'a Label>,
    owners: &BTreeMap<usize, Owner>,
) -> Result<BTreeMap<u32, Tag<'a>>, AllocError>
    requires names { get nat_cmp names.now no_number ≡ None }
    requires owners { get nat_cmp owners.now no_number ≡ None }
    ensures { IfOk result (λ tags. (slot : ℕ) → tag_in (get nat_cmp tags slot)
        ≡ tag_by names.now owners.now (handle_number anchors.now slot)) }
{
    let mut tags = BTreeMap::new(alloc);
    for (number, anchor) in anchors.iter().enumerate() {
        match anchor {
            Anchor::Handle { slot, guarded: _ } => {
                enter_at(&mut tags, *slot, tag_of(names, owners, number))?
            }
            Anchor::Pointer(_) | Anchor::Disposed => {}
        }
    }
    Ok(tags)
}

/// Returns what is known of pointers, by the places of their blocks.
pub fn pointers_of<'a>(
    alloc: Global,
    anchors: &[Anchor],
    names: &BTreeMap<usize, &'a Label>,
    owners: &BTreeMap<usize, Owner>,
) -> Result<BTreeMap<u32, Tag<'a>>, AllocError>
    requires names { get nat_cmp names.now no_number ≡ None }
    requires owners { get nat_cmp owners.now no_number ≡ None }
    ensures { IfOk result (λ tags. (place : ℕ) → tag_in (get nat_cmp tags place)
        ≡ tag_by names.now owners.now (pointer_number anchors.now place)) }
{
    let mut tags = BTreeMap::new(alloc);
    for (number, anchor) in anchors.iter().enumerate() {
        match anchor {
            Anchor::Pointer(place) => enter_at(&mut tags, *place, tag_of(names, owners, number))?,
            Anchor::Handle { .. } | Anchor::Disposed => {}
        }
    }
    Ok(tags)
}
