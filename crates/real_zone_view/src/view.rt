//! The text of a zone.

ghost use Rattle.std.specs.Prelude.{◌≡◌, ◌++◌, OnOk, IfOk};
ghost use Rattle.std.specs.BTreeMap.{get};
ghost use Rattle.std.specs.Ordering.{nat_cmp};
ghost use Rattle.real_zone.specs.Seen.{blocks_passed};
ghost use Rattle.real_zone_view.specs.Picture.{zone_picture};
ghost use Rattle.real_zone_view.specs.Totals.{blocks_text, zone_text};

use crate::picture::push_picture;
use crate::style::Style;
use crate::text::{push_head, push_lines};
use crate::totals::push_totals;
use real_zone::{Block, Damage, LaidZone, Resource, resources_of};
use std::alloc::{AllocError, Global};
use std::collections::BTreeMap;

/// Returns the blocks of a zone that are passed.
fn gathered(alloc: Global, zone: &LaidZone<'_>) -> Result<Vec<Block>, AllocError>
    ensures { IfOk result (λ blocks. blocks.items
        ≡ blocks_passed zone.now.form zone.now.address zone.now.bytes.now) }
{
    zone.blocks().collect(alloc)
}

/// Appends the text of blocks, where handles have these resources.
#[tactic(auto, unfolding(crate::specs::Totals::blocks_text))]
fn push_blocks(
    alloc: Global,
    text: &mut Vec<u8>,
    style: Style,
    resources: &BTreeMap<u32, Resource>,
    blocks: &[Block],
) -> Result<(), AllocError>
    ensures { OnOk result (text.new.items
        ≡ text.old.items ++ blocks_text style (get nat_cmp resources.now) blocks.now) }
{
    push_head(text, style.fields)?;
    push_lines(alloc, text, style, resources, blocks)?;
    push_totals(text, style, blocks)
}

/// Appends the blocks of a zone, if it is damaged those before the first whose physical size is
/// wrong: a line for each, in the order of their addresses, and then how many there are of each
/// class and how many bytes these have.
///
/// # Errors
///
/// That the host is out of memory.
#[tactic(auto, using(crate::proofs::Named::text_of_zone))]
pub fn push_zone(
    alloc: Global,
    text: &mut Vec<u8>,
    style: Style,
    zone: &LaidZone<'_>,
) -> Result<(), AllocError>
    ensures { OnOk result (text.new.items
        ≡ text.old.items ++ zone_text style zone.now.form zone.now.address zone.now.bytes.now) }
{
    let resources = resources_of(alloc, zone)?;
    let blocks = gathered(alloc, zone)?;
    push_blocks(alloc, text, style, &resources, blocks.as_slice())?;
    Ok(())
}

/// Appends the picture of a zone of this size, which breaks these rules.
///
/// # Errors
///
/// That the host is out of memory.
#[tactic(auto, using(crate::proofs::Named::picture_of_zone))]
pub fn push_drawn(
    alloc: Global,
    text: &mut Vec<u8>,
    zone: &LaidZone<'_>,
    size: usize,
    damages: &[Damage],
) -> Result<(), AllocError>
    ensures { OnOk result (text.new.items
        ≡ text.old.items
        ++ zone_picture zone.now.form zone.now.address size zone.now.bytes.now damages.now) }
{
    let resources = resources_of(alloc, zone)?;
    let blocks = gathered(alloc, zone)?;
    push_picture(
        alloc,
        text,
        zone.form,
        zone.address,
        size,
        &resources,
        blocks.as_slice(),
        damages,
    )?;
    Ok(())
}
