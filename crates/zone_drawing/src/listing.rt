//! A zone as it is listed.

ghost use Rattle.std.specs.Prelude.{◌≡◌, ◌++◌, OnOk, map};
ghost use Rattle.zone_drawing.specs.Listing.{blocks_text, zone_text};
ghost use Rattle.zone_drawing.specs.View.{view_line};

use crate::choice::Choice;
use crate::digits::Digits;
use crate::line::BlockLine;
use crate::style::Style;
use crate::text::{push_head, push_lines};
use crate::totals::{Largest, push_after, push_totals};
use std::alloc::{AllocError, Global};

/// How a zone is listed.
#[derive(Clone, Copy, Debug, PartialEq, Eq)]
pub struct Listing {
    pub style: Style,
    /// Those of distances and sizes.
    pub digits: Digits,
    /// The blocks that have lines.
    pub choice: Choice,
}

/// Appends the blocks of a zone that are listed, with titles.
fn push_blocks(
    alloc: Global,
    text: &mut Vec<u8>,
    listing: Listing,
    lines: &[BlockLine<'_>],
) -> Result<(), AllocError>
    ensures { OnOk result (text.new.items
        ≡ text.old.items
        ++ blocks_text listing.digits listing.choice listing.style (map view_line lines.now)) }
{
    push_head(text, listing.style)?;
    push_lines(
        alloc,
        text,
        listing.digits,
        listing.choice,
        listing.style,
        lines,
    )?;
    Ok(())
}

/// Appends a zone: its blocks that are listed, the totals of all its blocks, and the line that says
/// after which step it is shown.
pub fn write_zone(
    alloc: Global,
    text: &mut Vec<u8>,
    listing: Listing,
    lines: &[BlockLine<'_>],
    largest: Largest,
    step: &[u8],
) -> Result<(), AllocError>
    ensures { OnOk result (text.new.items
        ≡ text.old.items ++ zone_text listing (map view_line lines.now) largest step.now) }
{
    push_blocks(alloc, text, listing, lines)?;
    push_totals(text, listing.digits, listing.style, lines, largest)?;
    push_after(text, listing.style, step)?;
    Ok(())
}
