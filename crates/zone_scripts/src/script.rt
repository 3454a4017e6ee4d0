//! The script of a zone.

ghost use Rattle.std.specs.Prelude.{◌≡◌, ◌++◌, OnOk, IfOk, IfErr, IsTrue};
ghost use Rattle.zone_scripts.specs.Copied.{parts_of, parts_in, fits, Refuses};
ghost use Rattle.zone_scripts.specs.Lines.{lines_of};
ghost use Rattle.zone_scripts.specs.Text as spec;
ghost use Rattle.real_zone.specs.Seen.{blocks_of};

use crate::blocks::{push_all_ending, push_all_making, push_masters};
use crate::fault::ScriptFault;
use crate::lines::{push_decimal, push_hex, put};
use crate::sizes::{more_masters_of, partition_size};
use block_store::GREATEST_ZONE;
use real_zone::{Block, Form, RealZone};
use std::alloc::{AllocError, Global};

/// Returns how many bits the addresses of a dump have.
#[tactic(auto, unfolding(crate::specs::Text::bits_phrase))]
fn bits_phrase(form: Form) -> &'static [u8]
    ensures { result.now ≡ spec.bits_phrase form }
{
    match form {
        Form::Bits24 => b" of a dump, of 24 bits,",
        Form::Bits32 => b" of a dump, of 32 bits,",
    }
}

/// Appends which zone it is.
#[tactic(auto, unfolding(crate::specs::Text::zone_phrase))]
fn push_zone(text: &mut Vec<u8>, form: Form, zone: u32) -> Result<(), AllocError>
    ensures { OnOk result (text.new.items ≡ text.old.items ++ spec.zone_phrase form zone) }
{
    put(text, b"# The zone at ")?;
    push_hex(text, zone)?;
    put(text, bits_phrase(form))?;
    Ok(())
}

/// Appends the partition that the script wants.
#[tactic(auto, unfolding(crate::specs::Text::size_phrase))]
fn push_size(text: &mut Vec<u8>, size: u128) -> Result<(), AllocError>
    ensures { OnOk result (text.new.items ≡ text.old.items ++ spec.size_phrase size) }
{
    put(text, b" made anew in a fresh partition of ")?;
    push_decimal(text, size)?;
    put(text, b" bytes.\n")
}

/// Appends the first line.
fn push_head(text: &mut Vec<u8>, form: Form, zone: u32, size: u128) -> Result<(), AllocError>
    ensures { OnOk result (text.new.items ≡ text.old.items ++ spec.head_text form zone size) }
{
    push_zone(text, form, zone)?;
    push_size(text, size)
}

/// Returns what is said of each script.
fn notes() -> &'static [u8]
    ensures { result.now ≡ spec.notes_text }
{
    b"# The blocks stand in the order of the dump, with their logical sizes, locked and purgeable\n# as there. hADDRESS is the handle of the master pointer at ADDRESS of the dump, pADDRESS a\n# pointer to the nonrelocatable block there; fADDRESS holds the place of the free block there,\n# until it is disposed of.\n# Not the same are: headers, of 16 bytes, and physical sizes, which are multiples of 16 (those of\n# free blocks are rounded up, and free neighbours are one block); the master pointers, of which\n# 64 stand in each block at the bottom (those that hold them in the dump are blocks as others);\n# addresses; what the blocks hold, which is 0; and which handles are those of resources.\n"
}

/// Appends the calls of a script.
fn push_calls(text: &mut Vec<u8>, blocks: &[Block]) -> Result<(), AllocError>
    ensures { OnOk result (text.new.items
        ≡ text.old.items ++ spec.lines_text (lines_of (parts_of blocks.now))) }
{
    push_masters(text, more_masters_of(blocks))?;
    push_all_making(text, blocks)?;
    push_all_ending(text, blocks)
}

/// Returns the text of a script for blocks.
fn text_of(
    alloc: Global,
    form: Form,
    zone: u32,
    size: u128,
    blocks: &[Block],
) -> Result<Vec<u8>, AllocError>
    ensures { IfOk result (λ text. text.items ≡ spec.head_text form zone size ++ spec.notes_text
        ++ spec.lines_text (lines_of (parts_of blocks.now))) }
{
    let mut text = Vec::new(alloc);
    push_head(&mut text, form, zone, size)?;
    put(&mut text, notes())?;
    push_calls(&mut text, blocks)?;
    Ok(text)
}

/// Returns the blocks of a zone.
fn gathered(alloc: Global, zone: &RealZone<'_>) -> Result<Vec<Block>, AllocError>
    ensures { IfOk result (λ blocks. blocks.items
        ≡ blocks_of zone.now.form zone.now.address zone.now.bytes.now) }
{
    zone.blocks().collect(alloc)
}

/// Returns a script that makes, in a fresh partition whose size it says, a zone of the same blocks
/// in the same order, with the same logical sizes, locks and purgeability, as far as the layout of
/// this program allows; what it does not allow stands in a comment.
///
/// A handle is named by the address of its master pointer in the dump, any other block by its own.
/// *Inside Macintosh: Memory*, chapter 2.
///
/// # Errors
///
/// The blocks need a partition that is larger than any can be; or the host is out of memory.
pub fn script_of(alloc: Global, zone: &RealZone<'_>) -> Result<Vec<u8>, ScriptFault>
    ensures text { IfOk result (λ text. text.items ≡ spec.script_text zone.now.form zone.now.address
        (parts_in zone.now.form zone.now.address zone.now.bytes.now)) }
    ensures fits { IfOk result (λ text.
        IsTrue (fits (parts_in zone.now.form zone.now.address zone.now.bytes.now))) }
    ensures fault { IfErr result (λ fault.
        Refuses fault (fits (parts_in zone.now.form zone.now.address zone.now.bytes.now))) }
{
    let blocks = gathered(alloc, zone)?;
    let size = partition_size(blocks.as_slice());
    if size > GREATEST_ZONE as u128 {
        return Err(ScriptFault::TooLarge);
    }
    Ok(text_of(alloc, zone.form, zone.address, size, blocks.as_slice())?)
}
