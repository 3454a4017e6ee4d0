//! The calls for the blocks of a zone.

ghost use Rattle.std.specs.Prelude.{◌≡◌, ◌++◌, OnOk, replicate};
ghost use Rattle.std.specs.List.{flat_map};
ghost use Rattle.zone_scripts.specs.Copied.{part_of, parts_of};
ghost use Rattle.zone_scripts.specs.Lines as spec;
ghost use Rattle.zone_scripts.specs.Lines.{named, MoreMasters};
ghost use Rattle.zone_scripts.specs.Parts.{Relocated};
ghost use Rattle.zone_scripts.specs.Text.{lines_text};

use crate::lines::{Name, push_named, push_sized, put};
use crate::sizes::gap_size_of;
use real_zone::{Block, Kind, Master};
use std::alloc::AllocError;

/// Returns the name of a handle.
fn handle_name(master: Master) -> Name
    ensures { result ≡ record { letter = 104; address = master.address } }
{
    Name {
        letter: b'h',
        address: master.address,
    }
}

/// Returns the name of a block, which begins with a letter.
fn block_name(letter: u8, block: &Block) -> Name
    ensures { result ≡ record { letter = letter; address = block.now.address } }
{
    Name {
        letter,
        address: block.address,
    }
}

/// Appends the call that makes a block purgeable, if it is purgeable.
fn push_purging(text: &mut Vec<u8>, master: Master) -> Result<(), AllocError>
    ensures { OnOk result (text.new.items
        ≡ text.old.items ++ lines_text (spec.purging (named 104 master.address)
        (record { locked = master.is_locked; purgeable = master.is_purgeable }))) }
{
    if master.is_purgeable {
        push_named(text, b"HPurge", handle_name(master))
    } else {
        Ok(())
    }
}

/// Appends the call that unlocks a block, if it is not locked.
fn push_unlocking(text: &mut Vec<u8>, master: Master) -> Result<(), AllocError>
    ensures { OnOk result (text.new.items
        ≡ text.old.items ++ lines_text (spec.unlocking (named 104 master.address)
        (record { locked = master.is_locked; purgeable = master.is_purgeable }))) }
{
    if master.is_locked {
        Ok(())
    } else {
        push_named(text, b"HUnlock", handle_name(master))
    }
}

/// Appends the calls that make the block of a handle.
fn push_handle(text: &mut Vec<u8>, master: Master, size: u32) -> Result<(), AllocError>
    ensures { OnOk result (text.new.items
        ≡ text.old.items ++ lines_text (spec.making (Relocated master.address
        (record { locked = master.is_locked; purgeable = master.is_purgeable }) size))) }
{
    push_sized(text, b"NewHandle", handle_name(master), size)?;
    push_named(text, b"HLock", handle_name(master))?;
    push_purging(text, master)
}

/// Appends the calls that make a block.
fn push_making(text: &mut Vec<u8>, block: &Block) -> Result<(), AllocError>
    ensures { OnOk result (text.new.items
        ≡ text.old.items ++ lines_text (spec.making (part_of block.now))) }
{
    match block.kind {
        Kind::Relocatable(master) => push_handle(text, master, block.logical_size),
        Kind::Free => push_sized(text, b"NewPtr", block_name(b'f', block), gap_size_of(block)),
        Kind::Nonrelocatable => {
            push_sized(text, b"NewPtr", block_name(b'p', block), block.logical_size)
        }
        Kind::Unknown => push_sized(text, b"NewPtr", block_name(b'p', block), block.logical_size),
    }
}

/// Appends the calls that end the making of a block.
fn push_ending(text: &mut Vec<u8>, block: &Block) -> Result<(), AllocError>
    ensures { OnOk result (text.new.items
        ≡ text.old.items ++ lines_text (spec.ending (part_of block.now))) }
{
    match block.kind {
        Kind::Relocatable(master) => push_unlocking(text, master),
        Kind::Free => push_named(text, b"DisposePtr", block_name(b'f', block)),
        Kind::Nonrelocatable => Ok(()),
        Kind::Unknown => Ok(()),
    }
}

/// Appends the calls that make master pointer blocks.
pub fn push_masters(text: &mut Vec<u8>, count: usize) -> Result<(), AllocError>
    ensures { OnOk result (text.new.items
        ≡ text.old.items ++ lines_text (replicate count MoreMasters)) }
{
    for _masters in 0..count {
        put(text, b"MoreMasters\n")?;
    }
    Ok(())
}

/// Appends the calls that make the blocks.
pub fn push_all_making(text: &mut Vec<u8>, blocks: &[Block]) -> Result<(), AllocError>
    ensures { OnOk result (text.new.items
        ≡ text.old.items ++ lines_text (flat_map spec.making (parts_of blocks.now))) }
{
    for block in blocks {
        push_making(text, block)?;
    }
    Ok(())
}

/// Appends the calls that end the making of the blocks.
pub fn push_all_ending(text: &mut Vec<u8>, blocks: &[Block]) -> Result<(), AllocError>
    ensures { OnOk result (text.new.items
        ≡ text.old.items ++ lines_text (flat_map spec.ending (parts_of blocks.now))) }
{
    for block in blocks {
        push_ending(text, block)?;
    }
    Ok(())
}
