//! What a file is in which a resource fork stands, and what the fork holds, in lines.

ghost use Rattle.std.specs.Prelude.{◌≡◌, ◌++◌, OnOk, IfOk, IfErr, map, true, Ok};
ghost use Rattle.std.specs.List.{flat_map};
ghost use Rattle.fork_edits.specs.View.{view_row};
ghost use Rattle.fork_commands.specs.Faults.{Stops};
ghost use Rattle.fork_commands.specs.Info.{info_text};
ghost use Rattle.fork_commands.specs.States.{state_words};
ghost use Rattle.macmem_c.specs.Described.{listing, listed_line};
ghost use Rattle.macmem_c.specs.Handed.{HandsOver, Writes};

use crate::delivering::{give, hand_over};
use crate::faults::Fault;
use fork_commands::{WorkFault, append_state, content_in, info_text, open_file};
use fork_edits::{append_compressed, append_row, rows_of};
use mac_roman::Charset;
use std::alloc::{AllocError, Global};

/// Returns what is known of the file, a line for each.
fn info_of(alloc: Global, file: &[u8]) -> Result<Vec<u8>, WorkFault>
    ensures made { IfOk result (λ out. info_text file.now ≡ Ok out.items) }
    ensures fault { IfErr result (λ fault. Stops fault (info_text file.now)) }
{
    let open = open_file(alloc, file)?;
    Ok(info_text(alloc, &open)?)
}

/// Returns the state of the fork in the bytes of a file, and why.
fn state_of(alloc: Global, file: &[u8]) -> Result<Vec<u8>, AllocError>
    ensures { IfOk result (λ out. out.items ≡ state_words true file.now) }
{
    let mut text = Vec::new(alloc);
    append_state(alloc, &mut text, true, file)?;
    Ok(text)
}

/// Appends the line of a resource.
fn add_line(text: &mut Vec<u8>, row: &fork_edits::Row<'_>) -> Result<(), AllocError>
    ensures { OnOk result (text.new.items ≡ text.old.items ++ listed_line (view_row row.now)) }
{
    append_row(text, Charset::Utf8, row)?;
    append_compressed(text, row.resource.attrs)?;
    text.push(b'\n')?;
    Ok(())
}

/// Returns the lines of resources.
fn lines_of(alloc: Global, rows: &[fork_edits::Row<'_>]) -> Result<Vec<u8>, AllocError>
    ensures { IfOk result (λ out. out.items ≡ flat_map listed_line (map view_row rows.now)) }
{
    let mut text = Vec::new(alloc);
    for row in rows {
        add_line(&mut text, row)?;
    }
    Ok(text)
}

/// Returns the lines of the resources of the fork in the bytes of a file.
fn listing_of(alloc: Global, file: &[u8]) -> Result<Vec<u8>, WorkFault>
    ensures made { IfOk result (λ out. listing file.now ≡ Ok out.items) }
    ensures fault { IfErr result (λ fault. Stops fault (listing file.now)) }
{
    let open = open_file(alloc, file)?;
    let content = content_in(alloc, &open)?;
    let rows = rows_of(alloc, &content)?;
    Ok(lines_of(alloc, rows.as_slice())?)
}

/// Says what a file is, in ASCII, a line for each: the wrapper, and what it says of the file's
/// name, type, creator, flags, dates and lengths.
#[unsafe(no_mangle)]
pub extern "C" fn macmem_fork_info(
    alloc: Global,
    file: &[u8],
    out: &mut [u8],
    len: &mut usize,
    fault: &mut Fault,
) -> i32
    ensures { HandsOver (info_text file.now)
        out.old len.old fault.old out.new len.new fault.new result }
{
    hand_over(info_of(alloc, file), out, len, fault)
}

/// Says in words whether a file has a fork, whether it is in canonical form, and why not. No file
/// is at fault.
#[unsafe(no_mangle)]
pub extern "C" fn macmem_fork_check(
    alloc: Global,
    file: &[u8],
    out: &mut [u8],
    len: &mut usize,
) -> i32
    ensures { Writes (λ text. text ≡ state_words true file.now)
        out.old len.old out.new len.new result }
{
    give(state_of(alloc, file), out, len)
}

/// Lists the resources of a fork, in UTF-8: for each a line with its type, ID, attributes, length
/// in bytes and name.
#[unsafe(no_mangle)]
pub extern "C" fn macmem_fork_listing(
    alloc: Global,
    file: &[u8],
    out: &mut [u8],
    len: &mut usize,
    fault: &mut Fault,
) -> i32
    ensures { HandsOver (listing file.now)
        out.old len.old fault.old out.new len.new fault.new result }
{
    hand_over(listing_of(alloc, file), out, len, fault)
}
