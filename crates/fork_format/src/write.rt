//! Writing a resource fork: the one canonical fork of a content.

ghost use Rattle.std.specs.Prelude.{◌≡◌, ◌<◌, ◌^◌, ◌++◌, map, false, ◌↔◌, IsTrue, IsSome, IfOk};
ghost use Rattle.std.specs.Prelude.{OnOk, Some};
ghost use Rattle.std.specs.List.{list_all, flat_map};
ghost use Rattle.std.specs.Int.{cast_unsigned, w16};
ghost use Rattle.byteorder.specs.Endian.{big_bytes};
ghost use Rattle.fork_format.specs.Content.{refs_of, IsRef, AreRefs, AreKinds, HaveRefs, IsContent};
ghost use Rattle.fork_format.specs.Fork.{Spells};
ghost use Rattle.fork_format.specs.Canonical.{datum, name, reference, references, types, header};
ghost use Rattle.fork_format.specs.Canonical.{lists, map_of, canon, clear, data_of, names_of};
ghost use Rattle.fork_format.specs.Canonical.{name_offset};
ghost use Rattle.fork_format.specs.Canonical as canonical;
ghost use Rattle.fork_format.specs.Extent.{is_low, is_name_low, behind, no_starts, refs_end};
ghost use Rattle.fork_format.specs.Extent.{is_short, are_short, AreExtents};
ghost use Rattle.fork_format.specs.View.{view_name, view_ref, view_group, view};

use crate::content::{Content, Group, Ref, RefName};
use crate::fault::WriteFault;
use crate::fit::{Extents, Starts, extents_of, kind_of, starts_after};
use byteorder::{BigEndian, ByteOrder};
use std::alloc::{AllocError, Global};

/// The number that stands for the offset of a name where there is no name.
const NO_NAME: u16 = 0xffff;

fn put_word(out: &mut Vec<u8>, number: u32) -> Result<(), AllocError>
    ensures { OnOk result (out.new.items ≡ out.old.items ++ big_bytes 4 number) }
{
    let mut bytes = [0; 4];
    BigEndian::write_u32(&mut bytes, number);
    out.extend_from_slice(&bytes)?;
    Ok(())
}

fn put_byte(out: &mut Vec<u8>, number: u8) -> Result<(), AllocError>
    ensures { OnOk result (out.new.items ≡ out.old.items ++ big_bytes 1 number) }
{
    out.push(number)?;
    Ok(())
}

fn put_three(out: &mut Vec<u8>, number: u32) -> Result<(), AllocError>
    requires { number < 2 ^ 24 }
    ensures { OnOk result (out.new.items ≡ out.old.items ++ big_bytes 3 number) }
{
    let mut bytes = [0; 3];
    BigEndian::write_u24(&mut bytes, number);
    out.extend_from_slice(&bytes)?;
    Ok(())
}

fn put_half(out: &mut Vec<u8>, number: u16) -> Result<(), AllocError>
    ensures { OnOk result (out.new.items ≡ out.old.items ++ big_bytes 2 number) }
{
    let mut bytes = [0; 2];
    BigEndian::write_u16(&mut bytes, number);
    out.extend_from_slice(&bytes)?;
    Ok(())
}

fn put_id(out: &mut Vec<u8>, id: i16) -> Result<(), AllocError>
    ensures { OnOk result (out.new.items ≡ out.old.items ++ big_bytes 2 (cast_unsigned w16 id)) }
{
    let mut bytes = [0; 2];
    BigEndian::write_i16(&mut bytes, id);
    out.extend_from_slice(&bytes)?;
    Ok(())
}

/// Writes the offsets and the lengths of resource data and map.
fn put_header(out: &mut Vec<u8>, extents: Extents, content: &Content<'_>) -> Result<(), AllocError>
    requires { AreExtents extents (view content.now).groups }
    ensures { OnOk result (out.new.items ≡ out.old.items ++ header (view content.now).groups) }
{
    let lists_len = extents.refs_end + extents.names_len;
    put_word(out, 256)?;
    put_word(out, (256 + extents.data_len) as u32)?;
    put_word(out, extents.data_len as u32)?;
    put_word(out, (28 + lists_len) as u32)?;
    Ok(())
}

/// Writes the stored data of resources, each with its length.
fn put_data(out: &mut Vec<u8>, refs: &[Ref<'_>]) -> Result<(), AllocError>
    requires { IsTrue (list_all is_short (map view_ref refs.now)) }
    ensures { OnOk result (out.new.items
        ≡ out.old.items ++ flat_map datum (map view_ref refs.now)) }
{
    for r in refs {
        put_word(out, r.datum.len() as u32)?;
        out.extend_from_slice(r.datum)?;
    }
    Ok(())
}

/// Writes the stored data of all types' resources.
fn put_all_data(out: &mut Vec<u8>, groups: &[Group<'_>]) -> Result<(), AllocError>
    requires { IsTrue (list_all are_short (map view_group groups.now)) }
    ensures { OnOk result (out.new.items ≡ out.old.items ++ data_of (map view_group groups.now)) }
{
    for group in groups {
        put_data(out, group.refs.as_slice())?;
    }
    Ok(())
}

/// Writes the entries of the types, whose references stand one after another.
fn put_types(out: &mut Vec<u8>, groups: &[Group<'_>], first: usize) -> Result<(), AllocError>
    requires { IsSome (refs_end first (map view_group groups.now)) }
    ensures types { OnOk result (out.new.items
        ≡ out.old.items ++ types first (map view_group groups.now)) }
    ensures kinds { OnOk result (AreKinds (map view_group groups.now)) }
{
    let mut at = first;
    for group in groups {
        put_word(out, kind_of(group.ty))?;
        put_half(out, (group.refs.len() - 1) as u16)?;
        put_half(out, at as u16)?;
        at += 12 * group.refs.len();
    }
    Ok(())
}

/// Returns the offset of a name, or the number that stands for no name.
fn name_offset_of(name: &Option<RefName<'_>>, at: usize) -> u16
    requires { IsTrue (is_name_low at (view_name name.now)) }
    ensures { result ≡ name_offset (view_name name.now) at }
{
    match name {
        Some(_) => at as u16,
        None => NO_NAME,
    }
}

/// Writes the reference of a resource whose stored data and name begin at these offsets.
fn put_reference(out: &mut Vec<u8>, r: &Ref<'_>, starts: Starts) -> Result<(), AllocError>
    requires { IsTrue (is_low starts (view_ref r.now)) }
    ensures reference { OnOk result (out.new.items ≡ out.old.items
        ++ reference starts.datum starts.name (view_ref r.now)) }
    ensures sized { OnOk result (IsRef (view_ref r.now)) }
{
    let id = r.id;
    let attrs = r.attrs.0;
    put_id(out, id)?;
    put_half(out, name_offset_of(&r.name, starts.name))?;
    put_byte(out, attrs)?;
    put_three(out, starts.datum as u32)?;
    put_word(out, 0)?;
    Ok(())
}

/// Writes the references of resources, and returns where the stored data and the name of the next
/// resource begin.
fn put_references(out: &mut Vec<u8>, refs: &[Ref<'_>], starts: Starts) -> Result<Starts, AllocError>
    requires { IsSome (behind starts (map view_ref refs.now)) }
    ensures references { OnOk result (out.new.items ≡ out.old.items
        ++ references starts.datum starts.name (map view_ref refs.now)) }
    ensures behind { IfOk result (λ s. Some s ≡ behind starts (map view_ref refs.now)) }
    ensures sized { OnOk result (AreRefs (map view_ref refs.now)) }
{
    let mut next = starts;
    for r in refs {
        put_reference(out, r, next)?;
        next = starts_after(r, next);
    }
    Ok(next)
}

/// Writes the references of all types' resources.
fn put_all_references(out: &mut Vec<u8>, groups: &[Group<'_>]) -> Result<(), AllocError>
    requires { IsSome (behind no_starts (refs_of (map view_group groups.now))) }
    ensures references { OnOk result (out.new.items ≡ out.old.items
        ++ references 0 0 (refs_of (map view_group groups.now))) }
    ensures sized { OnOk result (HaveRefs (map view_group groups.now)) }
{
    let mut starts = Starts { datum: 0, name: 0 };
    for group in groups {
        starts = put_references(out, group.refs.as_slice(), starts)?;
    }
    Ok(())
}

/// Writes the name of a resource with its length, if the resource has a name.
fn put_name(out: &mut Vec<u8>, r: &Ref<'_>) -> Result<(), AllocError>
    ensures { OnOk result (out.new.items ≡ out.old.items ++ name (view_ref r.now)) }
{
    if let Some(name) = &r.name {
        out.push(name.bytes.len() as u8)?;
        out.extend_from_slice(name.bytes)?;
    }
    Ok(())
}

/// Writes the names of resources.
fn put_names(out: &mut Vec<u8>, refs: &[Ref<'_>]) -> Result<(), AllocError>
    ensures { OnOk result (out.new.items ≡ out.old.items ++ flat_map name (map view_ref refs.now)) }
{
    for r in refs {
        put_name(out, r)?;
    }
    Ok(())
}

/// Writes the names of all types' resources.
fn put_all_names(out: &mut Vec<u8>, groups: &[Group<'_>]) -> Result<(), AllocError>
    ensures { OnOk result (out.new.items ≡ out.old.items ++ names_of (map view_group groups.now)) }
{
    for group in groups {
        put_names(out, group.refs.as_slice())?;
    }
    Ok(())
}

/// Writes the type list, the references and the names.
fn put_lists(out: &mut Vec<u8>, content: &Content<'_>) -> Result<(), AllocError>
    requires { IsTrue (canonical.fits (view content.now)) }
    ensures lists { OnOk result (out.new.items ≡ out.old.items ++ lists (view content.now).groups) }
    ensures kinds { OnOk result (AreKinds (view content.now).groups) }
    ensures sized { OnOk result (HaveRefs (view content.now).groups) }
{
    let groups = content.groups.as_slice();
    put_half(out, ((groups.len() + 65_535) % 65_536) as u16)?;
    put_types(out, groups, 2 + 8 * groups.len())?;
    put_all_references(out, groups)?;
    put_all_names(out, groups)?;
    Ok(())
}

/// Writes the resource map.
fn put_map(out: &mut Vec<u8>, extents: Extents, content: &Content<'_>) -> Result<(), AllocError>
    requires extents { AreExtents extents (view content.now).groups }
    requires fits { IsTrue (canonical.fits (view content.now)) }
    ensures map { OnOk result (out.new.items
        ≡ out.old.items ++ map_of content.now.attrs (view content.now).groups) }
    ensures attrs { OnOk result (content.now.attrs < 65536) }
    ensures kinds { OnOk result (AreKinds (view content.now).groups) }
    ensures sized { OnOk result (HaveRefs (view content.now).groups) }
{
    let attrs = content.attrs;
    put_header(out, extents, content)?;
    out.extend_from_slice(&[0; 6])?;
    put_half(out, attrs)?;
    put_half(out, 28)?;
    put_half(out, (28 + extents.refs_end) as u16)?;
    put_lists(out, content)?;
    Ok(())
}

/// Writes the canonical fork.
fn put_fork(out: &mut Vec<u8>, extents: Extents, content: &Content<'_>) -> Result<(), AllocError>
    requires extents { AreExtents extents (view content.now).groups }
    requires fits { IsTrue (canonical.fits (view content.now)) }
    ensures fork { OnOk result (out.new.items ≡ out.old.items ++ canon (view content.now)) }
    ensures content { OnOk result (IsContent (view content.now)) }
{
    put_header(out, extents, content)?;
    out.extend_from_slice(&content.area)?;
    put_all_data(out, content.groups.as_slice())?;
    put_map(out, extents, content)?;
    Ok(())
}

/// Returns the canonical fork of a content: header, area, resource data, map. The stored data, the
/// references and the names follow one another without gaps, in the order of the resources.
///
/// *More Macintosh Toolbox*, chapter 1, "Resource File Format".
pub fn write_fork(alloc: Global, content: &Content<'_>) -> Result<Vec<u8>, WriteFault>
    // The fork is the canonical one, and a reader reads the content from it again, without the bits
    // that a reader clears.
    ensures fork { IfOk result (λ fork. fork.items ≡ canon (view content.now)) }
    ensures read_again { IfOk result (λ fork. Spells fork.items (clear (view content.now))) }

    // A content is refused exactly where it does not fit.
    ensures fits { OnOk result (IsTrue (canonical.fits (view content.now))) }
    ensures too_large { (result ≡ Err WriteFault.TooLarge)
        ↔ (canonical.fits (view content.now) ≡ false) }
{
    let Some(extents) = extents_of(content) else {
        return Err(WriteFault::TooLarge);
    };
    let len = 256 + extents.data_len + 28 + extents.refs_end + extents.names_len;
    let mut out = Vec::with_capacity(alloc, len)?;
    put_fork(&mut out, extents, content)?;
    Ok(out)
}
