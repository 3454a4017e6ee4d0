//! Finding references in the open files, and changing references in their places.
//!
//! *More Macintosh Toolbox*, chapter 1, "The Resource File Search Path".

ghost use Rattle.std.specs.Prelude.{◌≡◌, ◌<◌, ◌≤◌, map, length, option_map, is_some, true, Some};
ghost use Rattle.std.specs.Prelude.{IfSome, if◌then◌else◌, None, OnOk, OnErr, slice_get, slice_set};
ghost use Rattle.std.specs.Prelude.{remove};
ghost use Rattle.mac_words.specs.Attributes.{has_bit};
ghost use Rattle.res_map.specs.Split.{split, place, replaced, removed};
ghost use Rattle.res_map.specs.Map.{with_handle, with_attrs, with_datum, stored_anew, renamed};
ghost use Rattle.memory_windows.specs.Writes.{written};
ghost use Rattle.res_map.specs.Map.{resized_datum};
ghost use Rattle.res_map.specs.View.{view_lent};
ghost use Rattle.res_calls.specs.Files.{Found, find, with_reference};
ghost use Rattle.res_calls.specs.Rows.{resource_of};
ghost use Rattle.res_calls.specs.Places.{found_at, found_from, spot_of, is_searched, is_wanted};
ghost use Rattle.res_calls.specs.View.{view_open};
ghost use Rattle.res_calls.specs.Changing.{touched_files};
ghost use Rattle.res_calls.specs.Partial.{restored_files};

use crate::chain::is_open_at;
use crate::files::{OWN_PLACE, OpenFile, Resources};
use mac_words::{Attrs, Name, OsType};
use res_map::{LentReference, ResFile};
use std::alloc::{AllocError, Global};

/// The place of a reference.
#[derive(Clone, Copy)]
pub(crate) struct Spot {
    /// The index of the reference's file among the open files, counted from the file opened last.
    pub(crate) file: usize,
    /// The index of the reference in its file's resource map.
    pub(crate) reference: usize,
}

/// The open files that a search passes through.
#[derive(Clone, Copy)]
pub(crate) enum Within {
    /// The files with this number or a lower number: the file with this number, and the files
    /// opened before it.
    UpTo(u32),
    /// The file with this number.
    Only(u32),
    /// All open files.
    Each,
    /// The application's own file.
    Own,
}

/// The resource that a search looks for.
#[derive(Clone, Copy)]
pub(crate) enum Wanted<'a> {
    /// The resource of this type and ID.
    Id(OsType, i16),
    /// The resource of this type and name.
    Named(OsType, &'a [u8]),
    /// The resource whose handle has this number.
    Handle(usize),
}

/// Reports whether a search passes through a file.
fn is_searched_file(within: Within, file: &OpenFile) -> bool
    ensures { is_searched within (view_open file.now) ≡ result }
{
    match within {
        Within::UpTo(most) => file.number <= most,
        Within::Only(one) => file.number == one,
        Within::Each => true,
        Within::Own => is_open_at(file, OWN_PLACE),
    }
}

/// Returns the index of the first reference of a resource map that is `wanted`.
fn find_in_map(map: &ResFile, wanted: Wanted<'_>) -> Option<usize>
    ensures { result ≡ option_map place (split (is_wanted wanted.entry) map.now.references) }
{
    match wanted {
        Wanted::Id(ty, id) => map.find(ty, id),
        Wanted::Named(ty, name) => map.find_named(ty, name),
        Wanted::Handle(handle) => map.find_handle(handle),
    }
}

/// Returns the index of the first reference of a file that is `wanted`, where the search passes
/// through the file.
fn find_in_file(file: &OpenFile, within: Within, wanted: Wanted<'_>) -> Option<usize>
    ensures { result ≡ option_map place (if is_searched within (view_open file.now)
        then split (is_wanted wanted.entry) file.now.map.references else None) }
{
    if is_searched_file(within, file) {
        find_in_map(&file.map, wanted)
    } else {
        None
    }
}

/// Returns the place of the first reference that is `wanted`, in the first file within `within`
/// that has such a reference.
#[tactic(auto, using(crate::proofs::Finding::spot_start, crate::proofs::Finding::found_here, crate::proofs::Finding::found_on))]
pub(crate) fn find_spot(files: &[OpenFile], within: Within, wanted: Wanted<'_>) -> Option<Spot>
    ensures { result ≡ option_map spot_of
        (find (is_searched within) (is_wanted wanted.entry) (map view_open files.now)) }
{
    for i in 0..files.len() {
        if let Some(reference) = find_in_file(&files[i], within, wanted) {
            return Some(Spot { file: i, reference });
        }
    }
    None
}

/// Returns the reference at `at`.
#[tactic(auto, using(crate::proofs::Standing::inside_files, crate::proofs::Standing::inside_map, crate::proofs::Standing::entry_here))]
pub(crate) fn entry_at<'a>(files: &'a [OpenFile], at: Spot) -> LentReference<'a>
    requires { is_some (found_at at (map view_open files.now)) ≡ true }
    ensures { option_map (λ (f : Found). f.reference.here) (found_at at (map view_open files.now))
        ≡ Some (view_lent result) }
{
    files[at.file].map.reference(at.reference)
}

/// Returns the number of the file of the reference at `at`.
#[tactic(auto, using(crate::proofs::Standing::inside_files, crate::proofs::Standing::number_here))]
pub(crate) fn number_at(files: &[OpenFile], at: Spot) -> u32
    requires { is_some (found_at at (map view_open files.now)) ≡ true }
    ensures { option_map (λ (f : Found). f.file.here.number) (found_at at (map view_open files.now))
        ≡ Some result }
{
    files[at.file].number
}

/// Reports whether the attributes of the reference at `at` have the bit whose value is `bit`.
pub(crate) fn has_bit_at(files: &[OpenFile], at: Spot, bit: u8) -> bool
    requires { is_some (found_at at (map view_open files.now)) ≡ true }
    ensures { option_map (λ (f : Found). has_bit bit f.reference.here.stored.attrs)
        (found_at at (map view_open files.now)) ≡ Some result }
{
    entry_at(files, at).stored.attrs.has(bit)
}

/// Sets or removes the handle of the reference at `at`.
#[tactic(auto, using(crate::proofs::Standing::inside_files, crate::proofs::Standing::inside_map))]
pub(crate) fn set_handle(files: &mut Vec<OpenFile>, at: Spot, handle: Option<usize>)
    requires { is_some (found_at at (map view_open files.old.items)) ≡ true }
    ensures { option_map (λ (f : Found). with_reference (with_handle handle f.reference.here) f)
        (found_at at (map view_open files.old.items)) ≡ Some (map view_open files.new.items) }
{
    files[at.file].map.set_handle(at.reference, handle);
}

/// Sets the attributes of the reference at `at`.
#[tactic(auto, using(crate::proofs::Standing::inside_files, crate::proofs::Standing::inside_map))]
pub(crate) fn set_attrs(files: &mut Vec<OpenFile>, at: Spot, attrs: Attrs)
    requires { is_some (found_at at (map view_open files.old.items)) ≡ true }
    ensures { option_map (λ (f : Found). with_reference (with_attrs attrs.0 f.reference.here) f)
        (found_at at (map view_open files.old.items)) ≡ Some (map view_open files.new.items) }
{
    files[at.file].map.set_attrs(at.reference, attrs);
}

/// Sets the stored data of the reference at `at` to `datum`, and clears resChanged.
#[tactic(auto, using(crate::proofs::Standing::inside_files, crate::proofs::Standing::inside_map))]
pub(crate) fn store(files: &mut Vec<OpenFile>, at: Spot, datum: Vec<u8>)
    requires { is_some (found_at at (map view_open files.old.items)) ≡ true }
    ensures { option_map
        (λ (f : Found). with_reference (stored_anew (Some datum.items) f.reference.here) f)
        (found_at at (map view_open files.old.items)) ≡ Some (map view_open files.new.items) }
{
    files[at.file].map.store(at.reference, datum);
}

/// Sets the ID of the reference at `at`, and the name too where `name` is not empty. Where the host
/// is out of memory, the files stay as they were.
#[tactic(auto, using(crate::proofs::Standing::inside_files, crate::proofs::Standing::inside_map))]
pub(crate) fn rename(
    files: &mut Vec<OpenFile>,
    alloc: Global,
    at: Spot,
    id: i16,
    name: &Name,
) -> Result<(), AllocError>
    requires { is_some (found_at at (map view_open files.old.items)) ≡ true }
    ensures renamed { OnOk result
        (option_map (λ (f : Found). with_reference (renamed id name.now.0.items f.reference.here) f)
        (found_at at (map view_open files.old.items))
        ≡ Some (map view_open files.new.items)) }
    ensures kept { OnErr result (map view_open files.new.items ≡ map view_open files.old.items) }
{
    files[at.file].map.rename(alloc, at.reference, id, name)?;
    Ok(())
}

/// Sets the attributes of a reference of an open file, and marks the file as touched.
fn mark_in(file: &mut OpenFile, index: usize, attrs: Attrs)
    requires { index < length file.old.map.references }
    ensures map { IfSome (slice_get file.old.map.references index) (λ r. file.new.map
        ≡ record file.old.map {
          references = slice_set file.old.map.references index (with_attrs attrs.0 r);
        }) }
    ensures touched { file.new ≡ record file.old { map = file.new.map; touched = true } }
{
    file.map.set_attrs(index, attrs);
    file.touched = true;
}

/// Sets the attributes of the reference at `at`, and marks the reference's file as touched.
#[tactic(auto, using(crate::proofs::Standing::inside_files, crate::proofs::Standing::inside_map))]
pub(crate) fn mark(files: &mut Vec<OpenFile>, at: Spot, attrs: Attrs)
    requires { is_some (found_at at (map view_open files.old.items)) ≡ true }
    ensures { option_map (λ (f : Found). touched_files f.file
        (replaced (with_attrs attrs.0 f.reference.here) f.reference))
        (found_at at (map view_open files.old.items)) ≡ Some (map view_open files.new.items) }
{
    mark_in(&mut files[at.file], at.reference, attrs);
}

/// Writes bytes over the stored data of a reference of an open file from the offset `from` on, and
/// marks the file as touched. Where the host is out of memory, the file stays as it was.
fn write_in(file: &mut OpenFile, index: usize, from: usize, bytes: &[u8]) -> Result<(), AllocError>
    requires inside { index < length file.old.map.references }
    requires offset { IfSome (slice_get file.old.map.references index) (λ r. from
        ≤ length r.stored.datum) }
    ensures map { OnOk result (IfSome (slice_get file.old.map.references index)
        (λ r. file.new.map ≡ record file.old.map {
          references = slice_set file.old.map.references index
              (with_datum (written from bytes.now r.stored.datum) r);
        })) }
    ensures touched { OnOk result (file.new
        ≡ record file.old { map = file.new.map; touched = true }) }
    ensures kept { OnErr result (file.new ≡ file.old) }
{
    file.map.write_datum(index, from, bytes)?;
    file.touched = true;
    Ok(())
}

/// Writes bytes over the stored data of the reference at `at` from the offset `from` on, and marks
/// the reference's file as touched. Where the host is out of memory, the files stay as they were.
#[tactic(auto, using(crate::proofs::Standing::inside_files, crate::proofs::Standing::inside_map))]
pub(crate) fn write(
    files: &mut Vec<OpenFile>,
    at: Spot,
    from: usize,
    bytes: &[u8],
) -> Result<(), AllocError>
    requires there { is_some (found_at at (map view_open files.old.items)) ≡ true }
    requires offset { IfSome (found_at at (map view_open files.old.items))
        (λ f. from ≤ length f.reference.here.stored.datum) }
    ensures restored { OnOk result
        (option_map (λ (f : Found). restored_files (written from bytes.now) f)
        (found_at at (map view_open files.old.items)) ≡ Some (map view_open files.new.items)) }
    ensures kept { OnErr result (map view_open files.new.items ≡ map view_open files.old.items) }
{
    write_in(&mut files[at.file], at.reference, from, bytes)?;
    Ok(())
}

/// Gives the stored data of a reference of an open file another size, and marks the file as
/// touched. Where the host is out of memory, the file stays as it was.
fn resize_in(file: &mut OpenFile, index: usize, size: usize) -> Result<(), AllocError>
    requires { index < length file.old.map.references }
    ensures map { OnOk result (IfSome (slice_get file.old.map.references index)
        (λ r. file.new.map ≡ record file.old.map {
          references = slice_set file.old.map.references index
              (with_datum (resized_datum size r.stored.datum) r);
        })) }
    ensures touched { OnOk result (file.new
        ≡ record file.old { map = file.new.map; touched = true }) }
    ensures kept { OnErr result (file.new ≡ file.old) }
{
    file.map.resize_datum(index, size)?;
    file.touched = true;
    Ok(())
}

/// Gives the stored data of the reference at `at` another size, and marks the reference's file as
/// touched. Where the host is out of memory, the files stay as they were.
#[tactic(auto, using(crate::proofs::Standing::inside_files, crate::proofs::Standing::inside_map))]
pub(crate) fn resize(files: &mut Vec<OpenFile>, at: Spot, size: usize) -> Result<(), AllocError>
    requires { is_some (found_at at (map view_open files.old.items)) ≡ true }
    ensures restored { OnOk result (option_map (λ (f : Found). restored_files (resized_datum size)
        f) (found_at at (map view_open files.old.items)) ≡ Some (map view_open files.new.items)) }
    ensures kept { OnErr result (map view_open files.new.items ≡ map view_open files.old.items) }
{
    resize_in(&mut files[at.file], at.reference, size)?;
    Ok(())
}

/// Removes a reference from an open file, and marks the file as touched.
fn remove_in(file: &mut OpenFile, index: usize)
    requires { index < length file.old.map.references }
    ensures map { file.new.map
        ≡ record file.old.map { references = remove file.old.map.references index } }
    ensures touched { file.new ≡ record file.old { map = file.new.map; touched = true } }
{
    file.map.remove(index);
    file.touched = true;
}

/// Removes the reference at `at` from its file, and marks the file as touched.
#[tactic(auto, using(crate::proofs::Standing::inside_files, crate::proofs::Standing::inside_map))]
pub(crate) fn take_out(files: &mut Vec<OpenFile>, at: Spot)
    requires { is_some (found_at at (map view_open files.old.items)) ≡ true }
    ensures { option_map (λ (f : Found). touched_files f.file (removed f.reference))
        (found_at at (map view_open files.old.items)) ≡ Some (map view_open files.new.items) }
{
    remove_in(&mut files[at.file], at.reference);
}

impl Resources {
    /// Returns the place of the first reference that is `wanted`, in the first file within `within`
    /// that has such a reference.
    pub(crate) fn find(&self, within: Within, wanted: Wanted<'_>) -> Option<Spot>
        ensures found { found_from result self.now.chain
            ≡ find (is_searched within) (is_wanted wanted.entry) self.now.chain }
        ensures placed { is_some (found_from result self.now.chain) ≡ is_some result }
    {
        find_spot(&self.chain, within, wanted)
    }

    /// Returns the place of the reference whose handle is `handle`, in any open file.
    pub(crate) fn find_handle(&self, handle: Option<usize>) -> Option<Spot>
        ensures found { found_from result self.now.chain ≡ resource_of handle self.now }
        ensures placed { is_some (found_from result self.now.chain) ≡ is_some result }
    {
        match handle {
            None => None,
            Some(number) => self.find(Within::Each, Wanted::Handle(number)),
        }
    }
}
