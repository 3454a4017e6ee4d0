//! The resource map of one open file.

ghost use Rattle.std.specs.Prelude.{◌≡◌, ◌<◌, ◌≤◌, ◌^◌, ◌==◌, ℕ, IsTrue, Some, length, map};
ghost use Rattle.std.specs.Prelude.{slice_get, slice_set, option_map, IfOk, IfSome, OnOk, OnErr};
ghost use Rattle.std.specs.List.{list_all, list_any, remove};
ghost use Rattle.byteorder.specs.Endian.{big_number};
ghost use Rattle.fork_format.specs.Content.{Group as GroupValue};
ghost use Rattle.fork_format.specs.Canonical.{has_refs, are_distinct};
ghost use Rattle.fork_format.specs.View.{view};
ghost use Rattle.memory_windows.specs.Writes.{written};
ghost use Rattle.res_map.specs.Split.{split, place};
ghost use Rattle.res_map.specs.Map.{Reference, Map, IsOrdered, is_of, is_resource, is_named};
ghost use Rattle.res_map.specs.Map.{has_handle, types, of_type, nth, split_nth, map_of};
ghost use Rattle.res_map.specs.Map.{with_handle, with_attrs, stored_anew, renamed, with_datum};
ghost use Rattle.res_map.specs.Map.{resized_datum, added, new_reference};
ghost use Rattle.std.specs.Prelude.{vec_capacity};
ghost use Rattle.res_map.specs.Index.{IsHolding, IsIndex, is_printed};
ghost use Rattle.res_map.specs.View.{view_reference, view_lent};

use crate::adding::{new_one, put_in_file, take_out_of_file};
use crate::changing::{name_of, put_attrs, put_bytes, put_datum, put_name_in_file, put_size};
use crate::holding::{place_held, put_handle_in_file};
use crate::index::{Row, index_of, named_index_of, place_told};
use crate::lent::{LentReference, entry_of, type_of};
use crate::reading::{read_groups, read_types};
use crate::search::{count_of, nth_place, place_called};
use crate::stored::StoredReference;
use fork_format::{Content, kind_of};
use mac_words::{Attrs, Name, OsType};
use std::alloc::{AllocError, Global};
use std::marker::Model;

/// The resource map of an open file: its references in order, each with its handle, if it has one.
/// A reference is named by its place in that order, from 0.
///
/// The map holds the stored data of the resources, so the bytes of the file's fork may be released.
///
/// *More Macintosh Toolbox*, chapter 1, "The Resource Map".
#[derive(Drop)]
pub struct ResFile {
    pub(crate) area: [u8; 240],
    pub(crate) attrs: u16,
    pub(crate) kinds: Vec<u32>,
    pub(crate) refs: Vec<StoredReference>,
    pub(crate) index: Vec<Row>,
    pub(crate) names: Vec<Row>,
    pub(crate) held: Vec<Row>,
}

impl Model for ResFile {
    ghost Value = { Map };

    ghost view = { λ f.
        record { area = f.area; attrs = f.attrs; references = map view_reference f.refs.items } };

    // Each type stands once, in the order of the first references; the references of one type stand
    // together; and the indexes record the place of the first reference of each type and ID, of
    // each type and print of a name, and of each handle.
    ghost invariant = { λ f. IsOrdered f.kinds.items (map view_reference f.refs.items)
        × IsIndex is_resource f.index.items (map view_reference f.refs.items)
        × IsIndex is_printed f.names.items (map view_reference f.refs.items)
        × IsHolding f.held.items (vec_capacity f.held) (map view_reference f.refs.items) };
}

impl ResFile {
    /// Returns the map of a content, as its file is opened. No reference has a handle.
    pub fn open(alloc: Global, content: &Content<'_>) -> Result<ResFile, AllocError>
        requires types { IsTrue
            (are_distinct (map (λ (g : GroupValue). g.kind) (view content.now).groups)) }
        requires references { IsTrue (list_all has_refs (view content.now).groups) }
        ensures { IfOk result (λ f. f ≡ map_of (view content.now)) }
    {
        let groups = content.groups.as_slice();
        let kinds = read_types(alloc, groups)?;
        let refs = read_groups(alloc, groups)?;
        let index = index_of(alloc, refs.as_slice())?;
        let names = named_index_of(alloc, refs.as_slice())?;
        let held = Vec::with_capacity(alloc, refs.len())?;
        Ok(ResFile {
            area: content.area,
            attrs: content.attrs,
            kinds,
            refs,
            index,
            names,
            held,
        })
    }

    /// Returns the number of references.
    pub fn len(&self) -> usize
        ensures { result ≡ length self.now.references }
    {
        self.refs.len()
    }

    /// Returns the reference at a place.
    pub fn reference(&self, index: usize) -> LentReference<'_>
        requires { index < length self.now.references }
        ensures { slice_get self.now.references index ≡ Some (view_lent result) }
    {
        entry_of(&self.refs[index])
    }

    /// Returns the place of the first reference of a type and ID.
    pub fn find(&self, ty: OsType, id: i16) -> Option<usize>
        ensures { result
            ≡ option_map place (split (is_resource (big_number 4 ty.0) id) self.now.references) }
    {
        place_told(self.index.as_slice(), kind_of(ty), id as i32)
    }

    /// Returns the place of the first reference of a type and name. ASCII letters match in either
    /// case, and other bytes are compared as they stand. A reference without a name matches no
    /// text; a reference with a name of no bytes matches the empty text.
    pub fn find_named(&self, ty: OsType, name: &[u8]) -> Option<usize>
        ensures { result
            ≡ option_map place (split (is_named (big_number 4 ty.0) name.now) self.now.references) }
    {
        place_called(
            self.names.as_slice(),
            self.refs.as_slice(),
            kind_of(ty),
            name,
        )
    }

    /// Returns the place of the first reference that has a handle.
    pub fn find_handle(&self, handle: usize) -> Option<usize>
        ensures { result ≡ option_map place (split (has_handle handle) self.now.references) }
    {
        place_held(self.held.as_slice(), handle)
    }

    /// Returns the place of the n-th reference of a type, from 1.
    pub fn find_nth(&self, ty: OsType, n: u32) -> Option<usize>
        ensures { result
            ≡ option_map place (split_nth n (is_of (big_number 4 ty.0)) self.now.references) }
    {
        nth_place(self.refs.as_slice(), kind_of(ty), n)
    }

    /// Returns the number of references of a type.
    #[tactic(auto, using(crate::proofs::Short::count_fits))]
    pub fn count(&self, ty: OsType) -> usize
        ensures count { result ≡ length (of_type (big_number 4 ty.0) self.now.references) }
        ensures fits { result < 2 ^ 63 }
    {
        count_of(self.refs.as_slice(), kind_of(ty))
    }

    /// Returns the number of types.
    pub fn count_types(&self) -> usize
        ensures count { result ≡ length (types self.now.references) }
        ensures fits { result < 2 ^ 63 }
    {
        self.kinds.len()
    }

    /// Returns the n-th type, from 1.
    pub fn nth_type(&self, n: u32) -> Option<OsType>
        ensures { option_map (λ (t : OsType). big_number 4 t.0) result
            ≡ nth n (types self.now.references) }
    {
        nth_kind(self.kinds.as_slice(), n)
    }

    /// Returns the type at a place among the types, from 0.
    pub fn type_at(&self, index: usize) -> OsType
        requires { index < length (types self.now.references) }
        ensures { slice_get (types self.now.references) index ≡ Some (big_number 4 result.0) }
    {
        type_of(self.kinds[index])
    }

    /// Reports whether the file has resources of a type.
    pub fn has_type(&self, ty: OsType) -> bool
        ensures { result
            ≡ list_any (λ kind. kind == big_number 4 ty.0) (types self.now.references) }
    {
        has_kind(self.kinds.as_slice(), kind_of(ty))
    }

    /// Returns the attributes of the map.
    ///
    /// *More Macintosh Toolbox*, chapter 1, "Resource Fork Attributes".
    pub fn map_attrs(&self) -> u16
        ensures { result ≡ self.now.attrs }
    {
        self.attrs
    }

    /// Sets the attributes of the map.
    pub fn set_map_attrs(&mut self, attrs: u16)
        ensures { self.new ≡ record self.old { attrs = attrs } }
    {
        self.attrs = attrs;
    }

    /// Sets the handle of a reference, or takes it away.
    pub fn set_handle(&mut self, index: usize, handle: Option<usize>)
        requires { index < length self.old.references }
        ensures { IfSome (slice_get self.old.references index) (λ r. self.new ≡ record self.old {
          references = slice_set self.old.references index (with_handle handle r);
        }) }
    {
        put_handle_in_file(&mut self.refs, &mut self.held, index, handle);
    }

    /// Sets the attributes of a reference.
    pub fn set_attrs(&mut self, index: usize, attrs: Attrs)
        requires { index < length self.old.references }
        ensures { IfSome (slice_get self.old.references index) (λ r. self.new ≡ record self.old {
          references = slice_set self.old.references index (with_attrs attrs.0 r);
        }) }
    {
        put_attrs(&mut self.refs, index, attrs);
    }

    /// Replaces the stored data of a reference, and clears its resChanged.
    pub fn store(&mut self, index: usize, datum: Vec<u8>)
        requires { index < length self.old.references }
        ensures { IfSome (slice_get self.old.references index) (λ r. self.new ≡ record self.old {
          references = slice_set self.old.references index (stored_anew (Some datum.items) r);
        }) }
    {
        put_datum(&mut self.refs, index, datum);
    }

    /// Writes bytes into the stored data of a reference, from an offset on; the data grows where
    /// they reach past its end. The bytes that stand are copied only where the data has to grow
    /// past the room that it has. Where the host is out of memory, the file is as it was.
    ///
    /// *More Macintosh Toolbox*, chapter 1, "Reading and Writing Partial Resources".
    pub fn write_datum(&mut self, index: usize, from: usize, bytes: &[u8]) -> Result<(), AllocError>
        requires inside { index < length self.old.references }
        requires within { IfSome (slice_get self.old.references index) (λ r. from
            ≤ length r.stored.datum) }
        ensures written { OnOk result
            (IfSome (slice_get self.old.references index) (λ r. self.new ≡ record self.old {
              references = slice_set self.old.references index
                  (with_datum (written from bytes.now r.stored.datum) r);
            })) }
        ensures kept { OnErr result (self.new ≡ self.old) }
    {
        put_bytes(&mut self.refs, index, from, bytes)
    }

    /// Sets the size of the stored data of a reference: bytes are cut off, or new ones are 0. Where
    /// the host is out of memory, the file is as it was.
    ///
    /// *More Macintosh Toolbox*, chapter 1, "Reading and Writing Partial Resources".
    pub fn resize_datum(&mut self, index: usize, size: usize) -> Result<(), AllocError>
        requires { index < length self.old.references }
        ensures resized { OnOk result
            (IfSome (slice_get self.old.references index) (λ r. self.new ≡ record self.old {
              references = slice_set self.old.references index
                  (with_datum (resized_datum size r.stored.datum) r);
            })) }
        ensures kept { OnErr result (self.new ≡ self.old) }
    {
        put_size(&mut self.refs, index, size)
    }

    /// Sets the ID of a reference, and its name where the text isn't empty.
    pub fn rename(
        &mut self,
        alloc: Global,
        index: usize,
        id: i16,
        name: &Name,
    ) -> Result<(), AllocError>
        requires { index < length self.old.references }
        ensures renamed { OnOk result
            (IfSome (slice_get self.old.references index) (λ r. self.new ≡ record self.old {
              references = slice_set self.old.references index (renamed id name.now.0.items r);
            })) }
        ensures kept { OnErr result (self.new ≡ self.old) }
    {
        let own = name_of(alloc, name)?;
        put_name_in_file(
            &mut self.refs,
            &mut self.index,
            &mut self.names,
            index,
            id,
            name.0.as_slice(),
            own,
        )
    }

    /// Removes a reference. The file no longer has its type where the reference was the last of the
    /// type.
    pub fn remove(&mut self, index: usize)
        requires { index < length self.old.references }
        ensures { self.new ≡ record self.old { references = remove self.old.references index } }
    {
        take_out_of_file(
            &mut self.kinds,
            &mut self.refs,
            &mut self.index,
            &mut self.names,
            &mut self.held,
            index,
        );
    }

    /// Adds a reference after the last one of its type; the first of a type is added as the last of
    /// all. The new reference has a handle, is marked as changed, and has no stored data yet. An
    /// empty text gives the reference no name. Where the host is out of memory, the file is as
    /// it was.
    pub fn add(
        &mut self,
        alloc: Global,
        ty: OsType,
        id: i16,
        name: &Name,
        handle: usize,
    ) -> Result<(), AllocError>
        ensures added { OnOk result (self.new ≡ record self.old {
          references = added (new_reference (big_number 4 ty.0) id name.now.0.items handle)
              self.old.references;
        }) }
        ensures kept { OnErr result (self.new ≡ self.old) }
    {
        let new = new_one(alloc, kind_of(ty), id, name, handle)?;
        put_in_file(
            &mut self.kinds,
            &mut self.refs,
            &mut self.index,
            &mut self.names,
            &mut self.held,
            new,
        )
    }
}

/// Reports whether a type is among the types.
fn has_kind(kinds: &[u32], kind: u32) -> bool
    ensures { result ≡ list_any (λ k. k == kind) kinds.now }
{
    kinds.contains(&kind)
}

/// Returns the n-th of the types, from 1.
fn nth_kind(kinds: &[u32], n: u32) -> Option<OsType>
    ensures { option_map (λ (t : OsType). big_number 4 t.0) result ≡ nth n kinds.now }
{
    if n == 0 {
        return None;
    }
    match kinds.get((n - 1) as usize) {
        None => None,
        Some(kind) => Some(type_of(*kind)),
    }
}
