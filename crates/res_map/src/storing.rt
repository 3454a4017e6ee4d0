//! The content that a file's fork is to hold after an update.

ghost use Rattle.std.specs.Prelude.{◌≡◌, ◌≤◌, ℕ, length, map, unwrap_or, IfOk};
ghost use Rattle.fork_format.specs.View.{view_ref, view_group, view};
ghost use Rattle.res_map.specs.Map.{Reference, stored_anew, all_anew, content};
ghost use Rattle.res_map.specs.Runs.{leading_count, stored_group, leading_groups};
ghost use Rattle.res_map.specs.View.{view_reference, view_bytes, view_all};

use crate::lent::{lent_name, type_of};
use crate::res_file::ResFile;
use crate::stored::StoredReference;
use fork_format::{Content, Group, Ref};
use std::alloc::{AllocError, Global};

impl ResFile {
    /// Returns the content that the file's fork is to hold: for each reference the bytes that are
    /// given for it, or else its stored data. No reference is changed. Names and bytes are lent.
    /// Returns an error where the host is out of memory.
    ///
    /// *More Macintosh Toolbox*, chapter 1, "UpdateResFile".
    pub fn content<'a>(
        &'a self,
        alloc: Global,
        fresh: &'a [Option<Vec<u8>>],
    ) -> Result<Content<'a>, AllocError>
        requires { length fresh.now ≡ length self.now.references }
        ensures { IfOk result (λ c. view c ≡ content (record self.now {
          references = all_anew (view_all fresh.now) self.now.references;
        })) }
    {
        let groups = groups_of(alloc, self.kinds.as_slice(), self.refs.as_slice(), fresh)?;
        Ok(Content {
            area: self.area,
            attrs: self.attrs,
            groups,
        })
    }

    /// Stores the bytes that are given for references, and clears the resChanged of all references.
    /// No host memory is taken.
    ///
    /// *More Macintosh Toolbox*, chapter 1, "UpdateResFile".
    pub fn store_all(&mut self, fresh: Vec<Option<Vec<u8>>>)
        requires { length fresh.items ≡ length self.old.references }
        ensures { self.new
            ≡ record self.old { references = all_anew (view_all fresh.items) self.old.references } }
    {
        put_all(&mut self.refs, fresh);
    }
}

/// Returns the bytes that are given, or else the stored data.
fn bytes_of<'a>(given: &'a Option<Vec<u8>>, stored: &'a [u8]) -> &'a [u8]
    ensures { result.now ≡ unwrap_or (view_bytes given.now) stored.now }
{
    match given {
        None => stored,
        Some(bytes) => bytes.as_slice(),
    }
}

/// Returns what is to be stored of a reference, with the bytes that are given for it, if there
/// are any.
fn ref_of<'a>(r: &'a StoredReference, given: &'a Option<Vec<u8>>) -> Ref<'a>
    ensures { view_ref result ≡ (stored_anew (view_bytes given.now) (view_reference r.now)).stored }
{
    Ref {
        id: r.id,
        name: lent_name(&r.rest.name),
        attrs: r.attrs.unchanged(),
        datum: bytes_of(given, r.rest.datum.as_slice()),
    }
}

/// Returns the group of the references of a type.
#[tactic(auto, using(crate::proofs::Anew::stored_on))]
fn group_of<'a>(
    alloc: Global,
    kind: u32,
    refs: &'a [StoredReference],
    fresh: &'a [Option<Vec<u8>>],
) -> Result<Group<'a>, AllocError>
    requires { length fresh.now ≡ length refs.now }
    ensures { IfOk result (λ g. view_group g
        ≡ stored_group kind (all_anew (view_all fresh.now) (map view_reference refs.now))) }
{
    let mut stored = Vec::with_capacity(alloc, refs.len())?;
    for i in 0..refs.len() {
        stored.push(ref_of(&refs[i], &fresh[i]))?;
    }
    Ok(Group {
        ty: type_of(kind),
        refs: stored,
    })
}

/// Returns the number of references before the first one of another type.
#[tactic(auto, using(crate::proofs::Runs::run_ends, crate::proofs::Runs::run_on))]
fn leading_of(refs: &[StoredReference], kind: u32) -> usize
    ensures leading { result ≡ leading_count kind (map view_reference refs.now) }
    ensures within { result ≤ length refs.now }
{
    for i in 0..refs.len() {
        if refs[i].kind != kind {
            return i;
        }
    }
    refs.len()
}

/// Returns the groups of references, of which those of one type stand together.
fn groups_of<'a>(
    alloc: Global,
    kinds: &[u32],
    refs: &'a [StoredReference],
    fresh: &'a [Option<Vec<u8>>],
) -> Result<Vec<Group<'a>>, AllocError>
    requires { length fresh.now ≡ length refs.now }
    ensures { IfOk result (λ v. map view_group v.items
        ≡ leading_groups kinds.now (all_anew (view_all fresh.now) (map view_reference refs.now))) }
{
    let mut groups = Vec::with_capacity(alloc, kinds.len())?;
    let mut refs = refs;
    let mut fresh = fresh;
    for kind in kinds {
        let len = leading_of(refs, *kind);
        let (own_refs, more_refs) = refs.split_at(len);
        let (own_fresh, more_fresh) = fresh.split_at(len);
        groups.push(group_of(alloc, *kind, own_refs, own_fresh)?)?;
        refs = more_refs;
        fresh = more_fresh;
    }
    Ok(groups)
}

/// Stores the bytes that are given for a reference, if there are any, and clears its resChanged.
fn put_given(r: &mut StoredReference, given: Option<Vec<u8>>)
    ensures { view_reference r.new ≡ stored_anew (view_bytes given) (view_reference r.old) }
{
    r.attrs = r.attrs.unchanged();
    if let Some(bytes) = given {
        r.rest.datum = bytes;
    }
}

/// Stores the bytes that are given for references, and clears the resChanged of all references.
#[tactic(auto, using(crate::proofs::Anew::put_all))]
fn put_all(refs: &mut Vec<StoredReference>, mut fresh: Vec<Option<Vec<u8>>>)
    requires { length fresh.items ≡ length refs.old.items }
    ensures { map view_reference refs.new.items
        ≡ all_anew (view_all fresh.items) (map view_reference refs.old.items) }
{
    for i in 0..refs.len() {
        put_given(&mut refs[i], fresh[i].take());
    }
}
