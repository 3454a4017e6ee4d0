//! Edits of one resource of a fork.

ghost use Rattle.std.specs.Prelude.{◌≡◌, Ok, Err, OnOk, IfErr, option_map};
ghost use Rattle.fork_edits.specs.RomanNames.{name_bytes};
ghost use Rattle.fork_format.specs.View.{view, view_name};
ghost use Rattle.fork_edits.specs.View.{view_renaming};
ghost use Rattle.fork_commands.specs.Editing.{edited, rename_fault, view_naming};
ghost use Rattle.fork_commands.specs.declared.editing.Edit.TheVariants.{Remove, Rename};

use crate::fault::FileFault;
use crate::work::ResourceKey;
use fork_edits::{RenameFault, Renaming, RomanName, lend_name, remove_resource, rename_resource};
use fork_format::{Content, RefName};
use mac_words::{Attrs, OsErr};

/// What a resource gets.
#[derive(Clone, Copy)]
pub struct Naming {
    /// The ID, or none to leave it as it is.
    pub id: Option<i16>,
    /// The name, or no name, or none to leave the name as it is.
    pub name: Option<Option<RomanName>>,
    /// The attributes, or none to leave them as they are.
    pub attrs: Option<Attrs>,
}

/// An edit of one resource: of the first one of a type and an ID.
#[derive(Clone, Copy)]
pub enum Edit {
    /// The resource is taken out, and its type too where no other resource of it is left.
    Remove(ResourceKey),
    /// The resource gets another ID, another name or no name, or other attributes.
    Rename(ResourceKey, Naming),
}

impl FileFault {
    /// Returns the fault of a resource that was not renamed.
    fn of_rename(fault: RenameFault) -> FileFault
        ensures { result ≡ rename_fault fault }
    {
        match fault {
            RenameFault::NotFound => FileFault::Code {
                code: OsErr::RES_NOT_FOUND,
            },
            RenameFault::Taken => FileFault::TakenId,
        }
    }
}

/// Takes a resource out of a content.
#[tactic(auto, using(crate::proofs::Edits::removed_there, crate::proofs::Edits::removed_not))]
fn remove(content: &mut Content<'_>, key: ResourceKey) -> Result<(), FileFault>
    ensures made { OnOk result (edited (Remove key) (view content.old) ≡ Ok (view content.new)) }
    ensures fault { IfErr result (λ fault. edited (Remove key) (view content.old) ≡ Err fault) }
{
    match remove_resource(content, key.ty, key.id) {
        Some(_) => Ok(()),
        None => Err(FileFault::Code {
            code: OsErr::RES_NOT_FOUND,
        }),
    }
}

/// Returns the name that a resource gets, lent.
fn new_name(name: &Option<Option<RomanName>>) -> Option<Option<RefName<'_>>>
    ensures { option_map view_name result ≡ option_map (option_map name_bytes) name.now }
{
    match name {
        Some(name) => Some(lend_name(name)),
        None => None,
    }
}

/// Returns what a resource gets, with the name lent.
fn lent(new: &Naming) -> Renaming<'_>
    ensures { view_renaming result ≡ view_naming new.now }
{
    Renaming {
        id: new.id,
        name: new_name(&new.name),
        attrs: new.attrs,
    }
}

/// Renames a resource of a content.
#[tactic(auto, using(crate::proofs::Edits::renamed_there, crate::proofs::Edits::renamed_not))]
fn rename<'b>(content: &mut Content<'b>, key: ResourceKey, new: &'b Naming) -> Result<(), FileFault>
    ensures made { OnOk result (edited (Rename key new.now) (view content.old)
        ≡ Ok (view content.new)) }
    ensures fault { IfErr result (λ fault.
        edited (Rename key new.now) (view content.old) ≡ Err fault) }
{
    let gets = lent(new);
    match rename_resource(content, key.ty, key.id, &gets) {
        Ok(()) => Ok(()),
        Err(fault) => Err(FileFault::of_rename(fault)),
    }
}

/// Makes an edit of a content.
///
/// # Errors
///
/// -192 (resNotFound) where there is no resource of the type and the ID; `TakenId` where another
/// resource of the type has the ID that the resource would get.
pub(crate) fn make_edit<'b>(content: &mut Content<'b>, edit: &'b Edit) -> Result<(), FileFault>
    ensures made { OnOk result (edited edit.now (view content.old) ≡ Ok (view content.new)) }
    ensures fault { IfErr result (λ fault. edited edit.now (view content.old) ≡ Err fault) }
{
    match edit {
        Edit::Remove(key) => remove(content, *key),
        Edit::Rename(key, new) => rename(content, *key, new),
    }
}
