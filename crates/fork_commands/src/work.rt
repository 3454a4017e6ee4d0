//! The works on one file: from its bytes to what is printed or written of them.

ghost use Rattle.std.specs.Prelude.{◌≡◌, Ok, IfOk, IfErr};
ghost use Rattle.fork_format.specs.Canonical.{clear};
ghost use Rattle.fork_format.specs.Fork.{Spells};
ghost use Rattle.fork_format.specs.View.{view, view_ref};
ghost use Rattle.fork_commands.specs.Faults.{Stops};
ghost use Rattle.fork_commands.specs.Packaging.{then_packed};
ghost use Rattle.fork_commands.specs.Works.{canonical, resource_at, datum_at, made};
ghost use Rattle.fork_commands.specs.declared.work.ForkWork.TheVariants.{Rewrite, Change, Get};

use crate::editing::{Edit, make_edit};
use crate::fault::WorkFault;
use crate::opening::open_file;
use crate::packaging::{Packaging, packed};
use crate::reading::{content_in, copied};
use fork_edits::find_resource;
use fork_format::{Content, Ref, write_fork};
use mac_words::{OsErr, OsType};
use std::alloc::Global;

/// The type and the ID of a resource.
#[derive(Clone, Copy)]
pub struct ResourceKey {
    pub ty: OsType,
    pub id: i16,
}

/// What is made of the bytes of a file.
#[derive(Clone, Copy)]
pub enum ForkWork {
    /// The canonical fork of the content that the bytes spell, alone or in the wrapper of the file.
    Rewrite(Packaging),
    /// The canonical fork of that content after an edit of one resource, alone or in the wrapper of
    /// the file.
    Change(Edit, Packaging),
    /// The stored data of the first resource of a type and an ID.
    Get(ResourceKey),
}

/// Returns the canonical fork of a content.
pub fn canonical(alloc: Global, content: &Content<'_>) -> Result<Vec<u8>, WorkFault>
    ensures made { IfOk result (λ fork. canonical (view content.now) ≡ Ok fork.items) }
    ensures fault { IfErr result (λ fault. Stops fault (canonical (view content.now))) }

    // A reader reads the content from the fork again, without the bits that a reader clears.
    ensures read_again { IfOk result (λ fork. Spells fork.items (clear (view content.now))) }
{
    match write_fork(alloc, content) {
        Ok(fork) => Ok(fork),
        Err(fault) => Err(WorkFault::of(fault.code())),
    }
}

/// Returns the canonical fork of a content, alone or in the wrapper of a file.
pub(crate) fn written(
    alloc: Global,
    packaging: Packaging,
    file: &[u8],
    content: &Content<'_>,
) -> Result<Vec<u8>, WorkFault>
    ensures made { IfOk result (λ out. then_packed packaging file.now (canonical (view content.now))
        ≡ Ok out.items) }
    ensures fault { IfErr result (λ fault.
        Stops fault (then_packed packaging file.now (canonical (view content.now)))) }
{
    let fork = canonical(alloc, content)?;
    packed(alloc, packaging, file, fork)
}

/// Returns the canonical fork of the content that bytes spell.
fn rewritten(alloc: Global, packaging: Packaging, bytes: &[u8]) -> Result<Vec<u8>, WorkFault>
    ensures made { IfOk result (λ out. made (Rewrite packaging) bytes.now ≡ Ok out.items) }
    ensures fault { IfErr result (λ fault. Stops fault (made (Rewrite packaging) bytes.now)) }
{
    let file = open_file(alloc, bytes)?;
    let content = content_in(alloc, &file)?;
    written(alloc, packaging, bytes, &content)
}

/// Returns the canonical fork of the content that bytes spell, after an edit.
fn changed<'b>(
    alloc: Global,
    change: &'b Edit,
    packaging: Packaging,
    bytes: &'b [u8],
) -> Result<Vec<u8>, WorkFault>
    ensures made { IfOk result (λ out. made (Change change.now packaging) bytes.now
        ≡ Ok out.items) }
    ensures fault { IfErr result (λ fault.
        Stops fault (made (Change change.now packaging) bytes.now)) }
{
    let file = open_file(alloc, bytes)?;
    let mut content = content_in(alloc, &file)?;
    if let Err(fault) = make_edit(&mut content, change) {
        return Err(WorkFault::File(fault));
    }
    written(alloc, packaging, bytes, &content)
}

/// Returns the first resource of a type and an ID.
pub(crate) fn resource_at<'b>(key: ResourceKey, content: &Content<'b>) -> Result<Ref<'b>, WorkFault>
    ensures found { IfOk result (λ r. resource_at key (view content.now) ≡ Ok (view_ref r)) }
    ensures fault { IfErr result (λ fault. Stops fault (resource_at key (view content.now))) }
{
    match find_resource(content, key.ty, key.id) {
        Some(resource) => Ok(resource),
        None => Err(WorkFault::of(Some(OsErr::RES_NOT_FOUND))),
    }
}

/// Returns a copy of the stored data of the first resource of a type and an ID.
fn datum_at(alloc: Global, key: ResourceKey, content: &Content<'_>) -> Result<Vec<u8>, WorkFault>
    ensures made { IfOk result (λ out. datum_at key (view content.now) ≡ Ok out.items) }
    ensures fault { IfErr result (λ fault. Stops fault (datum_at key (view content.now))) }
{
    let resource = resource_at(key, content)?;
    Ok(copied(alloc, resource.datum)?)
}

/// Returns a copy of the stored data of a resource of the fork in bytes.
fn gotten(alloc: Global, key: ResourceKey, bytes: &[u8]) -> Result<Vec<u8>, WorkFault>
    ensures made { IfOk result (λ out. made (Get key) bytes.now ≡ Ok out.items) }
    ensures fault { IfErr result (λ fault. Stops fault (made (Get key) bytes.now)) }
{
    let file = open_file(alloc, bytes)?;
    let content = content_in(alloc, &file)?;
    datum_at(alloc, key, &content)
}

/// Returns what a work makes of the bytes of a file.
///
/// # Errors
///
/// The fault of the bytes; if the host is out of memory nothing is said of them.
pub fn made(alloc: Global, work: ForkWork, bytes: &[u8]) -> Result<Vec<u8>, WorkFault>
    ensures made { IfOk result (λ out. made work bytes.now ≡ Ok out.items) }
    ensures fault { IfErr result (λ fault. Stops fault (made work bytes.now)) }
{
    match work {
        ForkWork::Rewrite(packaging) => rewritten(alloc, packaging, bytes),
        ForkWork::Change(change, packaging) => changed(alloc, &change, packaging, bytes),
        ForkWork::Get(key) => gotten(alloc, key, bytes),
    }
}
