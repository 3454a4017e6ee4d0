//! The resources of an application at its launch.

ghost use Rattle.std.specs.Prelude.{◌≡◌, ◌<◌, ◌∷◌, [], IsTrue, IfOk, map, length, Some, None};
ghost use Rattle.std.specs.List.{list_all};
ghost use Rattle.fork_format.specs.Content.{Group as GroupValue};
ghost use Rattle.fork_format.specs.Canonical.{has_refs, are_distinct};
ghost use Rattle.fork_format.specs.View.{view};
ghost use Rattle.res_calls.specs.Files.{opened};
ghost use Rattle.res_calls.specs.Given.{IsReply};
ghost use Rattle.res_calls.specs.Rows.{map_in, launched_resources};
ghost use Rattle.res_calls.specs.View.{view_file, view_open};

use crate::files::{File, OWN_PLACE, OpenFile, Resources};
use fork_format::{Content, read_fork};
use heap_calls::Refusal;
use mac_words::OsErr;
use res_map::ResFile;
use std::alloc::{AllocError, Global};

/// Reads the resource map of a fork. Returns -39 (eofErr) where the fork has no bytes, and -199
/// (mapReadErr) where the bytes are not a resource fork.
pub fn open_map(alloc: Global, bytes: &[u8]) -> Result<ResFile, Refusal>
    ensures { IsReply (map_in bytes.now) result }
{
    match read_fork(alloc, bytes) {
        Ok(content) => Ok(ResFile::open(alloc, &content)?),
        Err(fault) => match fault.code() {
            Some(code) => Err(Refusal::Code(code)),
            None => Err(Refusal::HostMemory),
        },
    }
}

/// The number of the application's own file at the launch.
const OWN_FILE: u32 = 2;

/// Returns the open files of an application at its launch: the application's own file and then the
/// System file.
fn launched_chain(alloc: Global, own: ResFile, system: ResFile) -> Result<Vec<OpenFile>, AllocError>
    ensures { IfOk result (λ v. map view_open v.items
        ≡ opened 2 (Some 0) own ∷ opened 0 None system ∷ []) }
{
    let mut chain = Vec::with_capacity(alloc, 2)?;
    chain.push(OpenFile {
        number: OWN_FILE,
        file: Some(OWN_PLACE),
        map: own,
        touched: false,
    })?;
    chain.push(OpenFile {
        number: 0,
        file: None,
        map: system,
        touched: false,
    })?;
    Ok(chain)
}

impl Resources {
    /// Returns the resources of an application at its launch, with the fork of the first of `files`
    /// open as number 2 and current, and the application's own copy of the System file's resource
    /// map open as number 0. Returns -39 (eofErr) where the fork has no bytes, and -199
    /// (mapReadErr) where the bytes are not a resource fork.
    pub fn new(alloc: Global, files: Vec<File>, system: &Content<'_>) -> Result<Resources, Refusal>
        requires own { 0 < length files.items }
        requires types { IsTrue
            (are_distinct (map (λ (g : GroupValue). g.kind) (view system.now).groups)) }
        requires references { IsTrue (list_all has_refs (view system.now).groups) }
        ensures { IsReply
            (launched_resources (map view_file files.items) (view system.now)) result }
    {
        let own = match open_map(alloc, &files[OWN_PLACE].fork) {
            Ok(own) => own,
            Err(refusal) => return Err(refusal),
        };
        let system = ResFile::open(alloc, system)?;
        let chain = launched_chain(alloc, own, system)?;
        Ok(Resources {
            files,
            chain,
            current: OWN_FILE,
            next: OWN_FILE + 1,
            loading: true,
            purging: false,
            error: OsErr::NO_ERR,
        })
    }
}
