//! The resources of an application that is only a script.

ghost use Rattle.std.specs.Prelude.{◌≡◌, IfOk, [], ◌∷◌, codes};
ghost use Rattle.fork_format.specs.View.{view};
ghost use Rattle.fork_format.specs.Canonical.{canon};
ghost use Rattle.applications.specs.Trying.{no_content, own_resources as own};

use arrayvec::ArrayVec;
use fork_format::{Content, WriteFault, write_fork};
use heap_calls::Refusal;
use mac_words::FileName;
use res_calls::{File, Resources};
use std::alloc::{AllocError, Global};

/// Returns the content of a resource fork that has no resources.
pub fn empty_content(alloc: Global) -> Content<'static>
    ensures { view result ≡ no_content }
{
    Content {
        area: [0; 240],
        attrs: 0,
        groups: Vec::new(alloc),
    }
}

/// Returns the name of the application's own file.
fn own_name() -> FileName
    ensures { result.0.items ≡ codes "script" }
{
    let mut name = ArrayVec::new();
    match name.try_extend_from_slice(b"script") {
        Ok(()) => FileName(name),
        Err(_) => unreachable!(),
    }
}

/// Returns the bytes of the application's own fork.
fn own_fork(alloc: Global) -> Result<Vec<u8>, AllocError>
    ensures { IfOk result (λ fork. fork.items ≡ canon no_content) }
{
    let content = empty_content(alloc);
    match write_fork(alloc, &content) {
        Ok(fork) => Ok(fork),
        Err(WriteFault::HostMemory) => Err(AllocError),
        Err(WriteFault::TooLarge) => unreachable!(),
    }
}

/// Returns the resources of an application that is only a script: a fork of its own that has no
/// resources, and a System file that has no resources.
pub fn own_resources(alloc: Global) -> Result<Resources, AllocError>
    ensures { IfOk result (λ r. r ≡ own) }
{
    let mut files = Vec::new(alloc);
    files.push(File {
        name: own_name(),
        fork: own_fork(alloc)?,
        written: false,
    })?;
    let system = empty_content(alloc);
    match Resources::new(alloc, files, &system) {
        Ok(resources) => Ok(resources),
        Err(Refusal::HostMemory) => Err(AllocError),
        Err(Refusal::Code(_)) => unreachable!(),
    }
}
