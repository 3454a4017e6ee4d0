//! Resource forks, in the bytes of files: alone, or in a wrapper.
//!
//! Each export returns 0 where something was made: `len` becomes the number of its bytes, of which
//! `out` gets as many as there is room for. It returns 65537 where a file is at fault, and `fault`
//! then says how; and 65536 where the host is out of memory. Unless 0 is returned, `out` and `len`
//! are as they were.

ghost use Rattle.fork_commands.specs.Works.{made};
ghost use Rattle.fork_commands.specs.declared.work.ForkWork.TheVariants.{Rewrite, Change, Get};
ghost use Rattle.fork_commands.specs.declared.work.ResourceKey.{ResourceKey};
ghost use Rattle.fork_commands.specs.declared.editing.Edit.TheVariants.{Remove};
ghost use Rattle.macmem_c.specs.Handed.{HandsOver};
ghost use Rattle.macmem_c.specs.Keys.{IsKey, packaging_of};

use crate::delivering::hand_over;
use crate::faults::Fault;
use crate::keys::{key_of, packaging_of};
use fork_commands::{Edit, ForkWork, made};
use std::alloc::Global;

/// Makes the canonical fork of the content of a resource fork, alone or in the wrapper of its file.
#[unsafe(no_mangle)]
pub extern "C" fn macmem_fork_rewrite(
    alloc: Global,
    file: &[u8],
    wrapped: bool,
    out: &mut [u8],
    len: &mut usize,
    fault: &mut Fault,
) -> i32
    ensures { HandsOver (made (Rewrite (packaging_of wrapped)) file.now)
        out.old len.old fault.old out.new len.new fault.new result }
{
    let work = ForkWork::Rewrite(packaging_of(wrapped));
    hand_over(made(alloc, work, file), out, len, fault)
}

/// Gives the stored data of the first resource of a type, whose four bytes are `kind`, and an ID.
#[unsafe(no_mangle)]
pub extern "C" fn macmem_fork_get(
    alloc: Global,
    file: &[u8],
    kind: u32,
    id: i16,
    out: &mut [u8],
    len: &mut usize,
    fault: &mut Fault,
) -> i32
    ensures { (key : ResourceKey) × IsKey kind id key × HandsOver (made (Get key) file.now)
        out.old len.old fault.old out.new len.new fault.new result }
{
    let work = ForkWork::Get(key_of(kind, id));
    hand_over(made(alloc, work, file), out, len, fault)
}

/// Makes the canonical fork of the content of a resource fork without the first resource of a type
/// and an ID, alone or in the wrapper of its file.
#[unsafe(no_mangle)]
pub extern "C" fn macmem_fork_remove(
    alloc: Global,
    file: &[u8],
    kind: u32,
    id: i16,
    wrapped: bool,
    out: &mut [u8],
    len: &mut usize,
    fault: &mut Fault,
) -> i32
    ensures { (key : ResourceKey) × IsKey kind id key
        × HandsOver (made (Change (Remove key) (packaging_of wrapped)) file.now)
        out.old len.old fault.old out.new len.new fault.new result }
{
    let work = ForkWork::Change(Edit::Remove(key_of(kind, id)), packaging_of(wrapped));
    hand_over(made(alloc, work, file), out, len, fault)
}
