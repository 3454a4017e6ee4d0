//! Resource forks as source of Rez, and back.

ghost use Rattle.std.specs.Prelude.{◌≡◌, IfOk, IfErr};
ghost use Rattle.fork_commands.specs.Faults.{Stops};
ghost use Rattle.fork_commands.specs.BuiltIn.{built_in};
ghost use Rattle.fork_commands.specs.Sources.{printed, assembled};
ghost use Rattle.fork_commands.specs.declared.selecting.Selection.TheVariants.{All};
ghost use Rattle.macmem_c.specs.Handed.{HandsOver};
ghost use Rattle.macmem_c.specs.Sources.{form_of, stated};

use crate::delivering::hand_over;
use crate::faults::Fault;
use fork_commands::{
    AssemblyFault, FileFault, Selection, SourceForm, WorkFault, assembled, built_in, printed,
};
use mac_roman::Charset;
use rez_printing::Numbering;
use rez_typed::{Coding, SourceStyle};
use std::alloc::Global;

/// Returns how a content is printed: with typed statements, or as data alone; in UTF-8.
pub fn form_of(typed: bool) -> SourceForm
    ensures { result ≡ form_of typed }
{
    if typed {
        SourceForm::Typed(SourceStyle {
            numbering: Numbering::None,
            coding: Coding::Utf8,
        })
    } else {
        SourceForm::Data(Charset::Utf8)
    }
}

/// Returns the content of a fork as source of Rez, by the types of the table.
fn source_of(alloc: Global, typed: bool, file: &[u8]) -> Result<Vec<u8>, WorkFault>
    ensures made { IfOk result (λ out.
        printed (form_of typed) All built_in file.now ≡ Ok out.items) }
    ensures fault { IfErr result (λ fault.
        Stops fault (printed (form_of typed) All built_in file.now)) }
{
    let types = built_in(alloc)?;
    printed(alloc, form_of(typed), Selection::All, types, file)
}

/// Returns the canonical fork of the content that a source of Rez states by the types of the table.
/// The source may read no files.
fn fork_of(alloc: Global, source: &[u8]) -> Result<Vec<u8>, WorkFault>
    ensures made { IfOk result (λ out. stated source.now ≡ Ok out.items) }
    ensures fault { IfErr result (λ fault. Stops fault (stated source.now)) }
{
    let types = built_in(alloc)?;
    match assembled(alloc, &types, Vec::new(alloc), source) {
        Ok(fork) => Ok(fork),
        Err(AssemblyFault::File(fault)) => Err(WorkFault::File(fault)),
        Err(AssemblyFault::Files(_)) => Err(WorkFault::File(FileFault::ReadsFiles)),
        Err(AssemblyFault::HostMemory) => Err(WorkFault::HostMemory),
    }
}

/// Prints the content of a resource fork as source of Rez: with statements that the types of the
/// table and the fork's own templates declare, or as data alone.
#[unsafe(no_mangle)]
pub extern "C" fn macmem_fork_derez(
    alloc: Global,
    file: &[u8],
    typed: bool,
    out: &mut [u8],
    len: &mut usize,
    fault: &mut Fault,
) -> i32
    ensures { HandsOver (printed (form_of typed) All built_in file.now)
        out.old len.old fault.old out.new len.new fault.new result }
{
    hand_over(source_of(alloc, typed, file), out, len, fault)
}

/// Makes the canonical fork of the content that a source of Rez states, which reads no files.
#[unsafe(no_mangle)]
pub extern "C" fn macmem_fork_rez(
    alloc: Global,
    source: &[u8],
    out: &mut [u8],
    len: &mut usize,
    fault: &mut Fault,
) -> i32
    ensures { HandsOver (stated source.now)
        out.old len.old fault.old out.new len.new fault.new result }
{
    hand_over(fork_of(alloc, source), out, len, fault)
}
