//! A fork is printed as source of Rez, or some of its resources are.

ghost use Rattle.std.specs.Prelude.{◌≡◌, Ok, IfOk, IfErr};
ghost use Rattle.rez_statements.specs.View.{types_of};
ghost use Rattle.fork_tasks.specs.declared.ending.Ending.TheVariants.{Done};
ghost use Rattle.fork_tasks.specs.Fault.{message_of, IsForkFault, IsQuiet};
ghost use Rattle.fork_tasks.specs.SourcePrinting.{selection_of, source_of, PrintsSource};
ghost use Rattle.fork_tasks.specs.SourcePrinting.{IsSourceUnprinted};

use crate::declaring::known_types;
use crate::delivering::{Target, deliver};
use crate::ending::Ending;
use crate::fault::{ToolFault, fork_fault};
use crate::host::Host;
use crate::input::read_input;
use fork_commands::{Selection, SourceForm, printed};
use rez_statements::Types;
use std::alloc::Global;

/// What of a fork is printed.
#[derive(Clone, Copy)]
pub enum Part {
    /// All that it holds.
    Whole,
    /// Some of its resources.
    Selected(Selection),
}

impl Part {
    /// Returns the resources that are printed.
    fn selection(self) -> Selection
        ensures { result ≡ selection_of self }
    {
        match self {
            Part::Whole => Selection::All,
            Part::Selected(selection) => selection,
        }
    }
}

/// A request to print a fork as source.
#[derive(Drop)]
pub struct Printing<'a> {
    /// The paths of the files of declarations, as they were given.
    pub types: Vec<&'a str>,
    pub form: SourceForm,
    pub part: Part,
    /// The path of the fork's file.
    pub fork: &'a str,
}

/// Returns what is printed of the bytes of the fork's file.
#[tactic(auto, using(crate::proofs::Faults::fork_stopped))]
fn printed_at(
    alloc: Global,
    printing: &Printing<'_>,
    types: Types,
    bytes: &[u8],
) -> Result<Vec<u8>, ToolFault>
    ensures made { IfOk result (λ out. source_of printing.now (types_of types) bytes.now
        ≡ Ok out.items) }
    ensures fault { IfErr result (λ fault. IsForkFault printing.now.fork.now
        (source_of printing.now (types_of types) bytes.now) (message_of fault)) }
{
    match printed(
        alloc,
        printing.form,
        printing.part.selection(),
        types,
        bytes,
    ) {
        Ok(out) => Ok(out),
        Err(fault) => Err(fork_fault(alloc, printing.fork, fault)?),
    }
}

/// Reads files of declarations, and then a fork, and prints it as source, or some of its resources.
///
/// # Errors
///
/// The first file that can't be read or is at fault, and then nothing is printed; or the source
/// can't be printed, or not to its end.
pub fn print_source<H: Host>(
    alloc: Global,
    host: &mut H,
    printing: &Printing<'_>,
) -> Result<Ending, ToolFault>
    ensures done { IfOk result (λ ending. (ending ≡ Done) × PrintsSource printing.now
        (H.printed host.old) (H.printed host.new) (H.accesses host.old) (H.accesses host.new)) }
    ensures undone { IfErr result (λ fault. IsSourceUnprinted printing.now (H.printed host.old)
        (H.printed host.new) (H.accesses host.old) (H.accesses host.new) (message_of fault)) }
    ensures quiet { IfErr result (λ fault.
        IsQuiet (H.printed host.old) (H.printed host.new) (message_of fault)) }
{
    let types = known_types(alloc, host, printing.types.as_slice())?;
    let bytes = read_input(alloc, host, printing.fork)?;
    let out = printed_at(alloc, printing, types, bytes.as_slice())?;
    deliver(alloc, host, Target::Printed, out.as_slice())?;
    Ok(Ending::Done)
}
