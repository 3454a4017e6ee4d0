//! What is printed of a fork as source of Rez.

ghost use Rattle.std.specs.Prelude.{◌≡◌, Ok, IfOk, IfErr};
ghost use Rattle.fork_format.specs.View.{view};
ghost use Rattle.rez_statements.specs.View.{types_of};
ghost use Rattle.fork_commands.specs.Faults.{Stops};
ghost use Rattle.fork_commands.specs.Sources as spec;

use crate::fault::WorkFault;
use crate::opening::open_file;
use crate::reading::content_in;
use crate::selecting::{Selection, some_selected};
use crate::source_form::SourceForm;
use fork_format::Content;
use rez_statements::Types;
use rez_templates::declare_templates;
use rez_text::write_source;
use rez_typed::write_typed_source;
use std::alloc::{AllocError, Global};

/// Returns a content as source of Rez, by types and by the templates of a whole content.
pub(crate) fn source_with(
    alloc: Global,
    form: SourceForm,
    types: Types,
    whole: &Content<'_>,
    content: &Content<'_>,
) -> Result<Vec<u8>, AllocError>
    ensures { IfOk result (λ source.
        source.items ≡ spec.source_with form (types_of types) (view whole.now) (view content.now)) }
{
    match form {
        SourceForm::Typed(style) => {
            let all = declare_templates(alloc, types, whole)?;
            write_typed_source(alloc, style, &all, content)
        }
        SourceForm::Data(charset) => write_source(alloc, charset, content),
    }
}

/// Returns the resources of a content that are selected, as source of Rez.
#[tactic(auto, using(crate::proofs::Sources::some_printed, crate::proofs::Sources::some_not))]
fn some_source(
    alloc: Global,
    form: SourceForm,
    selection: Selection,
    types: Types,
    whole: &Content<'_>,
) -> Result<Vec<u8>, WorkFault>
    ensures made { IfOk result (λ out.
        spec.some_source form selection (types_of types) (view whole.now) ≡ Ok out.items) }
    ensures fault { IfErr result (λ fault.
        Stops fault (spec.some_source form selection (types_of types) (view whole.now))) }
{
    let content = some_selected(alloc, selection, whole)?;
    Ok(source_with(alloc, form, types, whole, &content)?)
}

/// Returns what is selected of a content as source of Rez.
fn selected_source(
    alloc: Global,
    form: SourceForm,
    selection: Selection,
    types: Types,
    whole: &Content<'_>,
) -> Result<Vec<u8>, WorkFault>
    ensures made { IfOk result (λ out.
        spec.selected_source form selection (types_of types) (view whole.now) ≡ Ok out.items) }
    ensures fault { IfErr result (λ fault.
        Stops fault (spec.selected_source form selection (types_of types) (view whole.now))) }
{
    match selection {
        Selection::All => Ok(source_with(alloc, form, types, whole, whole)?),
        Selection::OfType(_) => some_source(alloc, form, selection, types, whole),
        Selection::One(_) => some_source(alloc, form, selection, types, whole),
    }
}

/// Returns what is selected of the fork in the bytes of a file as source of Rez. Statements are
/// printed by types, and by the templates of the whole fork.
///
/// # Errors
///
/// The fault of the bytes; -192 (resNotFound) where no resource is selected of some. If the host is
/// out of memory nothing is said of them.
#[tactic(auto, using(crate::proofs::Sources::printed_of, crate::proofs::Sources::printed_not, crate::proofs::Sources::unprinted))]
pub fn printed(
    alloc: Global,
    form: SourceForm,
    selection: Selection,
    types: Types,
    bytes: &[u8],
) -> Result<Vec<u8>, WorkFault>
    ensures made { IfOk result (λ out. spec.printed form selection (types_of types) bytes.now
        ≡ Ok out.items) }
    ensures fault { IfErr result (λ fault.
        Stops fault (spec.printed form selection (types_of types) bytes.now)) }
{
    let file = open_file(alloc, bytes)?;
    let whole = content_in(alloc, &file)?;
    selected_source(alloc, form, selection, types, &whole)
}
