//! The bytes of resources that are stated by a declaration.

ghost use Rattle.std.specs.Prelude.{map};
ghost use Rattle.rez_types.specs.Encoding.{datum_of_values};
ghost use Rattle.rez_types.specs.View.{declaration_of, values_of};
ghost use Rattle.rez_tokens.specs.View.{token_of};
ghost use Rattle.rez_values.specs.Taken.{taken};
ghost use Rattle.rez_statements.specs.Types as spec;
ghost use Rattle.rez_statements.specs.View.{Gives, bytes_in, values_in};

use crate::fault::{StatementFault, TypesFault};
use crate::statement::{tokens_of, wrong};
use rez_tokens::Token;
use rez_types::{CodingFault, Declaration, Value, encode};
use rez_values::{TakeFault, take};
use std::alloc::Global;

/// Returns the values that tokens state by a declaration.
fn values_by(
    alloc: Global,
    declaration: &Declaration,
    tokens: &[Token],
) -> Result<Vec<Value>, TypesFault>
    ensures { Gives values_in result
        (spec.of_values (taken (declaration_of declaration.now) (map token_of tokens.now))) }
{
    match take(alloc, declaration, tokens) {
        Ok(values) => Ok(values),
        Err(TakeFault::Wrong(fault)) => Err(wrong(fault.line, StatementFault::Value(fault.kind))),
        Err(TakeFault::HostMemory) => Err(TypesFault::HostMemory),
    }
}

/// Returns the bytes of values by a declaration.
fn bytes_by(
    alloc: Global,
    declaration: &Declaration,
    values: &[Value],
) -> Result<Vec<u8>, TypesFault>
    ensures { Gives bytes_in result
        (spec.of_bytes (datum_of_values (declaration_of declaration.now) (values_of values.now))) }
{
    match encode(alloc, declaration, values) {
        Ok(bytes) => Ok(bytes),
        Err(CodingFault::Misfit) => Err(wrong(1, StatementFault::NotEncoded)),
        Err(CodingFault::HostMemory) => Err(TypesFault::HostMemory),
    }
}

/// Returns the bytes of the resource that the text between the braces of a statement `resource`
/// states, by a declaration.
///
/// # Errors
///
/// Returns the line in the text where it can't go on, and what is wrong there; `NotEncoded` where
/// the values have no bytes; `HostMemory` where the host is out of memory.
#[tactic(auto, unfolding(crate::specs::Types::datum_by))]
pub fn datum_by(
    alloc: Global,
    declaration: &Declaration,
    text: &[u8],
) -> Result<Vec<u8>, TypesFault>
    ensures { Gives bytes_in result (spec.datum_by (declaration_of declaration.now) text.now) }
{
    let tokens = tokens_of(alloc, text)?;
    let values = values_by(alloc, declaration, tokens.as_slice())?;
    bytes_by(alloc, declaration, values.as_slice())
}
