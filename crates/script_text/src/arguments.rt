//! The arguments of a call, by the types that are asked for.

ghost use Rattle.std.specs.Prelude.{[], ◌∷◌};
ghost use Rattle.script_text.specs.Argument.{Path, Raw, argument, arguments};
ghost use Rattle.script_text.specs.Reading.{Gives};

use crate::argument::{Argument, path_in};
use crate::fault::FaultKind;
use crate::token::{first_token, trim};
use std::alloc::Global;

/// Reads the argument at the front of a text, and returns it with the text after it; a bad argument
/// where there is none of this type.
#[tactic(auto, unfolding(crate::specs::Argument::argument))]
pub fn first<A: Argument + Drop>(alloc: Global, text: &[u8]) -> Result<(A, &[u8]), FaultKind>
    ensures { Gives (λ x. (A.seen x.0, x.1.now)) result (argument A.kind text.now) }
{
    let (token, rest) = first_token(trim(text))?;
    match A::find(alloc, token)? {
        Some(found) => Ok((found, rest)),
        None => Err(FaultKind::BadArgument),
    }
}

/// Reads the path at the front of a text, and returns it with the text after it; a bad argument
/// where there is none.
#[tactic(auto, unfolding(crate::specs::Argument::argument))]
pub fn path(text: &[u8]) -> Result<(&str, &[u8]), FaultKind>
    ensures { Gives (λ x. (Raw x.0.now, x.1.now)) result (argument Path text.now) }
{
    let (token, rest) = first_token(trim(text))?;
    match path_in(token) {
        Some(path) => Ok((path, rest)),
        None => Err(FaultKind::BadArgument),
    }
}

/// Reads no argument: the text must be at its end.
pub fn none(text: &[u8]) -> Result<(), FaultKind>
    ensures { Gives (λ _. []) result (arguments [] text.now) }
{
    if trim(text).is_empty() {
        Ok(())
    } else {
        Err(FaultKind::BadArgument)
    }
}

/// Reads a path, after which the text must be at its end.
pub fn last_path(text: &[u8]) -> Result<&str, FaultKind>
    ensures { Gives (λ path. Raw path.now ∷ []) result (arguments (Path ∷ []) text.now) }
{
    let (path, rest) = path(text)?;
    none(rest)?;
    Ok(path)
}

/// Reads two paths, after which the text must be at its end.
pub fn two_paths(text: &[u8]) -> Result<(&str, &str), FaultKind>
    ensures { Gives (λ x. Raw x.0.now ∷ Raw x.1.now ∷ []) result
        (arguments (Path ∷ Path ∷ []) text.now) }
{
    let (path, rest) = path(text)?;
    let other = last_path(rest)?;
    Ok((path, other))
}

/// Reads one argument, after which the text must be at its end.
pub fn one<A: Argument + Drop>(alloc: Global, text: &[u8]) -> Result<A, FaultKind>
    ensures { Gives (λ a. A.seen a ∷ []) result (arguments (A.kind ∷ []) text.now) }
{
    let (a, rest) = first(alloc, text)?;
    none(rest)?;
    Ok(a)
}

/// Reads two arguments, after which the text must be at its end.
pub fn two<A: Argument + Drop, B: Argument + Drop>(
    alloc: Global,
    text: &[u8],
) -> Result<(A, B), FaultKind>
    ensures { Gives (λ x. A.seen x.0 ∷ B.seen x.1 ∷ []) result
        (arguments (A.kind ∷ B.kind ∷ []) text.now) }
{
    let (a, rest) = first(alloc, text)?;
    let b = one(alloc, rest)?;
    Ok((a, b))
}

/// Reads three arguments, after which the text must be at its end.
pub fn three<A: Argument + Drop, B: Argument + Drop, C: Argument + Drop>(
    alloc: Global,
    text: &[u8],
) -> Result<(A, B, C), FaultKind>
    ensures { Gives (λ x. A.seen x.0 ∷ B.seen x.1 ∷ C.seen x.2 ∷ []) result
        (arguments (A.kind ∷ B.kind ∷ C.kind ∷ []) text.now) }
{
    let (a, rest) = first(alloc, text)?;
    let (b, c) = two(alloc, rest)?;
    Ok((a, b, c))
}

/// Reads four arguments, after which the text must be at its end.
pub fn four<A: Argument + Drop, B: Argument + Drop, C: Argument + Drop, D: Argument + Drop>(
    alloc: Global,
    text: &[u8],
) -> Result<(A, B, C, D), FaultKind>
    ensures { Gives (λ x. A.seen x.0 ∷ B.seen x.1 ∷ C.seen x.2 ∷ D.seen x.3 ∷ []) result
        (arguments (A.kind ∷ B.kind ∷ C.kind ∷ D.kind ∷ []) text.now) }
{
    let (a, rest) = first(alloc, text)?;
    let (b, c, d) = three(alloc, rest)?;
    Ok((a, b, c, d))
}

/// Reads five arguments, after which the text must be at its end.
pub fn five<
    A: Argument + Drop,
    B: Argument + Drop,
    C: Argument + Drop,
    D: Argument + Drop,
    E: Argument + Drop,
>(alloc: Global, text: &[u8]) -> Result<(A, B, C, D, E), FaultKind>
    ensures { Gives (λ x. A.seen x.0 ∷ B.seen x.1 ∷ C.seen x.2 ∷ D.seen x.3 ∷ E.seen x.4 ∷ [])
        result
        (arguments (A.kind ∷ B.kind ∷ C.kind ∷ D.kind ∷ E.kind ∷ []) text.now) }
{
    let (a, rest) = first(alloc, text)?;
    let (b, c, d, e) = four(alloc, rest)?;
    Ok((a, b, c, d, e))
}
