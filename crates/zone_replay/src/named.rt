//! What a name of a script stands for as a zone lies.

ghost use Rattle.std.specs.Prelude.{◌≡◌, map, IfOk, option_map};
ghost use Rattle.applications.specs.Names.{bound_to, lent_binding};
ghost use Rattle.zone_replay.specs.Shown.{numbered, choice_of, listing_of, pointer_content};
ghost use Rattle.zone_replay.specs.Shown.{content_in, content_of};
ghost use Rattle.zone_replay.specs.Spelled.{spelled};

use crate::form::{BlockName, Details, Only};
use applications::{Bound, Names};
use block_store::BlockStore;
use heap_calls::Heap;
use std::alloc::{AllocError, Global};
use zone_drawing::{Choice, Listing, Style};

/// Returns the number that a name is bound to, or `None` for an unbound name.
fn number_in(bound: &[Bound<'_>], name: &[u8]) -> Option<usize>
    ensures { result ≡ bound_to name.now (map lent_binding bound.now) }
{
    for one in bound {
        if name == one.name.0.as_slice() {
            return Some(one.number);
        }
    }
    None
}

/// Returns the number that a name of a script is bound to, or `None` for an unbound name.
pub fn number_of(alloc: Global, names: &Names, name: BlockName) -> Result<Option<usize>, AllocError>
    ensures { IfOk result (λ number. number ≡ bound_to (spelled name) names.now) }
{
    let bound = names.bound(alloc)?;
    Ok(number_in(bound.as_slice(), name.as_bytes()))
}

/// Returns the choice of the block of a number.
fn numbered(number: Option<usize>) -> Choice
    ensures { result ≡ numbered number }
{
    match number {
        Some(number) => Choice::Of(number),
        None => Choice::Nothing,
    }
}

/// Returns the blocks that are listed.
fn choice_of(alloc: Global, names: &Names, only: Only) -> Result<Choice, AllocError>
    ensures { IfOk result (λ choice. choice ≡ choice_of names.now only) }
{
    match only {
        Only::Blocks(choice) => Ok(choice),
        Only::Named(name) => {
            let number = number_of(alloc, names, name)?;
            Ok(numbered(number))
        }
    }
}

/// Returns how a zone is listed in a style.
pub fn listing_of(
    alloc: Global,
    names: &Names,
    details: Details,
    style: Style,
) -> Result<Listing, AllocError>
    ensures { IfOk result (λ listing. listing ≡ listing_of names.now details style) }
{
    let choice = choice_of(alloc, names, details.only)?;
    Ok(Listing {
        style,
        digits: details.digits,
        choice,
    })
}

/// Returns the bytes of the block of a number's pointer; `None` where it has none, or while a call
/// waits that names it.
fn pointer_content<S: BlockStore>(heap: &Heap<S>, number: usize) -> Option<&[u8]>
    ensures { option_map (λ b. b.now) result ≡ pointer_content heap.now.memory number }
{
    match heap.show_pointer(Some(number)) {
        Ok(bytes) => Some(bytes),
        Err(_) => None,
    }
}

/// Returns the bytes of the block of a number's handle or pointer; `None` where it has none.
fn content_in<S: BlockStore>(heap: &Heap<S>, number: usize) -> Option<&[u8]>
    ensures { option_map (λ b. b.now) result ≡ content_in heap.now.memory number }
{
    match heap.bytes(number) {
        Some(bytes) => Some(bytes),
        None => pointer_content(heap, number),
    }
}

/// Returns the bytes of the block of what a name stands for; `None` where that has none, or the
/// name stands for nothing.
pub fn content_of<S: BlockStore>(heap: &Heap<S>, number: Option<usize>) -> Option<&[u8]>
    ensures { option_map (λ b. b.now) result
        ≡ content_of (λ n. content_in heap.now.memory n) number }
{
    match number {
        Some(number) => content_in(heap, number),
        None => None,
    }
}
