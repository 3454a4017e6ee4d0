//! What is shown of an application that is run alone.

ghost use Rattle.std.specs.Prelude.{◌≡◌, IfOk};
ghost use Rattle.block_store.specs.Block.{fresh, sizes};
ghost use Rattle.zone_replay.specs.Sight.{sight_text};

use crate::behind::show_behind;
use crate::form::Form;
use crate::moments::{Strips, show_moments};
use block_store::BlockStore;
use res_calls::Resources;
use script_text::Script;
use std::alloc::{AllocError, Global};

/// What is shown of an application that is run alone.
#[derive(Clone, Copy, Debug)]
pub enum Sight {
    /// Its zone after so many steps, in a form.
    Zone(usize, Form),
    /// A picture of its zone at moments: after so many steps, and after each further step up to the
    /// second number.
    Moments(usize, usize, Strips),
}

/// Runs a script as an application with these resources in the store of a fresh zone, which is its
/// partition, as far as is to be shown, and returns that. `text` is the text that `script` was read
/// from. The store is returned in its place.
///
/// # Errors
///
/// The host is out of memory; the store is returned all the same.
pub fn show<S: BlockStore>(
    alloc: Global,
    store: S,
    resources: Resources,
    script: &Script,
    text: &[u8],
    sight: Sight,
) -> (Result<Vec<u8>, AllocError>, S)
    requires zone { S.zone store ≡ fresh (sizes (S.zone store)) }
    requires unused { (S.rest store).unused ≡ 64 }
    requires all { (S.rest store).all ≡ 64 }
    requires moves { (S.rest store).moves ≡ 0 }
    ensures shown { IfOk result.0 (λ out. out.items
        ≡ sight_text sight resources (sizes (S.zone store)) script.now text.now) }
    ensures window { (S.rest result.1).window ≡ (S.rest store).window }
{
    match sight {
        Sight::Zone(n, form) => show_behind(alloc, store, resources, script, n, form),
        Sight::Moments(from, to, strips) => {
            show_moments(alloc, store, resources, script, text, from, to, strips)
        }
    }
}
