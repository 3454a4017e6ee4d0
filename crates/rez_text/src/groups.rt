//! The resources that a source states, by type.

ghost use Rattle.std.specs.Prelude.{◌≡◌, ℕ};
ghost use Rattle.std.specs.BTreeMap.{get};
ghost use Rattle.std.specs.List.{position};
ghost use Rattle.std.specs.Ordering.{nat_cmp};
ghost use Rattle.std.proofs.Props.{props};
ghost use Rattle.rez_text.specs.Groups.{is_of};

use crate::source::SourceGroup;
use std::collections::BTreeMap;

/// Resources by type, in the order in which the types first occur.
#[derive(Drop)]
pub(crate) struct SourceGroups {
    pub list: Vec<SourceGroup>,
    /// The place of each type's group in the list.
    pub places: BTreeMap<u32, usize>,
    ghost placed: { (kind : ℕ)
        → get nat_cmp places kind ≡ position (is_of kind) list.items } by { Prim.hlevel props },
}
