//! The types that are declared.

ghost use Rattle.std.specs.Prelude.{◌≡◌, ℕ};
ghost use Rattle.std.specs.BTreeMap.{get};
ghost use Rattle.std.specs.Ordering.{nat_cmp};
ghost use Rattle.std.proofs.Props.{props};
ghost use Rattle.rez_statements.specs.Places.{last_place};

use rez_types::Declaration;
use std::alloc::Global;
use std::collections::BTreeMap;
use std::rc::Rc;

/// A type with a declaration.
#[derive(Drop)]
pub struct DeclaredType {
    /// The number of the type's four bytes, the highest first.
    pub kind: u32,
    /// Its declaration, which other types may have too.
    pub declaration: Rc<Declaration>,
}

/// Types that are declared, in the order of their declarations. A type may have several; the last
/// one is in force.
#[derive(Drop)]
pub struct Types {
    pub(crate) alloc: Global,
    pub(crate) list: Vec<DeclaredType>,
    /// The place of each type's last declaration in the list.
    pub(crate) places: BTreeMap<u32, usize>,
    ghost placed: { (kind : ℕ)
        → get nat_cmp places kind ≡ last_place kind list.items } by { Prim.hlevel props },
}
