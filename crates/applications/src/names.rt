//! The names of a script.

ghost use Rattle.std.specs.Prelude.{◌≡◌, [], map, IfOk, OnOk, OnErr};
ghost use Rattle.applications.specs.Names.{Bindings, bound_to, bind, binding, lent_binding};

use crate::keyed::Keyed;
use arrayvec::ArrayVec;
use indexmap::IndexMap;
use mac_words::Label;
use std::alloc::{AllocError, Global};
use std::marker::Model;

/// The names that a script has bound so far, and the numbers of their handles and pointers. Names
/// are hashed by a key that depends on the script's whole text, so no choice of names makes a
/// look-up slow.
#[derive(Drop)]
pub struct Names {
    alloc: Global,
    bound: IndexMap<Label, usize, Keyed>,
}

/// A name that is bound, with the number of its handle or pointer.
#[derive(Clone, Copy, Debug)]
pub struct Bound<'a> {
    pub name: &'a Label,
    pub number: usize,
}

impl Model for Names {
    ghost Value = { Bindings };

    ghost view = { λ n. map binding n.bound.entries };
}

/// Returns a copy of a name.
fn copy_of(name: &Label) -> Label
    ensures { result.0.items ≡ name.now.0.items }
{
    let mut bytes = ArrayVec::new();
    match bytes.try_extend_from_slice(name.0.as_slice()) {
        Ok(()) => Label(bytes),
        Err(_) => unreachable!(),
    }
}

/// Returns the names of a map, in their order, each with its number.
fn listed(
    alloc: Global,
    bound: &IndexMap<Label, usize, Keyed>,
) -> Result<Vec<Bound<'_>>, AllocError>
    ensures { IfOk result (λ listed. map lent_binding listed.items
        ≡ map binding bound.now.entries) }
{
    let mut listed = Vec::new(alloc);
    for (name, number) in bound {
        listed.push(Bound {
            name,
            number: *number,
        })?;
    }
    Ok(listed)
}

impl Names {
    /// Returns names of which no name is bound.
    pub fn new(alloc: Global) -> Names
        ensures { result ≡ [] }
    {
        Names {
            alloc,
            bound: IndexMap::with_hasher(alloc, Keyed::by(0)),
        }
    }

    /// Has names hashed by a key from now on, if no name is bound yet.
    pub(crate) fn hash_by(&mut self, key: u64)
        ensures { self.new ≡ self.old }
    {
        if self.bound.is_empty() {
            self.bound = IndexMap::with_hasher(self.alloc, Keyed::by(key));
        }
    }

    /// Returns the number that a name is bound to, or `None` for an unbound name.
    pub fn number(&self, name: &Label) -> Option<usize>
        ensures { result ≡ bound_to name.now.0.items self.now }
    {
        self.bound.get(name).copied()
    }

    /// Returns the names that are bound, in their order, each with its number.
    pub fn bound(&self, alloc: Global) -> Result<Vec<Bound<'_>>, AllocError>
        ensures { IfOk result (λ bound. map lent_binding bound.items ≡ self.now) }
    {
        listed(alloc, &self.bound)
    }

    /// Binds a name to a number, in place of the number that the name was bound to before. Where
    /// the host is out of memory, the names are bound as they were.
    pub fn bind(&mut self, name: &Label, number: usize) -> Result<(), AllocError>
        ensures bound { OnOk result (self.new ≡ bind name.now.0.items number self.old) }
        ensures kept { OnErr result (self.new ≡ self.old) }
    {
        self.bound.insert(copy_of(name), number)?;
        Ok(())
    }
}
