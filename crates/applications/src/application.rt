//! A running application, its launch, and the parts that are returned after its end.

ghost use Rattle.std.specs.Prelude.{◌≡◌, map, IfOk, IfErr};
ghost use Rattle.block_store.specs.Block.{fresh, sizes};
ghost use Rattle.heap_calls.specs.Stored.{IsStored};
ghost use Rattle.res_calls.specs.View.{view_file};
ghost use Rattle.applications.specs.Trying.{launched, launched_with};

use crate::names::Names;
use crate::own::own_resources;
use block_store::BlockStore;
use heap_calls::Heap;
use mac_words::OsType;
use res_calls::{File, Resources};
use script_text::Line;
use segments::JumpTable;
use std::alloc::{AllocError, Global};
use std::marker::Model;

/// The resource type of segments.
const CODE: OsType = OsType(*b"CODE");

/// A running application: its heap, its resources, its jump table, the numbers to which the names
/// of its script are bound, and the lines of its grow-zone script, or no lines where no grow-zone
/// script is set.
#[derive(Drop)]
pub struct Application<'s, S: BlockStore> {
    pub(crate) alloc: Global,
    pub(crate) heap: Heap<S>,
    pub(crate) resources: Resources,
    pub(crate) table: JumpTable,
    pub(crate) names: Names,
    pub(crate) grow: &'s [Line],
}

impl<'s, S: BlockStore> Model for Application<'s, S> {
    ghost use Rattle.std.specs.Prelude.{◌≡◌, true};
    ghost use Rattle.script_text.specs.Script.{are_allowed};
    ghost use Rattle.applications.specs.Trying.{Running};

    ghost Value = { Running };

    ghost view = { λ a. record {
      memory = a.heap.memory;
      resources = a.resources;
      table = a.table;
      names = a.names;
      grow = a.grow.now;
    } };

    ghost invariant = { λ a. are_allowed a.grow.now ≡ true };
}

impl<'s, S: BlockStore> Application<'s, S> {
    /// Launches an application with these resources in the store of a fresh zone, which is its
    /// partition: the jump table is read from 'CODE' 0, and the resources of the application's fork
    /// that have resPreload are preloaded.
    ///
    /// *Inside Macintosh: Processes*, chapter 2, "Launching Applications".
    ///
    /// # Errors
    ///
    /// Returns the store, in its place, where the host is out of memory; the resources are
    /// released.
    pub fn launch_with(alloc: Global, store: S, resources: Resources) -> Result<Self, S>
        requires zone { S.zone store ≡ fresh (sizes (S.zone store)) }
        requires unused { (S.rest store).unused ≡ 64 }
        requires all { (S.rest store).all ≡ 64 }
        requires moves { (S.rest store).moves ≡ 0 }
        ensures launched { IfOk result (λ a. a
            ≡ launched_with resources (sizes (S.zone store)) (S.rest store).window) }
        ensures back { IfErr result (λ back. (S.rest back).window ≡ (S.rest store).window) }
    {
        let mut resources = resources;
        let Ok(table) = JumpTable::read(alloc, resources.own_datum(CODE, 0)) else {
            return Err(store);
        };
        let mut heap = Heap::new(alloc, store);
        let Ok(()) = resources.preload(alloc, &mut heap) else {
            return Err(heap.into_store());
        };
        Ok(Application {
            alloc,
            heap,
            resources,
            table,
            names: Names::new(alloc),
            grow: &[],
        })
    }

    /// Returns the application's heap, to be read.
    pub fn heap(&self) -> &Heap<S>
        ensures { result.now.memory ≡ self.now.memory }
    {
        &self.heap
    }

    /// Returns the application's resources, to be read.
    pub fn resources(&self) -> &Resources
        ensures { result.now ≡ self.now.resources }
    {
        &self.resources
    }

    /// Returns the names that the application's script has bound so far.
    pub fn names(&self) -> &Names
        ensures { result.now ≡ self.now.names }
    {
        &self.names
    }

    /// Releases the application, and returns its store as it is, and its files, in order.
    pub fn into_parts(self) -> (S, Vec<File>)
        ensures files { map view_file result.1.items ≡ self.entry.resources.files }
        ensures stored { IsStored (S.zone result.0) (S.rest result.0).slots self.entry.memory.heap }
        ensures window { (S.rest result.0).window ≡ self.entry.memory.window }
    {
        let Application {
            alloc: _alloc,
            heap,
            resources,
            table,
            names,
            grow: _grow,
        } = self;
        drop(table);
        drop(names);
        (heap.into_store(), resources.into_files())
    }
}

impl<'s, S: BlockStore + Drop> Application<'s, S> {
    /// Launches an application that is only a script, with no resources, in the store of a fresh
    /// zone, which is its partition.
    ///
    /// # Errors
    ///
    /// Returns an error where the host is out of memory for the application's resource fork; the
    /// store is released.
    pub fn launch(alloc: Global, store: S) -> Result<Self, AllocError>
        requires zone { S.zone store ≡ fresh (sizes (S.zone store)) }
        requires unused { (S.rest store).unused ≡ 64 }
        requires all { (S.rest store).all ≡ 64 }
        requires moves { (S.rest store).moves ≡ 0 }
        ensures { IfOk result (λ a. a ≡ launched (sizes (S.zone store)) (S.rest store).window) }
    {
        let resources = own_resources(alloc)?;
        match Application::launch_with(alloc, store, resources) {
            Ok(application) => Ok(application),
            Err(_) => Err(AllocError),
        }
    }
}
