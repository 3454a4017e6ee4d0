//! What is stored of the blocks that a call purges.
//!
//! *More Macintosh Toolbox*, chapter 1, "SetResPurge".

ghost use Rattle.std.specs.Prelude.{◌≡◌, ◌≤◌, true, ◌++◌, ◌∷◌, [], map, take, drop, length};
ghost use Rattle.std.specs.Prelude.{is_some, Some};
ghost use Rattle.res_calls.specs.Files.{Found, Resources as ResourcesValue};
ghost use Rattle.res_calls.specs.Places.{found_at, chained};
ghost use Rattle.res_calls.specs.Purging.{PurgesValue, heard, stored_found, stored_gone};
ghost use Rattle.res_calls.specs.Purging.{view_purged};
ghost use Rattle.res_calls.specs.View.{view_open};

use crate::files::{OpenFile, Resources};
use crate::find::{Spot, has_bit_at, store};
use heap_calls::PurgeSink;
use mac_words::Attrs;
use std::alloc::{AllocError, Global};
use std::marker::Model;

/// A block that was purged.
#[derive(Debug, Drop)]
pub struct Purged {
    /// The number of the block's handle.
    pub handle: usize,
    /// The bytes of the block.
    pub bytes: Vec<u8>,
}

/// The sink that a call of either manager is given: it keeps a copy of each block that is reported
/// to it, until `Resources::store_purged` stores what is to be stored of it.
#[derive(Drop)]
pub struct Purges {
    alloc: Global,
    on: bool,
    /// The blocks that were offered, in order; of these the first were committed.
    kept: Vec<Purged>,
    committed: usize,
}

impl Model for Purges {
    ghost Value = { PurgesValue };

    ghost view = { λ p. record {
      on = p.on;
      told = take p.committed (map view_purged p.kept.items);
      offered = drop p.committed (map view_purged p.kept.items);
    } };

    ghost invariant = { λ p. p.committed ≤ length p.kept.items };
}

impl Purges {
    /// Makes a sink to which nothing was reported. It listens only where `on` is set.
    pub fn new(alloc: Global, on: bool) -> Purges
        ensures { result ≡ record { on = on; told = []; offered = [] } }
    {
        Purges {
            alloc,
            on,
            kept: Vec::new(alloc),
            committed: 0,
        }
    }

    /// Returns the blocks that were reported to the sink, in order; none where it did not listen.
    pub fn into_told(self) -> Vec<Purged>
        ensures { map view_purged result.items ≡ heard self.on self.told }
    {
        let Purges {
            alloc,
            on,
            kept,
            committed,
        } = self;
        if !on {
            return Vec::new(alloc);
        }
        let mut told = kept;
        told.truncate(committed);
        told
    }
}

impl PurgeSink for Purges {
    ghost listens = { λ p. p.on };

    ghost told = { λ p gone. p.on ≡ true → p.told ≡ gone };

    ghost waits = { λ p gone. p.on ≡ true → p.told ++ p.offered ≡ gone };

    fn listens(&self) -> bool {
        self.on
    }

    fn offer(&mut self, handle: usize, bytes: &[u8]) -> Result<(), AllocError> {
        if !self.on {
            return Ok(());
        }
        let bytes = Vec::from_slice(self.alloc, bytes)?;
        self.kept.push(Purged { handle, bytes })?;
        Ok(())
    }

    fn commit(&mut self) {
        self.committed = self.kept.len();
    }

    fn forget(&mut self) {
        self.kept.truncate(self.committed);
    }
}

/// Stores the bytes of a purged block as the stored data of the reference at `at`. Does nothing
/// where the resource was not changed, or is protected.
fn store_at(files: &mut Vec<OpenFile>, at: Spot, bytes: Vec<u8>)
    requires { is_some (found_at at (map view_open files.old.items)) ≡ true }
    ensures { (r : ResourcesValue) (f : Found)
        → found_at at (map view_open files.old.items) ≡ Some f
        → stored_found (Some f) bytes.items (chained files.old.items r)
        ≡ chained files.new.items r }
{
    if !has_bit_at(files, at, Attrs::CHANGED) || has_bit_at(files, at, Attrs::PROTECTED) {
        return;
    }
    store(files, at, bytes);
}

impl Resources {
    /// Reports whether what was changed is stored as its block is purged, as `SetResPurge` has
    /// set it.
    pub fn purging(&self) -> bool
        ensures { result ≡ self.now.purging }
    {
        self.purging
    }

    /// Stores the bytes of a purged block as the stored data of the block's resource, where the
    /// resource was changed and is not protected.
    fn store_one(&mut self, purged: Purged)
        ensures { self.new ≡ stored_gone (view_purged purged ∷ []) self.old }
    {
        if let Some(at) = self.find_handle(Some(purged.handle)) {
            store_at(&mut self.chain, at, purged.bytes);
        }
    }

    /// Stores what is to be stored of the blocks that a call purged, in order.
    pub fn store_purged(&mut self, purged: Vec<Purged>)
        ensures { self.new ≡ stored_gone (map view_purged purged.items) self.old }
    {
        for block in purged {
            self.store_one(block);
        }
    }
}
