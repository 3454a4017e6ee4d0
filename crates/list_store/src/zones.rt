//! A memory whose zones are kept in lists.

ghost use Rattle.std.specs.Prelude.{◌≡◌, ◌≤◌, ◌%◌, [], IfOk, vec_capacity};
ghost use Rattle.memory_windows.specs.declared.list.TheConstants.{MOST_WINDOWS};
ghost use Rattle.block_store.specs.declared.measures.TheConstants.{GREATEST_ZONE};

use crate::store::ListStore;
use block_store::{GREATEST_ZONE, UNIT, ZoneMaker};
use memory_windows::{MOST_WINDOWS, Window, put_window, take_window};
use std::alloc::{AllocError, Global};

/// A memory of which only the length and the open windows are noted: each zone is a `ListStore`,
/// which keeps its bytes elsewhere.
#[derive(Drop)]
pub struct ListZones {
    alloc: Global,
    memory: u32,
    windows: Vec<Window>,
    ghost small: { memory ≤ GREATEST_ZONE },
    ghost room: { MOST_WINDOWS ≤ vec_capacity windows },
}

impl ListZones {
    /// Makes a memory of `len` bytes with no zone in it. The room for the list of open windows is
    /// taken here.
    ///
    /// # Errors
    ///
    /// Returns an error where the host is out of memory.
    pub fn new(alloc: Global, len: u32) -> Result<ListZones, AllocError>
        requires multiple { len % UNIT ≡ 0 }
        requires some { UNIT ≤ len }
        requires small { len ≤ GREATEST_ZONE }
        ensures memory { IfOk result (λ z. ⟦<ListZones as ZoneMaker>⟧.memory z ≡ len) }
        ensures none { IfOk result (λ z. ⟦<ListZones as ZoneMaker>⟧.windows z ≡ []) }
    {
        let windows = Vec::with_capacity(alloc, MOST_WINDOWS)?;
        Ok(ListZones {
            alloc,
            memory: len,
            windows,
        })
    }
}

impl ZoneMaker for ListZones {
    type Store = ListStore;

    ghost use Rattle.std.specs.Prelude.{◌≡◌, None};

    ghost memory = { λ z. z.memory };

    ghost windows = { λ z. z.windows.items };

    ghost made = { λ z w site. site.window.len ≡ w.len };

    ghost left = { λ z w blocks slots. Unit {0} };

    ghost byte = { λ z place. None };

    fn open(&mut self, window: Window) -> Result<ListStore, AllocError> {
        let store = ListStore::new(self.alloc, window.len)?;
        put_window(&mut self.windows, window);
        Ok(store)
    }

    fn close(&mut self, window: Window, store: ListStore) {
        drop(store);
        take_window(&mut self.windows, window);
    }

    ghost small = { λ z. z.small };
}
