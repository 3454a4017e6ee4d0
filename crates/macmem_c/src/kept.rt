//! A zone as C keeps it.

ghost use Rattle.std.specs.Prelude.{◌≡◌, Option, Some, None, IsSome};
ghost use Rattle.heap_calls.specs.State.{CountedMemory};

use crate::loose::Loose;
use crate::zone::Zone;
use std::alloc::{Allocator, Global};
use std::marker::Model;
use std::mem::replace;
use std::ptr::null_mut;

/// A boxed zone, of which C sees one pointer; or nothing, whatever the pointer is.
#[repr(C)]
#[derive(Drop)]
pub struct Kept {
    at: *mut u8,
    alloc: Global,
    pub ghost heap: { Option CountedMemory },
}

impl Model for Kept {
    ghost use Rattle.macmem_c.specs.Keeping.{owns_if};
    ghost use Rattle.macmem_c.specs.contracts.zone.Zone.{the_row};

    ghost also_owns = { λ k.
        owns_if (⟦<Global as Allocator>⟧.dealloc_token k.alloc) the_row k.at k.heap };
}

impl Kept {
    /// Keeps nothing.
    fn nothing(alloc: Global) -> Kept
        ensures { result.heap ≡ None }
    {
        Kept {
            at: null_mut(),
            alloc,
        }
    }

    /// Keeps a box that was taken apart.
    fn of_loose(loose: Loose<Zone, Global>) -> Kept
        ensures { result.heap ≡ Some loose.value }
    {
        let Loose { at, alloc } = loose;
        Kept {
            at: at as *mut u8,
            alloc,
        }
    }

    /// Makes the box again.
    fn into_box(self) -> Box<Zone>
        requires { IsSome self.heap }
        ensures { self.heap ≡ Some result.value }
    {
        let Kept { at, alloc } = self;
        unsafe { Box::from_raw(alloc, at as *mut Zone) }
    }

    /// Keeps a boxed zone.
    pub fn of(zone: Box<Zone>) -> Kept
        ensures { result.heap ≡ Some zone.value }
    {
        Kept::of_loose(Loose::of(zone))
    }

    /// Takes the zone out, and leaves nothing.
    pub fn take(&mut self, alloc: Global) -> Box<Zone>
        requires { IsSome self.old.heap }
        ensures taken { self.old.heap ≡ Some result.value }
        ensures left { self.new.heap ≡ None }
    {
        replace(self, Kept::nothing(alloc)).into_box()
    }
}
