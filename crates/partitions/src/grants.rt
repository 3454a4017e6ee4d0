//! The partitions that are granted.

ghost use Rattle.std.specs.Prelude.{◌≡◌, ◌≤◌, ◌%◌, vec_capacity};
ghost use Rattle.std.specs.List.{All};
ghost use Rattle.memory_windows.specs.declared.list.TheConstants.{MOST_WINDOWS};
ghost use Rattle.memory_windows.specs.Windows.{InOrder};
ghost use Rattle.partitions.specs.Granted.{HoldsZone, InOrder-prop};

use crate::fault::GrantFault;
use crate::finding::granted;
use memory_windows::{MOST_WINDOWS, Window, put_window, take_window};
use std::alloc::{AllocError, Global};
use std::marker::Model;

/// A memory, and the partitions that are granted in it, as windows in the order of their places.
#[derive(Drop)]
pub struct Grants {
    memory: u32,
    windows: Vec<Window>,
    ghost multiple: { memory % 16 ≡ 0 },
    ghost room: { MOST_WINDOWS ≤ vec_capacity windows },
    ghost order: { InOrder 0 windows.items memory } by { InOrder-prop 0 windows.items memory },
    ghost zones: { All HoldsZone windows.items },
}

impl Model for Grants {
    ghost use Rattle.partitions.specs.Granted.{Granted};

    ghost Value = { Granted };

    ghost view = { λ g. record {
      memory = g.memory;
      windows = g.windows.items;
      partitions = ∣ record { order = g.order; zones = g.zones } ∣₁;
    } };
}

impl Grants {
    ghost use Rattle.std.specs.Prelude.{◌<◌, ◌+◌, [], length, IfOk, OnErr, IfErr};
    ghost use Rattle.std.specs.List.{Contains};
    ghost use Rattle.std.specs.Option.{ok_or};
    ghost use Rattle.memory_windows.specs.Windows.{put_in, taken_out, IsApart};
    ghost use Rattle.partitions.specs.Grant.{grant};
    ghost use Rattle.partitions.specs.declared.fault.GrantFault.TheVariants as grant_fault;

    /// Makes a memory of `len` bytes in which no partition is granted. The room for 64 windows is
    /// taken here, so no other call takes host memory.
    ///
    /// # Errors
    ///
    /// Returns an error where the host is out of memory.
    pub fn new(alloc: Global, len: u32) -> Result<Grants, AllocError>
        requires multiple { len % 16 ≡ 0 }
        ensures memory { IfOk result (λ g. g.memory ≡ len) }
        ensures none { IfOk result (λ g. g.windows ≡ []) }
    {
        let windows = Vec::with_capacity(alloc, MOST_WINDOWS)?;
        Ok(Grants {
            memory: len,
            windows,
        })
    }

    /// Grants a launched application its partition: of the preferred size, at the lower end of the
    /// lowest hole that has as many bytes; else the whole largest hole, the lowest of equals, if
    /// the hole has at least the minimum size. No host memory is taken.
    ///
    /// *Inside Macintosh: Processes*, chapter 2, "Launching Other Applications".
    ///
    /// # Errors
    ///
    /// Returns `NoRoom` where no hole has the minimum size. Nothing is granted then.
    pub fn grant(&mut self, preferred: u32, minimum: u32) -> Result<Window, GrantFault>
        requires multiple { preferred % 16 ≡ 0 }
        requires least { 512 ≤ minimum }
        requires sizes { minimum ≤ preferred }
        requires few { length self.old.windows < MOST_WINDOWS }
        ensures answer { result
            ≡ ok_or (grant self.old.memory self.old.windows preferred minimum) grant_fault.NoRoom }
        ensures memory { self.new.memory ≡ self.old.memory }
        ensures granted { IfOk result (λ w. self.new.windows ≡ put_in w self.old.windows) }
        ensures inside { IfOk result (λ w. w.at + w.len ≤ self.old.memory) }
        ensures apart { IfOk result (λ w. IsApart w.at w.len self.old.windows) }
        ensures zone { IfOk result HoldsZone }
        ensures enough { IfOk result (λ w. minimum ≤ w.len) }
        ensures most { IfOk result (λ w. w.len ≤ preferred) }
        ensures refused { OnErr result (self.new ≡ self.old) }
        ensures host { IfErr result (λ e. e ≡ grant_fault.NoRoom) }
    {
        match granted(self.memory, &self.windows, preferred, minimum) {
            Some(window) => {
                put_window(&mut self.windows, window);
                Ok(window)
            }
            None => Err(GrantFault::NoRoom),
        }
    }

    /// Takes back the partition of an application that has ended, and no other partition. No host
    /// memory is taken.
    #[tactic(auto, using(crate::proofs::Order::free_given_back))]
    pub fn give_back(&mut self, window: Window)
        requires { Contains self.old.windows window }
        ensures memory { self.new.memory ≡ self.old.memory }
        ensures windows { self.new.windows ≡ taken_out window self.old.windows }
        ensures free { IsApart window.at window.len self.new.windows }
    {
        take_window(&mut self.windows, window);
    }

    /// Returns the granted windows, in the order of their places.
    pub fn windows(&self) -> &[Window]
        ensures windows { result.now ≡ self.now.windows }
        ensures order { InOrder 0 self.now.windows self.now.memory }
        ensures zones { All HoldsZone self.now.windows }
    {
        &self.windows
    }
}
