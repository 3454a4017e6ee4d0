//! The contract of a memory in which zones are opened and closed.

ghost use Rattle.std.specs.Prelude.{◌≡◌, ℕ, ◌+◌, ◌≤◌, ◌<◌, ◌%◌, List, Option, length, false};
ghost use Rattle.std.specs.Prelude.{IsTrue, IsErr, IfOk, OnOk, OnErr};
ghost use Rattle.std.specs.List.{Contains};
ghost use Rattle.memory_windows.specs.declared.Window.{Window};
ghost use Rattle.memory_windows.specs.declared.list.TheConstants.{MOST_WINDOWS};
ghost use Rattle.memory_windows.specs.Outside.{IsOutside};
ghost use Rattle.memory_windows.specs.Windows.{IsApart, Misses, with_window, without_window};
ghost use Rattle.block_store.specs.Block.{Block, fresh};
ghost use Rattle.block_store.specs.Slot.{Slot, is_used};
ghost use Rattle.block_store.specs.Rest.{Site};
ghost use Rattle.block_store.specs.declared.measures.TheConstants.{GREATEST_ZONE, LEAST_ZONE};
ghost use Rattle.block_store.specs.declared.measures.TheConstants.{SLOTS_A_BLOCK, UNIT};

use crate::store::BlockStore;
use memory_windows::Window;
use std::alloc::AllocError;

/// A memory in which zones are opened and closed. Each zone lies in a window of its own, as each
/// application has a partition of its own, and no byte of the memory is in two windows. At most
/// `MOST_WINDOWS` windows are open at a time.
///
/// *Inside Macintosh: Processes*, chapter 1.
pub trait ZoneMaker {
    type Store: BlockStore;

    /// The size of the memory in bytes.
    ghost memory: { Self → ℕ };

    /// The open windows, in the order of their places.
    ghost windows: { Self → List Window };

    /// A store that lies at this site has its zone in this window of this memory.
    ghost made: { Self → Window → Site → Type 0 };

    /// The bytes in a window are those of a zone of these blocks and these master pointers. Where
    /// the memory has no bytes, this says nothing.
    ghost left: { Self → Window → List Block → (ℕ → Slot) → Type 0 };

    /// The byte at a place of the memory, where the place is in no open window; none where the
    /// memory has no bytes.
    ghost byte: { Self → ℕ → Option ℕ };

    /// Opens a fresh zone in a window: a master pointer block of 64 master pointers, and one free
    /// block of the other bytes.
    ///
    /// # Errors
    ///
    /// Returns an error where the host is out of memory. Nothing is changed then.
    fn open(&mut self, window: Window) -> Result<Self::Store, AllocError>
        requires multiples { (window.at % UNIT ≡ 0) × (window.len % UNIT ≡ 0) }
        requires large { LEAST_ZONE ≤ window.len }
        requires inside { window.at + window.len ≤ memory self.old }
        requires apart { IsApart window.at window.len (windows self.old) }
        requires few { length (windows self.old) < MOST_WINDOWS }
        ensures zone { IfOk result (λ s. Self.Store.zone s ≡ fresh window.len) }
        ensures no_handle { IfOk result (λ s. (number : ℕ)
            → is_used ((Self.Store.rest s).slots number) ≡ false) }
        ensures unused { IfOk result (λ s. (Self.Store.rest s).unused ≡ SLOTS_A_BLOCK) }
        ensures all { IfOk result (λ s. (Self.Store.rest s).all ≡ SLOTS_A_BLOCK) }
        ensures moves { IfOk result (λ s. (Self.Store.rest s).moves ≡ 0) }
        ensures placed { IfOk result (λ s. (Self.Store.rest s).placed ≡ 0) }
        ensures made { IfOk result (λ s. made self.new window (Self.Store.rest s).window) }
        ensures opened { OnOk result (windows self.new
            ≡ with_window window.at window.len (windows self.old)) }
        ensures err { OnErr result (self.new ≡ self.old) }
        ensures host { IsErr result → IsTrue Self.Store.TAKES_HOST }
        ensures memory { memory self.new ≡ memory self.old }
        ensures kept { (w : Window) (site : Site) → made self.old w site → made self.new w site }
        ensures left { (w : Window) (blocks : List Block) (slots : ℕ → Slot) →
            Misses w window → left self.old w blocks slots → left self.new w blocks slots }
        ensures outside { (place : ℕ) → IsOutside place window
            → byte self.new place ≡ byte self.old place };

    /// Closes the zone of a window. The bytes of the zone stay as they are until a window that
    /// meets them is opened.
    fn close(&mut self, window: Window, store: Self::Store)
        requires made { made self.old window (Self.Store.rest store).window }
        requires open { Contains (windows self.old) window }
        ensures closed { windows self.new ≡ without_window window.at window.len (windows self.old) }
        ensures memory { memory self.new ≡ memory self.old }
        ensures kept { (w : Window) (site : Site) → made self.old w site → made self.new w site }
        ensures lies { left self.new window (Self.Store.zone store) (Self.Store.rest store).slots }
        ensures left { (w : Window) (blocks : List Block) (slots : ℕ → Slot) →
            Misses w window → left self.old w blocks slots → left self.new w blocks slots }
        ensures outside { (place : ℕ) → IsOutside place window
            → byte self.new place ≡ byte self.old place };

    /// A memory has at most 2^27 bytes.
    ghost small: { (maker : Self) → memory maker ≤ GREATEST_ZONE };
}
