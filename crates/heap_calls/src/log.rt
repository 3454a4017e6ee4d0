//! What a heap keeps beside its zone and its names.

ghost use Rattle.std.specs.Prelude.{◌≡◌, if◌then◌else◌};
ghost use Rattle.block_store.specs.Rest.{counted};
ghost use Rattle.heap_calls.specs.Busy.{bar, holds, is_busy, busied, eased, eased_place};

use mac_words::OsErr;

/// What a heap keeps beside its zone and its names: the code that `MemError` returns, the number of
/// searches for room that its calls made, the handles and pointers that are busy, at most three,
/// and how many numbers in all, those given already among them, are to take no host memory.
#[derive(Clone, Copy, Debug, PartialEq, Eq)]
pub struct Log {
    pub code: OsErr,
    pub searches: u64,
    pub busy: [Option<usize>; 3],
    pub reserved: usize,
}

impl Log {
    /// Adds the searches for room of a call to the count, which stays at its greatest value once it
    /// is there.
    pub(crate) fn count(&mut self, searches: u32)
        ensures { self.new ≡ record self.old { searches = counted self.old.searches searches } }
    {
        self.searches = self.searches.saturating_add(u64::from(searches));
    }

    /// Reports whether a number is busy.
    pub(crate) fn is_busy(&self, number: usize) -> bool
        ensures { result ≡ is_busy number self.now.busy }
    {
        let [first, second, third] = self.busy;
        holds(number, first) || holds(number, second) || holds(number, third)
    }

    /// Returns the code that a call on a number is refused with where the number is busy: -117
    /// (memLockedErr).
    pub(crate) fn bar(&self, number: usize) -> Option<OsErr>
        ensures { result ≡ bar (is_busy number self.now.busy) }
    {
        if self.is_busy(number) {
            Some(OsErr::LOCKED)
        } else {
            None
        }
    }

    /// Makes a number busy, or idle again. At most three numbers are busy; a fourth is not kept.
    pub(crate) fn set_busy(&mut self, number: usize, busy: bool)
        ensures { self.new ≡ record self.old
            { busy = if busy then busied number self.old.busy else eased number self.old.busy } }
    {
        let [first, second, third] = self.busy;
        self.busy = if !busy {
            [
                eased(number, first),
                eased(number, second),
                eased(number, third),
            ]
        } else if first.is_none() {
            [Some(number), second, third]
        } else if second.is_none() {
            [first, Some(number), third]
        } else {
            [first, second, third.or(Some(number))]
        };
    }
}

/// Reports whether `place` holds the number.
fn holds(number: usize, place: Option<usize>) -> bool
    ensures { result ≡ holds number place }
{
    place == Some(number)
}

/// Returns `place` without the number.
fn eased(number: usize, place: Option<usize>) -> Option<usize>
    ensures { result ≡ eased_place number place }
{
    if holds(number, place) { None } else { place }
}
