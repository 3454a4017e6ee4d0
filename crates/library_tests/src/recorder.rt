//! A sink that keeps the blocks that are reported to it, and can refuse an offer.

ghost use Rattle.std.specs.Prelude.{◌≡◌, ◌≤◌, length};
ghost use Rattle.heap_calls.specs.Gone.{IsIdle};

use heap_calls::PurgeSink;
use std::alloc::{AllocError, Global};

/// A sink that keeps the blocks that it is offered: the number of each block's handle, and the
/// block's bytes.
#[derive(Drop)]
pub struct Recorder {
    alloc: Global,
    kept: Vec<(usize, Vec<u8>)>,
    committed: usize,
    offers: usize,
    refuses: Option<usize>,
    ghost within: { committed ≤ length kept.items },
}

impl Recorder {
    /// Makes a sink that was offered nothing. It refuses the offer of the number `refuses`, counted
    /// from 0, as where the host is out of memory; where there is no such number, it refuses none.
    pub fn new(alloc: Global, refuses: Option<usize>) -> Recorder
        ensures { IsIdle ⟦<Recorder as PurgeSink>⟧.told ⟦<Recorder as PurgeSink>⟧.waits result }
    {
        Recorder {
            alloc,
            kept: Vec::new(alloc),
            committed: 0,
            offers: 0,
            refuses,
        }
    }

    /// Returns the blocks that were reported to the sink, in order.
    pub fn reported(&self) -> &[(usize, Vec<u8>)] {
        &self.kept[..self.committed]
    }

    /// Reports whether the sink was offered nothing that it neither committed nor forgot.
    pub fn is_idle(&self) -> bool {
        self.committed == self.kept.len()
    }
}

impl PurgeSink for Recorder {
    ghost use Rattle.std.specs.Prelude.{true, map, take};

    ghost listens = { λ _. true };

    ghost told = { λ sink gone. gone
        ≡ map (λ p. (p.0, p.1.items)) (take sink.committed sink.kept.items) };

    ghost waits = { λ sink gone. gone ≡ map (λ p. (p.0, p.1.items)) sink.kept.items };

    fn listens(&self) -> bool {
        true
    }

    fn offer(&mut self, handle: usize, bytes: &[u8]) -> Result<(), AllocError> {
        let number = self.offers;
        self.offers = number.saturating_add(1);
        if self.refuses == Some(number) {
            return Err(AllocError);
        }
        let copied = Vec::from_slice(self.alloc, bytes)?;
        self.kept.push((handle, copied))?;
        Ok(())
    }

    fn commit(&mut self) {
        self.committed = self.kept.len();
    }

    fn forget(&mut self) {
        self.kept.truncate(self.committed);
    }
}
