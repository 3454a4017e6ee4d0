//! The watch of a run.

ghost use Rattle.std.specs.Prelude.{◌≡◌, ℕ, Option, None, List, [], ◌∷◌};
ghost use Rattle.std.specs.Io.KnownBytes.{append_known};
ghost use Rattle.applications.specs.Reports.{report};

/// A watch, to which the progress of a run is reported.
pub trait Watch {
    /// The reports so far, in order, where they are known: after how many steps or events each was
    /// made.
    ghost heard: { Self → Option (List ℕ) } = { λ _. None };

    /// Receives a report of the progress: `done` steps or events, of `of` in all, are done.
    fn done(&mut self, done: usize, of: usize)
        ensures heard { heard self.new ≡ append_known (heard self.old) (done ∷ []) };
}

/// A watch that does nothing.
#[derive(Clone, Copy, Debug)]
pub struct Unwatched;

impl Watch for Unwatched {
    fn done(&mut self, _done: usize, _of: usize) {}
}

/// The greatest number of reports of one run.
const MOST: usize = 100;

/// Reports to a watch that `done` steps or events, of `of` in all, are done: after each hundredth
/// of them, and after the last.
pub fn tell<W: Watch>(watch: &mut W, done: usize, of: usize)
    ensures heard { W.heard watch.new ≡ append_known (W.heard watch.old) (report done of) }
{
    let stride = of.div_ceil(MOST).max(1);
    if done == of || done % stride == 0 {
        watch.done(done, of);
    }
}
