//! How a request that was done ends.

ghost use Rattle.std.specs.Prelude.{◌≡◌};
ghost use Rattle.fork_tasks.specs.Ending.{status_of, ending_of};

/// How a request that was done ends.
#[derive(Clone, Copy)]
pub enum Ending {
    /// All was done.
    Done,
    /// Two contents were compared, and differ.
    Differs,
}

impl Ending {
    /// Returns the status with which the program ends: 1 where two contents differ, else 0.
    pub fn status(self) -> u8
        ensures { result ≡ status_of self }
    {
        match self {
            Ending::Done => 0,
            Ending::Differs => 1,
        }
    }

    /// Returns the ending of a comparison.
    pub fn of(differs: bool) -> Ending
        ensures { result ≡ ending_of differs }
    {
        if differs {
            Ending::Differs
        } else {
            Ending::Done
        }
    }
}
