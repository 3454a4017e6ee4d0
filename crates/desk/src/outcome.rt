//! What a run leaves.

ghost use Rattle.std.specs.Prelude.{◌≡◌, ◌≤◌, ◌%◌};
ghost use Rattle.block_store.specs.declared.measures.TheConstants.{GREATEST_ZONE};

use mac_words::{Label, OsErr};
use res_calls::File;
use thiserror::Error;

/// What an application leaves that was launched.
#[derive(Debug, Drop)]
pub struct Launched {
    /// The size of the application's partition in bytes.
    pub size: u32,
    /// The number of steps that the application took; a step with no call left is a quit, and
    /// counts.
    pub steps: usize,
    /// Whether the application ended because it was asked to quit.
    pub asked: bool,
    /// The application's transcript.
    pub transcript: Vec<u8>,
    /// The application's files, in order, its own first, with what was written of them.
    pub files: Vec<File>,
    ghost whole: { size % 16 ≡ 0 },
    ghost least: { 512 ≤ size },
    ghost most: { size ≤ GREATEST_ZONE },
}

/// What an application leaves.
#[derive(Debug, Drop)]
pub struct AppOutcome {
    /// The application's name.
    pub name: Label,
    /// What the application leaves, if it was launched.
    pub launched: Option<Launched>,
}

/// What a run leaves.
#[derive(Debug, Drop)]
pub struct Outcome {
    /// The number of events that were completed. Of a run that did not stop these are all; a run
    /// that stopped leaves what was completed of the next event too, which the numbers of the
    /// applications' steps show.
    pub done: usize,
    /// The desk's log: a line for each launch and each end, and one for each fork that was written;
    /// none for forks where the run stopped.
    pub desk: Vec<u8>,
    /// What the applications leave, in order.
    pub apps: Vec<AppOutcome>,
    /// Whether the host was out of memory in a launch, a step or a quit, or for the lines of forks
    /// that were written. The run stopped there, and the outcome is that of the launches, steps and
    /// quits that were completed before.
    pub stopped: bool,
}

/// The reason why a run has no outcome.
#[derive(Clone, Copy, Debug, PartialEq, Eq, Error)]
pub enum RunFault {
    /// The System file's fork can't be read: -39 (eofErr) if it has no bytes, -199 (mapReadErr) if
    /// they are damaged.
    #[error("the System file can't be read: {}", .0.number())]
    System(OsErr),
    /// The host is out of memory before the first event.
    #[error("the host is out of memory")]
    HostMemory,
}
