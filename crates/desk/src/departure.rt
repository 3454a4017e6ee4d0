//! An application leaves the desk.

use crate::outcome::{AppOutcome, Launched};
use crate::partition::OpenZone;
use block_store::BlockStore;
use mac_words::{Label, OsErr};
use memory_windows::Window;

/// What an application gives back as it ends.
pub struct Departure<'j, S: BlockStore> {
    /// The application's name.
    pub(crate) name: &'j Label,
    /// The application's window of the memory.
    pub(crate) window: Window,
    /// The result code of the application's end.
    pub(crate) code: OsErr,
    /// The store of the application's zone.
    pub(crate) store: S,
}

/// What an application leaves that runs, as it stands.
pub struct LiveParts<S: BlockStore> {
    /// What the application leaves to be told.
    pub(crate) launched: Launched,
    /// The application's zone.
    pub(crate) zone: OpenZone<S>,
}

/// What an application leaves at its place, as the desk is finished.
pub struct SeatParts<S: BlockStore> {
    /// What the application leaves to be told.
    pub(crate) app: AppOutcome,
    /// The application's zone, if it is open.
    pub(crate) zone: Option<OpenZone<S>>,
}
