//! An application's place at the desk.

ghost use Rattle.std.specs.Prelude.{map, IsTrue};
ghost use Rattle.std.specs.List.{list_all};
ghost use Rattle.fork_format.specs.Content.{Group};
ghost use Rattle.fork_format.specs.Canonical.{has_refs, are_distinct};
ghost use Rattle.fork_format.specs.View.{view};

use crate::job::App;
use crate::live::Live;
use crate::outcome::Launched;
use block_store::BlockStore;
use fork_format::Content;

/// The content of the System file, in which each type of resource stands once, and has resources.
#[derive(Clone, Copy)]
pub struct SystemFile<'j> {
    pub(crate) content: &'j Content<'j>,
    ghost types: { IsTrue (are_distinct (map (λ (g : Group). g.kind) (view content.now).groups)) },
    ghost references: { IsTrue (list_all has_refs (view content.now).groups) },
}

/// An application waits, runs or has ended.
pub enum Phase<'j, S: BlockStore> {
    /// The application waits for its launch.
    Waiting,
    /// The application runs.
    Running(Live<'j, S>),
    /// The application has ended, and this is what it left.
    Ended(Launched),
}

/// An application's place at the desk: what was given for the application, the System file's
/// content, and the application as it waits, runs or has ended.
pub struct Seat<'j, S: BlockStore> {
    pub(crate) system: SystemFile<'j>,
    pub(crate) app: &'j App,
    pub(crate) phase: Phase<'j, S>,
}
