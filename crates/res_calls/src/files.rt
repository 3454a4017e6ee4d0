//! The files of an application, and those of the files that are open.

ghost use Rattle.std.specs.Prelude.{◌≡◌};
ghost use Rattle.res_calls.specs.View.{view_open};

use mac_words::{FileName, OsErr};
use res_map::ResFile;
use std::marker::Model;

/// A file of an application, as it stands on the disk.
#[derive(Debug, Drop)]
pub struct File {
    /// The name of the file.
    pub name: FileName,
    /// The bytes of the file's resource fork.
    pub fork: Vec<u8>,
    /// Whether the fork was written.
    pub written: bool,
}

/// The place of the application's own file among the application's files.
pub(crate) const OWN_PLACE: usize = 0;

/// An open file.
#[derive(Drop)]
pub struct OpenFile {
    /// The number under which the file was opened; the System file has the number 0.
    pub(crate) number: u32,
    /// The place of the file among the application's files; `None` for the System file.
    pub(crate) file: Option<usize>,
    /// The resource map of the file.
    pub map: ResFile,
    /// Whether references of the file were added, removed or marked as changed since the fork was
    /// last written.
    pub(crate) touched: bool,
}

impl OpenFile {
    /// Returns the number under which the file was opened; the System file has the number 0.
    pub fn number(&self) -> u32
        ensures { result ≡ (view_open self.now).number }
    {
        self.number
    }
}

/// The resources of one application: its files, the open ones among the files, and the
/// application's own copy of the System file's resource map.
///
/// *More Macintosh Toolbox*, chapter 1, "The Resource File Search Path".
#[derive(Drop)]
pub struct Resources {
    pub(crate) files: Vec<File>,
    /// The open files, the file opened last first and the System file last.
    pub(crate) chain: Vec<OpenFile>,
    /// The number of the current file.
    pub(crate) current: u32,
    /// The number that the next opened file gets.
    pub(crate) next: u32,
    /// Whether a fetch reads the stored data of a resource (`SetResLoad`).
    pub(crate) loading: bool,
    /// Whether what was changed is stored as its block is purged (`SetResPurge`).
    pub(crate) purging: bool,
    /// The code that `ResError` returns.
    pub(crate) error: OsErr,
}

impl Model for Resources {
    ghost use Rattle.res_calls.specs.Files.{Resources as ResourcesValue};
    ghost use Rattle.res_calls.specs.Sound.{Sound};
    ghost use Rattle.res_calls.specs.View.{resources_of};

    ghost Value = { ResourcesValue };

    ghost view = { λ r.
        resources_of r.files.items r.chain.items r.current r.next r.loading r.purging r.error };

    ghost invariant = { λ r. Sound
        (resources_of r.files.items r.chain.items r.current r.next r.loading r.purging r.error) };
}
