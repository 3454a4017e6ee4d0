//! What is given for a run.

use mac_words::{FileName, Label};
use script_text::{Event, Script};

/// A file of an application, as it is given.
#[derive(Debug, Drop)]
pub struct AppFile {
    /// The file's name.
    pub name: FileName,
    /// The bytes of the file's resource fork.
    pub fork: Vec<u8>,
}

/// An application, as it is given.
#[derive(Drop)]
pub struct App {
    /// The application's name, which is also the name of its own file.
    pub name: Label,
    /// The bytes of the application's own resource fork.
    pub fork: Vec<u8>,
    /// The application's other files, in order: at most 255.
    pub files: Vec<AppFile>,
    /// The size of the partition that a launch asks for, in bytes, in place of the sizes of its
    /// 'SIZE' -1. It is rounded as they are: down to a multiple of 16, but to at least 512. `None`
    /// stands for those of its 'SIZE' -1.
    pub size: Option<u32>,
    /// The application's script.
    pub script: Script,
}

/// What is given for a run: a memory, a System file, applications, and the events.
#[derive(Drop)]
pub struct Job {
    /// The number of bytes of the memory: 512 to 134,217,728, a multiple of 16.
    pub memory: u32,
    /// The bytes of the System file's resource fork; `None` stands for a fork without resources.
    pub system: Option<Vec<u8>>,
    /// The applications, in order: at most 64.
    pub apps: Vec<App>,
    /// The events, in order. An event names an application by its place among `apps`, from 0.
    pub events: Vec<Event>,
}
