//! What updates replaced of the files of an application, and how it is put back.

ghost use Rattle.std.specs.Prelude.{◌≡◌, ◌<◌, ◌++◌, map, option_to_list, vec_len, vec_capacity};
ghost use Rattle.res_calls.specs.Undoing.{put_back, undone};
ghost use Rattle.res_calls.specs.View.{view_file};

use crate::files::{File, Resources};

/// What an update replaced of a file.
#[derive(Drop)]
pub(crate) struct Replaced {
    /// The place of the file among the application's files.
    pub(crate) place: usize,
    /// The bytes of the fork before the update.
    pub(crate) fork: Vec<u8>,
    /// Whether the fork before the update was written.
    pub(crate) written: bool,
}

/// Adds what an update replaced, if anything, to what earlier updates replaced.
pub(crate) fn keep(undo: &mut Vec<Replaced>, replaced: Option<Replaced>)
    requires { vec_len undo.old < vec_capacity undo.old }
    ensures { undo.new.items ≡ undo.old.items ++ option_to_list replaced }
{
    if let Some(replaced) = replaced {
        undo.push_reserved(replaced);
    }
}

/// Sets the fork of a file, and whether the fork was written.
fn give_back(file: &mut File, fork: Vec<u8>, written: bool)
    ensures { view_file file.new
        ≡ record (view_file file.old) { fork = fork.items; written = written } }
{
    file.fork = fork;
    file.written = written;
}

/// Puts a fork that an update replaced back into its place.
fn restore(files: &mut Vec<File>, replaced: Replaced)
    ensures { map view_file files.new.items ≡ put_back replaced (map view_file files.old.items) }
{
    if replaced.place < files.len() {
        give_back(&mut files[replaced.place], replaced.fork, replaced.written);
    }
}

/// Puts the forks that updates replaced back into their places, the last replaced first.
fn restore_all(files: &mut Vec<File>, undo: Vec<Replaced>)
    ensures { map view_file files.new.items ≡ undone undo.items (map view_file files.old.items) }
{
    let mut undo = undo;
    while let Some(last) = undo.pop() {
        restore(files, last);
    }
}

impl Resources {
    /// Puts the forks that updates replaced back into their places, the last replaced first.
    pub(crate) fn undo_all(&mut self, undo: Vec<Replaced>)
        ensures { self.new ≡ record self.old { files = undone undo.items self.old.files } }
    {
        restore_all(&mut self.files, undo);
    }
}
