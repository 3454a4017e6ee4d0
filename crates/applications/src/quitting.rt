//! The end of an application.

ghost use Rattle.std.specs.Prelude.{◌≡◌, map, IfOk, OnOk, OnErr};
ghost use Rattle.res_calls.specs.Leaving.{leave};
ghost use Rattle.res_calls.specs.View.{view_file};
ghost use Rattle.applications.specs.Trying.{managers_of};
ghost use Rattle.applications.specs.Alone.{has_quit};
ghost use Rattle.applications.specs.Replies.{end_by, has_ended};

use crate::application::Application;
use block_store::BlockStore;
use mac_words::OsErr;
use res_calls::File;
use std::alloc::AllocError;

/// The way in which a call ends its application.
#[derive(Clone, Copy, Debug, PartialEq, Eq)]
pub enum Exit {
    /// The application quits: its files are updated and closed.
    Quits,
    /// A system error stops the application: no file is updated.
    Stops,
}

impl<'s, S: BlockStore> Application<'s, S> {
    /// Quits the application: updates and closes its open files, the file opened last first.
    /// Returns the first code that is not 0: -34 (dskFulErr) where the content of a file does not
    /// fit the format of a resource fork; the fork of that file stays as it is. Where the host is
    /// out of memory, all files stay as they were.
    ///
    /// *Inside Macintosh: Processes*, chapter 2, "Terminating a Process".
    pub fn quit(&mut self) -> Result<OsErr, AllocError>
        ensures code { IfOk result (λ code. code ≡ (leave (managers_of self.old)).code) }
        ensures after { OnOk result (self.new ≡ has_quit self.old) }
        ensures files { OnErr result (self.new.resources.files ≡ self.old.resources.files) }
        ensures lies { self.new.memory.window ≡ self.old.memory.window }
    {
        self.resources.leave(self.alloc, &mut self.heap)
    }

    /// Ends the application as `exit` says, and returns the code of the end. Where a system error
    /// stops the application, its files stay as they are, and the code is system error 15.
    /// Otherwise, and where `exit` is `None` because no call is left or a quit was asked for, the
    /// application quits.
    pub fn end(&mut self, exit: Option<Exit>) -> Result<OsErr, AllocError>
        ensures code { IfOk result (λ code. code ≡ (end_by exit self.old).code) }
        ensures after { OnOk result (self.new ≡ has_ended exit self.old) }
        ensures files { OnErr result (self.new.resources.files ≡ self.old.resources.files) }
        ensures lies { self.new.memory.window ≡ self.old.memory.window }
    {
        match exit {
            Some(Exit::Stops) => Ok(OsErr::SYSTEM_ERROR),
            Some(Exit::Quits) => self.quit(),
            None => self.quit(),
        }
    }

    /// Returns the files of the application, in order.
    pub fn files(&self) -> &[File]
        ensures { map view_file result.now ≡ self.now.resources.files }
    {
        self.resources.files()
    }
}
