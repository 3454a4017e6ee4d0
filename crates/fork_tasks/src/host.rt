//! The host: the program's access to files and the standard output.

ghost use Rattle.std.specs.Prelude.{◌≡◌, ℕ, Option, List, ◌∷◌, [], map, codes, OnOk, IfOk, IfErr};
ghost use Rattle.std.specs.Prelude.{string_bytes};
ghost use Rattle.std.specs.Io.KnownBytes.{append_known};
ghost use Rattle.fork_tasks.specs.Accesses.{Access, Read, Listed, Folder, Write, and_then};
ghost use Rattle.fork_tasks.specs.Accesses.{RefusesRead, RefusesWrite, RefusesFile};
ghost use Rattle.fork_tasks.specs.Printing.{PrintsFront};
ghost use Rattle.fork_tasks.specs.declared.host.ReadError.TheVariants.{HostMemory};
ghost use Rattle.fork_tasks.specs.declared.host.WriteError.TheVariants as write_error;

use std::alloc::{AllocError, AllocFailed, Global};

/// The reason why a file could not be read.
#[derive(Clone, Copy, Debug, PartialEq)]
pub enum ReadError {
    /// The file is not there, may not be read, fails while it is read, or is too long.
    CannotRead,
    /// The host is out of memory.
    HostMemory,
}

impl From<AllocError> for ReadError {
    ghost from_gives = { λ _ e. e ≡ HostMemory };

    fn from(_e: AllocError) -> ReadError {
        ReadError::HostMemory
    }
}

impl<T: Drop> From<AllocFailed<T>> for ReadError {
    ghost from_gives = { λ _ e. e ≡ HostMemory };

    fn from(_e: AllocFailed<T>) -> ReadError {
        ReadError::HostMemory
    }
}

/// The reason why bytes were not printed, or not all of them, or why a folder or a file was not
/// made.
#[derive(Clone, Copy)]
pub enum WriteError {
    /// The standard output, or the disk, returned an error.
    CannotWrite,
    /// The host is out of memory.
    HostMemory,
}

impl From<AllocError> for WriteError {
    ghost from_gives = { λ _ e. e ≡ write_error.HostMemory };

    fn from(_e: AllocError) -> WriteError {
        WriteError::HostMemory
    }
}

/// The world outside of the program.
pub trait Host {
    /// The bytes that have been printed so far, where they are known.
    ghost printed: { Self → Option (List ℕ) };

    /// The accesses to files so far, in order, where they are known: those that succeeded, and
    /// those that the host refused.
    ghost accesses: { Self → Option (List Access) };

    /// Reads all bytes of a file.
    fn read(&mut self, alloc: Global, path: &str) -> Result<Vec<u8>, ReadError>
        ensures read { IfOk result (λ bytes. accesses self.new
            ≡ and_then (accesses self.old) (Read path.now bytes.items ∷ [])) }
        ensures unread { IfErr result (λ error.
            RefusesRead path.now error (accesses self.old) (accesses self.new)) }

        // Nothing is printed.
        ensures silent { printed self.new ≡ printed self.old };

    /// Reports whether a folder lies at a path. No file is read.
    fn is_folder(&mut self, path: &str) -> bool
        ensures files { accesses self.new ≡ accesses self.old }
        ensures silent { printed self.new ≡ printed self.old };

    /// Returns the paths of all files below a folder, in the order of their names: each begins with
    /// that of the folder, as it was given, and a slash.
    fn list(&mut self, alloc: Global, path: &str) -> Result<Vec<String>, ReadError>
        ensures listed { IfOk result (λ files. accesses self.new
            ≡ and_then (accesses self.old) (Listed path.now (map string_bytes files.items) ∷ [])) }
        ensures unlisted { IfErr result (λ error.
            RefusesRead path.now error (accesses self.old) (accesses self.new)) }

        // Nothing is printed.
        ensures silent { printed self.new ≡ printed self.old };

    /// Writes bytes to the standard output, after those that have been printed.
    fn print(&mut self, bytes: &[u8]) -> Result<(), WriteError>
        ensures all { OnOk result (printed self.new ≡ append_known (printed self.old) bytes.now) }

        // If the call fails, a front of the bytes may have been written.
        ensures front { PrintsFront bytes.now (printed self.old) (printed self.new) }

        // No file is read or written.
        ensures files { OnOk result (accesses self.new ≡ accesses self.old) }
        ensures refused { IfErr result (λ error.
            RefusesWrite (codes "-") error (accesses self.old) (accesses self.new)) };

    /// Makes a folder. The call fails if a file or a folder of that path exists.
    fn make_folder(&mut self, path: &str) -> Result<(), WriteError>
        ensures made { OnOk result (accesses self.new
            ≡ and_then (accesses self.old) (Folder path.now ∷ [])) }
        ensures unmade { IfErr result (λ error.
            RefusesWrite path.now error (accesses self.old) (accesses self.new)) }

        // Nothing is printed.
        ensures silent { printed self.new ≡ printed self.old };

    /// Makes a file of the given bytes. The call fails if a file or a folder of that path exists;
    /// if it fails while the bytes are written, a file with a front of the bytes may remain.
    fn write(&mut self, path: &str, bytes: &[u8]) -> Result<(), WriteError>
        ensures written { OnOk result (accesses self.new
            ≡ and_then (accesses self.old) (Write path.now bytes.now ∷ [])) }
        ensures front { IfErr result (λ error. RefusesFile path.now bytes.now error
            (accesses self.old) (accesses self.new)) }

        // Nothing is printed.
        ensures silent { printed self.new ≡ printed self.old };
}
