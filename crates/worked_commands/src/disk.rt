//! A host in memory, and a watch that keeps what is reported to it.

ghost use Rattle.std.specs.Prelude.{None};

use crate::archive::Archive;
use crate::parts::Part;
use applications::Watch;
use commands::{Host, ReadError, WriteError};
use std::alloc::{AllocError, Global};

/// A host with the files of an archive. The host notes each request in a line, and keeps the bytes
/// that are printed and the files that are written.
#[derive(Drop)]
pub struct Disk<'a> {
    alloc: Global,
    archive: &'a Archive,
    /// The number of the request that fails, counted from 1; 0 where no request fails.
    fails: usize,
    /// The number of requests so far.
    count: usize,
    pub asked: String,
    pub printed: Vec<u8>,
    pub written: Vec<Part>,
}

impl<'a> Disk<'a> {
    /// Returns a host without a request so far, whose request number `fails` will fail.
    pub fn new(alloc: Global, archive: &'a Archive, fails: usize) -> Disk<'a> {
        Disk {
            alloc,
            archive,
            fails,
            count: 0,
            asked: String::new(alloc),
            printed: Vec::new(alloc),
            written: Vec::new(alloc),
        }
    }

    /// Notes a request, and reports whether the request succeeds.
    fn works(&mut self, what: &str, path: &str) -> Result<bool, AllocError> {
        writeln!(self.asked, "{what} {path}")?;
        self.count = self.count.saturating_add(1);
        Ok(self.count != self.fails)
    }

    /// Keeps a file.
    fn keep(&mut self, path: &str, bytes: &[u8]) -> Result<(), AllocError> {
        let bytes = Vec::from_slice(self.alloc, bytes)?;
        self.written.push(Part::new(self.alloc, path, bytes)?)?;
        Ok(())
    }
}

impl Host for Disk<'_> {
    // What is printed, read and written is compared, and nothing is claimed of it.
    ghost printed = { λ _. None };

    ghost accesses = { λ _. None };

    fn read(&mut self, alloc: Global, path: &str) -> Result<Vec<u8>, ReadError> {
        if !self.works("read", path)? {
            return Err(ReadError::CannotRead);
        }
        match self.archive.file(path) {
            Some(bytes) => Ok(Vec::from_slice(alloc, bytes)?),
            None => Err(ReadError::CannotRead),
        }
    }

    /// A folder is a path with which the path of a file begins, and a slash.
    fn is_folder(&mut self, path: &str) -> bool {
        self.archive.is_folder(path)
    }

    fn list(&mut self, alloc: Global, path: &str) -> Result<Vec<String>, ReadError> {
        if !self.works("list", path)? {
            return Err(ReadError::CannotRead);
        }
        Ok(self.archive.files_below(alloc, path)?)
    }

    fn print(&mut self, bytes: &[u8]) -> Result<(), WriteError> {
        if !self.works("print", "-")? {
            return Err(WriteError::CannotWrite);
        }
        self.printed.extend_from_slice(bytes)?;
        Ok(())
    }

    /// Fails for a file and for a folder that the archive has, since that exists already.
    fn make_folder(&mut self, path: &str) -> Result<(), WriteError> {
        if self.works("folder", path)? && !self.archive.has(path) {
            Ok(())
        } else {
            Err(WriteError::CannotWrite)
        }
    }

    /// Fails for a file and for a folder that the archive has, since that exists already.
    fn write(&mut self, path: &str, bytes: &[u8]) -> Result<(), WriteError> {
        if !self.works("write", path)? || self.archive.has(path) {
            return Err(WriteError::CannotWrite);
        }
        self.keep(path, bytes)?;
        Ok(())
    }
}

/// A watch that notes each report of a run's progress in a line.
#[derive(Drop)]
pub struct Reports {
    pub lines: String,
}

impl Watch for Reports {
    fn done(&mut self, done: usize, of: usize) {
        let _ = writeln!(self.lines, "{done} of {of}");
    }
}
