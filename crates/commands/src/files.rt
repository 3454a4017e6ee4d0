//! The host's files, and its standard error as the watch of a long run.

ghost use Rattle.std.specs.Prelude.{None};

use applications::Watch;
use fork_tasks::{Host, ReadError, WriteError, read_all};
use std::alloc::Global;
use std::fs::{self, File, OpenFile};
use std::io::{self, Read, Write};
use std::rt::Files;

/// The greatest number of bytes of an input.
const MOST: u32 = 268_435_456;

/// The path of the standard input.
const STANDARD_INPUT: &str = "/dev/stdin";

/// The host's files, the standard input and the standard output.
#[derive(Drop)]
pub struct HostFiles<'r, R> {
    rt: &'r R,
}

impl<'r, R> HostFiles<'r, R> {
    /// Makes a host of a runtime's files.
    pub fn new(rt: &'r R) -> HostFiles<'r, R> {
        HostFiles { rt }
    }
}

/// Reads a file into memory taken for the file's length. Refuses a file that is known to be too
/// long. One byte more is taken, so that the read which finds the file's end needs no more memory.
fn read_file<F: OpenFile + Read>(alloc: Global, file: &mut F) -> Result<Vec<u8>, ReadError> {
    match file.metadata() {
        Ok(about) if about.len() <= MOST as u64 => {
            read_all(alloc, file, about.len() as usize + 1, MOST)
        }
        _ => Err(ReadError::CannotRead),
    }
}

/// Reports whether a folder lies at a path; a link is followed.
fn is_folder<R: Files>(rt: &R, path: &str) -> bool {
    match fs::metadata(rt, path) {
        Ok(about) => about.is_dir(),
        Err(_) => false,
    }
}

/// Returns the paths of what lies in a folder, the last name first.
fn paths_in<R: Files + AllocGlobal + Clone + Drop>(
    rt: &R,
    alloc: Global,
    folder: &str,
) -> Result<Vec<String>, ReadError> {
    let Ok(entries) = fs::read_dir(rt, folder) else {
        return Err(ReadError::CannotRead);
    };
    let mut paths = Vec::new(alloc);
    for entry in entries {
        let Ok(entry) = entry else {
            return Err(ReadError::CannotRead);
        };
        paths.push(String::from_str(alloc, entry.path().as_str())?)?;
    }
    paths.sort()?;
    paths.reverse();
    Ok(paths)
}

/// Reports whether a folder lies at a path that was found in a folder; a link is not followed, so
/// that no folder is found twice.
fn is_folder_found<R: Files>(rt: &R, path: &str) -> bool {
    match fs::symlink_metadata(rt, path) {
        Ok(about) => about.is_dir(),
        Err(_) => false,
    }
}

/// The greatest number of files and folders below a folder that is listed.
const MOST_PATHS: u32 = 1_000_000_000;

/// Returns the paths of all files below a folder, in the order of their names. What is left to look
/// at is taken from the end, and what lies in a folder is put there. A folder that can't be listed
/// stands among the files.
fn files_below<R: Files + AllocGlobal + Clone + Drop>(
    rt: &R,
    alloc: Global,
    folder: &str,
) -> Result<Vec<String>, ReadError> {
    let mut files = Vec::new(alloc);
    let mut left = paths_in(rt, alloc, folder)?;
    for _ in 0..MOST_PATHS {
        let Some(path) = left.pop() else {
            return Ok(files);
        };
        if is_folder_found(rt, path.as_str()) {
            match paths_in(rt, alloc, path.as_str()) {
                Ok(mut inside) => left.append(&mut inside)?,
                Err(ReadError::CannotRead) => files.push(path)?,
                Err(ReadError::HostMemory) => return Err(ReadError::HostMemory),
            }
        } else {
            files.push(path)?;
        }
    }
    Err(ReadError::CannotRead)
}

/// Writes bytes to an open file.
fn write_file<W: Write>(file: &mut W, bytes: &[u8]) -> Result<(), WriteError> {
    match file.write_all(bytes) {
        Ok(()) => Ok(()),
        Err(_) => Err(WriteError::CannotWrite),
    }
}

/// The watch of a long run that prints how far the run has come on the standard error.
#[derive(Drop)]
pub struct Progress<'r, R> {
    rt: &'r R,
}

impl<'r, R> Progress<'r, R> {
    /// Makes a watch of a runtime's standard error.
    pub fn new(rt: &'r R) -> Progress<'r, R> {
        Progress { rt }
    }
}

impl<'r, R: Eprint> Watch for Progress<'r, R> {
    /// Prints a line on the standard error. If that fails the work goes on.
    fn done(&mut self, done: usize, of: usize) {
        let _ = eprintln!(self.rt; "macmem: {done} of {of} done");
    }
}

impl<'r, R: Files + Input + Print + AllocGlobal + Clone + Drop> Host for HostFiles<'r, R> {
    // What a terminal, a pipe or a file has taken is not known, nor what lies at a path.
    ghost printed = { λ _. None };

    ghost accesses = { λ _. None };

    /// Reads pipes and devices like files. The standard input is read as it is open, since a host
    /// need not let it be opened by its path.
    fn read(&mut self, alloc: Global, path: &str) -> Result<Vec<u8>, ReadError> {
        if path == STANDARD_INPUT {
            return read_all(alloc, &mut self.rt.reader(), 0, MOST);
        }
        match fs::open(self.rt, path) {
            Ok(mut file) => read_file(alloc, &mut file),
            Err(_) => Err(ReadError::CannotRead),
        }
    }

    fn is_folder(&mut self, path: &str) -> bool {
        is_folder(self.rt, path)
    }

    /// A folder below that can't be listed is listed as a file, which can't be read either.
    fn list(&mut self, alloc: Global, path: &str) -> Result<Vec<String>, ReadError> {
        files_below(self.rt, alloc, path)
    }

    fn print(&mut self, bytes: &[u8]) -> Result<(), WriteError> {
        match io::writer(self.rt).write_all(bytes) {
            Ok(()) => Ok(()),
            Err(_) => Err(WriteError::CannotWrite),
        }
    }

    fn make_folder(&mut self, path: &str) -> Result<(), WriteError> {
        match fs::create_dir(self.rt, path) {
            Ok(()) => Ok(()),
            Err(_) => Err(WriteError::CannotWrite),
        }
    }

    fn write(&mut self, path: &str, bytes: &[u8]) -> Result<(), WriteError> {
        match File::create_new(self.rt, path) {
            Ok(mut file) => write_file(&mut file, bytes),
            Err(_) => Err(WriteError::CannotWrite),
        }
    }
}
