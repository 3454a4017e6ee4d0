//! A host that refuses memory, and a host that refuses to print.

ghost use Rattle.std.specs.Prelude.{None};

use applications::Unwatched;
use commands::{Host, ReadError, WriteError, tool};
use std::alloc::{AllocError, Global};
use std::fmt::Write;
use std::test::Fail;

/// A host with a file named `file`, and a file named `large`, which is too large for the host's
/// memory.
#[derive(Drop)]
pub struct Memory<'a> {
    pub file: &'a [u8],
    /// The number of prints that still succeed.
    pub prints: usize,
    pub printed: Vec<u8>,
}

impl<'a> Host for Memory<'a> {
    ghost printed = { λ _. None };

    ghost accesses = { λ _. None };

    fn read(&mut self, alloc: Global, path: &str) -> Result<Vec<u8>, ReadError> {
        match path {
            "file" => Ok(Vec::from_slice(alloc, self.file)?),
            "large" => Err(ReadError::HostMemory),
            _ => Err(ReadError::CannotRead),
        }
    }

    fn is_folder(&mut self, path: &str) -> bool {
        path == "folder" || path == "closed"
    }

    fn list(&mut self, alloc: Global, path: &str) -> Result<Vec<String>, ReadError> {
        if path != "folder" {
            return Err(ReadError::CannotRead);
        }
        let mut files = Vec::new(alloc);
        files.push(String::from_str(alloc, "file")?)?;
        Ok(files)
    }

    fn print(&mut self, bytes: &[u8]) -> Result<(), WriteError> {
        if self.prints == 0 {
            return Err(WriteError::CannotWrite);
        }
        self.prints -= 1;
        self.printed.extend_from_slice(bytes)?;
        Ok(())
    }

    fn make_folder(&mut self, _path: &str) -> Result<(), WriteError> {
        Err(WriteError::CannotWrite)
    }

    fn write(&mut self, _path: &str, _bytes: &[u8]) -> Result<(), WriteError> {
        Err(WriteError::CannotWrite)
    }
}

/// Returns what a command prints where `prints` prints succeed, and the text of its fault; the text
/// is empty where there is no fault.
fn done(
    alloc: Global,
    words: &[&str],
    file: &[u8],
    prints: usize,
) -> Result<(Vec<u8>, String), Fail> {
    let mut host = Memory {
        file,
        prints,
        printed: Vec::new(alloc),
    };
    let said = match tool(alloc, words, &mut host, &mut Unwatched) {
        Ok(_) => String::new(alloc),
        Err(fault) => fault.to_string(alloc)?,
    };
    Ok((host.printed, said))
}

#[test]
fn a_host_that_refuses_memory_is_reported(rt: HostRuntime) -> Result<(), Fail> {
    const CASES: &[&[&str]] = &[
        &["macmem", "check", "large"],
        &["macmem", "script", "1024", "large"],
        &["macmem", "lint", "large"],
        &["macmem", "lint", "file", "closed", "large"],
        &["macmem", "run", "large", "out"],
    ];
    for words in CASES {
        let (printed, said) = done(rt.alloc(), *words, b"", 1)?;
        assert_eq!(rt; said.as_str(), "macmem: no host memory");
        assert!(rt; printed.is_empty());
    }
    Ok(())
}

/// Returns a fork whose references share stored data of no bytes and a name of 255 bytes `n`.
fn named_fork(alloc: Global, references: u8) -> Result<Vec<u8>, AllocError> {
    let header = b"\0\0\x01\0\0\0\x01\x04\0\0\0\x04\0\0\x0a\x4a";
    let mut fork = Vec::from_slice(alloc, header)?;
    fork.extend_from_slice(&[0; 244])?;
    fork.extend_from_slice(header)?;
    fork.extend_from_slice(b"\0\0\0\0\0\0\0\0\0\x1c\x09\x4a\0\0TEXT\0")?;
    fork.push(references.wrapping_sub(1))?;
    fork.extend_from_slice(b"\0\x0a")?;
    for id in 0..references {
        fork.push(0)?;
        fork.push(id)?;
        fork.extend_from_slice(b"\0\0\0\0\0\0\0\0\0\0")?;
    }
    fork.push(255)?;
    fork.extend_from_slice(&[b'n'; 255])?;
    Ok(fork)
}

/// Returns the listing of the fork of `named_fork`.
fn named_listing(alloc: Global, references: u8) -> Result<String, Fail> {
    let name = "6e".repeat(alloc, 255)?;
    let mut text = format!(in alloc; "map 0 1 {references}\n")?;
    for id in 0..references {
        writeln!(text, "$54455854 {id} 0 0 ${name}")?;
    }
    Ok(text)
}

#[test]
fn a_large_listing_is_printed_piece_by_piece(rt: HostRuntime) -> Result<(), Fail> {
    const CASES: &[(usize, usize, &str)] = &[
        (0, 0, "macmem: -: cannot write"),
        (1, 65_622, "macmem: -: cannot write"),
        (2, 103_252, ""),
    ];
    let alloc = rt.alloc();
    let fork = named_fork(alloc, 195)?;
    let listing = named_listing(alloc, 195)?;
    assert_eq!(rt; listing.len(), 103_252);
    for (prints, length, line) in CASES {
        let (printed, said) = done(alloc, &["macmem", "map", "file"], &fork, *prints)?;
        assert_eq!(rt; (printed.len(), said.as_str()), (*length, *line));
        assert!(rt; listing.as_bytes().starts_with(&printed));
    }
    Ok(())
}
