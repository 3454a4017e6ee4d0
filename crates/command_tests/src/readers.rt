//! Inputs that fail, and an input that never ends.

use commands::{ReadError, read_all};
use std::io::{self, Error, ErrorKind, Read};
use std::test::Fail;

/// A reader that returns some bytes, and then fails.
#[derive(Drop)]
struct Failing<'a> {
    bytes: &'a [u8],
    kind: ErrorKind,
}

impl<'a> Read for Failing<'a> {
    fn read(&mut self, buf: &mut [u8]) -> io::Result<usize> {
        if self.bytes.is_empty() {
            return Err(Error::from(self.kind));
        }
        self.bytes.read(buf)
    }
}

#[test]
fn an_input_that_fails_is_reported(rt: HostRuntime) -> Result<(), Fail> {
    const CASES: &[(ErrorKind, usize, ReadError)] = &[
        (ErrorKind::Other, 100, ReadError::CannotRead),
        (ErrorKind::UnexpectedEof, 100, ReadError::CannotRead),
        (ErrorKind::OutOfMemory, 100, ReadError::HostMemory),
        // No host has that much memory.
        (ErrorKind::Other, usize::MAX, ReadError::HostMemory),
    ];
    for (kind, room, expected) in CASES {
        let mut failing = Failing {
            bytes: b"NewHandle a 100\n",
            kind: *kind,
        };
        let found = read_all(rt.alloc(), &mut failing, *room, 1000).err();
        assert_eq!(rt; found, Some(*expected));
    }
    Ok(())
}

#[test]
fn an_input_that_never_ends_is_refused(rt: HostRuntime) -> Result<(), Fail> {
    const MOSTS: &[u32] = &[0, 1, 1000, 300000];
    for most in MOSTS {
        let mut endless = io::repeat(b'x');
        let found = read_all(rt.alloc(), &mut endless, 0, *most).err();
        assert_eq!(rt; found, Some(ReadError::CannotRead), "after {most}");
    }
    Ok(())
}
