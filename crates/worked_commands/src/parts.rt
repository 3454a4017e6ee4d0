//! The parts of an archive. The text of a part whose name ends in `.hex` or `.lines` spells its
//! bytes as the modules of these names say; the text of any other part is its bytes.

use crate::hexadecimal::bytes_of;
use crate::lines::lines_of;
use anyhow::{Context, Result};
use std::alloc::{AllocError, Global};

/// A part of an archive.
#[derive(Drop)]
pub struct Part {
    pub name: String,
    pub bytes: Vec<u8>,
}

impl Part {
    /// Returns a part that has this name and these bytes.
    pub fn new(alloc: Global, name: &str, bytes: Vec<u8>) -> Result<Part, AllocError> {
        Ok(Part {
            name: String::from_str(alloc, name)?,
            bytes,
        })
    }
}

/// Returns the bytes of the part of this name, where there is such a part.
pub fn part_of<'a>(parts: &'a [Part], name: &str) -> Option<&'a [u8]> {
    for part in parts {
        if part.name.as_str() == name {
            return Some(part.bytes.as_slice());
        }
    }
    None
}

/// Returns the part that a text spells.
pub fn spelled(alloc: Global, name: &str, text: &str) -> Result<Part> {
    if let Some(name) = name.strip_suffix(".hex") {
        let bytes = bytes_of(alloc, text).context(format_args!("{name}"))?;
        Ok(Part::new(alloc, name, bytes)?)
    } else if let Some(name) = name.strip_suffix(".lines") {
        let bytes = lines_of(alloc, text).context(format_args!("{name}"))?;
        Ok(Part::new(alloc, name, bytes)?)
    } else {
        let bytes = Vec::from_slice(alloc, text.as_bytes())?;
        Ok(Part::new(alloc, name, bytes)?)
    }
}
