//! Reading an archive. A line `$ WORDS` begins a command, and a line `-- NAME --` begins a part.
//! The lines below a part's line are the text of the part; the lines below no part are for the
//! reader of the archive. A part whose name is one of `EXPECTED`, or `> PATH`, says what the
//! command above it is to print or write. A part of any other name is a file of that name, which
//! each command of the archive can read.

use crate::parts::{Part, part_of, spelled};
use anyhow::Result;
use std::alloc::{AllocError, Global};

/// The names of the parts that say what a command is to print or do, besides `> PATH` for a file
/// that is written.
const EXPECTED: &[&str] = &[
    "stdout",
    "stdout has",
    "stderr",
    "stderr has",
    "status",
    "progress",
    "asked",
    "each may fail",
];

/// A command, and what the command is to print, ask for and write.
#[derive(Drop)]
pub struct Command {
    pub line: String,
    expected: Vec<Part>,
}

impl Command {
    /// Returns the bytes of the part of this name, where the command has the part.
    pub fn expects(&self, name: &str) -> Option<&[u8]> {
        part_of(&self.expected, name)
    }

    /// Returns the parts of the command, in order.
    pub fn parts(&self) -> &[Part] {
        self.expected.as_slice()
    }
}

/// Reports whether a path is that of a file in the folder of another path.
fn is_below(path: &str, folder: &str) -> bool {
    match path.strip_prefix(folder) {
        Some(rest) => rest.starts_with("/"),
        None => false,
    }
}

/// Files, and commands that read the files.
#[derive(Drop)]
pub struct Archive {
    files: Vec<Part>,
    pub commands: Vec<Command>,
}

impl Archive {
    /// Returns the bytes of a file, where the archive has the file.
    pub fn file(&self, path: &str) -> Option<&[u8]> {
        part_of(&self.files, path)
    }

    /// Reports whether the archive has a file in the folder of this path.
    pub fn is_folder(&self, path: &str) -> bool {
        for file in &self.files {
            if is_below(file.name.as_str(), path) {
                return true;
            }
        }
        false
    }

    /// Reports whether the archive has a file of this path, or one in the folder of this path.
    pub fn has(&self, path: &str) -> bool {
        self.file(path).is_some() || self.is_folder(path)
    }

    /// Returns the paths of the files in the folder of this path, in order.
    pub fn files_below(&self, alloc: Global, path: &str) -> Result<Vec<String>, AllocError> {
        let mut files = Vec::new(alloc);
        for file in &self.files {
            if is_below(file.name.as_str(), path) {
                files.push(String::from_str(alloc, file.name.as_str())?)?;
            }
        }
        files.sort()?;
        Ok(files)
    }
}

/// A part or a command, as the archive spells it.
#[derive(Drop)]
struct Section {
    head: String,
    text: String,
}

/// Returns the head of the part or command that a line begins, where the line begins one.
fn head_of(line: &str) -> Option<&str> {
    if line.starts_with("$ ") {
        Some(line)
    } else {
        line.strip_prefix("-- ")?.strip_suffix(" --")
    }
}

/// Returns the sections of an archive.
fn sections_of(alloc: Global, text: &str) -> Result<Vec<Section>, AllocError> {
    let mut sections: Vec<Section> = Vec::new(alloc);
    for line in text.lines() {
        match head_of(line) {
            Some(head) => sections.push(Section {
                head: String::from_str(alloc, head)?,
                text: String::new(alloc),
            })?,
            None => {
                if let Some(last) = sections.last_mut() {
                    writeln!(last.text, "{line}")?;
                }
            }
        }
    }
    Ok(sections)
}

/// Reports whether a part of this name says what a command is to print or write.
fn is_expected(name: &str) -> bool {
    name.starts_with("> ") || EXPECTED.iter().any(|expected| *expected == name)
}

/// Adds a part to the last command, or to the files.
fn put(archive: &mut Archive, part: Part) -> Result<(), AllocError> {
    match archive.commands.last_mut() {
        Some(command) if is_expected(&part.name) => command.expected.push(part)?,
        _ => archive.files.push(part)?,
    }
    Ok(())
}

/// Adds a section to an archive.
fn add(alloc: Global, archive: &mut Archive, section: &Section) -> Result<()> {
    match section.head.as_str().strip_prefix("$ ") {
        Some(line) => archive.commands.push(Command {
            line: String::from_str(alloc, line)?,
            expected: Vec::new(alloc),
        })?,
        None => put(archive, spelled(alloc, &section.head, &section.text)?)?,
    }
    Ok(())
}

/// Returns the archive that a text spells.
pub fn read_archive(alloc: Global, text: &str) -> Result<Archive> {
    let mut archive = Archive {
        files: Vec::new(alloc),
        commands: Vec::new(alloc),
    };
    for section in &sections_of(alloc, text)? {
        add(alloc, &mut archive, section)?;
    }
    Ok(archive)
}
