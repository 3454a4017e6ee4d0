//! A worked case.

use std::alloc::{AllocError, Global};

/// A row that a case expects: a line of the form `CALL | ANSWER`.
#[derive(Drop)]
pub struct Row {
    /// The number of the row's line in the file of cases.
    pub line: usize,
    pub text: String,
}

/// A resource of a file.
#[derive(Drop)]
pub struct Resource {
    pub ty: [u8; 4],
    pub id: i16,
    pub attrs: u8,
    pub datum: Vec<u8>,
    pub name: Option<Vec<u8>>,
}

/// A file, given by its resources or by the bytes of its fork.
#[derive(Drop)]
pub struct Fork {
    pub name: String,
    pub resources: Vec<Resource>,
    /// The bytes of the fork, where the case gives bytes.
    pub bytes: Option<Vec<u8>>,
}

impl Fork {
    /// Returns a file that has no resources.
    pub fn new(alloc: Global, name: &str) -> Result<Fork, AllocError> {
        Ok(Fork {
            name: String::from_str(alloc, name)?,
            resources: Vec::new(alloc),
            bytes: None,
        })
    }
}

/// Bytes that are expected at a place of the zone.
#[derive(Drop)]
pub struct Piece {
    /// The number of the piece's line in the file of cases.
    pub line: usize,
    pub at: usize,
    pub bytes: Vec<u8>,
}

/// What the rows of a case are.
#[derive(Clone, Copy)]
pub enum Kind {
    /// The calls of a script, which is run.
    Run,
    /// Scripts that are only read.
    Read,
    /// Sizes that are given for an application, which is launched in a memory of so many bytes.
    Launch(u32),
}

/// A worked case: a script, the files of its application, and the expected rows; or texts of
/// scripts that are only read; or sizes with which the application is launched.
#[derive(Drop)]
pub struct Case {
    pub title: String,
    /// The number of the title's line in the file of cases.
    pub line: usize,
    /// The size of the partition, in bytes.
    pub size: u32,
    /// The application's own file, the other files of the application, and the System file.
    pub own: Fork,
    pub others: Vec<Fork>,
    pub system: Fork,
    /// The text of the script.
    pub script: String,
    /// The expected rows of the calls.
    pub rows: Vec<Row>,
    /// The expected row of the end.
    pub end: Row,
    /// The expected rows of the files that are written.
    pub written: Vec<Row>,
    /// The bytes that are expected in the zone at the end.
    pub zone: Vec<Piece>,
    /// What the rows are.
    pub kind: Kind,
    /// The scripts that are only read, with ` / ` between two lines of a script; or the sizes of
    /// the launches.
    pub texts: Vec<String>,
}

impl Case {
    /// Returns a case whose script has no lines.
    pub fn new(alloc: Global, title: &str, line: usize) -> Result<Case, AllocError> {
        Ok(Case {
            title: String::from_str(alloc, title)?,
            line,
            size: 1024,
            own: Fork::new(alloc, "script")?,
            others: Vec::new(alloc),
            system: Fork::new(alloc, "System")?,
            script: String::new(alloc),
            rows: Vec::new(alloc),
            end: Row {
                line,
                text: String::from_str(alloc, "end 0")?,
            },
            written: Vec::new(alloc),
            zone: Vec::new(alloc),
            kind: Kind::Run,
            texts: Vec::new(alloc),
        })
    }

    /// Appends a line to the script.
    pub fn say(&mut self, line: &str) -> Result<(), AllocError> {
        writeln!(self.script, "{line}")
    }

    /// Appends an expected row.
    pub fn tell(&mut self, row: Row) -> Result<(), AllocError> {
        self.rows.push(row)?;
        Ok(())
    }

    /// Returns the file that was named last, or the application's own file.
    pub fn last_file(&mut self) -> &mut Fork {
        match self.others.last_mut() {
            Some(fork) => fork,
            None => &mut self.own,
        }
    }
}
