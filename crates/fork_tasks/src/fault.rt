//! Faults: why the work was not done.

ghost use Rattle.std.specs.Prelude.{◌≡◌, IfOk};
ghost use Rattle.fork_tasks.specs.Fault.{kind_of, status_of, path_of, line_of, number_of, text_of};
ghost use Rattle.fork_tasks.specs.Fault.{message_of, fork_message};
ghost use Rattle.fork_tasks.specs.declared.fault.ToolFault.TheVariants.{HostMemory};

use fork_commands::{FileFault, WorkFault};
use real_zone_view::DumpFault;
use script_text::FaultKind;
use std::alloc::{AllocError, Global};
use thiserror::Error;

/// The reason why the work was not done. Its `Display` is the text printed on the standard error:
/// one line, or the text of the command line's parser.
#[derive(Debug, Drop, Error)]
pub enum ToolFault {
    /// The words make no request that the program knows, or ask for help.
    #[error("{text}")]
    Usage {
        /// The text of the parser, with the ends of its lines.
        text: String,
    },
    /// A file could not be read.
    #[error("macmem: {path}: cannot read")]
    CannotRead {
        /// The file's path as it was given.
        path: String,
    },
    /// A script has a faulty line.
    #[error("macmem: {path}: line {line}: fault {}", .kind.number())]
    Script {
        /// The script's path as it was given.
        path: String,
        /// The number of the line, from 1 on.
        line: usize,
        /// The kind of the fault.
        kind: FaultKind,
    },
    /// Nothing can be made of the bytes of a file, as of bytes that are no resource fork.
    #[error("macmem: {path}: {fault}")]
    Fork {
        /// The path of the bytes as it was given.
        path: String,
        /// What is wrong with the bytes.
        fault: FileFault,
    },
    /// The output could not be written.
    #[error("macmem: {path}: cannot write")]
    CannotWrite {
        /// The path, or `-` for the standard output.
        path: String,
    },
    /// The host is out of memory. What a run had completed is written all the same.
    #[error("macmem: no host memory")]
    HostMemory,
    /// No application of a job was launched that has this name.
    #[error("macmem: {path}: no application {app} was launched")]
    NotLaunched {
        /// The job's path as it was given.
        path: String,
        /// The name as it was given.
        app: String,
    },
    /// A memory dump has no zone where one is looked for, or is too long.
    #[error("macmem: {path}: {fault}")]
    Dump {
        /// The dump's path as it was given.
        path: String,
        /// What is wrong with it.
        fault: DumpFault,
    },
}

impl ToolFault {
    /// Returns the number of the line that is printed: 0 for usage and help, then 1 to 7 in the
    /// order of the variants.
    pub fn kind(&self) -> u8
        ensures { result ≡ kind_of self.now }
    {
        match self {
            ToolFault::Usage { .. } => 0,
            ToolFault::CannotRead { .. } => 1,
            ToolFault::Script { .. } => 2,
            ToolFault::Fork { .. } => 3,
            ToolFault::CannotWrite { .. } => 4,
            ToolFault::HostMemory => 5,
            ToolFault::NotLaunched { .. } => 6,
            ToolFault::Dump { .. } => 7,
        }
    }

    /// Returns the status with which the program ends: 2 for usage and help, else 1.
    pub fn status(&self) -> u8
        ensures { result ≡ status_of self.now }
    {
        match self {
            ToolFault::Usage { .. } => 2,
            _ => 1,
        }
    }

    /// Returns the path that the line names, or an empty text if it names no path.
    pub fn path(&self) -> &str
        ensures { result.now ≡ path_of self.now }
    {
        match self {
            ToolFault::CannotRead { path } => path.as_str(),
            ToolFault::Script { path, .. } => path.as_str(),
            ToolFault::Fork { path, .. } => path.as_str(),
            ToolFault::CannotWrite { path } => path.as_str(),
            ToolFault::NotLaunched { path, .. } => path.as_str(),
            ToolFault::Dump { path, .. } => path.as_str(),
            ToolFault::Usage { .. } | ToolFault::HostMemory => "",
        }
    }

    /// Returns the line of a script or a source that the line names, or 0 if it names no line.
    pub fn line(&self) -> usize
        ensures { result ≡ line_of self.now }
    {
        match self {
            ToolFault::Script { line, .. } => *line,
            ToolFault::Fork { fault, .. } => fault.line(),
            _ => 0,
        }
    }

    /// Returns the number of a script's fault, or the result code of a fault of a file's bytes, or
    /// 0 for other faults.
    pub fn number(&self) -> i16
        ensures { result ≡ number_of self.now }
    {
        match self {
            ToolFault::Script { kind, .. } => i16::from(kind.number()),
            ToolFault::Fork { fault, .. } => fault.number(),
            _ => 0,
        }
    }

    /// Returns the text of the command line's parser, or an empty text for faults other than usage
    /// and help.
    pub fn text(&self) -> &str
        ensures { result.now ≡ text_of self.now }
    {
        match self {
            ToolFault::Usage { text } => text.as_str(),
            _ => "",
        }
    }
}

impl From<AllocError> for ToolFault {
    ghost from_gives = { λ _ e. e ≡ HostMemory };

    fn from(_e: AllocError) -> ToolFault {
        ToolFault::HostMemory
    }
}

/// Returns the fault of the bytes of a file, with the file's path.
pub fn fork_fault(alloc: Global, path: &str, fault: WorkFault) -> Result<ToolFault, AllocError>
    ensures { IfOk result (λ made. message_of made ≡ fork_message path.now fault) }
{
    match fault {
        WorkFault::File(fault) => Ok(ToolFault::Fork {
            path: String::from_str(alloc, path)?,
            fault,
        }),
        WorkFault::HostMemory => Ok(ToolFault::HostMemory),
    }
}
