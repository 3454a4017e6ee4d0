//! Requests: what the words of a command line make.

use fork_tasks::{
    Assembly, Combination, Conversion, Extraction, Linting, Packing, Printing, Survey,
};
use job_tasks::{Errand, JobZone, Playing, Task};

/// A request that the words of a command line make.
#[derive(Drop)]
pub enum Request<'a> {
    /// A file is read, and something is printed of its bytes.
    Look(Task<'a>),
    /// Files are read, and the state of each is printed.
    Check(Survey<'a>),
    /// Scripts, jobs and sources of Rez are read, and a line is printed for each of their faulty
    /// lines.
    Lint(Linting<'a>),
    /// A job is run, and what it leaves is written.
    Run(Errand<'a>),
    /// A job is run, and the zone of one of its applications is printed.
    Show(JobZone<'a>),
    /// A script is run with files, and its transcript or its zone is printed, or what it leaves is
    /// written.
    Play(Playing<'a>),
    /// A file is read, and what is made of its bytes is printed or written.
    Convert(Conversion<'a>),
    /// Two files are read, and what is made of their bytes is printed or written.
    Combine(Combination<'a>),
    /// A fork is read, and its resources are written into a folder, a file each.
    Extract(Extraction<'a>),
    /// The list of a folder and the files that it names are read, and the fork that they state is
    /// written.
    Pack(Packing<'a>),
    /// Files of declarations and a fork are read, and the fork is printed as source of Rez.
    Print(Printing<'a>),
    /// Files of declarations, a source and what belongs to it are read, and the fork that the
    /// source states is written.
    Assemble(Assembly<'a>),
}
