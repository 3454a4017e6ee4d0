//! Why nothing is made of the bytes of files.

ghost use Rattle.std.specs.Prelude.{◌≡◌, true, false};
ghost use Rattle.macmem_c.specs.Faults.{Tells, TellsPair, IsFault};

use crate::codes::HOST_MEMORY;
use fork_commands::{FileFault, PairFault, Place, WorkFault};

/// The code where the bytes of a file are at fault. No result code of the Toolbox has it.
pub const FILE_FAULT: i32 = 0x1_0001;

/// What is wrong with the bytes of a file, as C has it.
#[repr(C)]
#[derive(Clone, Copy)]
pub struct Fault {
    /// The line of a source that can't be read, or 0.
    pub line: usize,
    /// The result code, or 0 where the fault has none.
    pub code: i16,
    /// Whether the second of two files is at fault.
    pub second: bool,
}

/// Returns a fault as C has it.
fn fault_of(fault: FileFault, second: bool) -> Fault
    ensures { IsFault fault second result }
{
    Fault {
        line: fault.line(),
        code: fault.number(),
        second,
    }
}

/// Hands over why nothing is made of a file, and returns the code.
pub fn tell(stopped: WorkFault, fault: &mut Fault) -> i32
    ensures { Tells stopped fault.old fault.new result }
{
    match stopped {
        WorkFault::File(file) => {
            *fault = fault_of(file, false);
            FILE_FAULT
        }
        WorkFault::HostMemory => HOST_MEMORY,
    }
}

/// Hands over why nothing is made of two files, and returns the code.
pub fn tell_pair(stopped: PairFault, fault: &mut Fault) -> i32
    ensures { TellsPair stopped fault.old fault.new result }
{
    match stopped {
        PairFault::File(Place::First, file) => {
            *fault = fault_of(file, false);
            FILE_FAULT
        }
        PairFault::File(Place::Second, file) => {
            *fault = fault_of(file, true);
            FILE_FAULT
        }
        PairFault::HostMemory => HOST_MEMORY,
    }
}
