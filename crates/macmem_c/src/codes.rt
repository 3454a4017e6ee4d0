//! The codes that C gets.

ghost use Rattle.std.specs.Prelude.{◌≡◌, Err};
ghost use Rattle.heap_calls.specs.declared.refusal.Refusal.TheVariants as refusal;
ghost use Rattle.macmem_c.specs.Codes.{host_memory, code_of, code_in, number_of, number_in};
ghost use Rattle.macmem_c.specs.Codes.{offset_in};

use heap_calls::Refusal;
use mac_words::OsErr;

/// The code where the host is out of memory. No result code of the Toolbox has it: those have 16
/// bits.
pub const HOST_MEMORY: i32 = 0x1_0000;

/// The code where no zone has the size that is asked for: `paramErr`.
pub const BAD_SIZE: i32 = -50;

/// Returns the code of a call that returns nothing.
pub fn code_of(done: Result<(), OsErr>) -> i32
    ensures { result ≡ code_of done }
{
    match done {
        Ok(()) => 0,
        Err(code) => i32::from(code.number()),
    }
}

/// Returns the code of a call that returns nothing, and may find the host out of memory.
pub fn code_in(done: Result<(), Refusal>) -> i32
    ensures code { result ≡ code_in done }
    ensures host { result ≡ host_memory → done ≡ Err refusal.HostMemory }
{
    match done {
        Ok(()) => 0,
        Err(Refusal::Code(code)) => i32::from(code.number()),
        Err(Refusal::HostMemory) => HOST_MEMORY,
    }
}

/// Hands over the number that a call returns, and returns the code.
pub fn number_of(told: Result<u32, OsErr>, number: &mut u32) -> i32
    ensures code { result ≡ code_of told }
    ensures number { number.new ≡ number_of number.old told }
{
    match told {
        Ok(value) => {
            *number = value;
            0
        }
        Err(code) => i32::from(code.number()),
    }
}

/// Hands over the properties that a call returns, and returns the code.
pub fn state_of(told: Result<u8, OsErr>, state: &mut u8) -> i32
    ensures code { result ≡ code_of told }
    ensures state { state.new ≡ number_of state.old told }
{
    match told {
        Ok(value) => {
            *state = value;
            0
        }
        Err(code) => i32::from(code.number()),
    }
}

/// Hands over the number of a new handle or pointer, and returns the code.
pub fn number_in(made: Result<usize, Refusal>, number: &mut usize) -> i32
    ensures code { result ≡ code_in made }
    ensures number { number.new ≡ number_in number.old made }
    ensures host { result ≡ host_memory → made ≡ Err refusal.HostMemory }
{
    match made {
        Ok(value) => {
            *number = value;
            0
        }
        Err(Refusal::Code(code)) => i32::from(code.number()),
        Err(Refusal::HostMemory) => HOST_MEMORY,
    }
}

/// Hands over the size that a call returns, and returns the code.
pub fn measure_in(told: Result<u32, Refusal>, size: &mut u32) -> i32
    ensures code { result ≡ code_in told }
    ensures number { size.new ≡ number_in size.old told }
    ensures host { result ≡ host_memory → told ≡ Err refusal.HostMemory }
{
    match told {
        Ok(value) => {
            *size = value;
            0
        }
        Err(Refusal::Code(code)) => i32::from(code.number()),
        Err(Refusal::HostMemory) => HOST_MEMORY,
    }
}

/// Hands over the handle that a call finds, and returns the code.
pub fn handle_of(found: Result<usize, OsErr>, handle: &mut usize) -> i32
    ensures code { result ≡ code_of found }
    ensures number { handle.new ≡ number_of handle.old found }
{
    match found {
        Ok(value) => {
            *handle = value;
            0
        }
        Err(code) => i32::from(code.number()),
    }
}

/// Hands over the offset that a call returns, and returns the code.
pub fn offset_in(done: Result<i64, Refusal>, offset: &mut i64) -> i32
    ensures code { result ≡ code_in done }
    ensures offset { offset.new ≡ offset_in offset.old done }
    ensures host { result ≡ host_memory → done ≡ Err refusal.HostMemory }
{
    match done {
        Ok(value) => {
            *offset = value;
            0
        }
        Err(Refusal::Code(code)) => i32::from(code.number()),
        Err(Refusal::HostMemory) => HOST_MEMORY,
    }
}
