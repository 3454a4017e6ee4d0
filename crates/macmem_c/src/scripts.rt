//! Scripts, each in a fresh partition, which is a zone of its own.
//!
//! Each export returns 0 where the script is run: `len` becomes the number of the bytes that are
//! made of it, of which `out` gets as many as there is room for. It returns 65537 where a line of
//! the script is faulty: the line is then `fault.line`, and `fault.code` is 1 where its first word
//! is not known, 2 where an argument is missing or wrong or the line may not stand where it does, 3
//! where it may not stand in a grow-zone script, and 4 where it is too long. It returns -50
//! (paramErr) where no zone has the size, and 65536 where the host is out of memory. Unless 0 is
//! returned, `out` and `len` are as they were.

ghost use Rattle.std.specs.Prelude.{◌≡◌, false, length, IfOk, IfErr};
ghost use Rattle.mac_words.specs.Codes.{noErr};
ghost use Rattle.macmem_c.specs.Codes.{paramErr};
ghost use Rattle.macmem_c.specs.Delivered.{laid_over};
ghost use Rattle.macmem_c.specs.Faults.{file_fault};
ghost use Rattle.macmem_c.specs.Handed.{Hands};
ghost use Rattle.macmem_c.specs.Made.{IsZoneSize, NoZoneSize};
ghost use Rattle.macmem_c.specs.Replayed.{IsTranscript, IsShowing, TellsKind, IsScriptFault};
ghost use Rattle.macmem_c.specs.declared.replaying.Showing.TheVariants as showing;

use crate::codes::{BAD_SIZE, HOST_MEMORY};
use crate::delivering::deliver;
use crate::faults::{FILE_FAULT, Fault};
use crate::replaying::{Showing, transcript_of, view_of};
use crate::sizes::is_zone_size;
use script_text::{FaultKind, ScriptFault};
use std::alloc::Global;

/// Hands over the number of a faulty line and of a kind of fault, and returns the code.
fn tell_line(line: usize, kind: i16, fault: &mut Fault) -> i32
    ensures code { result ≡ file_fault }
    ensures line { fault.new.line ≡ line }
    ensures kind { fault.new.code ≡ kind }
    ensures second { fault.new.second ≡ false }
{
    *fault = Fault {
        line,
        code: kind,
        second: false,
    };
    FILE_FAULT
}

/// Hands over why a script is not run, and returns the code.
fn tell_script(stopped: ScriptFault, fault: &mut Fault) -> i32
    ensures { TellsKind stopped.kind stopped.line fault.old fault.new result }
{
    match stopped.kind {
        FaultKind::HostMemory => HOST_MEMORY,
        FaultKind::UnknownCall => tell_line(stopped.line, 1, fault),
        FaultKind::BadArgument => tell_line(stopped.line, 2, fault),
        FaultKind::NotAllowed => tell_line(stopped.line, 3, fault),
        FaultKind::LongLine => tell_line(stopped.line, 4, fault),
    }
}

/// Hands over what was made of a script, or why it was not run, and returns the code.
pub fn hand_over_script(
    made: Result<Vec<u8>, ScriptFault>,
    out: &mut [u8],
    len: &mut usize,
    fault: &mut Fault,
) -> i32
    ensures handed { IfOk made (λ v. (result ≡ noErr) × (out.new ≡ laid_over v.items out.old)
        × (len.new ≡ length v.items) × (fault.new ≡ fault.old)) }
    ensures stopped { IfErr made (λ f. TellsKind f.kind f.line fault.old fault.new result
        × (out.new ≡ out.old) × (len.new ≡ len.old)) }
{
    match made {
        Ok(bytes) => {
            *len = deliver(bytes.as_slice(), out);
            0
        }
        Err(stopped) => tell_script(stopped, fault),
    }
}

/// Gives the transcript of a script.
#[unsafe(no_mangle)]
pub extern "C" fn macmem_script_transcript(
    alloc: Global,
    size: u32,
    script: &[u8],
    out: &mut [u8],
    len: &mut usize,
    fault: &mut Fault,
) -> i32
    ensures run { IsZoneSize size
        → Hands (IsTranscript size script.now) (IsScriptFault script.now)
        out.old len.old fault.old out.new len.new fault.new result }
    ensures size { NoZoneSize size
        → (result ≡ paramErr) × (out.new ≡ out.old) × (len.new ≡ len.old)
        × (fault.new ≡ fault.old) }
{
    if !is_zone_size(size) {
        return BAD_SIZE;
    }
    hand_over_script(transcript_of(alloc, size, script), out, len, fault)
}

/// Gives the zone of a script after a line, as a list.
#[unsafe(no_mangle)]
pub extern "C" fn macmem_script_list(
    alloc: Global,
    size: u32,
    line: usize,
    script: &[u8],
    out: &mut [u8],
    len: &mut usize,
    fault: &mut Fault,
) -> i32
    ensures run { IsZoneSize size
        → Hands (IsShowing size (showing.List line) script.now) (IsScriptFault script.now)
        out.old len.old fault.old out.new len.new fault.new result }
    ensures size { NoZoneSize size
        → (result ≡ paramErr) × (out.new ≡ out.old) × (len.new ≡ len.old)
        × (fault.new ≡ fault.old) }
{
    if !is_zone_size(size) {
        return BAD_SIZE;
    }
    hand_over_script(
        view_of(alloc, size, Showing::List(line), script),
        out,
        len,
        fault,
    )
}

/// Gives the zone of a script after a line, as a picture in SVG.
#[unsafe(no_mangle)]
pub extern "C" fn macmem_script_picture(
    alloc: Global,
    size: u32,
    line: usize,
    script: &[u8],
    out: &mut [u8],
    len: &mut usize,
    fault: &mut Fault,
) -> i32
    ensures run { IsZoneSize size
        → Hands (IsShowing size (showing.Picture line) script.now) (IsScriptFault script.now)
        out.old len.old fault.old out.new len.new fault.new result }
    ensures size { NoZoneSize size
        → (result ≡ paramErr) × (out.new ≡ out.old) × (len.new ≡ len.old)
        × (fault.new ≡ fault.old) }
{
    if !is_zone_size(size) {
        return BAD_SIZE;
    }
    hand_over_script(
        view_of(alloc, size, Showing::Picture(line), script),
        out,
        len,
        fault,
    )
}

/// Gives a picture in SVG of the zone of a script after a line, and after each further step up to
/// another line.
#[unsafe(no_mangle)]
pub extern "C" fn macmem_script_steps(
    alloc: Global,
    size: u32,
    from: usize,
    to: usize,
    script: &[u8],
    out: &mut [u8],
    len: &mut usize,
    fault: &mut Fault,
) -> i32
    ensures run { IsZoneSize size
        → Hands (IsShowing size (showing.Steps from to) script.now) (IsScriptFault script.now)
        out.old len.old fault.old out.new len.new fault.new result }
    ensures size { NoZoneSize size
        → (result ≡ paramErr) × (out.new ≡ out.old) × (len.new ≡ len.old)
        × (fault.new ≡ fault.old) }
{
    if !is_zone_size(size) {
        return BAD_SIZE;
    }
    hand_over_script(
        view_of(alloc, size, Showing::Steps(from, to), script),
        out,
        len,
        fault,
    )
}
