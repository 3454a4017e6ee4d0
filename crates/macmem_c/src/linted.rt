//! What is wrong with the lines of a text, in words: each faulty line is `LINE:COLUMN: WORDS`, of a
//! source of Rez `LINE: WORDS`.

ghost use Rattle.std.specs.Prelude.{◌≡◌, ◌++◌, ◌∷◌, [], List, ℕ, map, OnOk, IfOk};
ghost use Rattle.macmem_c.specs.Described.{AreFaulty, AreLines, IsUnstated, faulty_line};
ghost use Rattle.macmem_c.specs.Handed.{Writes};

use crate::delivering::give;
use fork_commands::built_in;
use itoa::Buffer;
use lint::{Fault, script_faults};
use rez_text::{SourceFault, TextFault, read_source};
use std::alloc::{AllocError, Global};

/// Appends the line of a faulty line, with these words.
fn add_words(text: &mut Vec<u8>, line: usize, words: &str) -> Result<(), AllocError>
    ensures { OnOk result (text.new.items ≡ text.old.items ++ faulty_line line words.now) }
{
    text.extend_from_slice(Buffer::new().format(line).as_bytes())?;
    text.push(b':')?;
    text.extend_from_slice(words.as_bytes())?;
    text.push(b'\n')?;
    Ok(())
}

/// Appends what is wrong with a line of a script.
fn add_fault(alloc: Global, text: &mut Vec<u8>, fault: &Fault<'_>) -> Result<(), AllocError>
    ensures { OnOk result ((words : List ℕ)
        × (text.new.items ≡ text.old.items ++ faulty_line fault.now.line words)) }
{
    let words = format!(in alloc; "{}: {}", fault.column, fault.wrong)?;
    add_words(text, fault.line, words.as_str())
}

/// Returns the lines of the faulty lines of a script.
fn lines_of(alloc: Global, faults: &[Fault<'_>]) -> Result<Vec<u8>, AllocError>
    ensures { IfOk result (λ out. AreLines (map (λ fault. fault.line) faults.now) out.items) }
{
    let mut text = Vec::new(alloc);
    for fault in faults {
        add_fault(alloc, &mut text, fault)?;
    }
    Ok(text)
}

/// Returns what is wrong with the lines of a script.
fn script_lines(alloc: Global, script: &[u8]) -> Result<Vec<u8>, AllocError>
    ensures { IfOk result (λ out. AreFaulty script.now out.items) }
{
    let faults = script_faults(alloc, script)?;
    lines_of(alloc, faults.as_slice())
}

/// Returns the line of a fault of a source, of which no column is known.
fn source_line(alloc: Global, fault: TextFault) -> Result<Vec<u8>, AllocError>
    ensures { IfOk result (λ out. AreLines (fault.line ∷ []) out.items) }
{
    let mut text = Vec::new(alloc);
    let words = format!(in alloc; " {}", fault.kind)?;
    add_words(&mut text, fault.line, words.as_str())?;
    Ok(text)
}

/// Returns what is wrong with the first faulty line of a source of Rez, by the types of the table;
/// nothing, where it can be read.
fn source_lines(alloc: Global, source: &[u8]) -> Result<Vec<u8>, AllocError>
    ensures { IfOk result (λ out. IsUnstated source.now out.items) }
{
    match read_source(alloc, built_in(alloc)?, Vec::new(alloc), source) {
        Ok(_) => Ok(Vec::new(alloc)),
        Err(SourceFault::Files(names)) => {
            drop(names);
            Ok(Vec::new(alloc))
        }
        Err(SourceFault::Text(fault)) => source_line(alloc, fault),
        Err(SourceFault::HostMemory) => Err(AllocError),
    }
}

/// Says what is wrong with each faulty line of a script; nothing, where the script can be run.
#[unsafe(no_mangle)]
pub extern "C" fn macmem_script_faults(
    alloc: Global,
    script: &[u8],
    out: &mut [u8],
    len: &mut usize,
) -> i32
    ensures { Writes (AreFaulty script.now) out.old len.old out.new len.new result }
{
    give(script_lines(alloc, script), out, len)
}

/// Says what is wrong with the first faulty line of a source of Rez, by the types of the table;
/// nothing, where it can be read.
#[unsafe(no_mangle)]
pub extern "C" fn macmem_source_faults(
    alloc: Global,
    source: &[u8],
    out: &mut [u8],
    len: &mut usize,
) -> i32
    ensures { Writes (IsUnstated source.now) out.old len.old out.new len.new result }
{
    give(source_lines(alloc, source), out, len)
}
