//! Result codes by Apple's names.

ghost use Rattle.std.specs.Prelude.{◌≡◌, ◌++◌, OnOk, bytes_eq, if◌then◌else◌};
ghost use Rattle.transcript_words.specs.Code.{memory_code, file_code, part_code, search_code};
ghost use Rattle.transcript_words.specs.Code.{change_code, name_or, code_name, code_words};

use std::alloc::AllocError;

/// Returns a name for a code that is written so, and else the name that was found before.
fn named(
    code: &[u8],
    written: &'static [u8],
    name: &'static [u8],
    before: &'static [u8],
) -> &'static [u8]
    ensures { result.now ≡ (if bytes_eq code.now written.now then name.now else before.now) }
{
    if code == written { name } else { before }
}

/// Returns Apple's name of a code of the Memory Manager or the System Error Handler; no bytes for
/// any other.
fn memory_code(code: &[u8]) -> &'static [u8]
    ensures { result.now ≡ memory_code code.now }
{
    let name = b"".as_slice();
    let name = named(code, b"-117", b"memLockedErr", name);
    let name = named(code, b"-112", b"memPurErr", name);
    let name = named(code, b"-111", b"memWZErr", name);
    let name = named(code, b"-109", b"nilHandleErr", name);
    let name = named(code, b"-108", b"memFullErr", name);
    let name = named(code, b"15", b"dsLoadErr", name);
    named(code, b"0", b"noErr", name)
}

/// Returns Apple's name of a code of the File Manager; no bytes for any other.
fn file_code(code: &[u8]) -> &'static [u8]
    ensures { result.now ≡ file_code code.now }
{
    let name = b"".as_slice();
    let name = named(code, b"-61", b"wrPermErr", name);
    let name = named(code, b"-48", b"dupFNErr", name);
    let name = named(code, b"-43", b"fnfErr", name);
    let name = named(code, b"-39", b"eofErr", name);
    named(code, b"-34", b"dskFulErr", name)
}

/// Returns Apple's name of a code of the calls on a part of a resource; no bytes for any other.
fn part_code(code: &[u8]) -> &'static [u8]
    ensures { result.now ≡ part_code code.now }
{
    let name = b"".as_slice();
    let name = named(code, b"-190", b"inputOutOfBounds", name);
    let name = named(code, b"-189", b"writingPastEnd", name);
    named(code, b"-188", b"resourceInMemory", name)
}

/// Returns Apple's name of a code by which the Resource Manager refuses a search; no bytes for any
/// other.
fn search_code(code: &[u8]) -> &'static [u8]
    ensures { result.now ≡ search_code code.now }
{
    let name = b"".as_slice();
    let name = named(code, b"-193", b"resFNotFound", name);
    named(code, b"-192", b"resNotFound", name)
}

/// Returns Apple's name of a code by which the Resource Manager refuses a change or a file; no
/// bytes for any other.
fn change_code(code: &[u8]) -> &'static [u8]
    ensures { result.now ≡ change_code code.now }
{
    let name = b"".as_slice();
    let name = named(code, b"-199", b"mapReadErr", name);
    let name = named(code, b"-198", b"resAttrErr", name);
    let name = named(code, b"-196", b"rmvResFailed", name);
    named(code, b"-194", b"addResFailed", name)
}

/// Returns the first of two names that has any bytes.
fn name_or(name: &'static [u8], other: &'static [u8]) -> &'static [u8]
    ensures { result.now ≡ name_or name.now other.now }
{
    match name {
        [] => other,
        [_, ..] => name,
    }
}

/// Returns Apple's name of a result code, which is given as a transcript writes it; no bytes for a
/// code that no call returns.
///
/// *Inside Macintosh: Memory*, "Result Codes"; *More Macintosh Toolbox*, chapter 1, "Result Codes".
pub fn code_name(code: &[u8]) -> &'static [u8]
    ensures { result.now ≡ code_name code.now }
{
    let resources = name_or(search_code(code), change_code(code));
    let files = name_or(file_code(code), name_or(part_code(code), resources));
    name_or(memory_code(code), files)
}

/// Appends a result code: by its name, and where it is not 0 with the code itself after it.
#[tactic(auto, unfolding(crate::specs::Code::code_words))]
pub fn push_code(text: &mut Vec<u8>, code: &[u8]) -> Result<(), AllocError>
    ensures { OnOk result (text.new.items ≡ text.old.items ++ code_words code.now) }
{
    let name = code_name(code);
    if name.is_empty() {
        return text.extend_from_slice(code);
    }
    text.extend_from_slice(name)?;
    if code != b"0".as_slice() {
        text.extend_from_slice(b" (")?;
        text.extend_from_slice(code)?;
        text.extend_from_slice(b")")?;
    }
    Ok(())
}
