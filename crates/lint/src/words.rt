//! What is wrong with a line, in words.

use crate::absent::instead_of;
use crate::form::Form;
use crate::hint::hint_of;
use crate::nearest::{nearest_call, nearest_word};
use crate::role::Role;
use crate::shown::{Bare, Quoted};
use crate::wrong::{Fault, Wrong};
use std::fmt::{self, Display};

/// Reports whether a word begins a comment in another notation.
fn begins_comment(word: &[u8]) -> bool {
    match word {
        [b'/', b'/' | b'*', ..] | [b'-', b'-', ..] | [b'(', b'*', ..] => true,
        [b';' | b'{' | b'%' | b'#', ..] => true,
        _ => false,
    }
}

/// Reports whether a word is an arrow or a sign that gives a value to a variable.
fn is_arrow(word: &[u8]) -> bool {
    match word {
        [b'-' | b'=', b'>', ..] | [b':', b'=', ..] | [b'='] => true,
        [0xE2, 0x86, 0x92, ..] => true,
        _ => false,
    }
}

/// Reports whether a no-break space of UTF-8 stands in a word.
fn has_wide_blank(word: &[u8]) -> bool {
    let mut before = 0;
    for byte in word {
        if before == 0xC2 && *byte == 0xA0 {
            return true;
        }
        before = *byte;
    }
    false
}

/// Writes a word between two texts.
fn write_word<W: fmt::Write>(
    f: &mut fmt::Formatter<W>,
    before: &str,
    word: &[u8],
    after: &str,
) -> fmt::Result {
    f.write_str(before)?;
    Bare(word).fmt(f)?;
    f.write_str(after)
}

/// Writes a word in quotation marks between two texts.
fn write_quoted<W: fmt::Write>(
    f: &mut fmt::Formatter<W>,
    before: &str,
    word: &[u8],
    after: &str,
) -> fmt::Result {
    f.write_str(before)?;
    Quoted(word).fmt(f)?;
    f.write_str(after)
}

/// Writes how a line stands that is right.
fn write_as_in<W: fmt::Write>(f: &mut fmt::Formatter<W>, form: Form) -> fmt::Result {
    f.write_str(", as in '")?;
    form.fmt(f)?;
    f.write_str("'")
}

/// Writes that a first word is of no kind that there is: no call, or no word of a job.
fn write_unknown<W: fmt::Write>(
    f: &mut fmt::Formatter<W>,
    word: &[u8],
    kind: &str,
    near: Option<&'static [u8]>,
) -> fmt::Result {
    match word {
        [0xEF, 0xBB, 0xBF, word @ ..] => {
            write_word(f, kind, word, ": a byte-order mark stands before it")
        }
        _ => {
            write_word(f, kind, word, "")?;
            write_meant(f, word, near)
        }
    }
}

/// Writes that a first word is no call, and what stands in its place where it is one of the
/// Macintosh.
fn write_unknown_call<W: fmt::Write>(f: &mut fmt::Formatter<W>, word: &[u8]) -> fmt::Result {
    match instead_of(word) {
        Some(instead) => {
            write_word(f, "", word, " is not here: ")?;
            f.write_str(instead)
        }
        None => write_unknown(f, word, "unknown call ", nearest_call(word)),
    }
}

/// Writes that a job can't have a memory of a size.
fn write_memory<W: fmt::Write>(f: &mut fmt::Formatter<W>, size: u32) -> fmt::Result {
    write!(
        f,
        "a memory of {size} bytes: it has 512 to 134217728, a multiple of 16"
    )?;
    if 512 <= size && size <= 134_217_728 {
        write!(f, ", as {}", size / 16 * 16)?;
    }
    Ok(())
}

/// Writes what may be meant by a first word that is not known.
fn write_meant<W: fmt::Write>(
    f: &mut fmt::Formatter<W>,
    word: &[u8],
    near: Option<&'static [u8]>,
) -> fmt::Result {
    if begins_comment(word) {
        f.write_str(": a comment begins with #")
    } else if word.contains(&b'\r') {
        f.write_str(": a line ends with LF, and here stands a carriage return")
    } else if word.contains(&b'(') {
        f.write_str(": blanks stand between a call and its arguments, and no parentheses")
    } else if has_wide_blank(word) {
        f.write_str(": a blank is a space or a tab, and here stands a no-break space")
    } else {
        match near {
            Some(near) => write_word(f, ": did you mean ", near, "?"),
            None => Ok(()),
        }
    }
}

/// Writes what stands in an argument's place, and what should.
fn write_found<W: fmt::Write>(
    f: &mut fmt::Formatter<W>,
    form: Form,
    role: Role,
    found: &[u8],
) -> fmt::Result {
    f.write_str(": expected ")?;
    f.write_str(role.description())?;
    write_quoted(f, ", found ", found, "")?;
    if found.contains(&b'\r') {
        return f.write_str("; a line ends with LF, and here stands a carriage return");
    }
    match hint_of(role, found) {
        Some(hint) => {
            f.write_str("; ")?;
            hint.fmt(f)
        }
        None => write_as_in(f, form),
    }
}

/// Writes that an argument is wrong.
fn write_argument<W: fmt::Write>(
    f: &mut fmt::Formatter<W>,
    form: Form,
    number: usize,
    role: Role,
    found: &[u8],
) -> fmt::Result {
    f.write_str("argument ")?;
    number.fmt(f)?;
    write_word(f, " of ", form.word, "")?;
    if found.is_empty() {
        f.write_str(" is missing: expected ")?;
        f.write_str(role.description())?;
        write_as_in(f, form)
    } else {
        write_found(f, form, role, found)
    }
}

/// Writes how many arguments a call has, and what stands after them.
fn write_after<W: fmt::Write>(f: &mut fmt::Formatter<W>, form: Form, found: &[u8]) -> fmt::Result {
    write_word(f, "", form.word, " has ")?;
    match form.roles {
        [] => write_quoted(f, "no argument, found ", found, " after it"),
        [_] => write_quoted(f, "one argument, found ", found, " after it"),
        roles => {
            roles.len().fmt(f)?;
            write_quoted(f, " arguments, found ", found, " after them")
        }
    }
}

/// Writes that more follows the last argument.
fn write_extra<W: fmt::Write>(f: &mut fmt::Formatter<W>, form: Form, found: &[u8]) -> fmt::Result {
    write_after(f, form, found)?;
    if begins_comment(found) {
        f.write_str("; a comment stands in a line of its own, and begins with #")
    } else if is_arrow(found) {
        f.write_str("; a call binds a name that is one of its arguments")
    } else {
        write_as_in(f, form)
    }
}

/// Writes that a call may not stand in a grow-zone script.
fn write_not_allowed<W: fmt::Write>(f: &mut fmt::Formatter<W>, word: &[u8]) -> fmt::Result {
    write_word(f, "'", word, "' inside a grow-zone script")?;
    if word == b"grow".as_slice() {
        return f.write_str(": an 'end' must stand above");
    }
    f.write_str(
        ": it may hold EmptyHandle, DisposeHandle, DisposePtr, HPurge, HNoPurge, HUnlock, ReleaseResource and UnloadSeg",
    )
}

/// Writes what is wrong with a line of a script as a whole, or with a grow-zone script.
fn write_script<W: fmt::Write>(f: &mut fmt::Formatter<W>, wrong: &Wrong<'_>) -> fmt::Result {
    match wrong {
        Wrong::UnknownCall { word } => write_unknown_call(f, word),
        Wrong::EndOutside => f.write_str("'end' outside a grow-zone script"),
        Wrong::NotAllowed { word } => write_not_allowed(f, word),
        Wrong::LongLine { length } => {
            write!(f, "the line has {length} bytes: it may have 65535")
        }
        Wrong::Argument {
            form,
            number,
            role,
            found,
        } => write_argument(f, *form, *number, *role, found),
        Wrong::Extra { form, found } => write_extra(f, *form, found),
        Wrong::TakenName { name } => {
            write_word(f, "a grow-zone script named ", name, " stands above")
        }
        Wrong::NamedNone => f.write_str(
            "a grow-zone script is not named none: 'SetGrowZone none' sets no script",
        ),
        Wrong::NoEnd { name } => write_word(f, "'grow ", name, "' has no 'end'"),
        Wrong::NoGrowZone { name } => write_word(f, "no grow-zone script is named ", name, ""),
        _ => Ok(()),
    }
}

/// Writes what is wrong with a line of a job as a whole.
fn write_job<W: fmt::Write>(f: &mut fmt::Formatter<W>, wrong: &Wrong<'_>) -> fmt::Result {
    match wrong {
        Wrong::UnknownWord { word } => write_unknown(f, word, "unknown word ", nearest_word(word)),
        Wrong::BeforeMemory { word } => {
            write_word(
                f,
                "'",
                word,
                "' before 'memory': a job begins with 'memory N'",
            )
        }
        Wrong::SecondMemory => f.write_str("a second 'memory'"),
        Wrong::MemorySize { size } => write_memory(f, *size),
        Wrong::SecondSystem => f.write_str("a second 'system'"),
        Wrong::AfterEvent { word } => {
            let order = "' after an event: 'system', 'app' and 'file' come before all events";
            write_word(f, "'", word, order)
        }
        Wrong::TakenApplication { name } => {
            write_word(f, "an application named ", name, " stands above")
        }
        Wrong::ManyApplications => f.write_str("a job has at most 64 applications"),
        Wrong::NoApplication { name } => {
            write_word(f, "no application named ", name, " stands above")
        }
        Wrong::TakenFile { name } => {
            write_quoted(f, "the application has a file named ", name, " already")
        }
        Wrong::ManyFiles => f.write_str("an application has at most 255 files besides its own"),
        Wrong::NoMemory => f.write_str("a job begins with 'memory N'"),
        _ => write_script(f, wrong),
    }
}

impl<'t> fmt::Display for Wrong<'t> {
    fn fmt<W: fmt::Write>(&self, f: &mut fmt::Formatter<W>) -> fmt::Result {
        write_job(f, self)
    }
}

impl<'t> fmt::Display for Fault<'t> {
    /// Writes the line, the column and what is wrong, as `LINE:COLUMN: WORDS`.
    fn fmt<W: fmt::Write>(&self, f: &mut fmt::Formatter<W>) -> fmt::Result {
        write!(f, "{}:{}: {}", self.line, self.column, self.wrong)
    }
}
