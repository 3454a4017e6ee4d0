//! The words of the commands that make something of resource forks.

ghost use Rattle.std.specs.Prelude.{IfErr, IfOk};
ghost use Rattle.fork_tasks.specs.Fault.{message_of, IsUsage};

use crate::parsing::{Spoken, Word, bad_value, mistake, value, with_commands};
use crate::request::Request;
use crate::source_words::{DEREZ, REZ, SHOW, source_request, style_in};
use clap::{ArgMatches, Command};
use fork_commands::{
    Edit, ForkWork, Naming, Packaging, PairWork, ResourceKey, Setting, SourceForm,
};
use fork_edits::{NameFault, RomanName, TypeFault, read_attrs, read_type_text};
use fork_tasks::{Combination, Conversion, Extraction, Packing, Pieces, Target, ToolFault};
use mac_roman::Charset;
use mac_words::{Attrs, OsType};
use rez_printing::Numbering;
use std::alloc::{AllocError, Global};

pub const FORK_HELP: &str = "File with a resource fork, or /dev/stdin; it is only read";

pub const TYPE_HELP: &str = "Type of the resource, as STR, 'STR ' or $53545220";

/// The rule for a type, which is printed where the word is no type.
const TYPE_RULE: &str = "a type is written as STR, 'STR ' or $53545220";

pub const ID_HELP: &str = "ID of the resource, -32768 to 32767";

/// The rule for an ID, which is printed where the word is no ID.
const ID_RULE: &str = "the ID must be -32768 to 32767";

pub const NEW_FORK_HELP: &str = "File that is made for the fork; it must not exist yet";

const NEW_FILE_HELP: &str = "File that is made; it must not exist yet";

/// The name of the flag for a fork without its wrapper, without its two hyphens.
pub const BARE: &str = "bare";

const BARE_HELP: &str = "Write the fork alone, also where FORK has a wrapper";

const REWRITE_ABOUT: &str = "Writes the canonical fork of what a fork holds";

const REWRITE_EXAMPLES: &str = "Example:
  macmem rewrite examples/OtherForm.rsrc OUT

OUT must not exist yet. The canonical fork is the one for which 'macmem check'
prints 'canonical'. A fork in a wrapper (AppleSingle, AppleDouble, MacBinary,
BinHex) is written in it: OUT is FORK with another fork, and all else as it was;
with --bare it is the fork alone.
A fork that cannot be read is reported as 'macmem: FORK: fork CODE': -39
(eofErr) no bytes, -199 (mapReadErr) damaged; so is one whose content fits no
fork, as -34 (dskFulErr). A file that exists already is reported as
'macmem: OUT: cannot write'.";

const GET_ABOUT: &str = "Prints the bytes of a resource as they are stored";

const GET_EXAMPLES: &str = "Examples:
  macmem get examples/Document.rsrc STR 128
  macmem get examples/Document.rsrc SIZE -1

A type of fewer than four characters is filled with blanks. Where two resources
have the type and the ID, the first is printed. A fork without such a resource
is reported as 'macmem: FORK: fork -192' (resNotFound), and one that cannot be
read with -39 (eofErr) or -199 (mapReadErr).";

const EXTRACT_ABOUT: &str = "Writes the bytes of each resource into a file of its own";

const EXTRACT_EXAMPLES: &str = "Example:
  macmem extract examples/Document.rsrc OUT

makes the folder OUT, which must not exist yet, with these files:
  STR_20-128.bin
  STR_20-129.bin
  TEXT-128.bin
  SIZE--1.bin
  contents

A name has the type and the ID, so that it stays as it is when other resources
are added. A byte of the type that is no letter and no digit is '_' and two
hexadecimal digits, and '+' stands before a letter in another case than the one
before it, a capital at first. The file 'contents' lists type, ID, attributes,
file and name of each resource, in their order; 'macmem pack' makes the fork
again. Where two resources have one type and ID, each name begins with the
number of the resource instead.
A fork that cannot be read is reported as 'macmem: FORK: fork CODE': -39
(eofErr) no bytes, -199 (mapReadErr) damaged. A folder that exists already is
reported as 'macmem: OUT: cannot write', and nothing is written then.";

const PACK_ABOUT: &str = "Writes the fork of the files in a folder";

const PACK_EXAMPLES: &str = "Example:
  macmem pack FOLDER OUT

OUT must not exist yet. FOLDER is one that 'macmem extract' made, or has a file
'contents' of the same form. A line of that is, for example:
  'STR ' 128 32 STR_20-128.bin \"Greeting\"
type, ID, attributes, file and, if there is one, name. Lines 'map N' and
'area HEX' give the attributes of the map and the 240 bytes after the header;
empty lines and those that begin with '#' are skipped. OUT is the canonical fork
of the resources in the order of their lines, each with the bytes of its file.
A list that cannot be read is reported by its first line that is wrong, as
'macmem: FOLDER/contents: line 3: the ID can't be read'.";

const FOLDER_HELP: &str = "Folder with the file 'contents' and those that it names";

const UNWRAP_ABOUT: &str = "Writes the forks of a file, and what is known of it";

const UNWRAP_EXAMPLES: &str = "Example:
  macmem unwrap FILE OUT

makes the folder OUT, which must not exist yet, with the file 'data' (the data
fork, where FILE has one), 'rsrc' (the resource fork, which may be empty) and
'info' (wrapper, name, type, creator, flags, dates and lengths, a line each, as
'macmem map --verbose' prints them).
FILE is AppleSingle, AppleDouble, MacBinary, BinHex or a bare fork. A wrapper
that is damaged is reported as, for example,
'macmem: FILE: BinHex: the checksum of the resource fork is wrong'. A folder that
exists already is reported as 'macmem: OUT: cannot write'.";

const WRAPPED_HELP: &str = "File in a wrapper, or /dev/stdin; it is only read";

const FILES_HELP: &str = "Folder that is made for the files; it must not exist yet";

const SET_ABOUT: &str = "Writes a fork in which a resource is replaced or added";

const SET_EXAMPLES: &str = "Examples:
  macmem set examples/Document.rsrc STR 128 FILE OUT --name Greeting --attrs 32
  macmem set examples/Document.rsrc STR 128 SOURCE OUT --rez

OUT must not exist yet. The resource of the type and the ID gets the bytes of
FILE, or is added if the fork has none. The fork is the canonical one, in the
wrapper of FORK unless --bare is given, as of 'macmem rewrite'; FORK stays as it
is. A resource that is there keeps its place, and its name and attributes
if none are given; where two have the type and the ID, the first is replaced. A
new resource comes after those of its type.
Attributes are words with commas between them (sysheap, purgeable, locked,
protected, preload), a number from 0 to 255, or $ and two hexadecimal digits; 2
(changed) is not stored.
With --rez the file is source of Rez, as 'macmem show' prints it, with a
statement of the type and the ID: the resource gets its bytes, its name, or
none, and its attributes, where --name and --attrs give no others. A source that
cannot be read is reported as 'macmem: SOURCE: line 3: a semicolon is needed',
and one without such a statement as 'macmem: SOURCE: fork -192' (resNotFound).
A fork that cannot be read is reported as 'macmem: FORK: fork CODE': -39
(eofErr) no bytes, -199 (mapReadErr) damaged; so is one that would be too large,
as -34 (dskFulErr). A file that exists already is reported as
'macmem: OUT: cannot write'.";

const FILE_HELP: &str = "File with the resource's bytes, or /dev/stdin; it is only read";

/// The name of the flag for a file that is source of Rez, without its two hyphens.
const STATED: &str = "rez";

const STATED_HELP: &str = "Take FILE as source of Rez that states the resource";

/// The name of the option for a name, without its two hyphens.
const NAME: &str = "name";

const NAME_HELP: &str = "Name, of at most 255 characters of Mac OS Roman";

/// The rule for a name, which is printed where the word is too long.
const NAME_RULE: &str = "a name has at most 255 characters";

/// The rule for characters, which is printed where a word has one that Mac OS Roman has not.
const ROMAN_RULE: &str = "a character is not one of Mac OS Roman";

/// The name of the flag for no name, without its two hyphens.
const NO_NAME: &str = "no-name";

const NO_NAME_HELP: &str = "Take the name away";

/// The name of the option for an ID, without its two hyphens.
const NEW_ID: &str = "id";

const NEW_ID_HELP: &str = "New ID, -32768 to 32767; no other resource of the type may have it";

/// The mistake of a command to rename that gives nothing new.
const NOTHING_NEW: &str = "one of --id, --name, --no-name and --attrs is required";

/// The mistake of a command to rename that both gives and takes a name.
const TWO_NAMES: &str = "--name and --no-name exclude each other";

/// The name of the option for attributes, without its two hyphens.
const ATTRS: &str = "attrs";

const ATTRS_HELP: &str = "Attributes, as purgeable,preload or 36 or $24";

/// The rule for attributes, which is printed where the word is none.
const ATTRS_RULE: &str = "attributes are written as purgeable,preload or 36 or $24";

const REMOVE_ABOUT: &str = "Writes a fork from which a resource is taken out";

const REMOVE_EXAMPLES: &str = "Example:
  macmem remove examples/Document.rsrc STR 129 OUT

OUT must not exist yet. It is the canonical fork of what is left, in the wrapper
of FORK unless --bare is given, as of 'macmem rewrite'; FORK stays as it is.
Where two resources have the type and the ID, the first is taken out. A type
with no resource left goes too. A fork without such a resource is reported as
'macmem: FORK: fork -192' (resNotFound).";

const RENAME_ABOUT: &str = "Writes a fork in which a resource has another ID or name";

const RENAME_EXAMPLES: &str = "Examples:
  macmem rename examples/Document.rsrc STR 128 OUT --id 200 --name Welcome
  macmem rename examples/Document.rsrc STR 128 OUT --no-name --attrs purgeable

OUT must not exist yet. It is the canonical fork, in the wrapper of FORK unless
--bare is given, as of 'macmem rewrite'; FORK stays as it is. The resource keeps
its bytes, its place, and what no option names; where two have the type and the
ID, the first is renamed. A fork without such a resource is reported as
'macmem: FORK: fork -192' (resNotFound), and an ID that another resource of the
type has as 'macmem: FORK: another resource of the type has the ID'.";

const WRAP_ABOUT: &str = "Writes a file with the fork of another in the place of its own";

const WRAP_EXAMPLES: &str = "Example:
  macmem wrap LIKE FORK OUT

OUT must not exist yet. It is LIKE (AppleSingle, AppleDouble, MacBinary or
BinHex) with the bytes of the fork in FORK in the place of its own; data fork, type, creator,
dates, name and all else are as they were.
A fork that cannot be read is reported as 'macmem: FORK: fork CODE': -39
(eofErr) no bytes, -199 (mapReadErr) damaged. A file that exists already is
reported as 'macmem: OUT: cannot write'.";

const MERGE_ABOUT: &str = "Writes a fork with the resources of two";

const MERGE_EXAMPLES: &str = "Example:
  macmem merge examples/Document.rsrc OTHER OUT

OUT must not exist yet. It is the canonical fork, in the wrapper of FORK unless
--bare is given, as of 'macmem rewrite', of the resources of FORK and, after
those of each type, of OTHER; attributes of the map and the 240 bytes after the
header are those of FORK. A resource whose type and ID stand in both is refused,
as 'macmem: OTHER: 'STR ' 128 stands in both forks'; with --replace that of OTHER
stands in its place.";

/// The name of the flag for characters beyond ASCII, without its two hyphens.
pub const UTF8: &str = "utf8";

pub const UTF8_HELP: &str = "Print characters beyond ASCII in UTF-8, and not as \\0x8E";

/// The name of the flag for resources that stand in both forks, without its two hyphens.
const REPLACE: &str = "replace";

const REPLACE_HELP: &str = "Take from OTHER what stands in both";

const OTHER_HELP: &str = "File with the fork whose resources are added; it is only read";

const LIKE_HELP: &str = "File in a wrapper; it is only read";

const DIFF_ABOUT: &str = "Prints how the contents of two forks differ, a line each";

const DIFF_EXAMPLES: &str = "Example:
  macmem diff examples/Document.rsrc examples/OtherForm.rsrc

prints nothing: both hold the same, in two forms.

  - 'STR ' 128 32 6 \"Greeting\"    only the first fork has the resource
  + 'STR ' 130 0 4 -               only the second fork has it
  ~ 'STR ' 129 name bytes          its name and bytes differ (or: attributes)
  ~ area                           the bytes after the header differ
  ~ map attributes                 the attributes of the map differ
  ~ order                          only the order of the resources differs

The status is 0 if the contents are alike, and 1 if they differ.
  macmem diff --text examples/Document.rsrc OTHER

prints what differs between what 'macmem derez' prints of both, in the form of
'diff -u': removed lines begin with '-', added ones with '+'.
A fork that cannot be read is reported as 'macmem: FORK: fork CODE', with status
1 and no line on the standard output.";

/// The name of the flag for a comparison of sources, without its two hyphens.
const SOURCES: &str = "text";

const SOURCES_HELP: &str = "Compare both as source of Rez, and print as 'diff -u' does";

const FIRST_HELP: &str = "File with the first fork; it is only read";

const SECOND_HELP: &str = "File with the second fork; it is only read";

const WRAP: Spoken = Spoken {
    name: "wrap",
    about: WRAP_ABOUT,
    examples: WRAP_EXAMPLES,
    words: &[
        Word::Required("LIKE", LIKE_HELP),
        Word::Required("FORK", FORK_HELP),
        Word::Required("OUT", NEW_FILE_HELP),
    ],
};

const MERGE: Spoken = Spoken {
    name: "merge",
    about: MERGE_ABOUT,
    examples: MERGE_EXAMPLES,
    words: &[
        Word::Flag(REPLACE, REPLACE_HELP),
        Word::Flag(BARE, BARE_HELP),
        Word::Required("FORK", FORK_HELP),
        Word::Required("OTHER", OTHER_HELP),
        Word::Required("OUT", NEW_FORK_HELP),
    ],
};

const DIFF: Spoken = Spoken {
    name: "diff",
    about: DIFF_ABOUT,
    examples: DIFF_EXAMPLES,
    words: &[
        Word::Flag(SOURCES, SOURCES_HELP),
        Word::Flag(UTF8, UTF8_HELP),
        Word::Required("FORK", FIRST_HELP),
        Word::Required("OTHER", SECOND_HELP),
    ],
};

const REWRITE: Spoken = Spoken {
    name: "rewrite",
    about: REWRITE_ABOUT,
    examples: REWRITE_EXAMPLES,
    words: &[
        Word::Flag(BARE, BARE_HELP),
        Word::Required("FORK", FORK_HELP),
        Word::Required("OUT", NEW_FORK_HELP),
    ],
};

const GET: Spoken = Spoken {
    name: "get",
    about: GET_ABOUT,
    examples: GET_EXAMPLES,
    words: &[
        Word::Required("FORK", FORK_HELP),
        Word::Required("TYPE", TYPE_HELP),
        Word::Number("ID", ID_HELP),
    ],
};

const EXTRACT: Spoken = Spoken {
    name: "extract",
    about: EXTRACT_ABOUT,
    examples: EXTRACT_EXAMPLES,
    words: &[
        Word::Required("FORK", FORK_HELP),
        Word::Required("OUT", FILES_HELP),
    ],
};

const PACK: Spoken = Spoken {
    name: "pack",
    about: PACK_ABOUT,
    examples: PACK_EXAMPLES,
    words: &[
        Word::Required("FOLDER", FOLDER_HELP),
        Word::Required("OUT", NEW_FORK_HELP),
    ],
};

const UNWRAP: Spoken = Spoken {
    name: "unwrap",
    about: UNWRAP_ABOUT,
    examples: UNWRAP_EXAMPLES,
    words: &[
        Word::Required("FILE", WRAPPED_HELP),
        Word::Required("OUT", FILES_HELP),
    ],
};

const SET: Spoken = Spoken {
    name: "set",
    about: SET_ABOUT,
    examples: SET_EXAMPLES,
    words: &[
        Word::Flag(BARE, BARE_HELP),
        Word::Setting(NAME, "NAME", NAME_HELP),
        Word::Setting(ATTRS, "ATTRS", ATTRS_HELP),
        Word::Flag(STATED, STATED_HELP),
        Word::Required("FORK", FORK_HELP),
        Word::Required("TYPE", TYPE_HELP),
        Word::Number("ID", ID_HELP),
        Word::Required("FILE", FILE_HELP),
        Word::Required("OUT", NEW_FORK_HELP),
    ],
};

const REMOVE: Spoken = Spoken {
    name: "remove",
    about: REMOVE_ABOUT,
    examples: REMOVE_EXAMPLES,
    words: &[
        Word::Flag(BARE, BARE_HELP),
        Word::Required("FORK", FORK_HELP),
        Word::Required("TYPE", TYPE_HELP),
        Word::Number("ID", ID_HELP),
        Word::Required("OUT", NEW_FORK_HELP),
    ],
};

const RENAME: Spoken = Spoken {
    name: "rename",
    about: RENAME_ABOUT,
    examples: RENAME_EXAMPLES,
    words: &[
        Word::NumberSetting(NEW_ID, "N", NEW_ID_HELP),
        Word::Setting(NAME, "NAME", NAME_HELP),
        Word::Flag(NO_NAME, NO_NAME_HELP),
        Word::Setting(ATTRS, "ATTRS", ATTRS_HELP),
        Word::Flag(BARE, BARE_HELP),
        Word::Required("FORK", FORK_HELP),
        Word::Required("TYPE", TYPE_HELP),
        Word::Number("ID", ID_HELP),
        Word::Required("OUT", NEW_FORK_HELP),
    ],
};

/// Returns the fault of a word that is no type.
fn bad_type(
    alloc: Global,
    command: Command<'_>,
    text: &str,
    fault: TypeFault,
) -> Result<ToolFault, AllocError>
    ensures { IfOk result (λ fault. IsUsage (message_of fault)) }
{
    match fault {
        TypeFault::NotAType => bad_value(alloc, command, "TYPE", text, TYPE_RULE),
        TypeFault::NoCharacter(_) => bad_value(alloc, command, "TYPE", text, ROMAN_RULE),
        TypeFault::HostMemory => Ok(ToolFault::HostMemory),
    }
}

/// Returns the fault of a word that is no name.
fn bad_name(
    alloc: Global,
    command: Command<'_>,
    text: &str,
    fault: NameFault,
) -> Result<ToolFault, AllocError>
    ensures { IfOk result (λ fault. IsUsage (message_of fault)) }
{
    match fault {
        NameFault::TooLong => bad_value(alloc, command, "NAME", text, NAME_RULE),
        NameFault::NoCharacter(_) => bad_value(alloc, command, "NAME", text, ROMAN_RULE),
        NameFault::HostMemory => Ok(ToolFault::HostMemory),
    }
}

/// Returns the type that a word spells.
pub fn type_in(alloc: Global, command: Command<'_>, text: &str) -> Result<OsType, ToolFault>
    ensures { IfErr result (λ fault. IsUsage (message_of fault)) }
{
    match read_type_text(alloc, text.as_bytes()) {
        Ok(ty) => Ok(ty),
        Err(fault) => Err(bad_type(alloc, command, text, fault)?),
    }
}

/// Returns the type and the ID in the arguments of a command.
pub fn key_in(
    alloc: Global,
    command: Command<'_>,
    matches: &ArgMatches<'_>,
) -> Result<ResourceKey, ToolFault>
    ensures { IfErr result (λ fault. IsUsage (message_of fault)) }
{
    let ty_text = value(matches, "TYPE");
    let id_text = value(matches, "ID");
    let ty = match read_type_text(alloc, ty_text.as_bytes()) {
        Ok(ty) => ty,
        Err(fault) => return Err(bad_type(alloc, command, ty_text, fault)?),
    };
    match id_text.parse::<i16>() {
        Ok(id) => Ok(ResourceKey { ty, id }),
        Err(_) => Err(bad_value(alloc, command, "ID", id_text, ID_RULE)?),
    }
}

/// Returns how a fork is written: alone where the flag is given, else in the wrapper of the file
/// that it was read from.
fn packaging_in(matches: &ArgMatches<'_>) -> Packaging {
    if matches.get_flag(BARE) {
        Packaging::Bare
    } else {
        Packaging::AsRead
    }
}

/// Returns the characters in which names and types are printed.
pub fn charset_in(matches: &ArgMatches<'_>) -> Charset {
    if matches.get_flag(UTF8) {
        Charset::Utf8
    } else {
        Charset::Ascii
    }
}

/// Returns the request that the words after `wrap` make.
fn wrapping<'a>(matches: &ArgMatches<'a>) -> Combination<'a> {
    Combination {
        work: PairWork::Wrap,
        first: value(matches, "LIKE"),
        second: value(matches, "FORK"),
        target: Target::NewFile(value(matches, "OUT")),
    }
}

/// Returns the request that the words after `merge` make.
fn merging<'a>(matches: &ArgMatches<'a>) -> Combination<'a> {
    Combination {
        work: PairWork::Merge(matches.get_flag(REPLACE), packaging_in(matches)),
        first: value(matches, "FORK"),
        second: value(matches, "OTHER"),
        target: Target::NewFile(value(matches, "OUT")),
    }
}

/// Returns a conversion into a new file.
fn into_file<'a>(work: ForkWork, name: &str, matches: &ArgMatches<'a>) -> Conversion<'a> {
    Conversion {
        work,
        path: value(matches, name),
        target: Target::NewFile(value(matches, "OUT")),
    }
}

/// Returns how two forks are compared: their contents, or their sources.
fn comparison_in(matches: &ArgMatches<'_>) -> PairWork {
    if matches.get_flag(SOURCES) {
        PairWork::DiffText(SourceForm::Typed(style_in(Numbering::None, matches)))
    } else {
        PairWork::Diff(charset_in(matches))
    }
}

/// Returns the request that the words after `diff` make.
fn comparing<'a>(matches: &ArgMatches<'a>) -> Combination<'a> {
    Combination {
        work: comparison_in(matches),
        first: value(matches, "FORK"),
        second: value(matches, "OTHER"),
        target: Target::Printed,
    }
}

/// Returns the request that the words after `extract` or `unwrap` make.
fn extraction<'a>(pieces: Pieces, name: &str, matches: &ArgMatches<'a>) -> Extraction<'a> {
    Extraction {
        pieces,
        fork: value(matches, name),
        out: value(matches, "OUT"),
    }
}

/// Returns the request that the words after `pack` make.
fn packing<'a>(matches: &ArgMatches<'a>) -> Packing<'a> {
    Packing {
        folder: value(matches, "FOLDER"),
        out: value(matches, "OUT"),
    }
}

/// Returns the request that the words after `get` make.
fn getting<'a>(alloc: Global, matches: &ArgMatches<'a>) -> Result<Conversion<'a>, ToolFault>
    ensures { IfErr result (λ fault. IsUsage (message_of fault)) }
{
    let command = GET.command(alloc)?.bin_name("macmem get")?;
    let key = key_in(alloc, command, matches)?;
    Ok(Conversion {
        work: ForkWork::Get(key),
        path: value(matches, "FORK"),
        target: Target::Printed,
    })
}

fn set_named<'a>(alloc: Global) -> Result<Command<'a>, AllocError> {
    SET.command(alloc)?.bin_name("macmem set")
}

/// Returns the name in an option, if it is given.
fn name_in(
    alloc: Global,
    command: Command<'_>,
    matches: &ArgMatches<'_>,
) -> Result<Option<RomanName>, ToolFault>
    ensures { IfErr result (λ fault. IsUsage (message_of fault)) }
{
    let Some(text) = matches.get_str(NAME) else {
        return Ok(None);
    };
    match RomanName::read(alloc, text.as_bytes()) {
        Ok(name) => Ok(Some(name)),
        Err(fault) => Err(bad_name(alloc, command, text, fault)?),
    }
}

/// Returns the attributes in an option, if they are given.
fn attrs_in(
    alloc: Global,
    command: Command<'_>,
    matches: &ArgMatches<'_>,
) -> Result<Option<Attrs>, ToolFault>
    ensures { IfErr result (λ fault. IsUsage (message_of fault)) }
{
    let Some(text) = matches.get_str(ATTRS) else {
        return Ok(None);
    };
    let Some(attrs) = read_attrs(text.as_bytes()) else {
        return Err(bad_value(alloc, command, "ATTRS", text, ATTRS_RULE)?);
    };
    Ok(Some(attrs.unchanged()))
}

/// Returns how a resource is set: to the bytes of a file, or to what a source states.
fn set_work(setting: Setting, matches: &ArgMatches<'_>) -> PairWork {
    if matches.get_flag(STATED) {
        PairWork::SetStated(setting, packaging_in(matches))
    } else {
        PairWork::Set(setting, packaging_in(matches))
    }
}

/// Returns the request that the words after `set` make.
fn setting<'a>(alloc: Global, matches: &ArgMatches<'a>) -> Result<Combination<'a>, ToolFault>
    ensures { IfErr result (λ fault. IsUsage (message_of fault)) }
{
    let key = key_in(alloc, set_named(alloc)?, matches)?;
    let name = name_in(alloc, set_named(alloc)?, matches)?;
    let attrs = attrs_in(alloc, set_named(alloc)?, matches)?;
    Ok(Combination {
        work: set_work(Setting { key, name, attrs }, matches),
        first: value(matches, "FORK"),
        second: value(matches, "FILE"),
        target: Target::NewFile(value(matches, "OUT")),
    })
}

fn remove_named<'a>(alloc: Global) -> Result<Command<'a>, AllocError> {
    REMOVE.command(alloc)?.bin_name("macmem remove")
}

fn rename_named<'a>(alloc: Global) -> Result<Command<'a>, AllocError> {
    RENAME.command(alloc)?.bin_name("macmem rename")
}

/// Returns the request that the words after `remove` make.
fn removing<'a>(alloc: Global, matches: &ArgMatches<'a>) -> Result<Conversion<'a>, ToolFault>
    ensures { IfErr result (λ fault. IsUsage (message_of fault)) }
{
    let key = key_in(alloc, remove_named(alloc)?, matches)?;
    let work = ForkWork::Change(Edit::Remove(key), packaging_in(matches));
    Ok(into_file(work, "FORK", matches))
}

/// Returns the ID in an option, if it is given.
fn new_id_in(alloc: Global, matches: &ArgMatches<'_>) -> Result<Option<i16>, ToolFault>
    ensures { IfErr result (λ fault. IsUsage (message_of fault)) }
{
    let Some(text) = matches.get_str(NEW_ID) else {
        return Ok(None);
    };
    match text.parse::<i16>() {
        Ok(id) => Ok(Some(id)),
        Err(_) => Err(bad_value(alloc, rename_named(alloc)?, "N", text, ID_RULE)?),
    }
}

/// Returns the name that a resource gets by the options of a command, no name, or none where it
/// keeps its own.
fn new_name_in(
    alloc: Global,
    matches: &ArgMatches<'_>,
) -> Result<Option<Option<RomanName>>, ToolFault>
    ensures { IfErr result (λ fault. IsUsage (message_of fault)) }
{
    let name = name_in(alloc, rename_named(alloc)?, matches)?;
    if !matches.get_flag(NO_NAME) {
        return Ok(name.map(Some));
    }
    if name.is_some() {
        return Err(mistake(alloc, rename_named(alloc)?, TWO_NAMES));
    }
    Ok(Some(None))
}

/// Returns the request that the words after `rename` make.
fn renaming<'a>(alloc: Global, matches: &ArgMatches<'a>) -> Result<Conversion<'a>, ToolFault>
    ensures { IfErr result (λ fault. IsUsage (message_of fault)) }
{
    let key = key_in(alloc, rename_named(alloc)?, matches)?;
    let id = new_id_in(alloc, matches)?;
    let name = new_name_in(alloc, matches)?;
    let attrs = attrs_in(alloc, rename_named(alloc)?, matches)?;
    if id.is_none() && name.is_none() && attrs.is_none() {
        return Err(mistake(alloc, rename_named(alloc)?, NOTHING_NEW));
    }
    let work = ForkWork::Change(
        Edit::Rename(key, Naming { id, name, attrs }),
        packaging_in(matches),
    );
    Ok(into_file(work, "FORK", matches))
}

/// The commands that take resources out of a fork, or make a fork of them.
const RESOURCE_COMMANDS: [Spoken; 3] = [GET, EXTRACT, PACK];

/// The commands that change one resource of a fork.
const CHANGE_COMMANDS: [Spoken; 3] = [SET, REMOVE, RENAME];

/// The commands on whole forks.
const WHOLE_COMMANDS: [Spoken; 3] = [MERGE, DIFF, REWRITE];

/// The commands on forks as source.
const SOURCE_COMMANDS: [Spoken; 3] = [DEREZ, SHOW, REZ];

/// The commands on the files in which forks are wrapped.
const WRAPPER_COMMANDS: [Spoken; 2] = [WRAP, UNWRAP];

/// Returns a command with those that take resources out of a fork, or make a fork of them.
fn with_resource_commands<'a>(
    alloc: Global,
    command: Command<'a>,
) -> Result<Command<'a>, AllocError> {
    with_commands(alloc, command, &RESOURCE_COMMANDS)
}

/// Returns a command with those that change one resource of a fork.
fn with_change_commands<'a>(
    alloc: Global,
    command: Command<'a>,
) -> Result<Command<'a>, AllocError> {
    with_commands(alloc, command, &CHANGE_COMMANDS)
}

/// Returns a command with those on whole forks.
fn with_whole_commands<'a>(alloc: Global, command: Command<'a>) -> Result<Command<'a>, AllocError> {
    with_commands(alloc, command, &WHOLE_COMMANDS)
}

/// Returns a command with those on forks as source.
fn with_source_commands<'a>(
    alloc: Global,
    command: Command<'a>,
) -> Result<Command<'a>, AllocError> {
    with_commands(alloc, command, &SOURCE_COMMANDS)
}

/// Returns a command with those on the files in which forks are wrapped.
fn with_wrapper_commands<'a>(
    alloc: Global,
    command: Command<'a>,
) -> Result<Command<'a>, AllocError> {
    with_commands(alloc, command, &WRAPPER_COMMANDS)
}

/// Returns a command with those that make something of forks, in the order in which the help of the
/// program has them.
pub fn with_fork_commands<'a>(
    alloc: Global,
    command: Command<'a>,
) -> Result<Command<'a>, AllocError> {
    let command = with_resource_commands(alloc, command)?;
    let command = with_change_commands(alloc, command)?;
    let command = with_whole_commands(alloc, command)?;
    let command = with_source_commands(alloc, command)?;
    with_wrapper_commands(alloc, command)
}

/// Returns the request that the words after the name of one of these commands make.
pub fn fork_request<'a>(
    alloc: Global,
    name: &str,
    matches: &ArgMatches<'a>,
) -> Result<Option<Request<'a>>, ToolFault>
    ensures { IfErr result (λ fault. IsUsage (message_of fault)) }
{
    let request = match name {
        "get" => Request::Convert(getting(alloc, matches)?),
        "extract" => Request::Extract(extraction(Pieces::Resources, "FORK", matches)),
        "unwrap" => Request::Extract(extraction(Pieces::Forks, "FILE", matches)),
        "pack" => Request::Pack(packing(matches)),
        "set" => Request::Combine(setting(alloc, matches)?),
        "remove" => Request::Convert(removing(alloc, matches)?),
        "rename" => Request::Convert(renaming(alloc, matches)?),
        "diff" => Request::Combine(comparing(matches)),
        "rewrite" => {
            let work = ForkWork::Rewrite(packaging_in(matches));
            Request::Convert(into_file(work, "FORK", matches))
        }
        "wrap" => Request::Combine(wrapping(matches)),
        "merge" => Request::Combine(merging(matches)),
        _ => return source_request(alloc, name, matches),
    };
    Ok(Some(request))
}
