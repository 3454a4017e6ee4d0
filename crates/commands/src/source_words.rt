//! The words of the commands that print forks as source of Rez, and assemble source into forks.

ghost use Rattle.std.specs.Prelude.{IfErr};
ghost use Rattle.fork_tasks.specs.Fault.{message_of, IsUsage};

use crate::fork_words::{
    FORK_HELP, ID_HELP, NEW_FORK_HELP, TYPE_HELP, UTF8, charset_in, key_in, type_in,
};
use crate::parsing::{Spoken, Word, value};
use crate::request::Request;
use clap::{ArgMatches, Command};
use fork_commands::{Selection, SourceForm};
use fork_tasks::{Assembly, Part, Printing, ToolFault};
use mac_roman::Charset;
use rez_printing::Numbering;
use rez_typed::{Coding, SourceStyle};
use std::alloc::{AllocError, Global};

const DEREZ_ABOUT: &str = "Prints what a fork holds as source of Rez";

const DEREZ_EXAMPLES: &str = "Examples:
  macmem derez examples/Document.rsrc
  macmem derez --types TYPES examples/Document.rsrc

The first prints, for the first resource:
  type 'STR ' { pstring; };

  resource 'STR ' (128, \"Greeting\", purgeable) {
  \t\"Hello\"
  };

A resource stands by its values where its type is known and the values state its
very bytes; the type is declared before it is used. Known are the types of the
program's table, those that a file of --types declares, those of which the fork
has a template ('TMPL'), and the signature of its application. All other
resources, and with --data each, stand by their bytes:
  data 'STR ' (128, \"Greeting\", purgeable) {
  \t$\"0548 656C 6C6F\"                                     /* .Hello */
  };

'macmem rez' reads both again. The attributes of the map and the 240 bytes after
the header stand above the statements, as comments of a form that 'macmem rez'
reads too, where they aren't 0.
Files of --types are read one after another, each with what is declared before
it: a type that is declared twice is the last one. A file that cannot be read is
reported by its first line that is wrong, as
'macmem: TYPES: line 3: a semicolon is needed'.
With --utf8 and without --data, the text says in a comment at its head that it
is UTF-8, which 'macmem rez' reads.
A fork that cannot be read is reported as 'macmem: FORK: fork CODE': -39
(eofErr) no bytes, -199 (mapReadErr) damaged.";

const SHOW_ABOUT: &str = "Prints some resources of a fork as source of Rez";

const SHOW_EXAMPLES: &str = "Examples:
  macmem show examples/Document.rsrc STR 128
  macmem show examples/Document.rsrc STR
  macmem show examples/Document.rsrc

The first prints one resource as 'macmem derez' does, with the declaration of
its type above it:
  type 'STR ' { pstring; };

  resource 'STR ' (128, \"Greeting\", purgeable) {
  \t\"Hello\"
  };

The second prints all resources of a type, and the third all that the fork
holds. 'macmem set --rez' takes such a text in the place of bytes.
A type of fewer than four characters is filled with blanks. A fork without such
a resource is reported as 'macmem: FORK: fork -192' (resNotFound), and one that
cannot be read with -39 (eofErr) or -199 (mapReadErr).";

const REZ_ABOUT: &str = "Writes the fork that a source of Rez states";

const REZ_EXAMPLES: &str = "Examples:
  macmem rez SOURCE OUT
  macmem rez --types TYPES SOURCE OUT
  macmem rez --into FILE SOURCE OUT

OUT must not exist yet. It is the fork alone, or, with --into, FILE with that
fork in the place of its own, in the wrapper of FILE. The source has statements
'type', 'resource', 'data' and 'read', as 'macmem derez' prints them or as a
person writes them; types that the program knows need no declaration. Files of
--types are read before the source, one after another; '#include' is not read.
  read 'PICT' (128, \"Map\") \"pictures/map\";

takes the bytes of a file: its path begins at the folder of SOURCE, unless it
begins with '/'; that of /dev/stdin is the current folder. All files are read
before OUT is written. The fork is the canonical one, as of 'macmem rewrite'. A
source that cannot be read is reported by its first line that is wrong, as
'macmem: SOURCE: line 3: a semicolon is needed'; one whose resources fit no
fork as 'macmem: SOURCE: fork -34' (dskFulErr); a file that it names as
'macmem: pictures/map: cannot read'. A file that exists already is reported as
'macmem: OUT: cannot write'.";

const SOURCE_HELP: &str = "File with source of Rez, or /dev/stdin; it is only read";

/// The name of the option for the file into which a fork is put, without its two hyphens.
const INTO: &str = "into";

const INTO_HELP: &str = "File whose fork is replaced: OUT is it with the new fork";

/// The name of the option for a file of declarations, without its two hyphens.
const TYPES: &str = "types";

const TYPES_HELP: &str = "File with declarations of types; may be repeated";

/// The name of the flag for statements `data` alone, without its two hyphens.
const DATA: &str = "data";

const DATA_HELP: &str = "Print the bytes of each resource, and no values";

/// The name of the flag for the numbers of elements, without its two hyphens.
const NUMBERS: &str = "numbers";

const NUMBERS_HELP: &str = "Number the elements of arrays in comments";

const SOURCE_UTF8_HELP: &str = "Print characters beyond ASCII in UTF-8, and not as escapes";

/// The command that prints a fork as source.
pub const DEREZ: Spoken = Spoken {
    name: "derez",
    about: DEREZ_ABOUT,
    examples: DEREZ_EXAMPLES,
    words: &[
        Word::Settings(TYPES, "FILE", TYPES_HELP),
        Word::Flag(DATA, DATA_HELP),
        Word::Flag(NUMBERS, NUMBERS_HELP),
        Word::Flag(UTF8, SOURCE_UTF8_HELP),
        Word::Required("FORK", FORK_HELP),
    ],
};

/// The command that prints some resources of a fork as source.
pub const SHOW: Spoken = Spoken {
    name: "show",
    about: SHOW_ABOUT,
    examples: SHOW_EXAMPLES,
    words: &[
        Word::Settings(TYPES, "FILE", TYPES_HELP),
        Word::Flag(DATA, DATA_HELP),
        Word::Flag(NUMBERS, NUMBERS_HELP),
        Word::Flag(UTF8, SOURCE_UTF8_HELP),
        Word::Required("FORK", FORK_HELP),
        Word::Optional("TYPE", TYPE_HELP),
        Word::OptionalNumber("ID", ID_HELP),
    ],
};

/// The command that writes the fork that a source states.
pub const REZ: Spoken = Spoken {
    name: "rez",
    about: REZ_ABOUT,
    examples: REZ_EXAMPLES,
    words: &[
        Word::Settings(TYPES, "FILE", TYPES_HELP),
        Word::Setting(INTO, "FILE", INTO_HELP),
        Word::Required("SOURCE", SOURCE_HELP),
        Word::Required("OUT", NEW_FORK_HELP),
    ],
};

/// Returns the paths of the files of declarations, in the order of the words.
fn types_in<'a>(alloc: Global, matches: &ArgMatches<'a>) -> Result<Vec<&'a str>, AllocError> {
    Vec::from_slice(alloc, matches.get_strs(TYPES).unwrap_or(&[]))
}

/// Returns how values are printed as source.
pub fn style_in(numbering: Numbering, matches: &ArgMatches<'_>) -> SourceStyle {
    let coding = if matches.get_flag(UTF8) {
        Coding::Utf8
    } else {
        Coding::Bytes(Charset::Ascii)
    };
    SourceStyle { numbering, coding }
}

/// Returns how the elements of arrays are printed.
fn numbering_in(matches: &ArgMatches<'_>) -> Numbering {
    if matches.get_flag(NUMBERS) {
        Numbering::Elements
    } else {
        Numbering::None
    }
}

/// Returns how a fork is printed as source.
fn form_in(matches: &ArgMatches<'_>) -> SourceForm {
    if matches.get_flag(DATA) {
        SourceForm::Data(charset_in(matches))
    } else {
        SourceForm::Typed(style_in(numbering_in(matches), matches))
    }
}

fn show_named<'a>(alloc: Global) -> Result<Command<'a>, AllocError> {
    SHOW.command(alloc)?.bin_name("macmem show")
}

/// Returns the resources that the arguments of `show` name.
fn selection_in(alloc: Global, matches: &ArgMatches<'_>) -> Result<Selection, ToolFault>
    ensures { IfErr result (λ fault. IsUsage (message_of fault)) }
{
    let Some(text) = matches.get_str("TYPE") else {
        return Ok(Selection::All);
    };
    if matches.get_str("ID").is_some() {
        Ok(Selection::One(key_in(alloc, show_named(alloc)?, matches)?))
    } else {
        Ok(Selection::OfType(type_in(alloc, show_named(alloc)?, text)?))
    }
}

/// Returns a request to print a part of a fork.
fn printing<'a>(
    alloc: Global,
    part: Part,
    matches: &ArgMatches<'a>,
) -> Result<Printing<'a>, AllocError> {
    Ok(Printing {
        types: types_in(alloc, matches)?,
        form: form_in(matches),
        part,
        fork: value(matches, "FORK"),
    })
}

/// Returns the request that the words after `show` make.
fn showing<'a>(alloc: Global, matches: &ArgMatches<'a>) -> Result<Printing<'a>, ToolFault>
    ensures { IfErr result (λ fault. IsUsage (message_of fault)) }
{
    let part = Part::Selected(selection_in(alloc, matches)?);
    Ok(printing(alloc, part, matches)?)
}

/// Returns the request that the words after `rez` make.
fn assembling<'a>(alloc: Global, matches: &ArgMatches<'a>) -> Result<Assembly<'a>, AllocError> {
    Ok(Assembly {
        types: types_in(alloc, matches)?,
        into: matches.get_str(INTO),
        source: value(matches, "SOURCE"),
        out: value(matches, "OUT"),
    })
}

/// Returns the request that the words after the name of one of these commands make.
pub fn source_request<'a>(
    alloc: Global,
    name: &str,
    matches: &ArgMatches<'a>,
) -> Result<Option<Request<'a>>, ToolFault>
    ensures { IfErr result (λ fault. IsUsage (message_of fault)) }
{
    let request = match name {
        "derez" => Request::Print(printing(alloc, Part::Whole, matches)?),
        "show" => Request::Print(showing(alloc, matches)?),
        "rez" => Request::Assemble(assembling(alloc, matches)?),
        _ => return Ok(None),
    };
    Ok(Some(request))
}
