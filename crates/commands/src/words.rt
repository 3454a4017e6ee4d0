//! The words of the command line. Only this module, `dump_words`, `fork_words`, `zone_words`,
//! `play_words`, `lint_words` and `parsing` use the parser.

ghost use Rattle.std.specs.Prelude.{map, IfOk, IfErr};
ghost use Rattle.commands.specs.Asking.{IsAskedBy};
ghost use Rattle.fork_tasks.specs.Fault.{message_of, IsUsage};

use crate::asking::is_asked;
use crate::dump_words::{zone_command, zone_request};
use crate::fork_words::{
    BARE, FORK_HELP, UTF8, UTF8_HELP, charset_in, fork_request, with_fork_commands,
};
use crate::lint_words::{lint_command, linting_in};
use crate::parsing::{
    SCRIPT_HELP, SIZE_HELP, SIZE_RULE, Spoken, Word, bad_value, flag, mistake, usage, value,
    with_commands, with_words,
};
use crate::play_words::{
    FILE_WORD, OWN_WORD, SYSTEM_WORD, WRITE, WRITE_WORD, gives_files, parts_in, script_work,
};
use crate::request::Request;
use crate::size_words::{SIZE_WORD, sizes_in};
use crate::zone_words::{heap_command, heap_request};
use clap::{Arg, ArgMatches, Command};
use fork_tasks::{Spelling, Survey, ToolFault};
use job_tasks::{Errand, PartitionSize, Playing, Task, Work};
use script_text::CALLS;
use std::alloc::{AllocError, Global};

const ABOUT: &str = "Replays what a classic Mac OS heap did, and reads and writes resource forks";

/// The version of the program, and that of its table of types (types/types.r).
const VERSION: &str = "0.1.0 (table of types 1)";

const PROGRAM_EXAMPLES: &str = "Examples:
  macmem script 1024 examples/first.script    run a script in 1024 bytes
  macmem heap 1024 examples/first.script      list the blocks that it leaves
  macmem lint examples/first.script           say what is wrong with its lines
  macmem run examples/job/job OUT             run the applications of a job
  macmem zone examples/memory.dump 0x400      list a zone of a real Macintosh
  macmem map examples/Document.rsrc           list the resources of a fork
  macmem check examples/Document.rsrc         say whether a fork is canonical
  macmem get examples/Document.rsrc STR 128   print the bytes of a resource
  macmem derez examples/Document.rsrc         print a fork as source of Rez

Scripts of toolbox calls run in a model of the Memory, Resource and Segment
Managers. 'macmem COMMAND --help' says more of a command; 'macmem script --help'
lists the calls and the result codes.
A word that begins with '-' is an option; after the word '--' it is an argument.
Status: 0 done; 1 not done, with one line on the standard error, or 'diff' found
that two forks differ, 'check' or 'map' a file whose fork has no content, or
'lint' a faulty line, or 'zone' a damaged zone or none; 2 usage, help or
version.";

const SCRIPT_ABOUT: &str = "Runs a script of toolbox calls and prints its transcript";

const SCRIPT_LONG_ABOUT: &str =
    "Runs a script in a fresh partition and prints its transcript: a line for the
launch, one for each call with its line number, its result code and its values,
and one for the end.

Example:
  macmem script 1024 first.script

prints, where first.script holds the two lines 'NewHandle a 100' and 'FreeMem':
  launch 0 1024
  1 NewHandle 0
  2 FreeMem 0 624
  end 0

A name is a letter or '_', then letters, digits and '_'; sizes, offsets and
flags are decimal; bytes are written as \"Hi\" or $4869.
A faulty line is reported as 'macmem: SCRIPT: line N: fault K': 1 unknown call,
2 bad argument, 3 call not allowed in a grow-zone script, 4 line of more than
65535 bytes. 'macmem lint SCRIPT' says in words what is wrong, of every faulty
line.
The lines of a grow-zone script stand before the line of the call that found no
room, and begin with '+'.

With --text each line has the call as it was written, its result code by Apple's
name, and what the call moved and purged, as

  8 NewHandle list 500 -> noErr; moved text 400 -> 272; purged picture

With --fork, --system and --file the application, which is named 'script', has a
fork of its own, a System file and further files, each alone or in a wrapper, as
in 'macmem run':

  macmem script --file Letter=Letter.rsrc --write OUT 1024 letter.script

makes the folder OUT, in place of printing: app-script-K.rsrc is a fork that was
written, K its file's place (0 is the application's own), and app-script.log the
transcript. A fork that cannot be opened is reported as
'macmem: FORK: fork CODE'.

The calls with their arguments are listed below the options, and below them the
result codes.";

const RUN_ABOUT: &str = "Runs the applications of a job and writes what they leave";

const RUN_LONG_ABOUT: &str =
    "Runs a job: several applications in one memory, each in a partition of its own.
Makes the folder OUT, which must not exist yet, and writes into it what the
applications leave: their transcripts, and each fork that was written, in the
wrapper of the file in which it was read, with all else that this file holds
(--bare writes the forks alone).

Example:
  macmem run examples/job/job OUT

The lines of a job, in this order (a line that begins with '#' is skipped):
  memory N                   the memory in bytes: 512 to 134217728, a multiple
                             of 16
  system \"PATH\"              at most once: the path of the System file's fork
  app NAME \"FORK\" \"SCRIPT\"  an application, one of at most 64: the paths of
                             its resource fork and its script
  file NAME \"FILE\" \"PATH\"   a file of an application above, one of at most
                             255: its name, and the path of its fork
                             'system', 'app' and 'file' stand in any order
  launch NAME                launches the application, in a partition of the
                             size that its 'SIZE' -1 asks for, or that --size
                             gives for it
  step NAME                  runs its next call
  turn NAME                  runs its calls up to and including the next
                             WaitNextEvent
  quit NAME                  asks the application to quit
  rest                       gives the running applications turns until none
                             runs

Paths are taken as they stand, from the current folder.

The folder OUT then holds:
  desk.log                   the launches and the ends with their result codes,
                             and the forks that were written
  app-NAME.log               the transcript of each application that was
                             launched; with --text in words, as 'macmem script
                             --text' prints it
  app-NAME-K.rsrc            each fork that was written; K is the file's place
                             among the application's files, from 0. A fork
                             that was read in AppleSingle, AppleDouble,
                             MacBinary or BinHex is written in it; alone with
                             --bare, where it doesn't fit the wrapper, and
                             where the run stopped with 'no host memory'

Nothing is written before all input is read. A faulty line of the job or of a
script is reported as 'macmem: PATH: line N: fault K', as by 'macmem script'
('macmem lint --job JOB' says in words what is wrong, of every faulty line); a
System file whose fork cannot be read as 'macmem: PATH: fork CODE'; a folder
that exists already as 'macmem: OUT: cannot write'.";

const JOB_HELP: &str = "File with the job's lines, or /dev/stdin";

const OUT_HELP: &str = "Folder that is made; it must not exist yet";

const RUN_BARE_HELP: &str = "Write each fork alone, also where its file has a wrapper";

/// The name of the flag, without its two hyphens.
const PROGRESS: &str = "progress";

const PROGRESS_HELP: &str = "Print 'macmem: 41 of 4080 done' at most 100 times: lines or events";

/// The name of the flag for types and names that a person reads, without its two hyphens.
const TEXT: &str = "text";

const TEXT_HELP: &str = "Print types as 'STR ' and names as \"Greeting\"";

/// The name of the flag for a line above the listing, without its two hyphens.
const VERBOSE: &str = "verbose";

const VERBOSE_HELP: &str = "Print above the listing what the file is, a line each";

/// The name of the flag for what differs, or is damaged, without its two hyphens.
const WHY: &str = "why";

const WHY_HELP: &str = "Print what differs from the canonical fork, and what is damaged";

const FORKS_HELP: &str = "Files, or folders whose files are checked; they are only read";

const MAP_ABOUT: &str = "Lists the resources of a fork, a line each";

const MAP_EXAMPLES: &str = "Example:
  macmem map examples/Document.rsrc

prints a line 'map ATTRIBUTES TYPES RESOURCES', then for each resource its type,
ID, attributes, length in bytes, and name:
  map 0 3 4
  $53545220 128 32 6 $4772656574696e67
  $53545220 129 0 8 -
  $54455854 128 36 40 $52656164206d65206669727374
  $53495a45 -1 0 10 -

Types and names are in hexadecimal after '$'; '-' stands for no name.
  macmem map --text examples/Document.rsrc

prints the first resource as:
  'STR ' 128 32 6 \"Greeting\"

A type or a name with a character that cannot be printed is spelled out.
With --utf8 such a character of a name or a type is printed in UTF-8. The word
'compressed' after a name says that the data is: attributes have the bit 1.
A fork may be wrapped as AppleSingle, AppleDouble, MacBinary or BinHex; so may
each that another command reads. With --verbose the lines above the listing are
'wrapper' and one of none, AppleSingle, AppleDouble, MacBinary I, MacBinary II,
MacBinary III and BinHex, and then name, type, creator, flags, created, changed,
data and resource, each if the wrapper has it: the last two are lengths in
bytes. Where the fork has no content, the line 'state' says why, in place of a
listing, and the status is 1. A wrapper that is damaged is else reported as, for
example, 'macmem: FORK: AppleSingle: the header is cut off'.
A fork that cannot be read is reported as 'macmem: FORK: fork CODE': -39
(eofErr) no bytes, -199 (mapReadErr) damaged.";

const CHECK_ABOUT: &str = "Prints 'canonical' if a fork is in canonical form, else 'accepted'";

const CHECK_EXAMPLES: &str = "Examples:
  macmem check examples/Document.rsrc     prints 'canonical'
  macmem check examples/OtherForm.rsrc    prints 'accepted': the content is the
                                          same, but the map has no header copy
  macmem check --why examples/*.rsrc      prints a line for each: its path, a
                                          tab, and its state

The canonical fork of a content is the one that this program writes.
With several paths, with a folder, or with --why, each file has a line, and so
has each file below a folder, in the order of names. Its state is one of:
  canonical           the canonical fork
  accepted            another fork; with --why what differs, after a colon
  damaged             no fork; with --why which rule it breaks, and where
  no fork             an empty file, or a wrapper with no resource fork
  wrapper damaged     with --why how
  not a fork          neither a fork nor one that was damaged
  cannot read         the file cannot be read
The status is 0 if all are canonical or accepted, else 1.
A single fork that cannot be read is reported as 'macmem: FORK: fork CODE': -39
(eofErr) no bytes, -199 (mapReadErr) damaged.";

/// The name of the option for a transcript in words, without its two hyphens.
const WORDS: &str = TEXT;

const WORDS_HELP: &str = "Print calls as written, codes by name, and what moved and was purged";

const SCRIPT_WORDS: [Word; 7] = [
    OWN_WORD,
    SYSTEM_WORD,
    FILE_WORD,
    WRITE_WORD,
    Word::Flag(PROGRESS, PROGRESS_HELP),
    Word::Required("SIZE", SIZE_HELP),
    Word::Required("SCRIPT", SCRIPT_HELP),
];

/// Returns the flag that explains a transcript in words.
fn in_words<'a>(alloc: Global) -> Result<Arg<'a>, AllocError> {
    flag(alloc, WORDS, WORDS_HELP)
        .conflicts_with(WRITE)?
        .conflicts_with(PROGRESS)
}

fn script_command<'a>(alloc: Global) -> Result<Command<'a>, AllocError> {
    let command = Command::new(alloc, "script")
        .about(SCRIPT_ABOUT)
        .long_about(SCRIPT_LONG_ABOUT)
        .after_help(CALLS);
    let in_words = in_words(alloc)?;
    with_words(alloc, command, &SCRIPT_WORDS)?.arg(in_words)
}

const RUN_WORDS: [Word; 6] = [
    Word::Flag(BARE, RUN_BARE_HELP),
    Word::Flag(WORDS, WORDS_HELP),
    Word::Flag(PROGRESS, PROGRESS_HELP),
    SIZE_WORD,
    Word::Required("JOB", JOB_HELP),
    Word::Required("OUT", OUT_HELP),
];

fn run_command<'a>(alloc: Global) -> Result<Command<'a>, AllocError> {
    let command = Command::new(alloc, "run")
        .about(RUN_ABOUT)
        .long_about(RUN_LONG_ABOUT);
    with_words(alloc, command, &RUN_WORDS)
}

const MAP: Spoken = Spoken {
    name: "map",
    about: MAP_ABOUT,
    examples: MAP_EXAMPLES,
    words: &[
        Word::Flag(TEXT, TEXT_HELP),
        Word::Flag(UTF8, UTF8_HELP),
        Word::Flag(VERBOSE, VERBOSE_HELP),
        Word::Required("FORK", FORK_HELP),
    ],
};

const CHECK: Spoken = Spoken {
    name: "check",
    about: CHECK_ABOUT,
    examples: CHECK_EXAMPLES,
    words: &[Word::Flag(WHY, WHY_HELP), Word::Several("FORK", FORKS_HELP)],
};

/// The commands that read forks and print what is in them, in the order in which the help of the
/// program has them.
const READING_COMMANDS: [Spoken; 2] = [MAP, CHECK];

/// Returns a command with those that run calls.
fn with_running_commands<'a>(
    alloc: Global,
    command: Command<'a>,
) -> Result<Command<'a>, AllocError> {
    command
        .subcommand(script_command(alloc)?)?
        .subcommand(heap_command(alloc)?)?
        .subcommand(run_command(alloc)?)
}

/// Returns a command with those that read files and print what is in them.
fn with_reading_commands<'a>(
    alloc: Global,
    command: Command<'a>,
) -> Result<Command<'a>, AllocError> {
    let command = command.subcommand(lint_command(alloc)?)?;
    with_commands(alloc, command, &READING_COMMANDS)?.subcommand(zone_command(alloc)?)
}

fn program<'a>(alloc: Global) -> Result<Command<'a>, AllocError> {
    let command = Command::new(alloc, "macmem")
        .about(ABOUT)
        .version(VERSION)
        .after_help(PROGRAM_EXAMPLES)
        .subcommand_required(true)
        .arg_required_else_help(true);
    let command = with_running_commands(alloc, command)?;
    let command = with_reading_commands(alloc, command)?;
    with_fork_commands(alloc, command)
}

fn bad_size(alloc: Global, text: &str) -> Result<ToolFault, AllocError>
    ensures { IfOk result (λ fault. IsUsage (message_of fault)) }
{
    let command = script_command(alloc)?.bin_name("macmem script")?;
    bad_value(alloc, command, "SIZE", text, SIZE_RULE)
}

/// The mistake of words that name no command.
const NO_COMMAND: &str = "a command is required";

/// Returns the fault of a word that isn't UTF-8.
pub fn not_utf8(alloc: Global) -> ToolFault
    ensures { IsUsage (message_of result) }
{
    match program(alloc) {
        Ok(command) => mistake(
            alloc,
            command,
            "invalid UTF-8 was detected in one or more arguments",
        ),
        Err(_) => ToolFault::HostMemory,
    }
}

/// Returns the request to run a script alone, in a partition of this size.
fn script_task<'a>(matches: &ArgMatches<'a>, size: PartitionSize) -> Task<'a> {
    Task {
        work: Work::Script(size),
        path: value(matches, "SCRIPT"),
        watched: matches.get_flag(PROGRESS),
    }
}

/// Returns the request to run a script with files, in a partition of this size.
fn script_play<'a>(
    alloc: Global,
    matches: &ArgMatches<'a>,
    size: PartitionSize,
) -> Result<Playing<'a>, ToolFault>
    ensures { IfErr result (λ fault. IsUsage (message_of fault)) }
{
    let command = script_command(alloc)?.bin_name("macmem script")?;
    Ok(Playing {
        size,
        parts: parts_in(alloc, matches, command)?,
        script: value(matches, "SCRIPT"),
        work: script_work(matches, matches.get_flag(WORDS)),
        watched: matches.get_flag(PROGRESS),
    })
}

/// Returns the request that the words after `script` make.
fn script_request<'a>(alloc: Global, matches: &ArgMatches<'a>) -> Result<Request<'a>, ToolFault>
    ensures { IfErr result (λ fault. IsUsage (message_of fault)) }
{
    let text = value(matches, "SIZE");
    let Some(size) = PartitionSize::read(text) else {
        return Err(bad_size(alloc, text)?);
    };
    if gives_files(matches) || matches.get_str(WRITE).is_some() || matches.get_flag(WORDS) {
        Ok(Request::Play(script_play(alloc, matches, size)?))
    } else {
        Ok(Request::Look(script_task(matches, size)))
    }
}

fn fork_task<'a>(work: Work, matches: &ArgMatches<'a>) -> Task<'a> {
    Task {
        work,
        path: value(matches, "FORK"),
        watched: false,
    }
}

/// Returns the spelling of a listing.
fn spelling_in(matches: &ArgMatches<'_>) -> Spelling {
    if matches.get_flag(TEXT) || matches.get_flag(UTF8) {
        Spelling::Readable(charset_in(matches))
    } else {
        Spelling::Digits
    }
}

/// Returns the work that the words after `map` ask for.
fn listing_in(matches: &ArgMatches<'_>) -> Work {
    if matches.get_flag(VERBOSE) {
        Work::Describe(spelling_in(matches))
    } else {
        Work::Map(spelling_in(matches))
    }
}

/// Returns the survey that the words after `check` ask for.
fn survey_in<'a>(alloc: Global, matches: &ArgMatches<'a>) -> Result<Survey<'a>, AllocError> {
    Ok(Survey {
        paths: Vec::from_slice(alloc, matches.get_strs("FORK").unwrap_or(&[]))?,
        why: matches.get_flag(WHY),
    })
}

/// Returns the errand that the words after `run` make.
fn errand_in<'a>(alloc: Global, matches: &ArgMatches<'a>) -> Result<Errand<'a>, ToolFault>
    ensures { IfErr result (λ fault. IsUsage (message_of fault)) }
{
    let command = run_command(alloc)?.bin_name("macmem run")?;
    Ok(Errand {
        job: value(matches, "JOB"),
        out: value(matches, "OUT"),
        bare: matches.get_flag(BARE),
        in_words: matches.get_flag(WORDS),
        watched: matches.get_flag(PROGRESS),
        sizes: sizes_in(alloc, matches, command)?,
    })
}

/// Returns the request that the words after the program's name make.
fn asked<'a>(alloc: Global, matches: &ArgMatches<'a>) -> Result<Request<'a>, ToolFault>
    ensures { IfErr result (λ fault. IsUsage (message_of fault)) }
{
    match matches.subcommand() {
        Some(("script", inner)) => script_request(alloc, inner),
        Some(("heap", inner)) => heap_request(alloc, inner),
        Some(("zone", inner)) => zone_request(alloc, inner),
        Some(("run", inner)) => Ok(Request::Run(errand_in(alloc, inner)?)),
        Some(("map", inner)) => Ok(Request::Look(fork_task(listing_in(inner), inner))),
        Some(("check", inner)) => Ok(Request::Check(survey_in(alloc, inner)?)),
        Some(("lint", inner)) => Ok(Request::Lint(linting_in(alloc, inner)?)),
        Some((name, inner)) => match fork_request(alloc, name, inner)? {
            Some(request) => Ok(request),
            None => Err(mistake(alloc, program(alloc)?, NO_COMMAND)),
        },
        None => Err(mistake(alloc, program(alloc)?, NO_COMMAND)),
    }
}

/// Returns the request that the parser finds in the words of the command line.
fn parsed<'a>(alloc: Global, words: &'a [&'a str]) -> Result<Request<'a>, ToolFault>
    ensures { IfErr result (λ fault. IsUsage (message_of fault)) }
{
    match program(alloc)?.try_get_matches_from(words) {
        Ok(matches) => asked(alloc, &matches),
        Err(error) => Err(usage(alloc, &error)),
    }
}

/// The mistake of a request for which the words don't ask; the parser finds none.
const NOT_ASKED: &str = "the words don't ask for this";

/// Reads the words of the command line, the program's name first. The request that the parser finds
/// is tested: a request for which the words don't ask is none.
pub fn read_words<'a>(alloc: Global, words: &'a [&'a str]) -> Result<Request<'a>, ToolFault>
    ensures asked { IfOk result (λ request.
        IsAskedBy (map (λ word. word.now) words.entry.now) request) }
    ensures fault { IfErr result (λ fault. IsUsage (message_of fault)) }
{
    let request = parsed(alloc, words)?;
    if is_asked(words, &request) {
        Ok(request)
    } else {
        Err(mistake(alloc, program(alloc)?, NOT_ASKED))
    }
}
