//! The words of the command that shows a zone.

ghost use Rattle.std.specs.Prelude.{IfErr, IfOk};
ghost use Rattle.fork_tasks.specs.Fault.{message_of, IsUsage};

use crate::parsing::{
    Rule, Ruled, SCRIPT_HELP, SIZE_HELP, SIZE_RULE, Word, bad_value, value, with_ruled_words,
};
use crate::play_words::{FILE_WORD, OWN_WORD, SYSTEM_WORD, gives_files, parts_in};
use crate::request::Request;
use clap::{ArgGroup, ArgMatches, Command};
use fork_tasks::ToolFault;
use job_tasks::{
    JobZone, Lines, PartitionSize, PlayWork, Playing, Task, ToldLines, Work, ZoneView,
};
use script_text::is_label;
use std::alloc::{AllocError, Global};
use zone_drawing::{Choice, Digits, Part};
use zone_replay::{BlockName, Details, Form, Only, Strips};

const HEAP_ABOUT: &str = "Runs a script up to a line and prints the blocks of its zone";

const HEAP_EXAMPLES: &str = "Example:
  macmem heap 1024 first.script

prints, where first.script holds the two lines 'NewHandle a 100' and 'FreeMem',
the blocks of the zone, lowest first, and their totals:
     offset      size what              logical name locked purgeable type          ID file
          0       272 master pointers         - -    -      -         -              -    -
        272       128 relocatable           100 a    -      -         -              -    -
        400       624 free                    - -    -      -         -              -    -

                     blocks     bytes
  free                    1       624
  nonrelocatable          0         0
  master pointers         1       272
  relocatable             1       128
  locked                  0         0
  may be purged           0         0
  zone                    3      1024
  largest now                     624
  compacted                       624
  purged too                      624

  after 2 FreeMem 0

'offset' is the distance from the bottom of the zone, 'size' the physical size
with the header, 'logical' the size that the script gave; 'name' is the script's
name for the handle or pointer, '-' where it has none any more. Of a resource's
handle 'type', 'ID' and 'file' are those of the resource and the number of its
open file. The last line names the step after which the zone is shown: the last
that was run, before the quit at the script's end.
With --at the script is run up to and including the last call up to that line; 0
is the launch. With --plain a tab stands between fields, there are no titles,
and each line begins with 'block', 'total', 'largest' or 'after'. With --hex
distances and sizes have eight hexadecimal digits. With --only just the locked
blocks have lines, or the purgeable ones, the free ones, or the block that NAME
stands for as the zone lies; the totals are those of the whole zone. With --bytes
the bytes of the block that NAME stands for are printed in its place, 16 in a
line after the distance of the first, or that NAME has no block. With --svg a
picture shows the zone as a strip and each block in a cell, or, of more than 60
blocks, the strip wrapped into rows; --from and --to show a part of the zone.
With --steps the picture has a strip for the zone after line FROM and one after
each further call up to line TO that changed it, with --all after each, and an
arrow for each block that moved from one to the next; with --inside also strips
inside the calls: after each try that found no room, after each line of the
grow-zone script, once blocks had been purged, and once room had been made. With
--text in place of --svg, each call from line FROM to line TO is printed in
words, as 'macmem script --text' prints it.
Faults are reported as 'macmem script' reports them; 'macmem lint SCRIPT' says
in words what is wrong with each faulty line. The script has files by --fork,
--system and --file, as by 'macmem script'.

  macmem heap --at 2 --job examples/job/job --app editor

shows the zone of an application of a job in the same way: in the partition that
it is granted there, with its own files, after line 2 of its script, or after
the last step that it took before. Nothing is written. Faults are reported as
'macmem run' reports them, and an application that was not launched as
'macmem: JOB: no application NAME was launched'.";

/// The ways in which the command is used.
const HEAP_USAGE: &str = "macmem heap [OPTIONS] <SIZE> <SCRIPT>
       macmem heap [OPTIONS] --job <JOB> --app <NAME>";

/// The name of the option for a line of the script, without its two hyphens.
const AT: &str = "at";

const AT_HELP: &str = "Show the zone after this line, not after the last";

/// The rule for a line, which is printed where the word is no line.
const AT_RULE: &str = "the line must be a decimal number";

/// The name of the flag for fields with tabs between them, without its two hyphens.
const PLAIN: &str = "plain";

const PLAIN_HELP: &str = "Print a tab between fields, and no titles";

/// The name of the flag for distances and sizes in hexadecimal, without its two hyphens.
const HEX: &str = "hex";

const HEX_HELP: &str = "Print distances and sizes in hexadecimal";

/// The name of the option for the blocks that are listed, without its two hyphens.
const ONLY: &str = "only";

const ONLY_HELP: &str = "List only these: 'locked', 'purgeable', 'free' or a name";

/// The name of the option for the bytes of a block, without its two hyphens.
const BYTES: &str = "bytes";

const BYTES_HELP: &str = "Print the bytes of the block of this name, not the zone";

/// The rule for a name, which is printed where the word is none.
const NAME_RULE: &str = "a name has 1 to 63 letters, digits and '_', the first of them no digit";

/// The name of the flag for a picture, without its two hyphens.
const SVG: &str = "svg";

const SVG_HELP: &str = "Print a picture as SVG";

/// The name of the option for a job, without its two hyphens.
const JOB: &str = "job";

const JOB_HELP: &str = "Run this job, in place of SIZE and SCRIPT";

/// The name of the option for an application of a job, without its two hyphens.
const APP: &str = "app";

const APP_HELP: &str = "Show the zone of this application of the job";

/// The name of the option for several moments, without its two hyphens.
const STEPS: &str = "steps";

const STEPS_HELP: &str = "Draw each call of these lines, with --svg, or print it, with --text";

/// The name of the flag for calls in words, without its two hyphens.
const TEXT: &str = "text";

const TEXT_HELP: &str = "Print calls as written, and what moved and was purged; with --steps";

/// The name of the two flags of which one says what is made of several moments.
const STRIPS: &str = "strips";

/// The name of the flag for moments at which nothing changed, without its two hyphens.
const ALL: &str = "all";

const ALL_HELP: &str = "Draw also calls that changed nothing, with --steps";

/// The name of the flag for strips inside the calls, without its two hyphens.
const INSIDE: &str = "inside";

const INSIDE_HELP: &str = "Draw also purges, tries and lines of the grow-zone script inside calls";

/// The names of the options for the part of a zone that a picture shows, without their two hyphens.
const FROM: &str = "from";

const TO: &str = "to";

const FROM_HELP: &str = "Draw the zone from this byte on";

const TO_HELP: &str = "Draw the zone up to this byte";

/// The rule for the bytes of a part, which is printed where the words are none.
const PART_RULE: &str = "the bytes must be decimal numbers, that of --from less than that of --to";

/// The rule for two lines, which is printed where the word is no two lines.
const STEPS_RULE: &str = "FROM and TO must be decimal numbers, FROM at most TO";

/// The options that give files to a script, which are not allowed with a job.
const FILE_WORDS: [Ruled; 3] = [
    (OWN_WORD, &[Rule::Excludes(JOB)]),
    (SYSTEM_WORD, &[Rule::Excludes(JOB)]),
    (FILE_WORD, &[Rule::Excludes(JOB)]),
];

/// The words that say what is shown of the zone, and how.
const SHOWN_WORDS: [Ruled; 8] = [
    (Word::Setting(AT, "LINE", AT_HELP), &[]),
    (Word::Flag(PLAIN, PLAIN_HELP), &[Rule::Excludes(SVG)]),
    (
        Word::Flag(HEX, HEX_HELP),
        &[Rule::Excludes(SVG), Rule::Excludes(STEPS)],
    ),
    (
        Word::Setting(ONLY, "BLOCKS", ONLY_HELP),
        &[Rule::Excludes(SVG), Rule::Excludes(STEPS)],
    ),
    (
        Word::Setting(BYTES, "NAME", BYTES_HELP),
        &[
            Rule::Excludes(PLAIN),
            Rule::Excludes(HEX),
            Rule::Excludes(ONLY),
            Rule::Excludes(SVG),
            Rule::Excludes(STEPS),
        ],
    ),
    (Word::Flag(SVG, SVG_HELP), &[]),
    (Word::Setting(FROM, "BYTE", FROM_HELP), &[Rule::Needs(SVG)]),
    (Word::Setting(TO, "BYTE", TO_HELP), &[Rule::Needs(SVG)]),
];

/// The words for several moments.
const MOMENT_WORDS: [Ruled; 4] = [
    (
        Word::Setting(STEPS, "FROM..TO", STEPS_HELP),
        &[Rule::Excludes(AT), Rule::Excludes(JOB), Rule::Needs(STRIPS)],
    ),
    (
        Word::Flag(ALL, ALL_HELP),
        &[Rule::Excludes(TEXT), Rule::Needs(STEPS)],
    ),
    (
        Word::Flag(INSIDE, INSIDE_HELP),
        &[Rule::Excludes(TEXT), Rule::Needs(STEPS)],
    ),
    (
        Word::Flag(TEXT, TEXT_HELP),
        &[Rule::Excludes(PLAIN), Rule::Needs(STEPS)],
    ),
];

/// The words that say whose zone is shown: that of an application of a job, or that of a script.
const OWNER_WORDS: [Ruled; 4] = [
    (Word::Setting(JOB, "JOB", JOB_HELP), &[Rule::Needs(APP)]),
    (Word::Setting(APP, "NAME", APP_HELP), &[Rule::Needs(JOB)]),
    (
        Word::Optional("SIZE", SIZE_HELP),
        &[Rule::Excludes(JOB), Rule::Replaces(JOB)],
    ),
    (
        Word::Optional("SCRIPT", SCRIPT_HELP),
        &[Rule::Excludes(JOB), Rule::Replaces(JOB)],
    ),
];

/// Returns the two flags of which one says what is made of several moments.
fn strips<'a>(alloc: Global) -> Result<ArgGroup<'a>, AllocError> {
    ArgGroup::new(alloc, STRIPS).arg(SVG)?.arg(TEXT)
}

/// Gives a command the words that say what is shown.
fn with_shown<'a>(alloc: Global, command: Command<'a>) -> Result<Command<'a>, AllocError> {
    let command = with_ruled_words(alloc, command, &FILE_WORDS)?;
    with_ruled_words(alloc, command, &SHOWN_WORDS)
}

/// Gives a command the words that say at which moments.
fn with_moments<'a>(alloc: Global, command: Command<'a>) -> Result<Command<'a>, AllocError> {
    let strips = strips(alloc)?;
    with_ruled_words(alloc, command, &MOMENT_WORDS)?.group(strips)
}

/// Returns the command that shows a zone.
pub fn heap_command<'a>(alloc: Global) -> Result<Command<'a>, AllocError> {
    let command = Command::new(alloc, "heap")
        .about(HEAP_ABOUT)
        .after_help(HEAP_EXAMPLES)
        .override_usage(HEAP_USAGE);
    let command = with_moments(alloc, with_shown(alloc, command)?)?;
    with_ruled_words(alloc, command, &OWNER_WORDS)
}

/// Returns the fault of a value, with the rule that the value breaks.
fn bad(alloc: Global, name: &str, text: &str, rule: &str) -> Result<ToolFault, AllocError>
    ensures { IfOk result (λ fault. IsUsage (message_of fault)) }
{
    let command = heap_command(alloc)?.bin_name("macmem heap")?;
    bad_value(alloc, command, name, text, rule)
}

/// Reads the number of a byte; where none is given, it is this one.
fn byte_number(text: Option<&str>, otherwise: u32) -> Option<u32> {
    match text {
        Some(text) => text.parse::<u32>().ok(),
        None => Some(otherwise),
    }
}

/// Reads the part of a zone between two bytes, of which the first is less than the second.
fn part_between(from: Option<&str>, to: Option<&str>) -> Option<Part> {
    let (from, to) = (byte_number(from, 0)?, byte_number(to, u32::MAX)?);
    if from < to {
        Some(Part { from, to })
    } else {
        None
    }
}

/// Returns the part of a zone that a picture shows: all of it, where no other is given.
fn part_in(alloc: Global, matches: &ArgMatches<'_>) -> Result<Part, ToolFault>
    ensures { IfErr result (λ fault. IsUsage (message_of fault)) }
{
    match part_between(matches.get_str(FROM), matches.get_str(TO)) {
        Some(part) => Ok(part),
        None => {
            let text = matches.get_str(TO).unwrap_or("");
            Err(bad(
                alloc,
                "BYTE",
                matches.get_str(FROM).unwrap_or(text),
                PART_RULE,
            )?)
        }
    }
}

/// Reads a name of a script.
fn script_name(text: &str) -> Option<BlockName> {
    if is_label(text.as_bytes()) {
        BlockName::new(text.as_bytes())
    } else {
        None
    }
}

/// Returns a name of a script, which stands for the value of this name.
fn name_in(alloc: Global, value: &str, text: &str) -> Result<BlockName, ToolFault>
    ensures { IfErr result (λ fault. IsUsage (message_of fault)) }
{
    match script_name(text) {
        Some(name) => Ok(name),
        None => Err(bad(alloc, value, text, NAME_RULE)?),
    }
}

/// Returns the blocks that are listed. The words for kinds stand for these, also where a script has
/// such a name.
fn only_in(alloc: Global, matches: &ArgMatches<'_>) -> Result<Only, ToolFault>
    ensures { IfErr result (λ fault. IsUsage (message_of fault)) }
{
    match matches.get_str(ONLY) {
        None => Ok(Only::Blocks(Choice::All)),
        Some("locked") => Ok(Only::Blocks(Choice::Locked)),
        Some("purgeable") => Ok(Only::Blocks(Choice::Purgeable)),
        Some("free") => Ok(Only::Blocks(Choice::Free)),
        Some(name) => Ok(Only::Named(name_in(alloc, "BLOCKS", name)?)),
    }
}

/// Returns what a list has of the zone.
fn details_in(alloc: Global, matches: &ArgMatches<'_>) -> Result<Details, ToolFault>
    ensures { IfErr result (λ fault. IsUsage (message_of fault)) }
{
    let digits = if matches.get_flag(HEX) {
        Digits::Hexadecimal
    } else {
        Digits::Decimal
    };
    let only = only_in(alloc, matches)?;
    Ok(Details { digits, only })
}

/// Returns the form in which the zone is listed.
fn list_in(alloc: Global, matches: &ArgMatches<'_>) -> Result<Form, ToolFault>
    ensures { IfErr result (λ fault. IsUsage (message_of fault)) }
{
    let details = details_in(alloc, matches)?;
    if matches.get_flag(PLAIN) {
        Ok(Form::Tabs(details))
    } else {
        Ok(Form::Columns(details))
    }
}

/// Returns the form in which the zone is shown.
fn form_in(alloc: Global, matches: &ArgMatches<'_>) -> Result<Form, ToolFault>
    ensures { IfErr result (λ fault. IsUsage (message_of fault)) }
{
    if matches.get_flag(SVG) {
        Ok(Form::Picture(part_in(alloc, matches)?))
    } else if let Some(name) = matches.get_str(BYTES) {
        Ok(Form::Bytes(name_in(alloc, "NAME", name)?))
    } else {
        list_in(alloc, matches)
    }
}

/// Reads the number of a line. See decision 198 (a number of the command line may have zeros and a
/// sign).
fn line_number(text: &str) -> Option<usize> {
    text.parse::<usize>().ok()
}

/// Returns the line after which the zone is shown, if one is given.
fn line_in(alloc: Global, matches: &ArgMatches<'_>) -> Result<Option<usize>, ToolFault>
    ensures { IfErr result (λ fault. IsUsage (message_of fault)) }
{
    let Some(text) = matches.get_str(AT) else {
        return Ok(None);
    };
    match line_number(text) {
        Some(line) => Ok(Some(line)),
        None => Err(bad(alloc, "LINE", text, AT_RULE)?),
    }
}

/// Reads the numbers of two lines, the first at most the second, with two dots between them.
fn two_lines(text: &str) -> Option<(usize, usize)> {
    let (from, to) = text.split_once("..")?;
    let (from, to) = (line_number(from)?, line_number(to)?);
    if from <= to { Some((from, to)) } else { None }
}

/// Returns the lines after which the zone is shown.
fn lines_in(alloc: Global, matches: &ArgMatches<'_>) -> Result<Lines, ToolFault>
    ensures { IfErr result (λ fault. IsUsage (message_of fault)) }
{
    let Some(text) = matches.get_str(STEPS) else {
        let line = line_in(alloc, matches)?;
        return Ok(Lines::One(line, form_in(alloc, matches)?));
    };
    let part = part_in(alloc, matches)?;
    let strips = Strips {
        part,
        all: matches.get_flag(ALL),
        inside: matches.get_flag(INSIDE),
    };
    match two_lines(text) {
        Some((from, to)) => Ok(Lines::Each(from, to, strips)),
        None => Err(bad(alloc, "FROM..TO", text, STEPS_RULE)?),
    }
}

/// Returns what is asked for of these lines: the zone, or the calls in words.
fn zone_work<'a>(lines: Lines, in_words: bool) -> PlayWork<'a> {
    match lines {
        Lines::Each(from, to, _) if in_words => PlayWork::Words(ToldLines::Each(from, to)),
        lines => PlayWork::Zone(lines),
    }
}

/// Returns the request for the zone of a script with files, or for calls of it in words.
fn zone_play<'a>(
    alloc: Global,
    matches: &ArgMatches<'a>,
    asked: ZoneView,
) -> Result<Playing<'a>, ToolFault>
    ensures { IfErr result (λ fault. IsUsage (message_of fault)) }
{
    let command = heap_command(alloc)?.bin_name("macmem heap")?;
    Ok(Playing {
        size: asked.size,
        parts: parts_in(alloc, matches, command)?,
        script: value(matches, "SCRIPT"),
        work: zone_work(asked.lines, matches.get_flag(TEXT)),
        watched: false,
    })
}

/// Returns the request for the zone of a script alone, or with files.
fn script_zone<'a>(alloc: Global, matches: &ArgMatches<'a>) -> Result<Request<'a>, ToolFault>
    ensures { IfErr result (λ fault. IsUsage (message_of fault)) }
{
    let lines = lines_in(alloc, matches)?;
    let text = value(matches, "SIZE");
    let Some(size) = PartitionSize::read(text) else {
        return Err(bad(alloc, "SIZE", text, SIZE_RULE)?);
    };
    let asked = ZoneView { size, lines };
    if gives_files(matches) || matches.get_flag(TEXT) {
        return Ok(Request::Play(zone_play(alloc, matches, asked)?));
    }
    Ok(Request::Look(Task {
        work: Work::Heap(asked),
        path: value(matches, "SCRIPT"),
        watched: false,
    }))
}

/// Returns the request for the zone of an application of a job.
fn job_zone<'a>(
    alloc: Global,
    matches: &ArgMatches<'a>,
    job: &'a str,
) -> Result<JobZone<'a>, ToolFault>
    ensures { IfErr result (λ fault. IsUsage (message_of fault)) }
{
    Ok(JobZone {
        job,
        app: value(matches, APP),
        line: line_in(alloc, matches)?,
        form: form_in(alloc, matches)?,
    })
}

/// Returns the request that the words of the command make.
pub fn heap_request<'a>(alloc: Global, matches: &ArgMatches<'a>) -> Result<Request<'a>, ToolFault>
    ensures { IfErr result (λ fault. IsUsage (message_of fault)) }
{
    match matches.get_str(JOB) {
        Some(job) => Ok(Request::Show(job_zone(alloc, matches, job)?)),
        None => script_zone(alloc, matches),
    }
}
