//! The words of the command that reads a zone in a memory dump.

ghost use Rattle.std.specs.Prelude.{IfErr, IfOk};
ghost use Rattle.fork_tasks.specs.Fault.{message_of, IsUsage};

use crate::parsing::{Rule, Ruled, Word, bad_value, value, with_ruled_words};
use crate::request::Request;
use clap::{ArgMatches, Command};
use fork_tasks::ToolFault;
use job_tasks::{Task, Work};
use real_zone::Form;
use real_zone_view::{Digits, DumpView, Fields, Place, Question, Style};
use std::alloc::{AllocError, Global};

const ZONE_ABOUT: &str = "Lists or checks a heap zone of a real Macintosh in a memory dump";

const ZONE_EXAMPLES: &str = "Examples:
  macmem zone --find examples/memory.dump

prints the zones in the dump, first those that the globals SysZone (at 2A6) and
ApplZone (at 2AA) name:
  address       size bits global
  00000400       200   24 SysZone
  00000600       448   24 ApplZone

  macmem zone examples/memory.dump 0x400

prints the blocks of a zone, lowest first, and their totals:
  zone 00000400: 24 bits, 200 bytes

  address       size   logical what           master   locked purgeable resource
  00000434        24        16 nonrelocatable -        -      -         -
  0000044C        32        24 nonrelocatable -        -      -         -
  0000046C        40        30 relocatable    00000444 locked -         resource
  00000494        52         - free           -        -      -         -

  what             blocks      bytes
  free                  1         52
  nonrelocatable        2         56
  relocatable           1         40
  locked                1         40
  purgeable             0          0
  all                   4        148

  macmem zone --check examples/overrun.dump 0x600

prints a line for each rule that a zone breaks, as MacsBug's HC does:
  000006EC: BkLim does not agree with heap length
  000006EC: nonrelocatable block: pointer to zone is bad

  macmem zone --svg examples/memory.dump 0x600 > zone.svg

draws the zone: rows of its bytes, lowest first, each with the address where it
begins, in which each block has the bytes that it has in the zone. Of more than
800 blocks neighbours that are small are drawn as one.

  macmem zone --script examples/memory.dump 0x600 > zone.script

prints a script that makes a zone of the same blocks, in the same order, with
their logical sizes, locks and purgeability, in a fresh partition of the size that
its first line says: macmem heap 768 zone.script shows it.

The dump holds the bytes of memory, from the address BASE on: a file that QEMU's
pmemsave, MAME's save or a monitor wrote. Addresses are decimal, or hexadecimal
after 0x or $ ('$2A6' in quotes, since shells read $2).
'address' is that of the block's header; 'size' is the physical size with the
header, 'logical' the size of the content; 'master' is the address of the master
pointer; 'resource' is the type and the ID, where a resource map in the zone has
the handle; 'purgeable' in the totals are the blocks that are not locked. With
--plain a tab stands between fields, there are no titles, and a line begins with
'zone', 'block', 'total' or 'damaged'.
Of a damaged zone the blocks before the first whose size is wrong are listed, and
a line below the totals has the first rule that is broken, as
'damaged at 000006EC: BkLim does not agree with heap length'.
Without --24 and --32 the form is the one in which the zone is whole, or else
the one in which more blocks stand one after the other.
Status: 0 done; 1 with a line on the standard error where the dump has no such
zone, as 'macmem: DUMP: no zone: 00000600: BkLim is bad', which --script prints of
any damage; 1 also where the zone breaks a rule or --find finds no zone.";

/// The ways in which the command is used.
const ZONE_USAGE: &str = "macmem zone [OPTIONS] <DUMP> <ADDRESS>
       macmem zone --find [OPTIONS] <DUMP>";

const DUMP_HELP: &str = "File with the bytes of memory; it is only read";

const ADDRESS_HELP: &str = "Address of the zone record, as 0x1E00, $1E00 or 7680";

/// The rule for an address, which is printed where the word is none.
const ADDRESS_RULE: &str =
    "an address is 0 to 4294967295, or 1 to 8 hexadecimal digits after 0x or $";

/// The name of the option for the address of the dump, without its two hyphens.
const BASE: &str = "base";

const BASE_HELP: &str = "Address of the dump's first byte; 0 without";

/// The names of the flags for the two forms, without their two hyphens.
const BITS_24: &str = "24";

const BITS_32: &str = "32";

const BITS_24_HELP: &str = "Take the zone for one of 24-bit addresses";

const BITS_32_HELP: &str = "Take the zone for one of 32-bit addresses";

/// The name of the flag for fields with tabs between them, without its two hyphens.
const PLAIN: &str = "plain";

const PLAIN_HELP: &str = "Print a tab between fields, and no titles";

/// The name of the flag for sizes in hexadecimal, without its two hyphens.
const HEX: &str = "hex";

const HEX_HELP: &str = "Print sizes in hexadecimal";

/// The name of the flag for a picture, without its two hyphens.
const SVG: &str = "svg";

const SVG_HELP: &str = "Print the zone as a picture, in SVG";

/// The name of the flag for a script, without its two hyphens.
const SCRIPT: &str = "script";

const SCRIPT_HELP: &str = "Print a script that makes the zone anew";

/// The name of the flag for all that is wrong, without its two hyphens.
const CHECK: &str = "check";

const CHECK_HELP: &str = "Print a line for each rule that the zone breaks";

/// The name of the flag for the zones in a dump, without its two hyphens.
const FIND: &str = "find";

const FIND_HELP: &str = "Print the zones that stand in the dump";

/// The words that say how the dump is read, and how it is shown.
const FORM_WORDS: [Ruled; 5] = [
    (
        Word::Flag(BITS_24, BITS_24_HELP),
        &[Rule::Excludes(BITS_32), Rule::Excludes(FIND)],
    ),
    (
        Word::Flag(BITS_32, BITS_32_HELP),
        &[Rule::Excludes(BITS_24), Rule::Excludes(FIND)],
    ),
    (Word::Setting(BASE, "BASE", BASE_HELP), &[]),
    (Word::Flag(PLAIN, PLAIN_HELP), &[]),
    (Word::Flag(HEX, HEX_HELP), &[]),
];

/// The words that say what is made of a zone in place of a list.
const MADE_WORDS: [Ruled; 3] = [
    (
        Word::Flag(SVG, SVG_HELP),
        &[
            Rule::Excludes(PLAIN),
            Rule::Excludes(HEX),
            Rule::Excludes(CHECK),
            Rule::Excludes(FIND),
        ],
    ),
    (
        Word::Flag(SCRIPT, SCRIPT_HELP),
        &[
            Rule::Excludes(PLAIN),
            Rule::Excludes(HEX),
            Rule::Excludes(SVG),
            Rule::Excludes(CHECK),
            Rule::Excludes(FIND),
        ],
    ),
    (
        Word::Flag(CHECK, CHECK_HELP),
        &[
            Rule::Excludes(PLAIN),
            Rule::Excludes(HEX),
            Rule::Excludes(FIND),
        ],
    ),
];

/// The words that say which zone is asked about.
const WHICH_WORDS: [Ruled; 3] = [
    (Word::Flag(FIND, FIND_HELP), &[]),
    (Word::Required("DUMP", DUMP_HELP), &[]),
    (
        Word::Optional("ADDRESS", ADDRESS_HELP),
        &[Rule::Excludes(FIND), Rule::Replaces(FIND)],
    ),
];

/// Returns the command that reads a zone in a dump.
pub fn zone_command<'a>(alloc: Global) -> Result<Command<'a>, AllocError> {
    let command = Command::new(alloc, "zone")
        .about(ZONE_ABOUT)
        .after_help(ZONE_EXAMPLES)
        .override_usage(ZONE_USAGE);
    let command = with_ruled_words(alloc, command, &FORM_WORDS)?;
    let command = with_ruled_words(alloc, command, &MADE_WORDS)?;
    with_ruled_words(alloc, command, &WHICH_WORDS)
}

/// Returns the hexadecimal digits of an address, if it has a sign before them that says so.
fn hex_digits(text: &str) -> Option<&str> {
    match text.strip_prefix("0x") {
        Some(digits) => Some(digits),
        None => text.strip_prefix("$"),
    }
}

/// Reads an address: in hexadecimal after `0x` or `$`, else in decimal. See decision 198 (a number
/// of the command line may have zeros and a sign).
fn address_of(text: &str) -> Option<u32> {
    match hex_digits(text) {
        Some(digits) => u32::from_str_radix(digits, 16).ok(),
        None => text.parse::<u32>().ok(),
    }
}

/// Returns the fault of a word that is no address.
fn bad_address(alloc: Global, name: &str, text: &str) -> Result<ToolFault, AllocError>
    ensures { IfOk result (λ fault. IsUsage (message_of fault)) }
{
    let command = zone_command(alloc)?.bin_name("macmem zone")?;
    bad_value(alloc, command, name, text, ADDRESS_RULE)
}

/// Returns the address in a word.
fn address_in(alloc: Global, name: &str, text: &str) -> Result<u32, ToolFault>
    ensures { IfErr result (λ fault. IsUsage (message_of fault)) }
{
    match address_of(text) {
        Some(address) => Ok(address),
        None => Err(bad_address(alloc, name, text)?),
    }
}

/// Returns the address of the dump's first byte.
fn base_in(alloc: Global, matches: &ArgMatches<'_>) -> Result<u32, ToolFault>
    ensures { IfErr result (λ fault. IsUsage (message_of fault)) }
{
    match matches.get_str(BASE) {
        Some(text) => address_in(alloc, "BASE", text),
        None => Ok(0),
    }
}

/// Returns the form that the words give.
fn form_in(matches: &ArgMatches<'_>) -> Option<Form> {
    if matches.get_flag(BITS_24) {
        Some(Form::Bits24)
    } else if matches.get_flag(BITS_32) {
        Some(Form::Bits32)
    } else {
        None
    }
}

/// Returns how the text is to be laid out.
fn style_in(matches: &ArgMatches<'_>) -> Style {
    Style {
        fields: if matches.get_flag(PLAIN) {
            Fields::Tabs
        } else {
            Fields::Columns
        },
        digits: if matches.get_flag(HEX) {
            Digits::Hexadecimal
        } else {
            Digits::Decimal
        },
    }
}

/// Returns what the words ask of the zone at an address.
fn question_in(matches: &ArgMatches<'_>, place: Place) -> Question {
    if matches.get_flag(CHECK) {
        Question::Check(place)
    } else if matches.get_flag(SVG) {
        Question::Draw(place)
    } else if matches.get_flag(SCRIPT) {
        Question::Script(place)
    } else {
        Question::List(place, style_in(matches))
    }
}

/// Returns what the words ask.
fn question<'a>(alloc: Global, matches: &ArgMatches<'a>) -> Result<Question, ToolFault>
    ensures { IfErr result (λ fault. IsUsage (message_of fault)) }
{
    if matches.get_flag(FIND) {
        return Ok(Question::Find(style_in(matches)));
    }
    let place = Place {
        address: address_in(alloc, "ADDRESS", value(matches, "ADDRESS"))?,
        form: form_in(matches),
    };
    Ok(question_in(matches, place))
}

/// Returns the request that the words of the command make.
pub fn zone_request<'a>(alloc: Global, matches: &ArgMatches<'a>) -> Result<Request<'a>, ToolFault>
    ensures { IfErr result (λ fault. IsUsage (message_of fault)) }
{
    let base = base_in(alloc, matches)?;
    let question = question(alloc, matches)?;
    Ok(Request::Look(Task {
        work: Work::Zone(DumpView { base, question }),
        path: value(matches, "DUMP"),
        watched: false,
    }))
}
