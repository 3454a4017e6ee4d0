//! Dumps with zones that tools/real_zones.py laid, and what is printed of them.
use crate::trial::Count;
use anyhow::{Context, Result, bail, ensure};
use real_zone::{Form, FoundZone, find_zones};
use real_zone_view::{Digits, DumpView, Fields, Place, Question, Style, answer};
use std::alloc::Global;

/// What is printed of a zone.
#[derive(Clone, Copy)]
enum Print {
    List,
    Picture,
    Script,
}

/// A dump, and a zone in it.
#[derive(Drop)]
struct Dump {
    print: Print,
    form: Form,
    /// The address of the first byte.
    base: u32,
    zone: u32,
    bytes: Vec<u8>,
}

/// Returns the form whose addresses have so many bits.
fn form_in(word: &str) -> Result<Form> {
    match word {
        "24" => Ok(Form::Bits24),
        "32" => Ok(Form::Bits32),
        _ => bail!("no form: {word}"),
    }
}

/// Returns what a word says is printed.
fn print_in(word: &str) -> Result<Print> {
    match word {
        "list" => Ok(Print::List),
        "draw" => Ok(Print::Picture),
        "script" => Ok(Print::Script),
        _ => bail!("not printed: {word}"),
    }
}

/// Reads the line of a dump: `list`, `draw` or `script`, the form and the addresses, and the bytes
/// in hexadecimal.
fn dump_in(alloc: Global, line: &str) -> Result<Dump> {
    let mut words = line.split_whitespace();
    let print = print_in(words.next().context("list, draw or script")?)?;
    let form = form_in(words.next().context("a form")?)?;
    let base = u32::from_str_radix(words.next().context("a base")?, 16)?;
    let zone = u32::from_str_radix(words.next().context("a zone")?, 16)?;
    let bytes = hex::decode(alloc, words.next().context("bytes")?)?;
    Ok(Dump {
        print,
        form,
        base,
        zone,
        bytes,
    })
}

/// How the zones are written.
const STYLE: Style = Style {
    fields: Fields::Columns,
    digits: Digits::Decimal,
};

/// Returns the list of a zone, though it may be damaged, its picture, or its script.
fn text_of(alloc: Global, dump: &Dump, found: FoundZone) -> Result<String> {
    let place = Place {
        address: found.address,
        form: Some(found.form),
    };
    let question = match dump.print {
        Print::List => Question::List(place, STYLE),
        Print::Picture => Question::Draw(place),
        Print::Script => Question::Script(place),
    };
    let asked = DumpView {
        base: dump.base,
        question,
    };
    let answer = answer(alloc, asked, dump.bytes.as_slice())?;
    Ok(String::from_utf8(answer.text)?)
}

/// Returns the lists, the pictures or the scripts of the zones in a dump, or of the damaged one
/// that it has.
fn described(alloc: Global, line: &str) -> Result<String> {
    let dump = dump_in(alloc, line)?;
    let len = dump.bytes.len();
    ensure!(
        len <= 0xFFFFFFFF && dump.base as usize + len <= 0x100000000,
        "a dump that is too long"
    );
    let zones = find_zones(alloc, dump.bytes.as_slice(), dump.base)?;
    if zones.is_empty() {
        let place = FoundZone {
            address: dump.zone,
            form: dump.form,
        };
        return text_of(alloc, &dump, place);
    }
    let mut text = String::new(alloc);
    for found in &zones {
        text.push_str(text_of(alloc, &dump, *found)?.as_str())?;
    }
    Ok(text)
}

/// Tries the dumps of a file: what is printed of them, one after the other, is the text `listed`.
pub fn try_dumps(
    alloc: Global,
    dumps: &str,
    listed: &str,
    differences: &mut String,
) -> Result<Count> {
    let mut count = Count::none();
    let mut found = String::new(alloc);
    for line in dumps.lines() {
        found.push_str(described(alloc, line)?.as_str())?;
        count.note(listed.starts_with(found.as_str()));
    }
    ensure!(
        !count.is_well() || found.len() == listed.len(),
        "more is listed than there are dumps"
    );
    if !count.is_well() {
        write!(differences, "found\n{found}")?;
    }
    Ok(count)
}
