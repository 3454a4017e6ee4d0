//! Lines of scripts that a generator makes.

use std::alloc::Global;
use std::fmt::Write;
use std::test::Fail;

/// A generator of numbers, which makes each number from the number before it by shifts.
#[derive(Clone, Copy)]
pub struct Chance(pub u32);

impl Chance {
    /// Returns the next number.
    pub fn next(&mut self) -> u32 {
        self.0 ^= self.0 << 13;
        self.0 ^= self.0 >> 17;
        self.0 ^= self.0 << 5;
        self.0
    }

    /// Returns one of four things.
    pub fn one_of<T: Copy>(&mut self, things: [T; 4]) -> T {
        let [a, b, c, d] = things;
        match self.next() % 4 {
            0 => a,
            1 => b,
            2 => c,
            _ => d,
        }
    }
}

/// The names that generated calls use.
const NAMES: &[&str] = &["a", "b", "c", "d", "e", "f", "g", "h"];

/// The arguments that follow the word of a call.
#[derive(Clone, Copy)]
enum Arguments {
    Nothing,
    Name,
    Size,
    NameAndSize,
    TwoNames,
    Bytes,
    Part,
    Resource,
}

/// The calls that are made. A call that stands here more than once is made more often.
const CALLS: &[(&str, Arguments)] = &[
    ("NewHandle", Arguments::NameAndSize),
    ("NewHandle", Arguments::NameAndSize),
    ("NewHandle", Arguments::NameAndSize),
    ("NewHandle", Arguments::NameAndSize),
    ("DisposeHandle", Arguments::Name),
    ("DisposeHandle", Arguments::Name),
    ("SetHandleSize", Arguments::NameAndSize),
    ("SetHandleSize", Arguments::NameAndSize),
    ("Put", Arguments::Bytes),
    ("Put", Arguments::Bytes),
    ("Show", Arguments::Name),
    ("HLock", Arguments::Name),
    ("HUnlock", Arguments::Name),
    ("HPurge", Arguments::Name),
    ("HPurge", Arguments::Name),
    ("NewPtr", Arguments::NameAndSize),
    ("DisposePtr", Arguments::Name),
    ("SetPtrSize", Arguments::NameAndSize),
    ("CompactMem", Arguments::Size),
    ("PurgeMem", Arguments::Size),
    ("MaxMem", Arguments::Nothing),
    ("ReserveMem", Arguments::Size),
    ("MoreMasters", Arguments::Nothing),
    ("MoveHHi", Arguments::Name),
    ("EmptyHandle", Arguments::Name),
    ("ReallocateHandle", Arguments::NameAndSize),
    ("HandToHand", Arguments::TwoNames),
    ("HandAndHand", Arguments::TwoNames),
    ("MaxBlock", Arguments::Nothing),
    ("AddResource", Arguments::Resource),
    ("AddResource", Arguments::Resource),
    ("ChangedResource", Arguments::Name),
    ("LoadResource", Arguments::Name),
    ("ReadPartialResource", Arguments::Part),
    ("WritePartialResource", Arguments::Bytes),
    ("SetResourceSize", Arguments::NameAndSize),
    ("SetResPurge TRUE", Arguments::Nothing),
    ("WaitNextEvent", Arguments::Nothing),
    ("WaitNextEvent", Arguments::Nothing),
    ("WaitNextEvent", Arguments::Nothing),
];

/// Returns one of the names.
fn a_name(chance: &mut Chance) -> &'static str {
    match NAMES.get((chance.next() % 8) as usize) {
        Some(name) => *name,
        None => "no name",
    }
}

/// Returns a number of bytes, most often a small number.
fn a_size(chance: &mut Chance) -> u32 {
    let most = if chance.next() % 8 == 0 { 900 } else { 120 };
    chance.next() % most
}

/// Appends a line that has one call.
fn a_line(chance: &mut Chance, text: &mut String) -> Result<(), Fail> {
    let Some((word, arguments)) = CALLS.get((chance.next() % 40) as usize) else {
        return Err(Fail::new("one of 40 calls"));
    };
    let name = a_name(chance);
    let size = a_size(chance);
    match arguments {
        Arguments::Nothing => writeln!(text, "{word}")?,
        Arguments::Name => writeln!(text, "{word} {name}")?,
        Arguments::Size => writeln!(text, "{word} {size}")?,
        Arguments::NameAndSize => writeln!(text, "{word} {name} {size}")?,
        Arguments::TwoNames => {
            let other = a_name(chance);
            writeln!(text, "{word} {name} {other}")?;
        }
        Arguments::Bytes => writeln!(text, "{word} {name} 0 \"{size}\"")?,
        Arguments::Part => writeln!(text, "{word} {name} 0 {size}")?,
        Arguments::Resource => writeln!(text, "{word} {name} 'TEXT' {size} \"\"")?,
    }
    Ok(())
}

/// Returns a text of `calls` calls.
pub fn some_calls(alloc: Global, chance: &mut Chance, calls: u32) -> Result<String, Fail> {
    let mut text = String::new(alloc);
    for _call in 0..calls {
        a_line(chance, &mut text)?;
    }
    Ok(text)
}
