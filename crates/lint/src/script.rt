//! The faulty lines of a script.

ghost use Rattle.std.specs.Prelude.{◌≡◌, ℕ, ◌+◌, List, ◌∷◌, ◌++◌, map, IfOk, OnOk};
ghost use Rattle.script_text.specs.declared.fault.FaultKind.TheVariants.{BadArgument, UnknownCall};
ghost use Rattle.script_text.specs.Script.{read_at, statement};
ghost use Rattle.lint.specs.Faults.{FirstIsTheReaders, script_faults, begun_lines, faults_from};
ghost use Rattle.lint.specs.Faults.{missing_lines, unfinished_at, unfinished_lines};
ghost use Rattle.lint.specs.Judging.{kind_of};
ghost use Rattle.lint.specs.Reading.{OnWrong, Reads, Says};
ghost use Rattle.lint.specs.Seen.{seen};

use crate::form::Form;
use crate::halt::Halt;
use crate::judging::{Place, Words, bad_arguments, long_line};
use crate::role::Role;
use crate::table::form_of;
use crate::wrong::{Fault, Wrong};
use script_text::{CallWord, FaultKind, Line, ScriptLines, first_token, is_label, next_line, trim};
use std::alloc::{AllocError, Global};

/// How the first line of a grow-zone script is written.
fn grow_form() -> Form {
    Form {
        word: b"grow",
        roles: &[Role::GrowZone],
    }
}

/// Returns how a line with this first word is written. Of the words that are no calls, the last
/// line of a grow-zone script has no argument.
fn form_of_line(word: &[u8]) -> Form {
    match CallWord::find(word) {
        Some(word) => form_of(word),
        None => Form {
            word: b"end",
            roles: &[],
        },
    }
}

/// Says why a first word is not known.
fn unknown<'t>(word: &'t [u8]) -> Wrong<'t>
    ensures { kind_of result ≡ UnknownCall }
{
    match word {
        b"end" => Wrong::EndOutside,
        _ => Wrong::UnknownCall { word },
    }
}

/// Says why a name is not that of a new grow-zone script.
fn not_new<'t>(name: &'t [u8]) -> Wrong<'t>
    ensures { kind_of result ≡ BadArgument }
{
    match name {
        b"none" => Wrong::NamedNone,
        _ => Wrong::TakenName { name },
    }
}

/// Says why a line `grow NAME` is refused: for its arguments; or its name is not new.
fn bad_grow<'t>(alloc: Global, rest: &'t [u8]) -> Halt<'t>
    ensures { Says BadArgument result }
{
    let text = trim(rest);
    match first_token(text) {
        Ok((name, more)) if is_label(name) && trim(more).is_empty() => {
            let place = Place {
                text: name,
                left: text.len(),
            };
            place.halt(not_new(name))
        }
        _ => bad_arguments(alloc, grow_form(), rest),
    }
}

/// Says why a line with a known first word is refused.
fn bad_line<'t>(alloc: Global, words: Words<'t>) -> Halt<'t>
    ensures { Says BadArgument result }
{
    match words.word.text {
        b"grow" => bad_grow(alloc, words.rest),
        word => bad_arguments(alloc, form_of_line(word), words.rest),
    }
}

/// Says why a line is refused.
fn refused<'t>(alloc: Global, kind: FaultKind, line: &'t [u8]) -> Halt<'t>
    ensures { Says kind result }
{
    let words = Words::of(line);
    let word = words.word.text;
    match kind {
        FaultKind::HostMemory => Halt::HostMemory,
        FaultKind::LongLine => long_line(line),
        FaultKind::UnknownCall => words.word.halt(unknown(word)),
        FaultKind::NotAllowed => words.word.halt(Wrong::NotAllowed { word }),
        FaultKind::BadArgument => bad_line(alloc, words),
    }
}

/// Reads a line, or says why it is refused.
fn judge<'t>(
    alloc: Global,
    above: &mut ScriptLines,
    number: usize,
    line: &'t [u8],
) -> Result<(), Halt<'t>>
    ensures read { Reads (λ _. above.new) result (read_at number above.old line.now) }
    ensures unchanged { OnWrong result (above.new ≡ above.old) }
{
    match above.read(number, line) {
        Ok(()) => Ok(()),
        Err(kind) => Err(refused(alloc, kind, line)),
    }
}

/// Reads a line, or says its fault.
fn take_line<'t>(
    alloc: Global,
    above: &mut ScriptLines,
    faults: &mut Vec<Fault<'t>>,
    number: usize,
    line: &'t [u8],
) -> Result<(), AllocError>
    ensures { OnOk result ((more : List (List ℕ))
        → map seen faults.new.items ++ faults_from (number + 1) above.new more
        ≡ map seen faults.old.items ++ faults_from number above.old (line.now ∷ more)) }
{
    match judge(alloc, above, number, line) {
        Ok(()) => Ok(()),
        Err(Halt::HostMemory) => Err(AllocError),
        Err(Halt::Wrong(found)) => {
            faults.push(Fault::at(number, line.len(), found))?;
            Ok(())
        }
    }
}

/// The lines of a text, one after another.
#[derive(Drop)]
struct Lines<'t> {
    /// The number of the last line that was taken, from 1 on.
    number: usize,
    line: &'t [u8],
    rest: &'t [u8],
}

impl<'t> Lines<'t> {
    /// Begins before the first line.
    fn of(text: &'t [u8]) -> Lines<'t> {
        Lines {
            number: 0,
            line: &[],
            rest: text,
        }
    }

    /// Goes on to the line of this number, and returns what the line names: its first argument.
    fn name(&mut self, number: usize) -> Place<'t> {
        for _ in self.number..number {
            if !self.rest.is_empty() {
                let (line, more) = next_line(self.rest);
                self.line = line;
                self.rest = more;
            }
        }
        self.number = number;
        Words::of(self.line).argument(1)
    }
}

/// Makes the fault of a name in a line.
fn fault_of<'t>(number: usize, lines: &Lines<'t>, place: Place<'t>, wrong: Wrong<'t>) -> Fault<'t>
    ensures line { result.line ≡ number }
    ensures wrong { result.wrong ≡ wrong.entry }
{
    Fault::at(number, lines.line.len(), place.wrong(wrong))
}

/// Says which of the lines of calls set a grow-zone script that is nowhere in the text.
fn say_missing<'t>(
    above: &ScriptLines,
    steps: &[Line],
    text: &'t [u8],
    faults: &mut Vec<Fault<'t>>,
) -> Result<(), AllocError>
    ensures { OnOk result (map seen faults.new.items
        ≡ map seen faults.old.items
        ++ map unfinished_at (missing_lines above.now (map statement steps.now))) }
{
    let mut lines = Lines::of(text);
    for step in steps {
        if above.sets_missing(&step.call) {
            let place = lines.name(step.number);
            let wrong = Wrong::NoGrowZone { name: place.text };
            faults.push(fault_of(step.number, &lines, place, wrong))?;
        }
    }
    Ok(())
}

/// Says which `grow` line has no `end`.
fn say_begun<'t>(
    above: &ScriptLines,
    text: &'t [u8],
    faults: &mut Vec<Fault<'t>>,
) -> Result<(), AllocError>
    ensures { OnOk result (map seen faults.new.items
        ≡ map seen faults.old.items ++ map unfinished_at (begun_lines above.now.begun)) }
{
    if let Some(number) = above.begun_line() {
        let mut lines = Lines::of(text);
        let place = lines.name(number);
        let wrong = Wrong::NoEnd { name: place.text };
        faults.push(fault_of(number, &lines, place, wrong))?;
    }
    Ok(())
}

/// Says which lines are at fault because of what does not follow.
fn say_unfinished<'t>(
    above: &ScriptLines,
    text: &'t [u8],
    faults: &mut Vec<Fault<'t>>,
) -> Result<(), AllocError>
    ensures { OnOk result (map seen faults.new.items
        ≡ map seen faults.old.items ++ unfinished_lines above.now) }
{
    say_missing(above, above.steps(), text, faults)?;
    say_begun(above, text, faults)
}

/// Returns the faulty lines of a script, each with what is wrong with it: first the lines that the
/// reader of a line refuses, in their order, where a faulty line states nothing; then those that
/// set a grow-zone script which is nowhere in the text, and a `grow` without `end`.
///
/// # Errors
///
/// Returns an error where the host is out of memory.
#[tactic(auto, unfolding(crate::specs::Faults::script_faults))]
pub fn script_faults<'t>(alloc: Global, text: &'t [u8]) -> Result<Vec<Fault<'t>>, AllocError>
    ensures { IfOk result (λ faults. map seen faults.items ≡ script_faults text.now) }
{
    let mut above = ScriptLines::new(alloc);
    let mut faults = Vec::new(alloc);
    let mut number = 0;
    let mut rest = text;
    while !rest.is_empty() {
        let (line, more) = next_line(rest);
        number += 1;
        take_line(alloc, &mut above, &mut faults, number, line)?;
        rest = more;
    }
    say_unfinished(&above, text, &mut faults)?;
    Ok(faults)
}

/// The first faulty line is the one that `read_script` finds; there is none exactly where
/// `read_script` takes the script.
pub fn first_is_the_readers()
    ensures { FirstIsTheReaders }
{}
