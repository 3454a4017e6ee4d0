//! The faulty lines of a job.

ghost use Rattle.std.specs.Prelude.{◌≡◌, ◌++◌, map, IfOk, OnErr, OnOk};
ghost use Rattle.std.specs.Str.Lines.{lines};
ghost use Rattle.script_text.specs.declared.fault.FaultKind.TheVariants.{BadArgument};
ghost use Rattle.script_text.specs.Job.{nothing, with_line, with_stated};
ghost use Rattle.script_text.specs.Stating.{line_seen};
ghost use Rattle.lint.specs.Faults.{FirstIsTheJobReaders, job_faults, job_faults_from, or_of_whole};
ghost use Rattle.lint.specs.Reading.{OnWrong, Reads, Says, after_line, left_by, line_fault};
ghost use Rattle.lint.specs.Reading.{memory_stated};
ghost use Rattle.lint.specs.Seen.{seen};

use crate::form::Form;
use crate::halt::Halt;
use crate::judging::{Words, bad_arguments, long_line};
use crate::role::Role;
use crate::wrong::{Fault, Wrong};
use script_text::{
    FaultKind, JobLine, JobLines, JobWord, Misfit, Refusal, next_line, read_job_line,
};
use std::alloc::{AllocError, Global};

/// Returns what the arguments of a line stand for.
fn roles_of(word: JobWord) -> &'static [Role] {
    match word {
        JobWord::Memory => &[Role::Memory],
        JobWord::System => &[Role::System],
        JobWord::App => &[Role::Application, Role::Fork, Role::Script],
        JobWord::File => &[Role::Application, Role::File, Role::System],
        JobWord::Launch | JobWord::Step | JobWord::Turn | JobWord::Quit => &[Role::Application],
        JobWord::Rest => &[],
    }
}

/// Returns how a line with this first word is written; a word that is not known has no argument.
fn form_of_line(word: &[u8]) -> Form {
    match JobWord::find(word) {
        Some(word) => Form {
            word: word.text(),
            roles: roles_of(word),
        },
        None => Form {
            word: b"",
            roles: &[],
        },
    }
}

/// Says why a line by itself is refused.
fn refused<'t>(alloc: Global, kind: FaultKind, line: &'t [u8]) -> Halt<'t>
    ensures { Says kind result }
{
    let words = Words::of(line);
    let word = words.word.text;
    match kind {
        FaultKind::HostMemory => Halt::HostMemory,
        FaultKind::LongLine => long_line(line),
        FaultKind::UnknownCall => words.word.halt(Wrong::UnknownWord { word }),
        FaultKind::NotAllowed => words.word.halt(Wrong::NotAllowed { word }),
        FaultKind::BadArgument => bad_arguments(alloc, form_of_line(word), words.rest),
    }
}

/// Says why a line may not stand below those above it.
fn misplaced<'t>(misfit: Misfit, line: &'t [u8]) -> Halt<'t>
    ensures { Says BadArgument result }
{
    let words = Words::of(line);
    let word = words.word.text;
    let first = words.argument(1);
    let second = words.argument(2);
    match misfit {
        Misfit::BeforeMemory => words.word.halt(Wrong::BeforeMemory { word }),
        Misfit::AfterEvent => words.word.halt(Wrong::AfterEvent { word }),
        Misfit::SecondMemory => words.word.halt(Wrong::SecondMemory),
        Misfit::MemorySize { size } => first.halt(Wrong::MemorySize { size }),
        Misfit::SecondSystem => words.word.halt(Wrong::SecondSystem),
        Misfit::TakenApplication => first.halt(Wrong::TakenApplication { name: first.text }),
        Misfit::ManyApplications => first.halt(Wrong::ManyApplications),
        Misfit::NoApplication => first.halt(Wrong::NoApplication { name: first.text }),
        Misfit::TakenFile => second.halt(Wrong::TakenFile { name: second.text }),
        Misfit::ManyFiles => second.halt(Wrong::ManyFiles),
    }
}

/// Adds what a line states, or says why the line may not stand here.
fn add<'t>(above: &mut JobLines<'t>, stated: JobLine<'t>, line: &'t [u8]) -> Result<(), Halt<'t>>
    ensures read { Reads (λ _. above.new) result (with_stated above.old (line_seen stated.entry)) }
    ensures unchanged { OnErr result (above.new ≡ above.old) }
{
    match above.add(stated) {
        Ok(()) => Ok(()),
        Err(Refusal::HostMemory) => Err(Halt::HostMemory),
        Err(Refusal::Misfit(misfit)) => Err(misplaced(misfit, line)),
    }
}

/// Reads a line, or says why it is refused.
#[tactic(auto, unfolding(script_text::specs::Job::with_line))]
fn judge<'t>(alloc: Global, above: &mut JobLines<'t>, line: &'t [u8]) -> Result<(), Halt<'t>>
    ensures read { Reads (λ _. above.new) result (with_line above.old line.now) }
    ensures unchanged { OnErr result (above.new ≡ above.old) }
{
    match read_job_line(alloc, line) {
        Ok(Some(stated)) => add(above, stated, line),
        Ok(None) => Ok(()),
        Err(kind) => Err(refused(alloc, kind, line)),
    }
}

/// Reads a line, or says its fault.
fn take_line<'t>(
    alloc: Global,
    above: &mut JobLines<'t>,
    faults: &mut Vec<Fault<'t>>,
    number: usize,
    line: &'t [u8],
) -> Result<(), AllocError>
    ensures left { OnOk result (above.new ≡ after_line above.old (with_line above.old line.now)) }
    ensures said { OnOk result (map seen faults.new.items
        ≡ map seen faults.old.items ++ line_fault number (with_line above.old line.now)) }
{
    match judge(alloc, above, line) {
        Ok(()) => Ok(()),
        Err(Halt::HostMemory) => Err(AllocError),
        Err(Halt::Wrong(found)) => {
            faults.push(Fault::at(number, line.len(), found))?;
            Ok(())
        }
    }
}

/// Reads the lines of a text in order, and says the faults of lines.
#[tactic(auto, using(crate::proofs::Jobs::step_said))]
fn read_lines<'t>(
    alloc: Global,
    text: &'t [u8],
    faults: &mut Vec<Fault<'t>>,
) -> Result<JobLines<'t>, AllocError>
    ensures left { IfOk result (λ above. above ≡ left_by nothing (lines text.now)) }
    ensures said { OnOk result (map seen faults.new.items
        ≡ map seen faults.old.items ++ job_faults_from 1 nothing (lines text.now)) }
{
    let mut above = JobLines::new(alloc);
    let mut number = 0;
    let mut rest = text;
    while !rest.is_empty() {
        let (line, more) = next_line(rest);
        number += 1;
        take_line(alloc, &mut above, faults, number, line)?;
        rest = more;
    }
    Ok(above)
}

/// Says that no line states the memory, where no line is faulty.
#[tactic(auto, using(crate::proofs::Jobs::or_some, crate::proofs::Jobs::or_stated))]
fn say_memory<'t>(memory: Option<u32>, faults: &mut Vec<Fault<'t>>) -> Result<(), AllocError>
    ensures { OnOk result (map seen faults.new.items
        ≡ or_of_whole (map seen faults.old.items) (memory_stated memory)) }
{
    if faults.is_empty() && memory.is_none() {
        faults.push(Fault {
            line: 1,
            column: 1,
            wrong: Wrong::NoMemory,
        })?;
    }
    Ok(())
}

/// Returns the faulty lines of a job, each with what is wrong with it: the lines that the reader of
/// a line refuses, in their order, where a faulty line states nothing. Where no line is faulty and
/// none states the memory, the first line is faulty.
///
/// # Errors
///
/// Returns an error where the host is out of memory.
#[tactic(auto, using(crate::proofs::Jobs::whole))]
pub fn job_faults<'t>(alloc: Global, text: &'t [u8]) -> Result<Vec<Fault<'t>>, AllocError>
    ensures { IfOk result (λ faults. map seen faults.items ≡ job_faults text.now) }
{
    let mut faults = Vec::new(alloc);
    let above = read_lines(alloc, text, &mut faults)?;
    say_memory(above.memory(), &mut faults)?;
    Ok(faults)
}

/// The first faulty line is the one that `read_job` finds; there is none exactly where `read_job`
/// takes the job.
pub fn first_is_the_job_readers()
    ensures { FirstIsTheJobReaders }
{}
