//! The words of a faulty line, and which of its arguments is at fault.

ghost use Rattle.std.specs.Prelude.{◌≡◌, IfOk, Some, None};
ghost use Rattle.std.specs.Option.{option_map};
ghost use Rattle.script_text.specs.declared.fault.FaultKind.TheVariants.{BadArgument, LongLine};
ghost use Rattle.script_text.specs.Argument.{argument};
ghost use Rattle.lint.specs.Judging.{argument_of, first_wrong, kind_of, rest_after};
ghost use Rattle.lint.specs.Reading.{Names, Says};
ghost use Rattle.lint.specs.Roles.{kind};
ghost use Rattle.lint.specs.declared.halt.Halt.TheVariants as halt;

use crate::argument::is_value;
use crate::form::Form;
use crate::halt::Halt;
use crate::role::Role;
use crate::wrong::{Found, Wrong};
use script_text::{FaultKind, LONGEST_LINE, first_blank, first_token, trim};
use std::alloc::{AllocError, Global};

/// A text in a line.
#[derive(Clone, Copy)]
pub struct Place<'t> {
    pub text: &'t [u8],
    /// How many bytes of the line stand from the text on.
    pub left: usize,
}

impl<'t> Place<'t> {
    /// Says what is wrong there.
    pub fn wrong(self, wrong: Wrong<'t>) -> Found<'t>
        ensures left { result.left ≡ self.entry.left }
        ensures wrong { result.wrong ≡ wrong.entry }
    {
        Found {
            left: self.left,
            wrong,
        }
    }

    /// Says that a line is not read, since this is wrong there.
    pub fn halt(self, wrong: Wrong<'t>) -> Halt<'t>
        ensures { result ≡ halt.Wrong (record { left = self.entry.left; wrong = wrong.entry }) }
    {
        Halt::Wrong(Found {
            left: self.left,
            wrong,
        })
    }
}

/// A line by its words.
#[derive(Clone, Copy)]
pub struct Words<'t> {
    /// The first word.
    pub word: Place<'t>,
    /// The text after the first word.
    pub rest: &'t [u8],
}

impl<'t> Words<'t> {
    /// Takes a line apart.
    pub fn of(line: &'t [u8]) -> Words<'t> {
        let text = trim(line);
        let (word, rest) = text.split_at(first_blank(text));
        Words {
            word: Place {
                text: word,
                left: text.len(),
            },
            rest,
        }
    }

    /// Returns what stands in the place of an argument, which are numbered from 1 on.
    pub fn argument(self, number: usize) -> Place<'t> {
        let mut rest = self.rest;
        for _ in 1..number {
            rest = after_argument(rest);
        }
        let text = trim(rest);
        Place {
            text: found_in(text),
            left: text.len(),
        }
    }
}

/// Returns the text after an argument.
fn after_argument(text: &[u8]) -> &[u8] {
    match first_token(trim(text)) {
        Ok((_, rest)) => rest,
        Err(_) => text,
    }
}

/// Returns what stands in the place of an argument that has no token: a text in quotes and what
/// follows it, up to the next blank; a text in quotes that is not closed; or the bytes up to the
/// first blank.
fn uncut(text: &[u8]) -> &[u8] {
    let quoted = match text {
        [b'"', rest @ ..] => match rest.iter().position(|b| *b == b'"') {
            Some(end) => end + 2,
            None => text.len(),
        },
        _ => 0,
    };
    let more = first_blank(text.split_at(quoted).1);
    text.split_at(quoted + more).0
}

/// Returns what stands in the place of an argument.
fn found_in(text: &[u8]) -> &[u8] {
    match first_token(text) {
        Ok((found, _)) => found,
        Err(_) => uncut(text),
    }
}

/// Returns the text after the argument at the front of a text; none where no argument that stands
/// for this is there.
#[tactic(auto, unfolding(script_text::specs::Argument::argument))]
fn after_value<'t>(
    alloc: Global,
    role: Role,
    text: &'t [u8],
) -> Result<Option<&'t [u8]>, AllocError>
    ensures { IfOk result (λ rest.
        option_map (λ r. r.now) rest ≡ rest_after (argument (kind role) text.now)) }
{
    match first_token(trim(text)) {
        Ok((found, rest)) => {
            if is_value(alloc, role, found)? {
                Ok(Some(rest))
            } else {
                Ok(None)
            }
        }
        Err(FaultKind::HostMemory) => Err(AllocError),
        Err(_) => Ok(None),
    }
}

/// Says that an argument is missing or wrong; the text begins where the argument should.
fn bad_argument<'t>(form: Form, number: usize, role: Role, text: &'t [u8]) -> Found<'t>
    ensures kind { kind_of result.wrong ≡ BadArgument }
    ensures argument { argument_of result.wrong ≡ Some (number, role) }
{
    let text = trim(text);
    Found {
        left: text.len(),
        wrong: Wrong::Argument {
            form,
            number,
            role,
            found: found_in(text),
        },
    }
}

/// Says that more follows the last argument of a form.
fn extra<'t>(form: Form, text: &'t [u8]) -> Found<'t>
    ensures kind { kind_of result.wrong ≡ BadArgument }
    ensures argument { argument_of result.wrong ≡ None }
{
    let found = trim(text);
    Found {
        left: found.len(),
        wrong: Wrong::Extra { form, found },
    }
}

/// Says which argument of a form is the first that is missing or wrong; where none is, more follows
/// the last one.
fn wrong_argument<'t>(alloc: Global, form: Form, text: &'t [u8]) -> Result<Found<'t>, AllocError>
    ensures kind { IfOk result (λ found. kind_of found.wrong ≡ BadArgument) }
    ensures first { IfOk result (λ found.
        argument_of found.wrong ≡ first_wrong 1 form.roles.now text.now) }
{
    let mut rest = text;
    let mut number = 0;
    for role in form.roles {
        number += 1;
        match after_value(alloc, *role, rest)? {
            Some(more) => rest = more,
            None => return Ok(bad_argument(form, number, *role, rest)),
        }
    }
    Ok(extra(form, rest))
}

/// Says that a line is not read, since an argument of its form is wrong.
pub fn bad_arguments<'t>(alloc: Global, form: Form, text: &'t [u8]) -> Halt<'t>
    ensures kind { Says BadArgument result }
    ensures first { Names (first_wrong 1 form.roles.now text.now) result }
{
    match wrong_argument(alloc, form, text) {
        Ok(found) => Halt::Wrong(found),
        Err(_) => Halt::HostMemory,
    }
}

/// Says that a line is not read, since it is too long; what is too much stands at its end.
pub fn long_line<'t>(line: &'t [u8]) -> Halt<'t>
    ensures { Says LongLine result }
{
    Halt::Wrong(Found {
        left: line.len().saturating_sub(LONGEST_LINE),
        wrong: Wrong::LongLine { length: line.len() },
    })
}
