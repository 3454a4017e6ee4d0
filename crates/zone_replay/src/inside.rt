//! The moments of an application with what its zone was inside the calls.

ghost use Rattle.std.specs.Prelude.{◌≡◌, ◌++◌, None, map, IfOk, OnOk};
ghost use Rattle.script_text.specs.Transcript.{values_of};
ghost use Rattle.applications.specs.Inside.{Glance};
ghost use Rattle.applications.specs.Replies.{exit_of};
ghost use Rattle.applications.specs.Step.{step};
ghost use Rattle.zone_drawing.specs.View.{view_moment};
ghost use Rattle.transcript_words.specs.View.{view_lines};
ghost use Rattle.zone_replay.specs.Inside.{gathered_inside, glance_front, glance_line, in_words};
ghost use Rattle.zone_replay.specs.Inside.{step_added, try_line, try_of, view_try};

use crate::moments::{call_of, moment_of, named_lines};
use applications::{Application, Exit, Onlooker};
use block_store::BlockStore;
use mac_words::{OsErr, Reply};
use script_text::{CallWord, Line, Script, write_grow_reply, write_reply};
use std::alloc::{AllocError, Global};
use transcript_words::{Source, write_call};
use zone_drawing::{Moment, add_inside};

/// A try that was seen: whether its call is one of a grow-zone script, and the moment after it, of
/// which the words are the line of a transcript that the try has.
#[derive(Drop)]
pub(crate) struct Try {
    pub(crate) grown: bool,
    pub(crate) after: Moment,
}

/// An onlooker who keeps the tries that it has seen.
#[derive(Drop)]
struct Tries {
    alloc: Global,
    seen: Vec<Try>,
}

/// Appends the line of a transcript that a try has.
fn push_line(
    text: &mut Vec<u8>,
    grown: bool,
    number: usize,
    word: CallWord,
    reply: &Reply,
) -> Result<(), AllocError>
    ensures { OnOk result (text.new.items ≡ text.old.items
        ++ try_line grown number word reply.now.code.0 (values_of reply.now None)) }
{
    if grown {
        write_grow_reply(text, number, word, reply, None)?;
    } else {
        write_reply(text, number, word, reply, None)?;
    }
    Ok(())
}

/// Returns the line of a transcript that a try has, without values.
fn glance_line(alloc: Global, grown: bool, line: &Line, code: OsErr) -> Result<Vec<u8>, AllocError>
    ensures { IfOk result (λ text. (g : Glance) → g.grown ≡ grown
        → g.line ≡ line.now → g.code ≡ code
        → text.items ≡ glance_line g) }
{
    let mut text = Vec::new(alloc);
    let word = CallWord::of(&line.call);
    let reply = Reply::of(code);
    push_line(&mut text, grown, line.number, word, &reply)?;
    Ok(text)
}

/// Returns what the words for a try begin with.
fn glance_front(grown: bool) -> &'static [u8]
    ensures { result.now ≡ glance_front grown }
{
    if grown { b"" } else { b"tried: " }
}

impl Onlooker for Tries {
    ghost saw = { λ t glances. map view_try t.seen.items ≡ map try_of glances };

    fn look<S: BlockStore>(
        &mut self,
        application: &Application<'_, S>,
        grown: bool,
        line: &Line,
        code: OsErr,
    ) -> Result<(), AllocError> {
        let told = glance_line(self.alloc, grown, line, code)?;
        let after = moment_of(self.alloc, application, line.number, told)?;
        self.seen.push(Try { grown, after })?;
        Ok(())
    }
}

/// Returns the moment after a try, with the try in words.
fn in_words(alloc: Global, source: &Source<'_>, tried: Try) -> Result<Moment, AllocError>
    ensures { IfOk result (λ m. view_moment m ≡ in_words (view_lines source.now) (view_try tried)) }
{
    let Try { grown, after } = tried;
    let Moment {
        number,
        caption: told,
        passed,
        lines,
    } = after;
    let mut caption = Vec::new(alloc);
    caption.extend_from_slice(glance_front(grown))?;
    write_call(&mut caption, source, told.as_slice())?;
    Ok(Moment {
        number,
        caption,
        passed,
        lines,
    })
}

/// Returns the moments after tries, with the tries in words.
fn all_in_words(
    alloc: Global,
    source: &Source<'_>,
    tries: Vec<Try>,
) -> Result<Vec<Moment>, AllocError>
    ensures { IfOk result (λ moments. map view_moment moments.items
        ≡ map (in_words (view_lines source.now)) (map view_try tries.items)) }
{
    let mut moments = Vec::new(alloc);
    for tried in tries {
        moments.push(in_words(alloc, source, tried)?)?;
    }
    Ok(moments)
}

/// Takes a step of a script, and adds the moment after it with the strips inside the step. Returns
/// how the application ends with the step, or `None` where it goes on.
fn step_inside<'s, S: BlockStore>(
    alloc: Global,
    application: &mut Application<'s, S>,
    script: &'s Script,
    source: &Source<'_>,
    line: &Line,
    all: bool,
    moments: &mut Vec<Moment>,
) -> Result<Option<Exit>, AllocError>
    ensures ends { IfOk result (λ exit. exit
        ≡ exit_of (step script.now.blocks line.now application.old)) }
    ensures added { OnOk result (map view_moment moments.new.items
        ≡ step_added (view_lines source.now) script.now.blocks
        all (map view_moment moments.old.items) line.now application.old) }
    ensures after { OnOk result (application.new
        ≡ (step script.now.blocks line.now application.old).after) }
    ensures lies { application.new.memory.window ≡ application.old.memory.window }
{
    let before = named_lines(alloc, application)?;
    let mut told = Vec::new(alloc);
    let mut tries = Tries {
        alloc,
        seen: Vec::new(alloc),
    };
    let exit = application.step_seen(script, line, &mut told, &mut tries)?;
    let tries = all_in_words(alloc, source, tries.seen)?;
    let caption = call_of(alloc, source, told.as_slice())?;
    let moment = moment_of(alloc, application, line.number, caption)?;
    add_inside(alloc, moments, all, before, tries, moment)?;
    Ok(exit)
}

/// Takes the lines of a script in order, to the last or to the end of the application, and adds the
/// moment after each with the strips inside its step.
pub fn take_inside<'s, S: BlockStore>(
    alloc: Global,
    application: &mut Application<'s, S>,
    script: &'s Script,
    source: &Source<'_>,
    lines: &[Line],
    all: bool,
    moments: &mut Vec<Moment>,
) -> Result<(), AllocError>
    ensures taken { OnOk result (map view_moment moments.new.items
        ≡ gathered_inside (view_lines source.now)
        script.now.blocks all (map view_moment moments.old.items) lines.now application.old) }
    ensures lies { application.new.memory.window ≡ application.old.memory.window }
{
    for line in lines {
        let exit = step_inside(alloc, application, script, source, line, all, moments)?;
        if exit.is_some() {
            return Ok(());
        }
    }
    Ok(())
}
