//! The moments of an application: its zone as it lies after each of some steps of its script.

ghost use Rattle.std.specs.Prelude.{◌≡◌, ◌∷◌, ◌++◌, ◌-◌, [], take, drop, map, IfOk, OnOk};
ghost use Rattle.block_store.specs.Block.{fresh, sizes};
ghost use Rattle.applications.specs.Application.{lines_told};
ghost use Rattle.applications.specs.Step.{course_of};
ghost use Rattle.zone_drawing.specs.Quiet.{gathered};
ghost use Rattle.zone_drawing.specs.Steps.{steps_svg};
ghost use Rattle.zone_drawing.specs.View.{view_kept, view_moment};
ghost use Rattle.transcript_words.specs.View.{view_lines};
ghost use Rattle.transcript_words.specs.Words.{call_words};
ghost use Rattle.zone_replay.specs.Known.{tag};
ghost use Rattle.zone_replay.specs.Drawn.{drawn_behind, drawn_of, moments_svg};
ghost use Rattle.zone_replay.specs.Moments.{moment, moments_of, words_after};
ghost use Rattle.zone_replay.specs.Shown.{zone_lines};

use crate::behind::first;
use crate::inside::take_inside;
use crate::known::{names_of, owners_of};
use crate::shown::seen_in;
use applications::{Application, Unwatched};
use block_store::BlockStore;
use res_calls::Resources;
use script_text::{Line, Script, write_launch};
use std::alloc::{AllocError, Global};
use transcript_words::{Source, source_of, write_call};
use zone_drawing::{KeptLine, Moment, Part, add_moment, kept_of, write_steps_svg};

/// How moments are drawn.
#[derive(Clone, Copy, Debug)]
pub struct Strips {
    /// The part of the zone that is shown.
    pub part: Part,
    /// Whether also moments are drawn at which nothing changed.
    pub all: bool,
    /// Whether what the zone was inside the calls has strips of its own.
    pub inside: bool,
}

/// Returns the lines of the blocks of an application's zone, with their names.
pub(crate) fn named_lines<S: BlockStore>(
    alloc: Global,
    application: &Application<'_, S>,
) -> Result<Vec<KeptLine>, AllocError>
    ensures { IfOk result (λ lines. map view_kept lines.items
        ≡ zone_lines (tag application.now) application.now.memory.heap.zone) }
{
    let bound = application.names().bound(alloc)?;
    let names = names_of(alloc, bound.as_slice())?;
    let owners = owners_of(alloc, application.resources().open_files())?;
    let seen = seen_in(alloc, application.heap(), &names, &owners)?;
    let lines = kept_of(alloc, seen.lines.as_slice())?;
    Ok(lines)
}

/// Returns the moment of an application after the call of a line, with the words for it.
pub(crate) fn moment_of<S: BlockStore>(
    alloc: Global,
    application: &Application<'_, S>,
    number: usize,
    caption: Vec<u8>,
) -> Result<Moment, AllocError>
    ensures { IfOk result (λ m. view_moment m ≡ moment number caption.items application.now) }
{
    let lines = named_lines(alloc, application)?;
    Ok(Moment {
        number,
        caption,
        passed: None,
        lines,
    })
}

/// Returns the call of a step in words, whose transcript is given.
pub(crate) fn call_of(
    alloc: Global,
    source: &Source<'_>,
    told: &[u8],
) -> Result<Vec<u8>, AllocError>
    ensures { IfOk result (λ words. words.items ≡ call_words (view_lines source.now) told.now) }
{
    let mut words = Vec::new(alloc);
    write_call(&mut words, source, told)?;
    Ok(words)
}

/// Takes the lines of a script in order, to the last or to the end of the application, and adds the
/// moment after each.
fn take_moments<'s, S: BlockStore>(
    alloc: Global,
    application: &mut Application<'s, S>,
    script: &'s Script,
    source: &Source<'_>,
    lines: &[Line],
    all: bool,
    moments: &mut Vec<Moment>,
) -> Result<(), AllocError>
    ensures taken { OnOk result (map view_moment moments.new.items
        ≡ gathered all (map view_moment moments.old.items)
        (moments_of (view_lines source.now) script.now.blocks lines.now application.old)) }
    ensures lies { application.new.memory.window ≡ application.old.memory.window }
{
    for line in lines {
        let mut told = Vec::new(alloc);
        let exit = application.step(script, line, &mut told)?;
        let caption = call_of(alloc, source, told.as_slice())?;
        let moment = moment_of(alloc, application, line.number, caption)?;
        add_moment(moments, all, moment)?;
        if exit.is_some() {
            return Ok(());
        }
    }
    Ok(())
}

/// Takes the lines of a script in order, as `take_moments` or as `take_inside` does.
fn take_drawn<'s, S: BlockStore>(
    alloc: Global,
    application: &mut Application<'s, S>,
    script: &'s Script,
    source: &Source<'_>,
    lines: &[Line],
    strips: Strips,
    moments: &mut Vec<Moment>,
) -> Result<(), AllocError>
    ensures taken { OnOk result (map view_moment moments.new.items ≡ drawn_of strips (view_lines source.now)
        script.now.blocks (map view_moment moments.old.items) lines.now application.old) }
    ensures lies { application.new.memory.window ≡ application.old.memory.window }
{
    if strips.inside {
        take_inside(
            alloc,
            application,
            script,
            source,
            lines,
            strips.all,
            moments,
        )
    } else {
        take_moments(
            alloc,
            application,
            script,
            source,
            lines,
            strips.all,
            moments,
        )
    }
}

/// Returns the words for the moment after the first steps, so many, whose transcript is given.
fn words_after(
    alloc: Global,
    source: &Source<'_>,
    n: usize,
    transcript: &[u8],
) -> Result<Vec<u8>, AllocError>
    ensures { IfOk result (λ words. words.items
        ≡ words_after (view_lines source.now) n transcript.now) }
{
    if n == 0 {
        let mut words = Vec::new(alloc);
        words.extend_from_slice(b"launch")?;
        Ok(words)
    } else {
        call_of(alloc, source, transcript)
    }
}

/// Returns the moment after the first steps, so many, whose transcript is given, alone.
fn first_moment<S: BlockStore>(
    alloc: Global,
    application: &Application<'_, S>,
    source: &Source<'_>,
    n: usize,
    transcript: &[u8],
) -> Result<Vec<Moment>, AllocError>
    ensures { IfOk result (λ moments. map view_moment moments.items
        ≡ moment 0 (words_after (view_lines source.now) n transcript.now) application.now ∷ []) }
{
    let caption = words_after(alloc, source, n, transcript)?;
    let first = moment_of(alloc, application, 0, caption)?;
    let mut moments = Vec::new(alloc);
    moments.push(first)?;
    Ok(moments)
}

/// Takes the first lines of a script in order, which are those of the first `n` steps, and returns
/// the moment after them, and those after each of the lines that follow. `transcript` is the
/// transcript so far.
fn run_to_moments<'s, S: BlockStore>(
    alloc: Global,
    application: &mut Application<'s, S>,
    script: &'s Script,
    source: &Source<'_>,
    n: usize,
    lines: &[Line],
    later: &[Line],
    strips: Strips,
    transcript: &mut Vec<u8>,
) -> Result<Vec<Moment>, AllocError>
    ensures taken { IfOk result (λ moments. map view_moment moments.items
        ≡ drawn_behind strips (view_lines source.now) script.now.blocks n later.now
        (transcript.old.items ++ lines_told (course_of script.now.blocks lines.now application.old).lines)
        (course_of script.now.blocks lines.now application.old)) }
    ensures lies { application.new.memory.window ≡ application.old.memory.window }
{
    let exit = application.run(script, lines, transcript, &mut Unwatched)?;
    let mut moments = first_moment(alloc, application, source, n, transcript.as_slice())?;
    if exit.is_none() {
        take_drawn(
            alloc,
            application,
            script,
            source,
            later,
            strips,
            &mut moments,
        )?;
    }
    Ok(moments)
}

/// Takes lines of a script as `run_to_moments` does, and returns the picture of the moments.
fn run_and_draw<'s, S: BlockStore>(
    alloc: Global,
    application: &mut Application<'s, S>,
    script: &'s Script,
    source: &Source<'_>,
    n: usize,
    lines: &[Line],
    later: &[Line],
    strips: Strips,
    transcript: &mut Vec<u8>,
) -> Result<Vec<u8>, AllocError>
    ensures shown { IfOk result (λ text. text.items
        ≡ steps_svg strips.part (drawn_behind strips (view_lines source.now) script.now.blocks n later.now
        (transcript.old.items ++ lines_told (course_of script.now.blocks lines.now application.old).lines)
        (course_of script.now.blocks lines.now application.old))) }
    ensures lies { application.new.memory.window ≡ application.old.memory.window }
{
    let moments = run_to_moments(
        alloc,
        application,
        script,
        source,
        n,
        lines,
        later,
        strips,
        transcript,
    )?;
    let mut text = Vec::new(alloc);
    write_steps_svg(alloc, &mut text, strips.part, moments.as_slice())?;
    Ok(text)
}

/// Returns the lines after the first `n`.
fn after(lines: &[Line], n: usize) -> &[Line]
    ensures { result.now ≡ drop n lines.now }
{
    match lines.get(n..) {
        Some(after) => after,
        None => &[],
    }
}

/// Returns the steps of a script after the first `from`, up to the number `to`.
pub(crate) fn between(script: &Script, from: usize, to: usize) -> &[Line]
    ensures { result.now ≡ take (to - from) (drop from script.now.steps) }
{
    first(after(script.steps(), from), to.saturating_sub(from))
}

/// Runs the first `to` steps of a script, as an application with these resources in the store of a
/// fresh zone, which is its partition, and returns a picture of the zone: a strip for how it lies
/// after the first `from` steps, and one for each further step at which it changes, up to the one
/// at which the application ends. `text` is the text that `script` was read from. The store is
/// returned in its place.
///
/// # Errors
///
/// The host is out of memory; the store is returned all the same.
pub fn show_moments<S: BlockStore>(
    alloc: Global,
    store: S,
    resources: Resources,
    script: &Script,
    text: &[u8],
    from: usize,
    to: usize,
    strips: Strips,
) -> (Result<Vec<u8>, AllocError>, S)
    requires zone { S.zone store ≡ fresh (sizes (S.zone store)) }
    requires unused { (S.rest store).unused ≡ 64 }
    requires all { (S.rest store).all ≡ 64 }
    requires moves { (S.rest store).moves ≡ 0 }
    ensures shown { IfOk result.0 (λ out. out.items
        ≡ moments_svg strips resources (sizes (S.zone store)) script.now text.now from to) }
    ensures window { (S.rest result.1).window ≡ (S.rest store).window }
{
    let Ok(source) = source_of(alloc, text) else {
        return (Err(AllocError), store);
    };
    let mut transcript = Vec::new(alloc);
    let Ok(()) = write_launch(&mut transcript, store.len()) else {
        return (Err(AllocError), store);
    };
    let mut application = match Application::launch_with(alloc, store, resources) {
        Ok(application) => application,
        Err(store) => return (Err(AllocError), store),
    };
    let lines = first(script.steps(), from);
    let later = between(script, from, to);
    let shown = run_and_draw(
        alloc,
        &mut application,
        script,
        &source,
        from,
        lines,
        later,
        strips,
        &mut transcript,
    );
    let (store, files) = application.into_parts();
    drop(files);
    (shown, store)
}
