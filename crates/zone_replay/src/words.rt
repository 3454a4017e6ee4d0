//! The transcript of an application in words.

ghost use Rattle.std.specs.Prelude.{◌≡◌, ◌++◌, ◌||◌, ℕ, map, length, take, nat_lt, IfOk, OnOk};
ghost use Rattle.block_store.specs.Block.{fresh, sizes};
ghost use Rattle.block_store.specs.Slot.{Slot};
ghost use Rattle.heap_calls.specs.Inner.Numbered.{name_of};
ghost use Rattle.applications.specs.Replies.{exit_of, end_if};
ghost use Rattle.applications.specs.Step.{step, course_of};
ghost use Rattle.transcript_words.specs.Changes.{placed};
ghost use Rattle.transcript_words.specs.View.{view_lines, view_placed, view_standing};
ghost use Rattle.zone_replay.specs.Known.{tag};
ghost use Rattle.zone_replay.specs.Shown.{zone_lines};
ghost use Rattle.zone_replay.specs.Words.{stands_for_handle, standing, step_told_in, steps_told};
ghost use Rattle.zone_replay.specs.Words.{then_told, end_told_in, told_alone, told_between};
ghost use Rattle.zone_replay.specs.Words.{telling_text};

use crate::behind::first;
use crate::known::{names_of, owners_of};
use crate::moments::between;
use crate::shown::seen_in;
use applications::{Application, Exit, Unwatched};
use block_store::BlockStore;
use heap_calls::Anchor;
use res_calls::Resources;
use script_text::{Line, Script};
use std::alloc::{AllocError, Global};
use transcript_words::{
    Placed, Source, Standing, placed_in, source_of, write_changes, write_end, write_launch,
    write_step,
};

/// How much of an application's transcript is put into words.
#[derive(Clone, Copy, Debug)]
pub enum Telling {
    /// All of it: the launch, so many steps, and the end, where the application ends or the flag
    /// asks for a quit.
    Whole(usize, bool),
    /// The steps after the first so many, up to the second number.
    Steps(usize, usize),
}

/// Reports whether a number stands for a handle.
fn is_handle(anchor: &Anchor) -> bool
    ensures { (slots : ℕ → Slot) → result ≡ stands_for_handle (name_of slots anchor.now) }
{
    match anchor {
        Anchor::Handle { .. } => true,
        Anchor::Pointer(_) => false,
        Anchor::Disposed => false,
    }
}

/// Returns whether each of the numbers stands for a handle.
fn handles_in(alloc: Global, anchors: &[Anchor]) -> Result<Vec<bool>, AllocError>
    ensures { IfOk result (λ handles. (slots : ℕ → Slot)
        → handles.items ≡ map stands_for_handle (map (name_of slots) anchors.now)) }
{
    let mut handles = Vec::new(alloc);
    for anchor in anchors {
        handles.push(is_handle(anchor))?;
    }
    Ok(handles)
}

/// Returns the blocks of an application's handles and pointers, with their names.
fn blocks_in<S: BlockStore>(
    alloc: Global,
    application: &Application<'_, S>,
) -> Result<Vec<Placed>, AllocError>
    ensures { IfOk result (λ blocks. map view_placed blocks.items
        ≡ placed (zone_lines (tag application.now) application.now.memory.heap.zone)) }
{
    let bound = application.names().bound(alloc)?;
    let names = names_of(alloc, bound.as_slice())?;
    let owners = owners_of(alloc, application.resources().open_files())?;
    let seen = seen_in(alloc, application.heap(), &names, &owners)?;
    let blocks = placed_in(alloc, seen.lines.as_slice())?;
    Ok(blocks)
}

/// Returns the zone of an application as it lies: the blocks of its handles and pointers, with
/// their names.
fn standing_in<S: BlockStore>(
    alloc: Global,
    application: &Application<'_, S>,
) -> Result<Standing, AllocError>
    ensures { IfOk result (λ s. view_standing s ≡ standing application.now) }
{
    let blocks = blocks_in(alloc, application)?;
    let (_, anchors) = application.heap().numbered();
    let handles = handles_in(alloc, anchors)?;
    Ok(Standing { blocks, handles })
}

/// Takes a step of a script, and appends it in words. Returns how the application ends with the
/// step, or `None` where it goes on.
fn tell_step<'s, S: BlockStore>(
    alloc: Global,
    application: &mut Application<'s, S>,
    script: &'s Script,
    source: &Source<'_>,
    line: &Line,
    text: &mut Vec<u8>,
) -> Result<Option<Exit>, AllocError>
    ensures ends { IfOk result (λ exit. exit
        ≡ exit_of (step script.now.blocks line.now application.old)) }
    ensures told { OnOk result (text.new.items ≡ text.old.items
        ++ step_told_in (view_lines source.now)
        (step script.now.blocks line.now application.old) application.old) }
    ensures after { OnOk result (application.new
        ≡ (step script.now.blocks line.now application.old).after) }
    ensures lies { application.new.memory.window ≡ application.old.memory.window }
{
    let before = standing_in(alloc, application)?;
    let mut told = Vec::new(alloc);
    let exit = application.step(script, line, &mut told)?;
    let after = standing_in(alloc, application)?;
    let mut changes = Vec::new(alloc);
    write_changes(alloc, &mut changes, &before, &after)?;
    write_step(text, source, changes.as_slice(), told.as_slice())?;
    Ok(exit)
}

/// Takes the lines of a script in order, to the last or to the end of the application, and appends
/// each step in words. Returns how the application ends, or `None` where it goes on.
fn tell_steps<'s, S: BlockStore>(
    alloc: Global,
    application: &mut Application<'s, S>,
    script: &'s Script,
    source: &Source<'_>,
    lines: &[Line],
    text: &mut Vec<u8>,
) -> Result<Option<Exit>, AllocError>
    ensures ends { IfOk result (λ exit. exit
        ≡ exit_of (course_of script.now.blocks lines.now application.old)) }
    ensures told { OnOk result (text.new.items ≡ text.old.items
        ++ steps_told (view_lines source.now) script.now.blocks lines.now application.old) }
    ensures after { OnOk result (application.new
        ≡ (course_of script.now.blocks lines.now application.old).after) }
    ensures lies { application.new.memory.window ≡ application.old.memory.window }
{
    for line in lines {
        let exit = tell_step(alloc, application, script, source, line, text)?;
        if exit.is_some() {
            return Ok(exit);
        }
    }
    Ok(None)
}

/// Ends an application where a call ended it or a quit is asked for, and appends the end in words.
fn tell_end<S: BlockStore>(
    application: &mut Application<'_, S>,
    exit: Option<Exit>,
    asked: bool,
    text: &mut Vec<u8>,
) -> Result<(), AllocError>
    ensures told { OnOk result (text.new.items
        ≡ text.old.items ++ end_told_in (end_if exit asked application.old)) }
    ensures lies { application.new.memory.window ≡ application.old.memory.window }
{
    if exit.is_none() && !asked {
        return Ok(());
    }
    let code = application.end(exit)?;
    write_end(text, code)
}

/// Takes the lines of a script in order, ends the application where a call ends it or a quit is
/// asked for, and appends all that in words.
fn tell_to_end<'s, S: BlockStore>(
    alloc: Global,
    application: &mut Application<'s, S>,
    script: &'s Script,
    source: &Source<'_>,
    lines: &[Line],
    asked: bool,
    text: &mut Vec<u8>,
) -> Result<(), AllocError>
    ensures told { OnOk result (text.new.items ≡ text.old.items
        ++ steps_told (view_lines source.now) script.now.blocks lines.now application.old
        ++ end_told_in (end_if (exit_of (course_of script.now.blocks lines.now application.old))
        asked (course_of script.now.blocks lines.now application.old).after)) }
    ensures lies { application.new.memory.window ≡ application.old.memory.window }
{
    let exit = tell_steps(alloc, application, script, source, lines, text)?;
    tell_end(application, exit, asked, text)
}

/// Reports whether an application is to quit: because `quit` says so, or because the number of
/// steps passes the last line.
fn is_asked(lines: &[Line], steps: usize, quit: bool) -> bool
    ensures { result ≡ (nat_lt (length lines.now) steps || quit) }
{
    lines.len() < steps || quit
}

/// Runs an application with these resources alone in the store of a fresh zone, which is its
/// partition, and returns its transcript in words. `text` is the text that `script` was read from.
/// The application takes `steps` steps, and quits where that is more than its script has, and where
/// `quit` asks for a quit. The store is returned in its place.
///
/// # Errors
///
/// The host is out of memory; the store is returned all the same.
fn tell_alone<S: BlockStore>(
    alloc: Global,
    store: S,
    resources: Resources,
    script: &Script,
    text: &[u8],
    steps: usize,
    quit: bool,
) -> (Result<Vec<u8>, AllocError>, S)
    requires zone { S.zone store ≡ fresh (sizes (S.zone store)) }
    requires unused { (S.rest store).unused ≡ 64 }
    requires all { (S.rest store).all ≡ 64 }
    requires moves { (S.rest store).moves ≡ 0 }
    ensures told { IfOk result.0 (λ out. out.items
        ≡ told_alone resources (sizes (S.zone store)) script.now text.now steps quit) }
    ensures window { (S.rest result.1).window ≡ (S.rest store).window }
{
    let Ok(source) = source_of(alloc, text) else {
        return (Err(AllocError), store);
    };
    let mut out = Vec::new(alloc);
    let Ok(()) = write_launch(&mut out, store.len()) else {
        return (Err(AllocError), store);
    };
    let mut application = match Application::launch_with(alloc, store, resources) {
        Ok(application) => application,
        Err(store) => return (Err(AllocError), store),
    };
    let lines = first(script.steps(), steps);
    let asked = is_asked(script.steps(), steps, quit);
    let told = tell_to_end(
        alloc,
        &mut application,
        script,
        &source,
        lines,
        asked,
        &mut out,
    );
    let (store, files) = application.into_parts();
    drop(files);
    match told {
        Ok(()) => (Ok(out), store),
        Err(fault) => (Err(fault), store),
    }
}

/// Takes the first lines of a script in order, and then the lines that follow, which are appended
/// in words.
fn run_and_tell<'s, S: BlockStore>(
    alloc: Global,
    application: &mut Application<'s, S>,
    script: &'s Script,
    source: &Source<'_>,
    lines: &[Line],
    later: &[Line],
) -> Result<Vec<u8>, AllocError>
    ensures told { IfOk result (λ out. out.items
        ≡ then_told (course_of script.now.blocks lines.now application.old)
        (steps_told (view_lines source.now) script.now.blocks later.now)) }
    ensures lies { application.new.memory.window ≡ application.old.memory.window }
{
    let mut transcript = Vec::new(alloc);
    let exit = application.run(script, lines, &mut transcript, &mut Unwatched)?;
    let mut out = Vec::new(alloc);
    if exit.is_none() {
        tell_steps(alloc, application, script, source, later, &mut out)?;
    }
    Ok(out)
}

/// Runs an application as `tell_alone` does, and returns the steps after the first `from`, up to
/// the number `to`, in words. None follows the step at which the application ends. The store is
/// returned in its place.
///
/// # Errors
///
/// The host is out of memory; the store is returned all the same.
fn tell_between<S: BlockStore>(
    alloc: Global,
    store: S,
    resources: Resources,
    script: &Script,
    text: &[u8],
    from: usize,
    to: usize,
) -> (Result<Vec<u8>, AllocError>, S)
    requires zone { S.zone store ≡ fresh (sizes (S.zone store)) }
    requires unused { (S.rest store).unused ≡ 64 }
    requires all { (S.rest store).all ≡ 64 }
    requires moves { (S.rest store).moves ≡ 0 }
    ensures told { IfOk result.0 (λ out. out.items
        ≡ told_between resources (sizes (S.zone store)) script.now text.now from to) }
    ensures window { (S.rest result.1).window ≡ (S.rest store).window }
{
    let Ok(source) = source_of(alloc, text) else {
        return (Err(AllocError), store);
    };
    let mut application = match Application::launch_with(alloc, store, resources) {
        Ok(application) => application,
        Err(store) => return (Err(AllocError), store),
    };
    let lines = first(script.steps(), from);
    let later = between(script, from, to);
    let told = run_and_tell(alloc, &mut application, script, &source, lines, later);
    let (store, files) = application.into_parts();
    drop(files);
    (told, store)
}

/// Runs an application with these resources alone in the store of a fresh zone, which is its
/// partition, and returns so much of its transcript in words. `text` is the text that `script` was
/// read from. The store is returned in its place.
///
/// # Errors
///
/// The host is out of memory; the store is returned all the same.
pub fn tell<S: BlockStore>(
    alloc: Global,
    store: S,
    resources: Resources,
    script: &Script,
    text: &[u8],
    telling: Telling,
) -> (Result<Vec<u8>, AllocError>, S)
    requires zone { S.zone store ≡ fresh (sizes (S.zone store)) }
    requires unused { (S.rest store).unused ≡ 64 }
    requires all { (S.rest store).all ≡ 64 }
    requires moves { (S.rest store).moves ≡ 0 }
    ensures told { IfOk result.0 (λ out. out.items
        ≡ telling_text telling resources (sizes (S.zone store)) script.now text.now) }
    ensures window { (S.rest result.1).window ≡ (S.rest store).window }
{
    match telling {
        Telling::Whole(steps, quit) => {
            tell_alone(alloc, store, resources, script, text, steps, quit)
        }
        Telling::Steps(from, to) => tell_between(alloc, store, resources, script, text, from, to),
    }
}
