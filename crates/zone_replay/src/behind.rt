//! The zone of an application as it lies after a line of its script.

ghost use Rattle.std.specs.Prelude.{◌≡◌, ◌++◌, [], take, IfOk, OnOk};
ghost use Rattle.block_store.specs.Block.{fresh, sizes};
ghost use Rattle.applications.specs.Application.{lines_told};
ghost use Rattle.applications.specs.Step.{course_of};
ghost use Rattle.zone_replay.specs.Shown.{zone_shown};
ghost use Rattle.zone_replay.specs.Behind.{left_behind, with_byte, last_words, step_told, steps_to};
ghost use Rattle.zone_replay.specs.Behind.{steps_at, zone_behind};

use crate::form::Form;
use crate::shown::show_zone;
use applications::{Application, Unwatched};
use block_store::BlockStore;
use res_calls::Resources;
use script_text::{Line, Script, write_launch};
use std::alloc::{AllocError, Global};

/// Returns how many words are still to come once a byte was read.
fn left_behind(byte: u8, left: u8) -> u8
    ensures { result ≡ left_behind byte left }
{
    if byte == b' ' {
        left.saturating_sub(1)
    } else {
        left
    }
}

/// Appends a byte to words, where words are still to come.
fn push_byte(words: &mut Vec<u8>, byte: u8, left: u8) -> Result<(), AllocError>
    ensures { OnOk result (words.new.items ≡ with_byte byte left words.old.items) }
{
    if left > 0 {
        words.push(byte)?;
    }
    Ok(())
}

/// Returns the first three words of the last line of a text.
fn last_words(alloc: Global, text: &[u8]) -> Result<Vec<u8>, AllocError>
    ensures { IfOk result (λ words. words.items ≡ last_words [] 3 text.now) }
{
    let mut words = Vec::new(alloc);
    let mut left = 3;
    for byte in text {
        if *byte == b'\n' {
            words.clear();
            left = 3;
        } else {
            left = left_behind(*byte, left);
            push_byte(&mut words, *byte, left)?;
        }
    }
    Ok(words)
}

/// Returns the step that a transcript ends with: the number of its line, its call and its result
/// code.
pub fn step_told(alloc: Global, transcript: &[u8]) -> Result<Vec<u8>, AllocError>
    ensures { IfOk result (λ words. words.items ≡ step_told transcript.now) }
{
    let end = transcript.len().saturating_sub(1);
    last_words(alloc, &transcript[..end])
}

/// Returns how many of the steps stand on a line up to the n-th.
fn steps_to(n: usize, lines: &[Line]) -> usize
    ensures { result ≡ steps_to n lines.now }
{
    let mut steps = 0;
    for line in lines {
        if line.number <= n {
            steps += 1;
        }
    }
    steps
}

/// Returns how many steps of a script are taken up to a line, counted from 1; up to line 0 none is,
/// and where no line is given all are.
pub fn steps_at(line: Option<usize>, script: &Script) -> usize
    ensures { result ≡ steps_at line script.now.steps }
{
    match line {
        Some(n) => steps_to(n, script.steps()),
        None => script.steps().len(),
    }
}

/// Returns the first `n` lines, or all lines where there are fewer.
pub fn first(lines: &[Line], n: usize) -> &[Line]
    ensures { result.now ≡ take n lines.now }
{
    match lines.get(..n) {
        Some(first) => first,
        None => lines,
    }
}

/// Takes the lines of a script in order, and returns the application's zone as it then lies.
/// `transcript` is the transcript so far.
fn run_and_show<'s, S: BlockStore>(
    alloc: Global,
    application: &mut Application<'s, S>,
    script: &'s Script,
    lines: &[Line],
    transcript: &mut Vec<u8>,
    form: Form,
) -> Result<Vec<u8>, AllocError>
    ensures shown { IfOk result (λ text. text.items
        ≡ zone_shown form (course_of script.now.blocks lines.now application.old).after
        (step_told (transcript.old.items
        ++ lines_told (course_of script.now.blocks lines.now application.old).lines))) }
    ensures lies { application.new.memory.window ≡ application.old.memory.window }
{
    application.run(script, lines, transcript, &mut Unwatched)?;
    let step = step_told(alloc, transcript.as_slice())?;
    show_zone(alloc, application, form, step.as_slice())
}

/// Runs the first `n` steps of a script, as an application with these resources in the store of a
/// fresh zone, which is its partition, and returns its zone as it then lies, in a form. If the
/// application ends before, its zone is shown as it lies after its last step. The store is returned
/// in its place, with that zone.
///
/// # Errors
///
/// The host is out of memory; the store is returned all the same.
pub fn show_behind<S: BlockStore>(
    alloc: Global,
    store: S,
    resources: Resources,
    script: &Script,
    n: usize,
    form: Form,
) -> (Result<Vec<u8>, AllocError>, S)
    requires zone { S.zone store ≡ fresh (sizes (S.zone store)) }
    requires unused { (S.rest store).unused ≡ 64 }
    requires all { (S.rest store).all ≡ 64 }
    requires moves { (S.rest store).moves ≡ 0 }
    ensures shown { IfOk result.0 (λ text. text.items
        ≡ zone_behind form resources (sizes (S.zone store)) script.now n) }
    ensures window { (S.rest result.1).window ≡ (S.rest store).window }
{
    let mut transcript = Vec::new(alloc);
    let Ok(()) = write_launch(&mut transcript, store.len()) else {
        return (Err(AllocError), store);
    };
    let mut application = match Application::launch_with(alloc, store, resources) {
        Ok(application) => application,
        Err(store) => return (Err(AllocError), store),
    };
    let lines = first(script.steps(), n);
    let shown = run_and_show(
        alloc,
        &mut application,
        script,
        lines,
        &mut transcript,
        form,
    );
    let (store, files) = application.into_parts();
    drop(files);
    (shown, store)
}
