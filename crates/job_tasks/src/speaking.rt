//! The transcripts of a run, in words.

ghost use Rattle.std.specs.Prelude.{◌≡◌, option_map, slice_get, map, OnOk, IfOk};
ghost use Rattle.desk.specs.Live.{leaves_seen};
ghost use Rattle.desk.specs.View.{told_seen, outcome_seen};
ghost use Rattle.desk.specs.Whole.{system_of, start_with};
ghost use Rattle.job_tasks.specs.Speaking.{launched_in_words, app_in_words, apps_in_words};
ghost use Rattle.job_tasks.specs.Speaking.{written_of};

use crate::job_zones::size_of;
use crate::playing::told;
use desk::{App, AppOutcome, Job, Launched, Outcome, open_resources};
use heap_calls::Refusal;
use std::alloc::{AllocError, Global};
use zone_replay::Telling;

/// Puts the transcript of an application that was launched into words. `text` is the text of its
/// script.
fn speak(
    alloc: Global,
    job: &Job,
    app: &App,
    text: &[u8],
    launched: &mut Launched,
) -> Result<(), AllocError>
    ensures { OnOk result (leaves_seen launched.new
        ≡ launched_in_words (start_with (system_of job.now) app.now) app.now.script text.now
        (leaves_seen launched.old)) }
{
    let telling = Telling::Whole(launched.steps, launched.asked);
    match open_resources(alloc, job, app) {
        Ok(resources) => {
            let size = size_of(launched);
            launched.transcript = told(alloc, size, resources, &app.script, text, telling)?;
            Ok(())
        }
        Err(Refusal::HostMemory) => Err(AllocError),
        Err(Refusal::Code(_)) => Ok(()),
    }
}

/// Puts the transcript of an application into words, if the application was launched.
fn speak_app(
    alloc: Global,
    job: &Job,
    app: Option<&App>,
    text: Option<&Vec<u8>>,
    left: &mut AppOutcome,
) -> Result<(), AllocError>
    ensures { OnOk result (told_seen left.new
        ≡ app_in_words (system_of job.now) (option_map (λ a. a.now) app.entry)
        (option_map (λ t. t.now.items) text.entry) (told_seen left.old)) }
{
    let (Some(app), Some(text)) = (app, text) else {
        return Ok(());
    };
    match &mut left.launched {
        Some(launched) => speak(alloc, job, app, text.as_slice(), launched),
        None => Ok(()),
    }
}

/// Puts the transcripts of all applications that were launched into words. `scripts` are the texts
/// of their scripts.
fn speak_apps(
    alloc: Global,
    job: &Job,
    scripts: &[Vec<u8>],
    apps: &mut Vec<AppOutcome>,
) -> Result<(), AllocError>
    ensures { OnOk result (map told_seen apps.new.items
        ≡ apps_in_words job.now (map (λ t. t.items) scripts.now) 0 (map told_seen apps.old.items)) }
{
    for i in 0..apps.len() {
        speak_app(alloc, job, job.apps.get(i), scripts.get(i), &mut apps[i])?;
    }
    Ok(())
}

/// Returns what is written of a run: its transcripts are in words where that is asked for, unless
/// the run stopped.
pub fn written_of(
    alloc: Global,
    in_words: bool,
    job: &Job,
    scripts: &[Vec<u8>],
    outcome: Outcome,
) -> Result<Outcome, AllocError>
    ensures { IfOk result (λ o. outcome_seen o
        ≡ written_of in_words job.now (map (λ t. t.items) scripts.now) (outcome_seen outcome)) }
{
    let mut outcome = outcome;
    if in_words && !outcome.stopped {
        speak_apps(alloc, job, scripts, &mut outcome.apps)?;
    }
    Ok(outcome)
}
