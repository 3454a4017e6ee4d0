//! The forks that a run wrote.

ghost use Rattle.std.specs.Prelude.{◌≡◌, ◌≢◌, ◌++◌, [], map, OnOk, OnErr};
ghost use Rattle.std.specs.List.{flat_map};
ghost use Rattle.res_calls.specs.View.{view_file};
ghost use Rattle.applications.specs.Replies.{Extends};
ghost use Rattle.desk.specs.Outcome.{fork_told, forks_told, forks_of};
ghost use Rattle.desk.specs.View.{told_seen};

use crate::outcome::AppOutcome;
use mac_words::Label;
use res_calls::File;
use script_text::write_app_fork;
use std::alloc::AllocError;

/// Appends the line of a file, the one at `place` among the application's files, if its fork was
/// written.
fn write_file(text: &mut Vec<u8>, name: &Label, place: usize, file: &File) -> Result<(), AllocError>
    ensures lines { OnOk result (text.new.items
        ≡ text.old.items ++ fork_told name.now.0.items place (view_file file.now)) }
    ensures front { Extends text.old.items text.new.items }
    ensures forks { OnErr result (fork_told name.now.0.items place (view_file file.now) ≢ []) }
{
    if file.written {
        return write_app_fork(text, name, place, &file.name, file.fork.len());
    }
    Ok(())
}

/// Appends a line for each file of an application whose fork was written.
#[tactic(auto, using(crate::proofs::ForkLines::files_next))]
fn write_files(text: &mut Vec<u8>, name: &Label, files: &[File]) -> Result<(), AllocError>
    ensures lines { OnOk result (text.new.items
        ≡ text.old.items ++ forks_told name.now.0.items 0 (map view_file files.now)) }
    ensures front { Extends text.old.items text.new.items }
    ensures forks { OnErr result (forks_told name.now.0.items 0 (map view_file files.now) ≢ []) }
{
    for (place, file) in files.iter().enumerate() {
        write_file(text, name, place, file)?;
    }
    Ok(())
}

/// Appends a line for each fork that an application wrote, if the application was launched.
fn write_app(text: &mut Vec<u8>, app: &AppOutcome) -> Result<(), AllocError>
    ensures lines { OnOk result (text.new.items ≡ text.old.items ++ forks_of (told_seen app.now)) }
    ensures front { Extends text.old.items text.new.items }
    ensures forks { OnErr result (forks_of (told_seen app.now) ≢ []) }
{
    match &app.launched {
        Some(launched) => write_files(text, &app.name, &launched.files),
        None => Ok(()),
    }
}

/// Appends a line for each fork that was written, in the order of the applications and their files.
#[tactic(auto, using(crate::proofs::ForkLines::apps_next))]
pub(crate) fn write_forks(text: &mut Vec<u8>, apps: &[AppOutcome]) -> Result<(), AllocError>
    ensures lines { OnOk result (text.new.items
        ≡ text.old.items ++ flat_map forks_of (map told_seen apps.now)) }
    ensures front { Extends text.old.items text.new.items }
    ensures forks { OnErr result (flat_map forks_of (map told_seen apps.now) ≢ []) }
{
    for app in apps {
        write_app(text, app)?;
    }
    Ok(())
}
