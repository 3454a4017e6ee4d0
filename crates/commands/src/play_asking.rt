//! Whether the words of a command line ask for a script that is run with files.

ghost use Rattle.std.specs.Prelude.{◌≡◌, ◌++◌, ◌∷◌, [], map, codes, IsTrue};
ghost use Rattle.commands.specs.Asking.{StandIn, HasValue, told_word, play_word, IsPart, AreParts};
ghost use Rattle.commands.specs.Asking.{IsPlayFolder};
ghost use Rattle.job_tasks.specs.Loading.{part_seen};
ghost use Rattle.job_tasks.specs.Playing.{parts_of};

use crate::asking::{has_value, stand_in};
use job_tasks::{AppFork, PlayWork, Playing, ToldLines};

/// Returns the command that prints a transcript in words.
fn told_word(lines: ToldLines) -> &'static str
    ensures { result.now ≡ told_word lines }
{
    match lines {
        ToldLines::All => "script",
        ToldLines::Each(_, _) => "heap",
    }
}

/// Returns the command that runs a script with files.
pub fn play_word(work: PlayWork<'_>) -> &'static str
    ensures { result.now ≡ play_word work.entry }
{
    match work {
        PlayWork::Transcript => "script",
        PlayWork::Words(lines) => told_word(lines),
        PlayWork::Leavings(_) => "script",
        PlayWork::Zone(_) => "heap",
    }
}

/// Reports whether bytes are `=` and a path.
fn is_value(bytes: &[u8], path: &[u8]) -> bool
    ensures { IsTrue result → bytes.now ≡ codes "=" ++ path.now }
{
    match bytes.strip_prefix(b"=".as_slice()) {
        Some(rest) => rest == path,
        None => false,
    }
}

/// Reports whether bytes are a name and a path with `=` between them.
fn is_named(bytes: &[u8], name: &[u8], path: &[u8]) -> bool
    ensures { IsTrue result → bytes.now ≡ name.now ++ codes "=" ++ path.now }
{
    match bytes.strip_prefix(name) {
        Some(rest) => is_value(rest, path),
        None => false,
    }
}

/// Reports whether another file of the application is given by the value of its option.
fn is_other(words: &[&str], word: &str, name: &[u8], path: &str) -> bool
    ensures { IsTrue result → HasValue (map (λ w. w.now) words.entry.now) (codes "--file") (name.now
        ++ codes "=" ++ path.now) }
{
    is_named(word.as_bytes(), name, path.as_bytes()) && has_value(words, "--file", "--file=", word)
}

/// Reports whether a file is given by the value of its option.
fn is_part(words: &[&str], part: &AppFork<'_>) -> bool
    ensures { IsTrue result → IsPart (map (λ w. w.now) words.entry.now) (part_seen part.now) }
{
    match part {
        AppFork::Own { path } => has_value(words, "--fork", "--fork=", *path),
        AppFork::System { path } => has_value(words, "--system", "--system=", *path),
        AppFork::Other { word, name, path } => is_other(words, *word, &name.0, *path),
    }
}

/// Reports whether each file is given by the value of its option.
fn are_parts(words: &[&str], parts: &[AppFork<'_>]) -> bool
    ensures { IsTrue result
        → AreParts (map (λ w. w.now) words.entry.now) (map part_seen parts.now) }
{
    for part in parts {
        if !is_part(words, part) {
            return false;
        }
    }
    true
}

/// Reports whether the folder that is made, if one is, is the value of its option.
fn is_play_folder(words: &[&str], work: PlayWork<'_>) -> bool
    ensures { IsTrue result → IsPlayFolder (map (λ w. w.now) words.entry.now) work.entry }
{
    match work {
        PlayWork::Leavings(folder) => has_value(words, "--write", "--write=", folder),
        PlayWork::Transcript | PlayWork::Words(_) | PlayWork::Zone(_) => true,
    }
}

/// Reports whether words name the paths of what is run with files.
pub fn name_played(words: &[&str], playing: &Playing<'_>) -> bool
    ensures { IsTrue result → AreParts (map (λ w. w.now) words.entry.now) (parts_of playing.now)
        × IsPlayFolder (map (λ w. w.now) words.entry.now) playing.now.work
        × StandIn (map (λ w. w.now) words.entry.now) (playing.now.script.now ∷ []) }
{
    are_parts(words, &playing.parts)
        && is_play_folder(words, playing.work)
        && stand_in(words, &[playing.script])
}
