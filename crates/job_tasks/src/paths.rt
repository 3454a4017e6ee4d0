//! The paths of the files that a run leaves. They are built one after the other in one text, whose
//! memory is taken before the run.

ghost use Rattle.std.specs.Prelude.{◌≡◌, ◌≤◌, ◌+◌, ◌*◌, ◌++◌, length, IfOk, string_bytes};
ghost use Rattle.std.specs.Prelude.{string_len, string_capacity};
ghost use Rattle.std.specs.Str.{encode_utf8_all};
ghost use Rattle.job_tasks.specs.Outputs.{app_within, log_within, fork_within, desk_within};
ghost use Rattle.job_tasks.specs.Outputs.{HasRoom};
ghost use Rattle.job_tasks.specs.declared.paths.TheConstants.{LONGEST_ENDING};

use itoa::Buffer;
use mac_words::Label;
use std::alloc::{AllocError, Global};

/// The most bytes of a path after the name of an application: `-`, the 20 digits of a number, and
/// `.rsrc`.
pub const LONGEST_ENDING: usize = 1 + 20 + 5;

/// The most bytes of a path after the folder's: `/app-`, the 63 letters of a name, which have at
/// most two bytes each, and the ending.
pub const LONGEST_NAME: usize = 5 + 2 * 63 + LONGEST_ENDING;

/// Takes room for the path of each file that a run can leave in a folder, and returns the text in
/// which the paths are built.
///
/// # Errors
///
/// The host is out of memory.
pub fn room_for_paths(alloc: Global, folder: &str) -> Result<String, AllocError>
    ensures { IfOk result (λ path. HasRoom folder.now (string_capacity path)) }
{
    String::with_capacity(alloc, folder.len() + LONGEST_NAME)
}

/// Appends a text to a path that has room for it.
fn append(path: &mut String, text: &str)
    requires { string_len path.old + length text.now ≤ string_capacity path.old }
    ensures text { string_bytes path.new ≡ string_bytes path.old ++ text.now }
    ensures len { string_len path.new ≡ string_len path.old + length text.now }
    ensures capacity { string_capacity path.old ≤ string_capacity path.new }
{
    path.push_str(text).unwrap();
}

/// Appends a name, which has only letters, digits and `_`, to a path that has room for it.
fn append_letters(path: &mut String, letters: &[u8])
    requires { string_len path.old + 2 * length letters.now ≤ string_capacity path.old }
    ensures text { string_bytes path.new ≡ string_bytes path.old ++ encode_utf8_all letters.now }
    ensures len { string_len path.new ≤ string_len path.old + 2 * length letters.now }
    ensures capacity { string_capacity path.old ≤ string_capacity path.new }
{
    for letter in letters {
        path.push(char::from(*letter)).unwrap();
    }
}

/// Makes the path that of the folder.
pub fn set_folder_path(path: &mut String, folder: &str)
    requires { HasRoom folder.now (string_capacity path.old) }
    ensures path { string_bytes path.new ≡ folder.now }
    ensures len { string_len path.new ≡ length folder.now }
    ensures room { HasRoom folder.now (string_capacity path.new) }
{
    path.clear();
    append(path, folder);
}

/// Makes the path that of the desk's log.
pub fn set_desk_path(path: &mut String, folder: &str)
    requires { HasRoom folder.now (string_capacity path.old) }
    ensures path { string_bytes path.new ≡ desk_within folder.now }
    ensures room { HasRoom folder.now (string_capacity path.new) }
{
    set_folder_path(path, folder);
    append(path, "/desk.log");
}

/// Makes the path the beginning of the paths of an application's files.
fn set_app_path(path: &mut String, folder: &str, name: &Label)
    requires { HasRoom folder.now (string_capacity path.old) }
    ensures path { string_bytes path.new ≡ app_within folder.now name.now.0.items }
    ensures ending { string_len path.new + LONGEST_ENDING ≤ string_capacity path.new }
    ensures room { HasRoom folder.now (string_capacity path.new) }
{
    set_folder_path(path, folder);
    append(path, "/app-");
    append_letters(path, name.0.as_slice());
}

/// Makes the path that of an application's log.
pub fn set_log_path(path: &mut String, folder: &str, name: &Label)
    requires { HasRoom folder.now (string_capacity path.old) }
    ensures path { string_bytes path.new ≡ log_within folder.now name.now.0.items }
    ensures room { HasRoom folder.now (string_capacity path.new) }
{
    set_app_path(path, folder, name);
    append(path, ".log");
}

/// Makes the path that of the fork of an application's `k`-th file, from 0.
pub fn set_fork_path(path: &mut String, folder: &str, name: &Label, k: usize)
    requires { HasRoom folder.now (string_capacity path.old) }
    ensures path { string_bytes path.new ≡ fork_within folder.now name.now.0.items k }
    ensures room { HasRoom folder.now (string_capacity path.new) }
{
    let mut buffer = Buffer::new();
    set_app_path(path, folder, name);
    append(path, "-");
    append(path, buffer.format(k));
    append(path, ".rsrc");
}
