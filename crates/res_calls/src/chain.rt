//! Searches among the files of an application, and among the open files.

ghost use Rattle.std.specs.Prelude.{◌≡◌, ◌<◌, ◌==◌, ◌+◌, map, length, drop, option_map, slice_get};
ghost use Rattle.std.specs.Prelude.{bytes_eq, Some, IfSome};
ghost use Rattle.res_map.specs.Split.{split, place};
ghost use Rattle.res_calls.specs.Files.{File as FileValue, OpenFile as OpenFileValue, is_at};
ghost use Rattle.res_calls.specs.View.{view_file, view_open};

use crate::files::{File, OpenFile};
use mac_words::FileName;

/// Returns the place, among the open files, of the file whose number is `number`.
#[tactic(auto, using(res_map::proofs::Steps::found_here, res_map::proofs::Steps::found_on))]
pub fn place_numbered(chain: &[OpenFile], number: u32) -> Option<usize>
    ensures found { result ≡ option_map place
        (split (λ (f : OpenFileValue). f.number == number) (map view_open chain.now)) }
    ensures within { IfSome result (λ i. i < length chain.now) }
{
    for i in 0..chain.len() {
        if chain[i].number == number {
            return Some(i);
        }
    }
    None
}

/// Reports whether an open file is the file that stands at `index` among the application's files.
pub fn is_open_at(file: &OpenFile, index: usize) -> bool
    ensures { result ≡ is_at index (view_open file.now).file }
{
    match file.file {
        None => false,
        Some(at) => at == index,
    }
}

/// Returns the place, among the open files, of the file that stands at `index` among the
/// application's files.
#[tactic(auto, using(res_map::proofs::Steps::found_here, res_map::proofs::Steps::found_on))]
pub fn place_of_file(chain: &[OpenFile], index: usize) -> Option<usize>
    ensures found { result ≡ option_map place
        (split (λ (f : OpenFileValue). is_at index f.file) (map view_open chain.now)) }
    ensures within { IfSome result (λ i. i < length chain.now) }
{
    for i in 0..chain.len() {
        if is_open_at(&chain[i], index) {
            return Some(i);
        }
    }
    None
}

/// Reports whether the name of a file is `name`.
fn is_called(file: &File, name: &FileName) -> bool
    ensures { result ≡ bytes_eq (view_file file.now).name name.now.0.items }
{
    file.name.0.as_slice() == name.0.as_slice()
}

/// Returns the place of the file whose name is `name`.
#[tactic(auto, using(res_map::proofs::Steps::found_here, res_map::proofs::Steps::found_on))]
pub fn place_called(files: &[File], name: &FileName) -> Option<usize>
    ensures found { result ≡ option_map place
        (split (λ (f : FileValue). bytes_eq f.name name.now.0.items) (map view_file files.now)) }
    ensures within { IfSome result (λ i. i < length files.now) }
{
    for i in 0..files.len() {
        if is_called(&files[i], name) {
            return Some(i);
        }
    }
    None
}
