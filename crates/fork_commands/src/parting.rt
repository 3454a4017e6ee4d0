//! The parts of a file: its data fork, its resource fork, and what is known of it.

ghost use Rattle.std.specs.Prelude.{◌≡◌, ◌++◌, ◌∷◌, [], Ok, Err, IfOk, IfErr, OnOk, map};
ghost use Rattle.std.specs.Prelude.{option_map, codes, string_bytes};
ghost use Rattle.fork_commands.specs.Faults.{Stops};
ghost use Rattle.fork_commands.specs.Opening.{bytes_of, IsOpen};
ghost use Rattle.fork_commands.specs.Parts.{data_in, part_file, data_file, part_files, parted};
ghost use Rattle.fork_commands.specs.View.{view_file};
ghost use Rattle.fork_commands.specs.View as view;

use crate::extracting::{FileBytes, ResourceFile, path_within};
use crate::fault::{FileFault, WorkFault};
use crate::info::info_text;
use crate::opening::OpenFile;
use crate::reading::fork_in;
use fork_wrappers::data_fork;
use std::alloc::{AllocError, Global};

/// Returns the data fork of a file, if it has one.
#[tactic(auto, using(crate::proofs::Told::data_bare, crate::proofs::Told::data_plain, crate::proofs::Told::data_damaged, crate::proofs::Told::data_decoded))]
fn data_in<'f>(file: &'f OpenFile<'_>) -> Result<Option<&'f [u8]>, FileFault>
    requires { IsOpen file.now }
    ensures found { IfOk result (λ found. data_in (bytes_of file.now)
        ≡ Ok (option_map (λ fork. fork.now) found)) }
    ensures fault { IfErr result (λ fault. data_in (bytes_of file.now) ≡ Err fault) }
{
    match file {
        OpenFile::Fork(_) => Ok(None),
        OpenFile::Plain(bytes) => match data_fork(bytes) {
            Ok(found) => Ok(found),
            Err(fault) => Err(FileFault::Wrapper { fault }),
        },
        OpenFile::BinHex { file, .. } => Ok(Some(&file.data_fork)),
    }
}

/// Returns a file of the folder.
#[tactic(auto, unfolding(crate::specs::Parts::part_file))]
fn part_of<'f>(
    alloc: Global,
    folder: &str,
    name: &str,
    bytes: FileBytes<'f>,
) -> Result<ResourceFile<'f>, AllocError>
    ensures { IfOk result (λ file. view_file file
        ≡ part_file folder.now name.now (view.bytes_of bytes.entry)) }
{
    let path = path_within(alloc, folder, name)?;
    Ok(ResourceFile { path, bytes })
}

/// Appends a file of the folder.
fn push_part<'f>(
    alloc: Global,
    files: &mut Vec<ResourceFile<'f>>,
    folder: &str,
    name: &str,
    bytes: FileBytes<'f>,
) -> Result<(), AllocError>
    ensures { OnOk result (map view_file files.new.items
        ≡ map view_file files.old.items
        ++ (part_file folder.now name.now (view.bytes_of bytes.entry) ∷ [])) }
{
    files.push(part_of(alloc, folder, name, bytes)?)?;
    Ok(())
}

/// Appends the file of a data fork, if there is one.
fn push_data<'f>(
    alloc: Global,
    files: &mut Vec<ResourceFile<'f>>,
    folder: &str,
    found: Option<&'f [u8]>,
) -> Result<(), AllocError>
    ensures { OnOk result (map view_file files.new.items
        ≡ map view_file files.old.items
        ++ data_file folder.now (option_map (λ fork. fork.now) found.entry)) }
{
    match found {
        Some(fork) => push_part(alloc, files, folder, "data", FileBytes::Lent(fork)),
        None => Ok(()),
    }
}

/// Returns the files of the parts.
fn files_of<'f>(
    alloc: Global,
    folder: &str,
    found: Option<&'f [u8]>,
    fork: &'f [u8],
    text: Vec<u8>,
) -> Result<Vec<ResourceFile<'f>>, AllocError>
    ensures { IfOk result (λ files. map view_file files.items
        ≡ part_files folder.now (option_map (λ fork. fork.now) found.entry) fork.now text.items) }
{
    let mut files = Vec::new(alloc);
    push_data(alloc, &mut files, folder, found)?;
    push_part(alloc, &mut files, folder, "rsrc", FileBytes::Lent(fork))?;
    push_part(alloc, &mut files, folder, "info", FileBytes::Own(text))?;
    Ok(files)
}

/// Returns the files to which the parts of a file are written, in a folder: `data` with the data
/// fork, if there is one, `rsrc` with the resource fork, which may have no bytes, and `info` with
/// what is known of the file (`info_text`).
///
/// # Errors
///
/// The wrapper is damaged; if the host is out of memory nothing is said of the file.
#[tactic(auto, using(crate::proofs::Told::parted_there, crate::proofs::Told::no_data, crate::proofs::Told::no_fork_beside))]
pub fn parts<'f>(
    alloc: Global,
    folder: &str,
    file: &'f OpenFile<'_>,
) -> Result<Vec<ResourceFile<'f>>, WorkFault>
    requires { IsOpen file.now }
    ensures made { IfOk result (λ files. parted folder.now (bytes_of file.now)
        ≡ Ok (map view_file files.items)) }
    ensures fault { IfErr result (λ fault. Stops fault (parted folder.now (bytes_of file.now))) }
{
    let found = match data_in(file) {
        Ok(found) => found,
        Err(fault) => return Err(WorkFault::File(fault)),
    };
    let fork = match fork_in(file) {
        Ok(found) => found.fork,
        Err(fault) => return Err(WorkFault::File(fault)),
    };
    let text = info_text(alloc, file)?;
    let files = files_of(alloc, folder, found, fork, text)?;
    Ok(files)
}
