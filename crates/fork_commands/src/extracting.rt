//! The files to which a fork is written: one for each resource, and the list.

ghost use Rattle.std.specs.Prelude.{◌≡◌, Ok, IfOk, IfErr, map, string_bytes};
ghost use Rattle.fork_format.specs.View.{view};
ghost use Rattle.fork_edits.specs.View.{view_filed};
ghost use Rattle.fork_commands.specs.Faults.{Stops};
ghost use Rattle.fork_commands.specs.Opening.{bytes_of, IsOpen};
ghost use Rattle.fork_commands.specs.Extracting.{within, file_of, resource_files, list_file};
ghost use Rattle.fork_commands.specs.Extracting.{files_of, extracted};
ghost use Rattle.fork_commands.specs.View.{view_file};
ghost use Rattle.fork_commands.specs.View as written;

use crate::fault::WorkFault;
use crate::opening::OpenFile;
use crate::reading::content_in;
use fork_edits::{FiledRow, append_contents, filed_rows};
use fork_format::Content;
use std::alloc::{AllocError, Global};

/// The bytes of a file that is written.
#[derive(Drop)]
pub enum FileBytes<'b> {
    /// They stand elsewhere, as the stored data of a resource does.
    Lent(&'b [u8]),
    /// They were made for the file.
    Own(Vec<u8>),
}

impl<'b> FileBytes<'b> {
    /// Returns the bytes.
    pub fn as_slice(&self) -> &[u8]
        ensures { result.now ≡ written.bytes_of self.now }
    {
        match self {
            FileBytes::Lent(bytes) => bytes,
            FileBytes::Own(bytes) => bytes.as_slice(),
        }
    }
}

/// A file that is written into the folder of a fork.
#[derive(Drop)]
pub struct ResourceFile<'b> {
    /// The path: that of its folder as it was given, a slash, and its name.
    pub path: String,
    /// What the file holds: the stored data of a resource, or the list.
    pub bytes: FileBytes<'b>,
}

/// Returns the path of a file in a folder.
pub fn path_within(alloc: Global, folder: &str, name: &str) -> Result<String, AllocError>
    ensures { IfOk result (λ path. string_bytes path ≡ within folder.now name.now) }
{
    let mut path = String::from_str(alloc, folder)?;
    path.push_str("/")?;
    path.push_str(name)?;
    Ok(path)
}

/// Returns the file of a resource.
fn file_of<'b>(
    alloc: Global,
    folder: &str,
    filed: &FiledRow<'b>,
) -> Result<ResourceFile<'b>, AllocError>
    ensures { IfOk result (λ file. view_file file ≡ file_of folder.now (view_filed filed.now)) }
{
    let path = path_within(alloc, folder, filed.file.as_str())?;
    Ok(ResourceFile {
        path,
        bytes: FileBytes::Lent(filed.row.resource.datum),
    })
}

/// Returns the files of resources, in their order.
fn resource_files<'b>(
    alloc: Global,
    folder: &str,
    rows: &[FiledRow<'b>],
) -> Result<Vec<ResourceFile<'b>>, AllocError>
    ensures { IfOk result (λ files. map view_file files.items
        ≡ resource_files folder.now (map view_filed rows.now)) }
{
    let mut files = Vec::new(alloc);
    for filed in rows {
        files.push(file_of(alloc, folder, filed)?)?;
    }
    Ok(files)
}

/// Returns the file of the list.
fn list_file<'b>(
    alloc: Global,
    folder: &str,
    content: &Content<'b>,
    rows: &[FiledRow<'b>],
) -> Result<ResourceFile<'b>, AllocError>
    ensures { IfOk result (λ file. view_file file
        ≡ list_file folder.now (view content.now) (map view_filed rows.now)) }
{
    let path = path_within(alloc, folder, "contents")?;
    let mut text = Vec::new(alloc);
    append_contents(&mut text, content, rows)?;
    Ok(ResourceFile {
        path,
        bytes: FileBytes::Own(text),
    })
}

/// Returns the files of a content.
fn files_of<'b>(
    alloc: Global,
    folder: &str,
    content: &Content<'b>,
) -> Result<Vec<ResourceFile<'b>>, AllocError>
    ensures { IfOk result (λ files. map view_file files.items
        ≡ files_of folder.now (view content.now)) }
{
    let rows = filed_rows(alloc, content)?;
    let list = list_file(alloc, folder, content, rows.as_slice())?;
    let mut files = resource_files(alloc, folder, rows.as_slice())?;
    files.push(list)?;
    Ok(files)
}

/// Returns the files to which the fork in the bytes of a file is written, in a folder: a file for
/// each resource, in the order of the fork, with its stored data, named by its type and ID or,
/// where two resources have one type and ID, all by number (`fork_edits::filed_rows`); and, as the
/// last one, the file `contents` with the list (`fork_edits::append_contents`). A folder without it
/// wasn't written to its end.
///
/// # Errors
///
/// The fault of the file; if the host is out of memory nothing is said of them.
pub fn extracted<'f>(
    alloc: Global,
    folder: &str,
    file: &'f OpenFile<'_>,
) -> Result<Vec<ResourceFile<'f>>, WorkFault>
    requires { IsOpen file.now }
    ensures made { IfOk result (λ files. extracted folder.now (bytes_of file.now)
        ≡ Ok (map view_file files.items)) }
    ensures fault { IfErr result (λ fault. Stops fault (extracted folder.now (bytes_of file.now))) }
{
    let content = content_in(alloc, file)?;
    let files = files_of(alloc, folder, &content)?;
    Ok(files)
}
