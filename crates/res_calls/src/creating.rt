//! The files of an application: the call that creates a file, and access to the files.
//!
//! *More Macintosh Toolbox*, chapter 1, "Creating and Opening Resource Files".

ghost use Rattle.std.specs.Prelude.{◌≡◌, ◌<◌, ◌++◌, ◌∷◌, ◌==◌, [], IfOk, OnOk, OnErr, IsErr, List};
ghost use Rattle.std.specs.Prelude.{ℕ, Err, Some, None, map, length};
ghost use Rattle.heap_calls.specs.State.{Memory};
ghost use Rattle.res_map.specs.Split.{Split};
ghost use Rattle.res_calls.specs.Changing as changing;
ghost use Rattle.res_calls.specs.Changing.{new_fork};
ghost use Rattle.res_calls.specs.Files.{File as FileValue, Resources as ResourcesValue};
ghost use Rattle.res_calls.specs.Given.{IsAnswered, managers};
ghost use Rattle.res_calls.specs.Places.{at_index};
ghost use Rattle.res_calls.specs.Rows.{noting};
ghost use Rattle.res_calls.specs.Updating.{filed_in};
ghost use Rattle.res_calls.specs.View.{view_file, view_open};

use crate::chain::place_called;
use crate::files::{File, OpenFile, Resources};
use crate::updating::put_fork;
use fork_format::{Content, WriteFault, write_fork};
use heap_calls::Refusal;
use mac_words::{FileName, OsErr};
use std::alloc::{AllocError, Global};

/// The greatest number of files that an application may have.
const MOST_FILES: usize = 256;

/// Returns the bytes of a resource fork that has no resources.
fn empty_fork(alloc: Global) -> Result<Vec<u8>, AllocError>
    ensures { IfOk result (λ v. v.items ≡ new_fork) }
{
    let content = Content {
        area: [0; 240],
        attrs: 0,
        groups: Vec::new(alloc),
    };
    match write_fork(alloc, &content) {
        Ok(fork) => Ok(fork),
        Err(WriteFault::HostMemory) => Err(AllocError),
        Err(WriteFault::TooLarge) => unreachable!(),
    }
}

/// Returns a copy of a name.
fn own_name(name: &FileName) -> Result<FileName, AllocError>
    ensures { IfOk result (λ n. n.0.items ≡ name.now.0.items) }
{
    name.clone()
}

/// Puts a file after the other files. Where the host is out of memory, the files stay as they were.
fn push_file(files: &mut Vec<File>, file: File) -> Result<(), AllocError>
    ensures done { OnOk result (map view_file files.new.items
        ≡ map view_file files.old.items ++ view_file file ∷ []) }
    ensures kept { OnErr result (files.new.items ≡ files.old.items) }
{
    match files.push(file) {
        Ok(()) => Ok(()),
        Err(_) => Err(AllocError),
    }
}

/// Makes a file whose name no other file has. Returns -34 (dskFulErr) where the application already
/// has 256 files. Where the call fails, the files stay as they were.
fn add_file(alloc: Global, files: &mut Vec<File>, name: &FileName) -> Result<(), Refusal>
    ensures answer { (r : ResourcesValue) (m : Memory) → IsAnswered (λ (u : Unit {0}). u)
        (changing.create_named name.now.0.items None (managers (filed_in files.old.items r) m))
        result (managers (filed_in files.new.items r) m) }
    ensures kept { IsErr result → files.new.items ≡ files.old.items }
{
    if files.len() >= MOST_FILES {
        return Err(Refusal::Code(OsErr::DISK_FULL));
    }
    let file = File {
        name: own_name(name)?,
        fork: empty_fork(alloc)?,
        written: true,
    };
    push_file(files, file)?;
    Ok(())
}

/// Reports whether the fork of a file has no bytes.
fn is_bare(file: &File) -> bool
    ensures { result ≡ (length (view_file file.now).fork == 0) }
{
    file.fork.is_empty()
}

/// Gives the file at the place `at`, whose fork has no bytes, a fork that has no resources. Returns
/// -48 (dupFNErr) where the fork has one byte or more. Where the call fails, the files stay as they
/// were.
fn renew_file(alloc: Global, files: &mut Vec<File>, at: usize) -> Result<(), Refusal>
    requires { at < length files.old.items }
    ensures answer { (name : List ℕ) (f : Split FileValue) (r : ResourcesValue) (m : Memory)
        → at_index at (map view_file files.old.items) ≡ Some f → IsAnswered (λ (u : Unit {0}). u)
        (changing.create_named name (Some f) (managers (filed_in files.old.items r) m)) result
        (managers (filed_in files.new.items r) m) }
    ensures kept { IsErr result → files.new.items ≡ files.old.items }
{
    if !is_bare(&files[at]) {
        return Err(Refusal::Code(OsErr::DUPLICATE_FILE));
    }
    let fork = empty_fork(alloc)?;
    put_fork(files, Some(at), fork);
    Ok(())
}

/// Creates the file whose name is `name`, with the codes of `CreateResFile`. Where the call fails,
/// the files stay as they were.
fn create_in(alloc: Global, files: &mut Vec<File>, name: &FileName) -> Result<(), Refusal>
    ensures answer { (r : ResourcesValue) (m : Memory) → IsAnswered (λ (u : Unit {0}). u)
        (changing.create_res_file name.now.0.items (managers (filed_in files.old.items r) m)) result
        (managers (filed_in files.new.items r) m) }
    ensures kept { IsErr result → files.new.items ≡ files.old.items }
{
    match place_called(files, name) {
        None => add_file(alloc, files, name),
        Some(at) => renew_file(alloc, files, at),
    }
}

impl Resources {
    /// Returns the files of the application, in order.
    pub fn files(&self) -> &[File]
        ensures { map view_file result.now ≡ self.now.files }
    {
        &self.files
    }

    /// Returns the open files, the file opened last first and the System file last.
    pub fn open_files(&self) -> &[OpenFile]
        ensures { map view_open result.now ≡ self.now.chain }
    {
        &self.chain
    }

    /// Releases the resources, and returns the files as they are, in order.
    pub fn into_files(self) -> Vec<File>
        ensures { map view_file result.items ≡ self.files }
    {
        self.files
    }

    /// `CreateResFile`: makes a file whose fork has no resources; a file of that name whose fork
    /// has no bytes is given such a fork. Returns -48 (dupFNErr) where a file of that name has a
    /// fork of one byte or more, and -34 (dskFulErr) where the name is new and the application has
    /// 256 files. Where the host is out of memory, the resources stay as they were.
    ///
    /// *More Macintosh Toolbox*, chapter 1, "Creating and Opening Resource Files".
    pub fn create_res_file(&mut self, alloc: Global, name: &FileName) -> Result<(), Refusal>
        ensures answer { (m : Memory) → IsAnswered (λ (u : Unit {0}). u)
            (noting (changing.create_res_file name.now.0.items) (managers self.old m)) result
            (managers self.new m) }
        ensures kept { result ≡ Err Refusal.HostMemory → self.new ≡ self.old }
    {
        let answer = self.create(alloc, name);
        self.note(answer)
    }

    /// Does the work of `CreateResFile` without setting the code that `ResError` returns.
    fn create(&mut self, alloc: Global, name: &FileName) -> Result<(), Refusal>
        ensures answer { (m : Memory) → IsAnswered (λ (u : Unit {0}). u) (changing.create_res_file
            name.now.0.items (managers self.old m)) result (managers self.new m) }
        ensures kept { result ≡ Err Refusal.HostMemory → self.new ≡ self.old }
    {
        create_in(alloc, &mut self.files, name)
    }
}
