//! The call that opens a file, and the preloading of an application's resources.

ghost use Rattle.std.specs.Prelude.{◌≡◌, ◌<◌, ◌≤◌, ◌⊎◌, ◌∷◌, IsTrue, IsErr, IfOk, OnOk, OnErr};
ghost use Rattle.std.specs.Prelude.{IfSome, map, length, ◌≢◌, slice_get, Some, Ok, Err, ℕ, true};
ghost use Rattle.std.specs.Prelude.{false, IsOk};
ghost use Rattle.heap_calls.specs.Gone.{Tells, TellsNothing, IsIdle, Hears, Rests};
ghost use Rattle.res_calls.specs.Asked.{OpenResFile};
ghost use Rattle.res_calls.specs.Files.{opened};
ghost use Rattle.res_calls.specs.Given.{IsAnswered, IsLoadedFirst, managers};
ghost use Rattle.res_calls.specs.Gone.{gone_for, fork_gone, load_gone};
ghost use Rattle.res_calls.specs.Preloading.{StopsFirst, StopsPreloading};
ghost use Rattle.res_calls.specs.Rows as rows;
ghost use Rattle.res_calls.specs.Rows.{noting, loaded_if, with_loaded, map_in, preloaded};
ghost use Rattle.res_calls.specs.Stopped.{StopsOpeningFile, LeavesOpened, fork_opens};
ghost use Rattle.res_calls.specs.View.{view_open};

use crate::chain::{place_called, place_of_file};
use crate::files::{OpenFile, Resources};
use crate::launching::open_map;
use crate::preloading::{preload, preload_told};
use block_store::BlockStore;
use heap_calls::{Heap, PurgeSink, Refusal};
use mac_words::{FileName, OsErr};
use res_map::ResFile;
use std::alloc::{AllocError, Global};

/// The greatest number that an open file may have.
const GREATEST_NUMBER: u32 = 2_147_483_647;

/// Preloads the resources of a file that have resPreload, where `loading` is on.
fn load_into<S: BlockStore>(
    alloc: Global,
    heap: &mut Heap<S>,
    file: &mut ResFile,
    loading: bool,
) -> Result<(), AllocError>
    ensures file { OnOk result (file.new ≡ record file.old {
      references = (loaded_if loading file.old.references heap.old.memory).references;
    }) }
    ensures heap { OnOk result (heap.new.memory
        ≡ (loaded_if loading file.old.references heap.old.memory).memory) }
    ensures kept { OnErr result (file.new ≡ file.old) }
    ensures host { IsErr result → IsTrue S.TAKES_HOST ⊎ (heap.new ≡ heap.old) }
    ensures lies { heap.new.memory.window ≡ heap.old.memory.window }
{
    if !loading {
        return Ok(());
    }
    preload(alloc, heap, file)
}

/// Preloads the resources of a file that have resPreload, where `loading` is on, and returns
/// whether all was preloaded. The blocks that are purged for it are reported to the sink, if it
/// listens. Where the host is out of memory as the handles are made, and the sink listens, the
/// resources that were preloaded so far have their handles, and the others have none; where the
/// host is out of memory otherwise, the file stays as it was.
fn load_told<S: BlockStore, K: PurgeSink>(
    alloc: Global,
    heap: &mut Heap<S>,
    file: &mut ResFile,
    loading: bool,
    sink: &mut K,
) -> Result<bool, AllocError>
    requires idle { IsIdle K.told K.waits sink.old }
    ensures file { result ≡ Ok true → file.new ≡ record file.old {
      references = (loaded_if loading file.old.references heap.old.memory).references;
    } }
    ensures heap { result ≡ Ok true
        → heap.new.memory ≡ (loaded_if loading file.old.references heap.old.memory).memory }
    ensures hears { Hears K.told K.waits K.listens (result ≡ Ok true)
        (load_gone loading file.old.references heap.old.memory) sink.old sink.new }
    ensures stopped { result ≡ Ok false
        → StopsPreloading K.told S.TAKES_HOST file.old file.new heap.old.memory heap.new.memory
        sink.old sink.new }
    ensures loads { result ≡ Ok false → loading ≡ true }
    ensures listened { result ≡ Ok false → K.listens sink.old ≡ true }
    ensures kept { OnErr result (file.new ≡ file.old) }
    ensures untold { OnErr result (TellsNothing K.told sink.old sink.new) }
    ensures host { IsErr result → IsTrue S.TAKES_HOST ⊎ (heap.new ≡ heap.old) }
    ensures lies { heap.new.memory.window ≡ heap.old.memory.window }
{
    if !sink.listens() {
        load_into(alloc, heap, file, loading)?;
        return Ok(true);
    }
    if !loading {
        return Ok(true);
    }
    preload_told(alloc, heap, file, sink)
}

/// Puts `file` before the other open files, preloads its resources where `loading` is on, and
/// returns whether all was preloaded. The blocks that are purged for it are reported to the sink,
/// if it listens. Where the host is out of memory as the handles are made, and the sink listens,
/// the file is put there with those that were made so far; where the host is out of memory
/// otherwise, the open files stay as they were.
fn put_first<S: BlockStore, K: PurgeSink>(
    alloc: Global,
    heap: &mut Heap<S>,
    chain: &mut Vec<OpenFile>,
    file: OpenFile,
    loading: bool,
    sink: &mut K,
) -> Result<bool, AllocError>
    requires idle { IsIdle K.told K.waits sink.old }
    ensures chain { result ≡ Ok true → map view_open chain.new.items
        ≡ with_loaded (loaded_if loading file.map.references heap.old.memory) (view_open file)
        ∷ map view_open chain.old.items }
    ensures heap { result ≡ Ok true
        → heap.new.memory ≡ (loaded_if loading file.map.references heap.old.memory).memory }
    ensures hears { Hears K.told K.waits K.listens (result ≡ Ok true)
        (load_gone loading file.map.references heap.old.memory) sink.old sink.new }
    ensures stopped { result ≡ Ok false
        → StopsFirst K.told S.TAKES_HOST loading (view_open file) (map view_open chain.old.items)
        (map view_open chain.new.items) heap.old.memory heap.new.memory sink.old sink.new }
    ensures listened { result ≡ Ok false → K.listens sink.old ≡ true }
    ensures kept { OnErr result (chain.new.items ≡ chain.old.items) }
    ensures untold { OnErr result (TellsNothing K.told sink.old sink.new) }
    ensures host { IsErr result → IsTrue S.TAKES_HOST ⊎ (heap.new ≡ heap.old) }
    ensures lies { heap.new.memory.window ≡ heap.old.memory.window }
{
    chain.reserve(1)?;
    let mut file = file;
    let whole = load_told(alloc, heap, &mut file.map, loading, sink)?;
    match chain.insert(0, file) {
        Ok(()) => Ok(whole),
        Err(_) => unreachable!(),
    }
}

/// Preloads the resources of the file opened last, where `loading` is on.
fn load_first<S: BlockStore>(
    alloc: Global,
    heap: &mut Heap<S>,
    chain: &mut Vec<OpenFile>,
    loading: bool,
) -> Result<(), AllocError>
    ensures done { OnOk result (IsLoadedFirst loading (map view_open chain.old.items)
        heap.old.memory (map view_open chain.new.items) heap.new.memory) }
    ensures kept { OnErr result (map view_open chain.new.items ≡ map view_open chain.old.items) }
    ensures host { IsErr result → IsTrue S.TAKES_HOST ⊎ (heap.new ≡ heap.old) }
    ensures lies { heap.new.memory.window ≡ heap.old.memory.window }
{
    if chain.is_empty() {
        return Ok(());
    }
    load_into(alloc, heap, &mut chain[0].map, loading)
}

impl Resources {
    /// Preloads the resources of the file opened last, where loading is on. At the launch that file
    /// is the application's own, and loading is on. Where the host is out of memory, the resources
    /// stay as they were.
    ///
    /// *More Macintosh Toolbox*, chapter 1, "Resource Attributes".
    pub fn preload<S: BlockStore>(
        &mut self,
        alloc: Global,
        heap: &mut Heap<S>,
    ) -> Result<(), AllocError>
        ensures done { OnOk result (managers self.new heap.new.memory
            ≡ (preloaded (managers self.old heap.old.memory)).0) }
        ensures kept { OnErr result (self.new ≡ self.old) }
        ensures host { IsErr result → IsTrue S.TAKES_HOST ⊎ (heap.new ≡ heap.old) }
        ensures lies { heap.new.memory.window ≡ heap.old.memory.window }
    {
        load_first(alloc, heap, &mut self.chain, self.loading)
    }

    /// `OpenResFile`: opens the resource fork of a file, makes the file the current file, preloads
    /// its resources where loading is on, and returns the number of the open file. Where the file
    /// is already open, the call returns the file's number and changes neither the file nor the
    /// current file. Returns -43 (fnfErr) where the application has no such file, -30001
    /// (profileErr) where the number 2,147,483,647 was already given to a file, -39 (eofErr) where
    /// the fork has no bytes, and -199 (mapReadErr) where the bytes are not a resource fork. The
    /// blocks that are purged for it are reported to the sink, if it listens. Where the host is out
    /// of memory as the handles of preloaded resources are made, and the sink listens, the file
    /// stays open and current: the resources that were preloaded so far have their handles, and the
    /// others have none. Where the host is out of memory otherwise, the resources stay as they
    /// were.
    ///
    /// *More Macintosh Toolbox*, chapter 1, "Opening Resource Forks".
    pub fn open_res_file<S: BlockStore, K: PurgeSink>(
        &mut self,
        alloc: Global,
        heap: &mut Heap<S>,
        name: &FileName,
        sink: &mut K,
    ) -> Result<u32, Refusal>
        requires idle { IsIdle K.told K.waits sink.old }
        ensures answer { IsAnswered (λ (n : ℕ). n) (noting (rows.open_res_file name.now.0.items)
            (managers self.old heap.old.memory)) result (managers self.new heap.new.memory) }
        ensures hears { Hears K.told K.waits K.listens (result ≢ Err Refusal.HostMemory) (gone_for
            (OpenResFile name.now.0.items) (managers self.old heap.old.memory)) sink.old sink.new }
        ensures stops { result ≡ Err Refusal.HostMemory → StopsOpeningFile S.TAKES_HOST K.told
            K.listens name.now.0.items self.old self.new heap.old heap.new sink.old sink.new }
        ensures lies { heap.new.memory.window ≡ heap.old.memory.window }
    {
        let answer = self.open_named(alloc, heap, name, sink);
        self.note(answer)
    }

    /// Does the work of `OpenResFile` without setting the code that `ResError` returns.
    fn open_named<S: BlockStore, K: PurgeSink>(
        &mut self,
        alloc: Global,
        heap: &mut Heap<S>,
        name: &FileName,
        sink: &mut K,
    ) -> Result<u32, Refusal>
        requires idle { IsIdle K.told K.waits sink.old }
        ensures answer { IsAnswered (λ (n : ℕ). n) (rows.open_res_file name.now.0.items
            (managers self.old heap.old.memory)) result (managers self.new heap.new.memory) }
        ensures hears { Hears K.told K.waits K.listens (result ≢ Err Refusal.HostMemory) (gone_for
            (OpenResFile name.now.0.items) (managers self.old heap.old.memory)) sink.old sink.new }
        ensures stops { result ≡ Err Refusal.HostMemory → StopsOpeningFile S.TAKES_HOST K.told
            K.listens name.now.0.items self.old self.new heap.old heap.new sink.old sink.new }
        ensures lies { heap.new.memory.window ≡ heap.old.memory.window }
    {
        let Some(at) = place_called(&self.files, name) else {
            return Err(Refusal::Code(OsErr::FILE_NOT_FOUND));
        };
        match place_of_file(&self.chain, at) {
            Some(open) => Ok(self.chain[open].number),
            None => self.open_at(alloc, heap, at, sink),
        }
    }

    /// Opens the file at the place `at`, which is not open, with the codes of `OpenResFile`.
    fn open_at<S: BlockStore, K: PurgeSink>(
        &mut self,
        alloc: Global,
        heap: &mut Heap<S>,
        at: usize,
        sink: &mut K,
    ) -> Result<u32, Refusal>
        requires place { at < length self.old.files }
        requires idle { IsIdle K.told K.waits sink.old }
        ensures answer { IfSome (slice_get self.old.files at) (λ f.
            IsAnswered (λ (n : ℕ). n) (rows.open_fork at f.fork (managers self.old heap.old.memory))
            result (managers self.new heap.new.memory)) }
        ensures told { IfSome (slice_get self.old.files at) (λ f. result ≢ Err Refusal.HostMemory
            → K.listens sink.old ≡ true
            → Tells K.told (fork_gone f.fork (managers self.old heap.old.memory))
            sink.old sink.new) }
        ensures stopped { IfSome (slice_get self.old.files at) (λ f. result ≡ Err Refusal.HostMemory
            → IsTrue S.TAKES_HOST ⊎ LeavesOpened K.told (fork_opens at f.fork
            (managers self.old heap.old.memory)) (managers self.old heap.old.memory)
            (managers self.new heap.new.memory) sink.old sink.new) }
        ensures rests { Rests K.told K.waits K.listens sink.old sink.new }
        ensures kept { result ≡ Err Refusal.HostMemory → (K.listens sink.old ≡ false)
            → self.new ≡ self.old }
        ensures files { result ≡ Err Refusal.HostMemory → self.new.files ≡ self.old.files }
        ensures host { result ≡ Err Refusal.HostMemory
            → IsTrue S.TAKES_HOST ⊎ ((heap.new ≡ heap.old) ⊎ (K.listens sink.old ≡ true)) }
        ensures lies { heap.new.memory.window ≡ heap.old.memory.window }
    {
        if self.next > GREATEST_NUMBER {
            return Err(Refusal::Code(OsErr::PROFILE));
        }
        let read = match open_map(alloc, &self.files[at].fork) {
            Ok(read) => read,
            Err(refusal) => return Err(refusal),
        };
        Ok(self.open_read(alloc, heap, at, read, sink)?)
    }

    /// Opens the file at the place `at`, whose fork has the resource map `read`, and makes the file
    /// current.
    fn open_read<S: BlockStore, K: PurgeSink>(
        &mut self,
        alloc: Global,
        heap: &mut Heap<S>,
        at: usize,
        read: ResFile,
        sink: &mut K,
    ) -> Result<u32, AllocError>
        requires next { self.old.next ≤ rows.greatest_number }
        requires place { at < length self.old.files }
        requires read { IfSome (slice_get self.old.files at) (λ f. map_in f.fork ≡ Ok read) }
        requires idle { IsIdle K.told K.waits sink.old }
        ensures answer { IfOk result (λ n. n ≡ self.old.next) }
        ensures after { OnOk result ((rows.open_as (opened self.old.next (Some at) read)
            (managers self.old heap.old.memory)).after ≡ managers self.new heap.new.memory) }
        ensures hears { Hears K.told K.waits K.listens (IsOk result)
            (load_gone self.old.loading read.references heap.old.memory) sink.old sink.new }
        ensures stopped { OnErr result (IsTrue S.TAKES_HOST ⊎ LeavesOpened K.told
            (Some (opened self.old.next (Some at) read)) (managers self.old heap.old.memory)
            (managers self.new heap.new.memory) sink.old sink.new) }
        ensures kept { OnErr result (K.listens sink.old ≡ false → self.new ≡ self.old) }
        ensures files { OnErr result (self.new.files ≡ self.old.files) }
        ensures host { IsErr result
            → IsTrue S.TAKES_HOST ⊎ ((heap.new ≡ heap.old) ⊎ (K.listens sink.old ≡ true)) }
        ensures lies { heap.new.memory.window ≡ heap.old.memory.window }
    {
        let number = self.next;
        let file = OpenFile {
            number,
            file: Some(at),
            map: read,
            touched: false,
        };
        let whole = put_first(alloc, heap, &mut self.chain, file, self.loading, sink)?;
        self.current = number;
        self.next = number + 1;
        if !whole {
            return Err(AllocError);
        }
        Ok(number)
    }
}
