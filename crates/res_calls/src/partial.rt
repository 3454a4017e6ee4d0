//! The calls that read and write a part of a resource's stored data.
//!
//! *More Macintosh Toolbox*, chapter 1, "Reading and Writing Partial Resources".

ghost use Rattle.std.specs.Prelude.{◌≡◌, ◌≢◌, ◌+◌, Err, None, Some, if◌then◌else◌, is_some, length};
ghost use Rattle.std.specs.Prelude.{map, nat_lt, option_map, true};
ghost use Rattle.memory_windows.specs.Writes.{piece};
ghost use Rattle.res_calls.specs.Files.{Found, Resources as ResourcesValue};
ghost use Rattle.res_calls.specs.Given.{IsAnswered, IsAnsweredUnseen, managers};
ghost use Rattle.res_calls.specs.Partial as partial;
ghost use Rattle.res_calls.specs.Partial.{write_part_found, set_size_found};
ghost use Rattle.res_calls.specs.Places.{found_at, chained};
ghost use Rattle.res_calls.specs.Rows.{noting};
ghost use Rattle.res_calls.specs.View.{view_open};

use crate::files::{OpenFile, Resources};
use crate::find::{Spot, entry_at, has_bit_at, number_at, resize, write};
use block_store::BlockStore;
use heap_calls::{Heap, Refusal};
use mac_words::{Attrs, OsErr};

/// The greatest number of bytes that these calls give a resource.
const MOST_BYTES: usize = 16_777_215;

/// Reports whether the handle of a number has a block.
fn is_in_memory<S: BlockStore>(heap: &Heap<S>, number: usize) -> bool
    ensures { result ≡ partial.is_in_memory (Some number) heap.now.memory.heap }
{
    heap.bytes(number).is_some()
}

/// Returns the code with which `WritePartialResource` is refused for `count` bytes from the offset
/// `from` on.
fn write_refusal(files: &[OpenFile], at: Spot, from: usize, count: usize) -> Option<OsErr>
    requires { is_some (found_at at (map view_open files.now)) ≡ true }
    ensures { (f : Found) → found_at at (map view_open files.now) ≡ Some f
        → result ≡ partial.write_refusal from count f }
{
    if number_at(files, at) == 0 {
        Some(OsErr::WRITE_PERMISSION)
    } else if has_bit_at(files, at, Attrs::PROTECTED) {
        Some(OsErr::RES_ATTR)
    } else if from > entry_at(files, at).stored.datum.len() {
        Some(OsErr::OFFSET)
    } else if from > MOST_BYTES || count > MOST_BYTES - from {
        Some(OsErr::TOO_LONG)
    } else {
        None
    }
}

/// Returns the code with which `SetResourceSize` is refused.
fn size_refusal(files: &[OpenFile], at: Spot, size: usize) -> Option<OsErr>
    requires { is_some (found_at at (map view_open files.now)) ≡ true }
    ensures { (f : Found) → found_at at (map view_open files.now) ≡ Some f
        → result ≡ partial.size_refusal size f }
{
    if number_at(files, at) == 0 {
        Some(OsErr::WRITE_PERMISSION)
    } else if has_bit_at(files, at, Attrs::PROTECTED) {
        Some(OsErr::RES_ATTR)
    } else if size > MOST_BYTES {
        Some(OsErr::TOO_LONG)
    } else {
        None
    }
}

/// Returns -188 (resourceInMemory) where the handle of a number has a block.
fn unless_in_memory<S: BlockStore>(heap: &Heap<S>, number: usize) -> Result<(), Refusal>
    ensures answer { (r : ResourcesValue) → IsAnswered (λ (u : Unit {0}). u)
        (partial.unless_in_memory (Some number) (managers r heap.now.memory)) result
        (managers r heap.now.memory) }
    ensures host { result ≢ Err Refusal.HostMemory }
{
    if is_in_memory(heap, number) {
        Err(Refusal::Code(OsErr::IN_MEMORY))
    } else {
        Ok(())
    }
}

/// Writes bytes over the stored data of the reference at `at` from the offset `from` on, and marks
/// its file as touched. Where the host is out of memory, the files stay as they were.
fn write_at<S: BlockStore>(
    files: &mut Vec<OpenFile>,
    heap: &Heap<S>,
    at: Spot,
    number: usize,
    from: usize,
    bytes: &[u8],
) -> Result<(), Refusal>
    requires { is_some (found_at at (map view_open files.old.items)) ≡ true }
    ensures answer { (r : ResourcesValue) (f : Found)
        → found_at at (map view_open files.old.items) ≡ Some f
        → IsAnswered (λ (u : Unit {0}). u) (write_part_found (Some number) from bytes.now
        (managers (chained files.old.items r) heap.now.memory) f)
        result (managers (chained files.new.items r) heap.now.memory) }
    ensures kept { result ≡ Err Refusal.HostMemory
        → map view_open files.new.items ≡ map view_open files.old.items }
{
    if let Some(code) = write_refusal(files, at, from, bytes.len()) {
        return Err(Refusal::Code(code));
    }
    write(files, at, from, bytes)?;
    unless_in_memory(heap, number)
}

/// Gives the stored data of the reference at `at` another size, and marks its file as touched.
/// Where the host is out of memory, the files stay as they were.
fn resize_at<S: BlockStore>(
    files: &mut Vec<OpenFile>,
    heap: &Heap<S>,
    at: Spot,
    number: usize,
    size: usize,
) -> Result<(), Refusal>
    requires { is_some (found_at at (map view_open files.old.items)) ≡ true }
    ensures answer { (r : ResourcesValue) (f : Found)
        → found_at at (map view_open files.old.items) ≡ Some f
        → IsAnswered (λ (u : Unit {0}). u)
        (set_size_found (Some number) size (managers (chained files.old.items r) heap.now.memory) f)
        result (managers (chained files.new.items r) heap.now.memory) }
    ensures kept { result ≡ Err Refusal.HostMemory
        → map view_open files.new.items ≡ map view_open files.old.items }
{
    if let Some(code) = size_refusal(files, at, size) {
        return Err(Refusal::Code(code));
    }
    resize(files, at, size)?;
    unless_in_memory(heap, number)
}

/// Returns `count` bytes of stored data from an offset on, or `None` where the data does not have
/// them all.
fn part_of(datum: &[u8], offset: u32, count: u32) -> Option<&[u8]>
    ensures { option_map (λ b. b.now) result
        ≡ (if nat_lt (length datum.now) (offset + count) then None
        else Some (piece offset count datum.now)) }
{
    let from = offset as usize;
    datum.get(from..from + count as usize)
}

impl Resources {
    /// `ReadPartialResource`, without its bytes, which `partial` returns: answers, and sets the
    /// code that `ResError` returns. Returns -192 (resNotFound) where the handle is not a
    /// resource's, -190 (inputOutOfBounds) where the stored data does not have `count` bytes from
    /// the offset on, and -188 (resourceInMemory) where the handle has a block.
    pub fn read_partial_resource<S: BlockStore>(
        &mut self,
        heap: &Heap<S>,
        handle: Option<usize>,
        offset: u32,
        count: u32,
    ) -> Result<(), Refusal>
        ensures answer { IsAnsweredUnseen (noting (partial.read_partial_resource handle offset
            count) (managers self.old heap.now.memory)) result (managers self.new heap.now.memory) }
        ensures host { result ≢ Err Refusal.HostMemory }
    {
        let answer = match self.partial(heap, handle, offset, count) {
            Ok(_) => Ok(()),
            Err(refusal) => Err(refusal),
        };
        self.note(answer)
    }

    /// Returns the bytes that `ReadPartialResource` reads, or the code with which it is refused;
    /// does not set the code that `ResError` returns.
    pub fn partial<S: BlockStore>(
        &self,
        heap: &Heap<S>,
        handle: Option<usize>,
        offset: u32,
        count: u32,
    ) -> Result<&[u8], Refusal>
        ensures answer { IsAnswered (λ b. b.now) (partial.read_partial_resource handle offset count
            (managers self.now heap.now.memory)) result (managers self.now heap.now.memory) }
        ensures host { result ≢ Err Refusal.HostMemory }
    {
        let Some(number) = handle else {
            return Err(Refusal::Code(OsErr::RES_NOT_FOUND));
        };
        let Some(entry) = self.entry(handle) else {
            return Err(Refusal::Code(OsErr::RES_NOT_FOUND));
        };
        let Some(part) = part_of(entry.stored.datum, offset, count) else {
            return Err(Refusal::Code(OsErr::OFFSET));
        };
        if is_in_memory(heap, number) {
            return Err(Refusal::Code(OsErr::IN_MEMORY));
        }
        Ok(part)
    }

    /// `WritePartialResource`: writes bytes over the stored data of a resource from an offset on;
    /// the stored data grows where needed. Returns -192 (resNotFound) where the handle is not a
    /// resource's, -61 (wrPermErr) where the resource is the System file's, -198 (resAttrErr) where
    /// it is protected, -190 (inputOutOfBounds) where the offset is past the end of the stored
    /// data, and -189 (writingPastEnd) where the bytes would end past 16777215 bytes. Returns -188
    /// (resourceInMemory) where the handle has a block; the stored data is changed all the same,
    /// and the block is not. Where the host is out of memory, the resources stay as they were.
    pub fn write_partial_resource<S: BlockStore>(
        &mut self,
        heap: &Heap<S>,
        handle: Option<usize>,
        offset: u32,
        bytes: &[u8],
    ) -> Result<(), Refusal>
        ensures answer { IsAnswered (λ (u : Unit {0}). u)
            (noting (partial.write_partial_resource handle offset bytes.now)
            (managers self.old heap.now.memory)) result (managers self.new heap.now.memory) }
        ensures kept { result ≡ Err Refusal.HostMemory → self.new ≡ self.old }
    {
        let answer = self.write_part(heap, handle, offset, bytes);
        self.note(answer)
    }

    /// Does the work of `WritePartialResource` without setting the code that `ResError` returns.
    fn write_part<S: BlockStore>(
        &mut self,
        heap: &Heap<S>,
        handle: Option<usize>,
        offset: u32,
        bytes: &[u8],
    ) -> Result<(), Refusal>
        ensures answer { IsAnswered (λ (u : Unit {0}). u)
            (partial.write_partial_resource handle offset bytes.now
            (managers self.old heap.now.memory)) result (managers self.new heap.now.memory) }
        ensures kept { result ≡ Err Refusal.HostMemory → self.new ≡ self.old }
    {
        let Some(number) = handle else {
            return Err(Refusal::Code(OsErr::RES_NOT_FOUND));
        };
        let Some(at) = self.find_handle(handle) else {
            return Err(Refusal::Code(OsErr::RES_NOT_FOUND));
        };
        write_at(&mut self.chain, heap, at, number, offset as usize, bytes)
    }

    /// `SetResourceSize`: gives the stored data of a resource another size, in bytes; bytes that
    /// are cut off are lost, and new bytes are 0. Returns -192 (resNotFound) where the handle is
    /// not a resource's, -61 (wrPermErr) where the resource is the System file's, -198 (resAttrErr)
    /// where it is protected, and -189 (writingPastEnd) for more than 16777215 bytes. Returns -188
    /// (resourceInMemory) where the handle has a block; the stored data is changed all the same,
    /// and the block is not. Where the host is out of memory, the resources stay as they were.
    pub fn set_resource_size<S: BlockStore>(
        &mut self,
        heap: &Heap<S>,
        handle: Option<usize>,
        size: u32,
    ) -> Result<(), Refusal>
        ensures answer { IsAnswered (λ (u : Unit {0}). u)
            (noting (partial.set_resource_size handle size) (managers self.old heap.now.memory))
            result (managers self.new heap.now.memory) }
        ensures kept { result ≡ Err Refusal.HostMemory → self.new ≡ self.old }
    {
        let answer = self.set_size(heap, handle, size);
        self.note(answer)
    }

    /// Does the work of `SetResourceSize` without setting the code that `ResError` returns.
    fn set_size<S: BlockStore>(
        &mut self,
        heap: &Heap<S>,
        handle: Option<usize>,
        size: u32,
    ) -> Result<(), Refusal>
        ensures answer { IsAnswered (λ (u : Unit {0}). u) (partial.set_resource_size handle size
            (managers self.old heap.now.memory)) result (managers self.new heap.now.memory) }
        ensures kept { result ≡ Err Refusal.HostMemory → self.new ≡ self.old }
    {
        let Some(number) = handle else {
            return Err(Refusal::Code(OsErr::RES_NOT_FOUND));
        };
        let Some(at) = self.find_handle(handle) else {
            return Err(Refusal::Code(OsErr::RES_NOT_FOUND));
        };
        resize_at(&mut self.chain, heap, at, number, size as usize)
    }
}
