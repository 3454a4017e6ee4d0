//! The call that closes an open file.

ghost use Rattle.std.specs.Prelude.{◌≡◌, ◌==◌, if◌then◌else◌, ◌≢◌, ◌<◌, ◌+◌, map, length, drop};
ghost use Rattle.std.specs.Prelude.{slice_get, remove, option_to_list, Some, Err, OnOk, true};
ghost use Rattle.fork_format.specs.Canonical.{clear};
ghost use Rattle.fork_format.specs.Fork.{Spells};
ghost use Rattle.res_map.specs.Split.{Split};
ghost use Rattle.res_map.specs.Map.{content};
ghost use Rattle.res_calls.specs.Files.{OpenFile as OpenFileValue, file_of};
ghost use Rattle.res_calls.specs.Given.{IsAnswered, managers};
ghost use Rattle.res_calls.specs.Rows as rows;
ghost use Rattle.res_calls.specs.Rows.{noting, all_released, handles_of, first_number};
ghost use Rattle.res_calls.specs.Update.{fork_of, updated_map};
ghost use Rattle.res_calls.specs.View.{view_open};

use crate::chain::place_numbered;
use crate::files::{OpenFile, Resources};
use crate::updating::update_at;
use block_store::BlockStore;
use heap_calls::{Heap, Refusal};
use mac_words::OsErr;
use res_map::ResFile;
use std::alloc::Global;

/// A file that was taken from the open files.
#[derive(Drop)]
pub(crate) struct Removed {
    pub(crate) file: OpenFile,
    /// The number of the file that was opened before the closed file; 0 where no file was.
    pub(crate) older: u32,
}

/// Disposes of the handle of a reference, where the reference has a handle.
fn release_held<S: BlockStore>(heap: &mut Heap<S>, handle: Option<usize>)
    ensures { heap.new.memory ≡ all_released (option_to_list handle) heap.old.memory }
{
    if let Some(number) = handle {
        heap.release(number);
    }
}

/// Disposes of the handles of all references of a resource map, in order.
#[tactic(auto, using(crate::proofs::LettingGo::released_next, crate::proofs::LettingGo::released_none, crate::proofs::LettingGo::released_lies))]
pub(crate) fn release_all<S: BlockStore>(heap: &mut Heap<S>, map: &ResFile)
    ensures released { heap.new.memory
        ≡ all_released (handles_of map.now.references) heap.old.memory }
    ensures lies { heap.new.memory.window ≡ heap.old.memory.window }
{
    for i in 0..map.len() {
        let handle = map.reference(i).handle;
        release_held(heap, handle);
    }
}

/// Returns the number of the open file at the place `at`, or 0 where no file stands there.
#[tactic(auto, using(crate::proofs::LettingGo::number_seen))]
fn number_at(chain: &[OpenFile], at: usize) -> u32
    ensures { result ≡ first_number (map view_open (drop at chain.now)) }
{
    if at < chain.len() {
        chain[at].number
    } else {
        0
    }
}

/// Takes the open file at the place `at` out of the open files.
pub(crate) fn take_out(chain: &mut Vec<OpenFile>, at: usize) -> Removed
    requires { at < length chain.old.items }
    ensures file { slice_get (map view_open chain.old.items) at ≡ Some (view_open result.file) }
    ensures older { result.older ≡ first_number (map view_open (drop (at + 1) chain.old.items)) }
    ensures chain { chain.new.items ≡ remove chain.old.items at }
{
    let older = number_at(chain, at + 1);
    let file = chain.remove(at);
    Removed { file, older }
}

/// Returns the number of the current file after the file `closed` is closed: `older`, the number of
/// the file opened before `closed`, where `closed` was current, and `current` otherwise.
pub(crate) fn current_after(current: u32, closed: u32, older: u32) -> u32
    ensures { result ≡ (if current == closed then older else current) }
{
    if current == closed { older } else { current }
}

impl Resources {
    /// `CloseResFile`: updates an open file, closes the file, and disposes of the handles of all
    /// its resources, the locked ones too. Where the file was the current file, the file opened
    /// before it becomes current. Returns -193 (resFNotFound) where no file of that number is open,
    /// -30001 (profileErr) for the System file, and -34 (dskFulErr) where the content of the file
    /// does not fit the format of a resource fork; the file then stays open.
    ///
    /// *More Macintosh Toolbox*, chapter 1, "Closing Resource Forks".
    pub fn close_res_file<S: BlockStore>(
        &mut self,
        alloc: Global,
        heap: &mut Heap<S>,
        number: u32,
    ) -> Result<(), Refusal>
        ensures answer { IsAnswered (λ (u : Unit {0}). u) (noting (rows.close_res_file number)
            (managers self.old heap.old.memory)) result (managers self.new heap.new.memory) }
        ensures kept { result ≡ Err Refusal.HostMemory → self.new ≡ self.old }
        ensures heap { result ≡ Err Refusal.HostMemory → heap.new ≡ heap.old }
        ensures read_again { OnOk result ((at : Split OpenFileValue) → number ≢ 0
            → file_of number self.old ≡ Some at
            → at.here.touched ≡ true
            → Spells (fork_of heap.old.memory.heap at.here)
            (clear (content (updated_map heap.old.memory.heap at.here.map)))) }
        ensures lies { heap.new.memory.window ≡ heap.old.memory.window }
    {
        let answer = self.close(alloc, heap, number);
        self.note(answer)
    }

    /// Does the work of `CloseResFile` without setting the code that `ResError` returns.
    fn close<S: BlockStore>(
        &mut self,
        alloc: Global,
        heap: &mut Heap<S>,
        number: u32,
    ) -> Result<(), Refusal>
        ensures answer { IsAnswered (λ (u : Unit {0}). u) (rows.close_res_file number
            (managers self.old heap.old.memory)) result (managers self.new heap.new.memory) }
        ensures kept { result ≡ Err Refusal.HostMemory → self.new ≡ self.old }
        ensures heap { result ≡ Err Refusal.HostMemory → heap.new ≡ heap.old }
        ensures read_again { OnOk result ((at : Split OpenFileValue) → number ≢ 0
            → file_of number self.old ≡ Some at
            → at.here.touched ≡ true
            → Spells (fork_of heap.old.memory.heap at.here)
            (clear (content (updated_map heap.old.memory.heap at.here.map)))) }
        ensures lies { heap.new.memory.window ≡ heap.old.memory.window }
    {
        let Some(at) = place_numbered(&self.chain, number) else {
            return Err(Refusal::Code(OsErr::RES_FILE_NOT_FOUND));
        };
        if number == 0 {
            return Err(Refusal::Code(OsErr::PROFILE));
        }
        match update_at(alloc, heap, &mut self.files, &mut self.chain, at) {
            Ok(()) => {}
            Err(refusal) => return Err(refusal),
        }
        let removed = take_out(&mut self.chain, at);
        release_all(heap, &removed.file.map);
        self.current = current_after(self.current, number, removed.older);
        Ok(())
    }
}
