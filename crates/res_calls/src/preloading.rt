//! Preloading: the resources that are read when their file is opened.
//!
//! *More Macintosh Toolbox*, chapter 1, "Resource Attributes".

ghost use Rattle.std.specs.Prelude.{◌≡◌, ◌⊎◌, ◌<◌, IsTrue, IsErr, IfOk, OnOk, OnErr, Ok, true};
ghost use Rattle.std.specs.Prelude.{false, map, drop, length};
ghost use Rattle.heap_calls.specs.Gone.{TellsNothing, IsIdle, Hears};
ghost use Rattle.heap_calls.specs.Inside.{new_all, all_gone};
ghost use Rattle.heap_calls.specs.Inner.Filling.{wanted_as};
ghost use Rattle.heap_calls.specs.Preloaded.{MadeSome};
ghost use Rattle.res_map.specs.Map.{is_preload};
ghost use Rattle.res_map.specs.View.{view_lent};
ghost use Rattle.res_calls.specs.Fetch as fetch;
ghost use Rattle.res_calls.specs.Gone.{preload_gone};
ghost use Rattle.res_calls.specs.Preloading.{filling_of, wanted_of, next_number, given_to};
ghost use Rattle.res_calls.specs.Preloading.{StopsPreloading};

use crate::fetching::flags_of;
use block_store::BlockStore;
use heap_calls::{Filling, Heap, NoSink, PurgeSink};
use mac_words::Attrs;
use res_map::{LentReference, ResFile};
use std::alloc::{AllocError, Global};

/// Reports whether a reference has resPreload.
fn is_read_first(entry: &LentReference<'_>) -> bool
    ensures { result ≡ is_preload (view_lent entry.now) }
{
    let Attrs(attrs) = entry.stored.attrs;
    attrs & Attrs::PRELOAD != 0
}

/// Returns the flags and the bytes of the block that a resource is read into.
fn fill_of<'a>(entry: &LentReference<'a>) -> Filling<'a>
    ensures { wanted_as result ≡ filling_of (view_lent entry.now) }
{
    Filling {
        bytes: entry.stored.datum,
        flags: flags_of(entry),
    }
}

/// Returns the flags and the bytes of the blocks of all references that have resPreload, in order.
fn gather<'a>(alloc: Global, file: &'a ResFile) -> Result<Vec<Filling<'a>>, AllocError>
    ensures { IfOk result (λ v. map wanted_as v.items ≡ wanted_of file.now.references) }
{
    let mut wanted = Vec::new(alloc);
    for i in 0..file.len() {
        let entry = file.reference(i);
        if is_read_first(&entry) {
            wanted.push(fill_of(&entry))?;
        }
    }
    Ok(wanted)
}

/// Makes a new handle for each reference that has resPreload, in order, and returns the number of
/// each handle; the number is `None` where the zone had no room.
fn make_all<S: BlockStore>(
    alloc: Global,
    heap: &mut Heap<S>,
    file: &ResFile,
) -> Result<Vec<Option<usize>>, AllocError>
    ensures answer { IfOk result (λ v. new_all (wanted_of file.now.references) heap.old.memory
        ≡ (v.items, heap.new.memory)) }
    ensures host { IsErr result → IsTrue S.TAKES_HOST ⊎ (heap.new ≡ heap.old) }
    ensures lies { heap.new.memory.window ≡ heap.old.memory.window }
{
    let wanted = gather(alloc, file)?;
    let mut numbers = Vec::new(alloc);
    heap.new_resources(&wanted, &mut numbers, &mut NoSink)?;
    Ok(numbers)
}

/// Makes a new handle for each reference that has resPreload, in order, puts the number of each
/// into `numbers`, and returns whether all were made; a number is `None` where the zone had no
/// room. The blocks that are purged for it are reported to the sink, if it listens. Where the host
/// is out of memory as the handles are made, `numbers` has the numbers of those that were made
/// so far.
fn make_told<S: BlockStore, K: PurgeSink>(
    alloc: Global,
    heap: &mut Heap<S>,
    file: &ResFile,
    numbers: &mut Vec<Option<usize>>,
    sink: &mut K,
) -> Result<bool, AllocError>
    requires idle { IsIdle K.told K.waits sink.old }
    ensures all { result ≡ Ok true → new_all (wanted_of file.now.references) heap.old.memory
        ≡ (numbers.new.items, heap.new.memory) }
    ensures hears { Hears K.told K.waits K.listens (result ≡ Ok true)
        (all_gone (wanted_of file.now.references) heap.old.memory) sink.old sink.new }
    ensures some { result ≡ Ok false → IsTrue S.TAKES_HOST
        ⊎ MadeSome K.told (wanted_of file.now.references) heap.old.memory
        numbers.new.items heap.new.memory sink.old sink.new }
    ensures heap { OnErr result (heap.new ≡ heap.old) }
    ensures untold { OnErr result (TellsNothing K.told sink.old sink.new) }
    ensures lies { heap.new.memory.window ≡ heap.old.memory.window }
{
    let wanted = gather(alloc, file)?;
    Ok(heap.new_resources(&wanted, numbers, sink).is_ok())
}

/// Returns the number at the place `at`, or `None` past the last number.
fn number_at(numbers: &[Option<usize>], at: usize) -> Option<usize>
    ensures { result ≡ next_number (drop at numbers.now) }
{
    if at < numbers.len() {
        numbers[at]
    } else {
        None
    }
}

/// Gives the references that have resPreload the handles in `numbers`, in order.
fn give_all(file: &mut ResFile, numbers: &[Option<usize>])
    ensures { file.new ≡ record file.old { references = given_to file.old.references numbers.now } }
{
    let mut next = 0;
    for i in 0..file.len() {
        let entry = file.reference(i);
        if is_read_first(&entry) {
            let handle = number_at(numbers, next).or(entry.handle);
            file.set_handle(i, handle);
            next += 1;
        }
    }
}

/// Preloads the resources of a file that have resPreload, in order. A resource for which the zone
/// has no room gets no handle. Where the host is out of memory, the file stays as it was.
pub fn preload<S: BlockStore>(
    alloc: Global,
    heap: &mut Heap<S>,
    file: &mut ResFile,
) -> Result<(), AllocError>
    ensures file { OnOk result (file.new ≡ record file.old {
      references = (fetch.preload file.old.references heap.old.memory).references;
    }) }
    ensures heap { OnOk result (heap.new.memory
        ≡ (fetch.preload file.old.references heap.old.memory).memory) }
    ensures kept { OnErr result (file.new ≡ file.old) }
    ensures host { IsErr result → IsTrue S.TAKES_HOST ⊎ (heap.new ≡ heap.old) }
    ensures lies { heap.new.memory.window ≡ heap.old.memory.window }
{
    // All host memory is allocated before the first handle is made.
    let numbers = make_all(alloc, heap, file)?;
    give_all(file, &numbers);
    Ok(())
}

/// Preloads the resources of a file that have resPreload, in order, and returns whether all were
/// preloaded. A resource for which the zone has no room gets no handle. The blocks that are purged
/// for it are reported to the sink, if it listens. Where the host is out of memory as the handles
/// are made, the resources that were preloaded so far have their handles, and the others have none.
pub fn preload_told<S: BlockStore, K: PurgeSink>(
    alloc: Global,
    heap: &mut Heap<S>,
    file: &mut ResFile,
    sink: &mut K,
) -> Result<bool, AllocError>
    requires idle { IsIdle K.told K.waits sink.old }
    ensures file { result ≡ Ok true → file.new ≡ record file.old {
      references = (fetch.preload file.old.references heap.old.memory).references;
    } }
    ensures heap { result ≡ Ok true
        → heap.new.memory ≡ (fetch.preload file.old.references heap.old.memory).memory }
    ensures hears { Hears K.told K.waits K.listens (result ≡ Ok true)
        (preload_gone file.old.references heap.old.memory) sink.old sink.new }
    ensures stopped { result ≡ Ok false
        → StopsPreloading K.told S.TAKES_HOST file.old file.new heap.old.memory heap.new.memory
        sink.old sink.new }
    ensures kept { OnErr result (file.new ≡ file.old) }
    ensures unfilled { OnErr result (heap.new ≡ heap.old) }
    ensures untold { OnErr result (TellsNothing K.told sink.old sink.new) }
    ensures lies { heap.new.memory.window ≡ heap.old.memory.window }
{
    let mut numbers = Vec::new(alloc);
    let whole = make_told(alloc, heap, file, &mut numbers, sink)?;
    give_all(file, &numbers);
    Ok(whole)
}
