//! Laws of the definitions.

ghost use Rattle.std.specs.Prelude.{◌≡◌, ◌≢◌, ◌<◌, ◌≤◌, ◌⊎◌, ◌&&◌, ℕ, ℤ, Bool, true, false, not};
ghost use Rattle.std.specs.Prelude.{Ok, Err, Option, Some, None, List, [], ◌∷◌, length, map};
ghost use Rattle.std.specs.Prelude.{option_map, filter, nat_le, slice_get};
ghost use Rattle.std.specs.List.{flat_map, list_all, list_any, find as first_of};
ghost use Rattle.mac_words.specs.declared.code.TheConstants.OsErr.{NO_ERR, RES_FILE_NOT_FOUND};
ghost use Rattle.block_store.specs.Block.{is_relocatable, sizes};
ghost use Rattle.block_store.specs.declared.measures.TheConstants.{GREATEST_ZONE};
ghost use Rattle.block_store.specs.Run.{has};
ghost use Rattle.fork_format.specs.Canonical.{clear, fits};
ghost use Rattle.fork_format.specs.Content.{Content, IsContent};
ghost use Rattle.heap_calls.specs.Table.{Asked};
ghost use Rattle.heap_calls.specs.Table as heap;
ghost use Rattle.heap_calls.specs.Emptying.{has_purgeable};
ghost use Rattle.heap_calls.specs.Gone.{Gone};
ghost use Rattle.heap_calls.specs.Locked.{OneBlockEach};
ghost use Rattle.heap_calls.specs.Owned.{resource_role_at};
ghost use Rattle.heap_calls.specs.State.{State, Memory};
ghost use Rattle.heap_calls.specs.ToldGone.{told_of};
ghost use Rattle.res_map.specs.Split.{Split};
ghost use Rattle.res_map.specs.Map.{Reference, is_changed, content, map_of};
ghost use Rattle.res_calls.specs.Asked.{ResourceAsked, OpenResFile, UpdateResFile, served};
ghost use Rattle.res_calls.specs.Changing.{add_resource};
ghost use Rattle.res_calls.specs.Disposing.{disposes_of, opens_file};
ghost use Rattle.res_calls.specs.Fetch.{Managers};
ghost use Rattle.res_calls.specs.Fetching.{fetches, without_handles, OnlyGivesHandles, OpensAtMost};
ghost use Rattle.res_calls.specs.Files.{File, Resources, OpenFile, Found, file_of};
ghost use Rattle.res_calls.specs.Files.{find_from_current, is_at};
ghost use Rattle.res_calls.specs.Gone.{gone_for, own_gone};
ghost use Rattle.res_calls.specs.Forks.{Written, HasFork, StoresHandle};
ghost use Rattle.res_calls.specs.Given.{managers};
ghost use Rattle.res_calls.specs.Leaving.{leave};
ghost use Rattle.res_calls.specs.Own.{fetch_own};
ghost use Rattle.res_calls.specs.Owning.{Owns};
ghost use Rattle.res_calls.specs.Purging.{heard, stored_gone};
ghost use Rattle.res_calls.specs.Rows.{launched_resources, preloaded, map_in, keep_error};
ghost use Rattle.res_calls.specs.Rows.{with_resources};
ghost use Rattle.res_calls.specs.Storing.{OnlyStoresChanged, StoresJust, all_stored, after_purges};
ghost use Rattle.res_calls.specs.Sound.{Sound};
ghost use Rattle.res_calls.specs.ToldGone.{TellsWhatGoes, TellsOfPurgeable, TellsWhatPreloadsLose};
ghost use Rattle.res_calls.specs.ToldGone.{TellsOnce, TellsOfLoosePreloads, IsWhole};
ghost use Rattle.res_calls.specs.Update.{bytes_held, updated_reference, updated_map, fork_of};
ghost use Rattle.res_calls.specs.Update.{rewritten, update};
ghost use Rattle.res_calls.specs.Writing.{writes, alters};

use block_store::BlockStore;
use heap_calls::{Heap, a_heap_tells_what_goes};

/// States that a search begins in the current file: the search finds the first reference that
/// passes a test, among the references of the current file, then of the file opened before it, and
/// so on, and of the System file last.
#[tactic(auto, using(crate::proofs::Finding::find_first))]
pub fn the_first_reference_is_found()
    ensures { (test : Reference → Bool) (r : Resources)
        → option_map (λ (f : Found). f.reference.here) (find_from_current test r)
        ≡ first_of test (flat_map (λ (f : OpenFile). f.map.references)
        (filter (λ (f : OpenFile). nat_le f.number r.current) r.chain)) }
{}

/// States that each resource has its own handle: no two references have one handle, and a handle is
/// a resource's exactly where a reference has the handle, in the role that the reference's file
/// determines (`Owns`). The law holds at the launch of an application over a heap that has no
/// resource's handle, before the resources are preloaded and after; each try of a call of either
/// manager keeps the law, and so does a fetch from the application's own fork, and the storing of
/// what was purged.
pub fn each_resource_has_its_own_handle()
    ensures launched { (files : List File) (system : Content) (r : Resources) (m : Memory)
        → launched_resources files system ≡ Ok r → ((h : ℕ) → resource_role_at h m.heap ≡ None)
        → Owns (record { memory = m; resources = r })
        × Owns (preloaded (record { memory = m; resources = r })).0 }
    ensures heap { (asked : Asked) (s : Managers) → Owns s
        → Owns (record s { memory = (heap.served asked s.memory).1 }) }
    ensures resources { (asked : ResourceAsked) (s : Managers) → Owns s
        → Owns (served asked s).after }
    ensures own { (kind : ℕ) (id : ℤ) (s : Managers) → Owns s → Owns (fetch_own kind id s).after }
    ensures stored { (gone : List Gone) (s : Managers) → Owns s
        → Owns (with_resources (stored_gone gone s.resources) s) }
{}

/// States that a search begins in the current file and goes on in the files opened before the
/// current file, in their order.
pub fn a_search_goes_back_in_time()
    ensures { (r : Resources) (at : Split OpenFile) → Sound r → file_of r.current r ≡ Some at
        → filter (λ (f : OpenFile). nat_le f.number r.current) r.chain ≡ at.here ∷ at.after }
{}

/// States that what holds of the open files at all times (`Sound`) holds at the launch of an
/// application, before the resources are preloaded and after, and that each try of a call keeps it,
/// as do a fetch from the application's own fork, the quit of the application, and the storing of
/// what was purged.
pub fn the_open_files_stay_sound()
    ensures launched { (files : List File) (system : Content) (r : Resources)
        → launched_resources files system ≡ Ok r → Sound r }
    ensures read { (s : Managers) → Sound s.resources → Sound (preloaded s).0.resources }
    ensures resources { (asked : ResourceAsked) (s : Managers) → Sound s.resources
        → Sound (served asked s).after.resources }
    ensures own { (kind : ℕ) (id : ℤ) (s : Managers) → Sound s.resources
        → Sound (fetch_own kind id s).after.resources }
    ensures left { (s : Managers) → Sound s.resources → Sound (leave s).after.resources }
    ensures stored { (gone : List Gone) (r : Resources) → Sound r → Sound (stored_gone gone r) }
{}

/// States what a call does to the files: only `CreateResFile` makes a file, or gives a file without
/// bytes an empty fork, and only `UpdateResFile` and `CloseResFile` write the fork of a touched
/// file, from that file's own resource map. Nothing of the System file therefore ever comes into a
/// fork.
pub fn only_an_update_or_a_creation_writes_a_fork()
    ensures written { (asked : ResourceAsked) (s : Managers)
        → Written asked s (served asked s).after.resources.files }
    ensures other_calls { (asked : ResourceAsked) (s : Managers) → writes asked ≡ false
        → (served asked s).after.resources.files ≡ s.resources.files }
{}

/// States that a fetch itself stores nothing, whatever blocks it purges to make room: no fork
/// changes, and of no resource the type, the ID, the name, the attributes, the stored data or the
/// place among the others. A fetch gives handles to references that have none, and sets the code
/// that `ResError` returns. The law holds of each call that fetches, of the fetch from the
/// application's own fork, by which a segment is loaded, and of the preloading at the launch; and a
/// file that is opened is preloaded so, and leaves the other open files as they were.
pub fn a_fetch_stores_nothing()
    ensures fetched { (asked : ResourceAsked) (s : Managers) → fetches asked ≡ true
        → OnlyGivesHandles s.resources (served asked s).after.resources }
    ensures own { (kind : ℕ) (id : ℤ) (s : Managers)
        → OnlyGivesHandles s.resources (fetch_own kind id s).after.resources }
    ensures launched { (files : List File) (system : Content) (r : Resources) (m : Memory)
        → launched_resources files system ≡ Ok r
        → OnlyGivesHandles r (preloaded (record { memory = m; resources = r })).0.resources }
    ensures opened { (name : List ℕ) (s : Managers)
        → OpensAtMost name s.resources (served (OpenResFile name) s).after.resources }
{}

/// States that a purge changes no fork, and stored data only of a changed resource that is not
/// protected, while SetResPurge is on: storing purged blocks gives each reference that it changes
/// the bytes of its own handle's block, as WriteResource would, and leaves all else as it was.
/// Nothing is stored while SetResPurge is off. Where each resource has its own handle, just that is
/// stored: of each changed resource that is not protected, and whose handle's block is among the
/// blocks.
pub fn a_purge_stores_only_what_was_changed()
    ensures on { (gone : List Gone) (r : Resources)
        → OnlyStoresChanged gone r (stored_gone gone r) }
    ensures off { (gone : List Gone) (r : Resources) → stored_gone (heard false gone) r ≡ r }
    ensures just { (gone : List Gone) (s : Managers) → Owns s
        → stored_gone gone s.resources ≡ all_stored gone s.resources }
{}

/// States what is stored by a call that fetches, where each resource has its own handle, once what
/// it purged is stored: of the resources as they were before the call just the changed ones that
/// are not protected, and whose block the call purged, while SetResPurge is on. All else but
/// handles is as it was. So it is of the fetch from the application's own fork, by which a segment
/// is loaded.
pub fn a_fetch_stores_just_what_it_purged()
    ensures fetched { (asked : ResourceAsked) (s : Managers) → fetches asked ≡ true → Owns s
        → StoresJust (heard s.resources.purging (gone_for asked s)) s.resources
        (after_purges asked s) }
    ensures own { (kind : ℕ) (id : ℤ) (s : Managers) → Owns s
        → StoresJust (heard s.resources.purging (own_gone kind id s)) s.resources (stored_gone
        (heard s.resources.purging (own_gone kind id s)) (fetch_own kind id s).after.resources) }
{}

/// States that a call which fetches reports just what it purges: what its table names. Where no
/// handle has two blocks, the call reports a handle of the heap where the handle has a block before
/// the call and none after it: once, with the bytes that the block had. Each block that is reported
/// was unlocked and purgeable before the call, and no other handle is reported. So does the fetch
/// from the application's own fork.
pub fn a_fetch_reports_what_goes()
    ensures goes { (asked : ResourceAsked) (s : Managers) → fetches asked ≡ true
        → OneBlockEach s.memory.heap.zone
        → sizes s.memory.heap.zone ≤ GREATEST_ZONE
        → TellsWhatGoes (gone_for asked s) s.memory.heap (served asked s).after.memory.heap }
    ensures purgeable { (asked : ResourceAsked) (s : Managers) → fetches asked ≡ true
        → OneBlockEach s.memory.heap.zone → sizes s.memory.heap.zone ≤ GREATEST_ZONE
        → TellsOfPurgeable (gone_for asked s) s.memory.heap }
    ensures once { (asked : ResourceAsked) (s : Managers) → fetches asked ≡ true
        → OneBlockEach s.memory.heap.zone
        → sizes s.memory.heap.zone ≤ GREATEST_ZONE → TellsOnce (gone_for asked s) }
    ensures own_goes { (kind : ℕ) (id : ℤ) (s : Managers) → OneBlockEach s.memory.heap.zone
        → sizes s.memory.heap.zone ≤ GREATEST_ZONE
        → TellsWhatGoes (own_gone kind id s) s.memory.heap (fetch_own kind id s).after.memory.heap }
    ensures own_purgeable { (kind : ℕ) (id : ℤ) (s : Managers) → OneBlockEach s.memory.heap.zone
        → sizes s.memory.heap.zone ≤ GREATEST_ZONE
        → TellsOfPurgeable (own_gone kind id s) s.memory.heap }
    ensures own_once { (kind : ℕ) (id : ℤ) (s : Managers) → OneBlockEach s.memory.heap.zone
        → sizes s.memory.heap.zone ≤ GREATEST_ZONE → TellsOnce (own_gone kind id s) }
{}

/// States the same of each heap, with no condition: no handle of a heap has two blocks, and its
/// zone is no larger than a zone can be.
pub fn a_fetch_on_a_heap_reports_what_goes<S: BlockStore>(heap: &Heap<S>)
    ensures goes { (asked : ResourceAsked) (r : Resources) → fetches asked ≡ true
        → TellsWhatGoes (gone_for asked (managers r heap.now.memory)) heap.now.memory.heap
        (served asked (managers r heap.now.memory)).after.memory.heap }
    ensures purgeable { (asked : ResourceAsked) (r : Resources) → fetches asked ≡ true
        → TellsOfPurgeable (gone_for asked (managers r heap.now.memory)) heap.now.memory.heap }
    ensures once { (asked : ResourceAsked) (r : Resources) → fetches asked ≡ true
        → TellsOnce (gone_for asked (managers r heap.now.memory)) }
{
    a_heap_tells_what_goes(heap);
}

/// States that `OpenResFile` reports just what it purges, where each block of a handle is of one
/// that was given, and no handle has two. Of a handle of the heap before the call it reports what a
/// fetch does. Of a handle that the call itself makes, for a resource that is preloaded, it reports
/// the bytes that were read into the block, once, where a later preload of the same call purged the
/// block; its resource then has resPurgeable, and not resLocked.
pub fn an_opening_reports_what_goes()
    ensures goes { (name : List ℕ) (s : Managers) → IsWhole s.memory.heap
        → TellsWhatGoes (gone_for (OpenResFile name) s) s.memory.heap
        (served (OpenResFile name) s).after.memory.heap }
    ensures preloads { (name : List ℕ) (s : Managers) → IsWhole s.memory.heap
        → TellsWhatPreloadsLose (gone_for (OpenResFile name) s) (served (OpenResFile name) s).reads
        s.memory.heap (served (OpenResFile name) s).after.memory.heap }
    ensures purgeable { (name : List ℕ) (s : Managers) (h : ℕ) → IsWhole s.memory.heap
        → 0 < length (told_of h (gone_for (OpenResFile name) s)) → h < length s.memory.heap.names
        → has_purgeable h s.memory.heap.zone ≡ true }
    ensures loose { (name : List ℕ) (s : Managers) → IsWhole s.memory.heap
        → TellsOfLoosePreloads (gone_for (OpenResFile name) s) s.memory.heap
        (served (OpenResFile name) s).after.resources }
    ensures once { (name : List ℕ) (s : Managers) → IsWhole s.memory.heap
        → TellsOnce (gone_for (OpenResFile name) s) }
{}

/// States that of the calls only those purge that fetch, and the one that opens a file: after any
/// other call each handle that had a block has one, unless the call disposed of the handle. What is
/// stored of purged blocks is stored after the call, and only while SetResPurge is on.
pub fn only_a_fetch_or_an_opening_purges()
    ensures { (asked : ResourceAsked) (s : Managers) (h : ℕ) → fetches asked ≡ false
        → opens_file asked ≡ false
        → disposes_of h asked s ≡ false → has (is_relocatable h) s.memory.heap.zone ≡ true
        → has (is_relocatable h) (served asked s).after.memory.heap.zone ≡ true }
{}

/// States that eleven calls alone change which resources there are, or the type, the ID, the name,
/// the attributes or the stored data of one: those that open, close or update a file,
/// `AddResource`, `RemoveResource`, `ChangedResource`, `WriteResource`, `SetResInfo`,
/// `SetResAttrs`, `WritePartialResource` and `SetResourceSize`.
pub fn few_calls_alter_resources()
    ensures { (asked : ResourceAsked) (s : Managers) → alters asked ≡ false
        → map without_handles (served asked s).after.resources.chain
        ≡ map without_handles s.resources.chain }
{}

/// States what an update stores. Of a changed resource, which always has a handle, the update
/// stores the bytes of the handle's block, or keeps the stored data where the handle is empty; of
/// another resource the update keeps the stored data. An update changes nothing of a file that was
/// not touched, and the System file is never touched.
pub fn an_update_stores_what_was_changed()
    ensures changed { (n : ℕ) (heap : State) (r : Resources) (at : Split OpenFile) (i : ℕ)
        (x : Reference) → Sound r
        → n ≢ 0 → file_of n r ≡ Some at → slice_get at.here.map.references i ≡ Some x
        → is_changed x ≡ true
        → StoresHandle heap x (updated_reference heap x) }
    ensures emptied { (heap : State) (x : Reference) → bytes_held x.handle heap ≡ None
        → (updated_reference heap x).stored.datum ≡ x.stored.datum }
    ensures other { (heap : State) (x : Reference) → x.stored.attrs < 256 → is_changed x ≡ false
        → updated_reference heap x ≡ x }
    ensures untouched { (n : ℕ) (s : Managers) (at : Split OpenFile)
        → file_of n s.resources ≡ Some at
        → at.here.touched ≡ false → (served (UpdateResFile n) s).after ≡ keep_error NO_ERR s }
    ensures systems { (heap : State) (r : Resources) (at : Split OpenFile) → Sound r
        → file_of 0 r ≡ Some at
        → update heap at r ≡ Some r }
{}

/// States that the fork that an update writes stands in the place of its file. A reader clears no
/// attribute of the fork, so the fork is read again as the content in memory.
pub fn an_updated_fork_is_read_again()
    ensures placed { (n : ℕ) (heap : State) (r : Resources) (at : Split OpenFile) → Sound r → n ≢ 0
        → file_of n r ≡ Some at
        → HasFork (fork_of heap at.here) at.here.file (rewritten heap at r).files }
    ensures nothing_is_cleared { (n : ℕ) (heap : State) (r : Resources) (at : Split OpenFile)
        → Sound r → n ≢ 0
        → file_of n r ≡ Some at
        → clear (content (updated_map heap at.here.map)) ≡ content (updated_map heap at.here.map) }
    ensures read_again { (n : ℕ) (heap : State) (r : Resources) (at : Split OpenFile)
        → Sound r → n ≢ 0
        → file_of n r ≡ Some at → IsContent (content (updated_map heap at.here.map))
        → fits (content (updated_map heap at.here.map)) ≡ true
        → map_in (fork_of heap at.here) ≡ Ok (map_of (content (updated_map heap at.here.map))) }
{}

/// States that the current file is always open, so that `AddResource` never returns -193
/// (resFNotFound).
#[tactic(auto, using(crate::proofs::Following::current_file_is_open))]
pub fn the_current_file_is_open()
    ensures { (handle : Option ℕ) (kind : ℕ) (id : ℤ) (name : List ℕ) (s : Managers)
        → Sound s.resources
        → (add_resource handle kind id name s).reply ≢ Err RES_FILE_NOT_FOUND }
{}

/// States that an application that quits closes all its files, and only the System file stays open.
/// The number of files stays as it was, and each file is as it was or has another fork, which was
/// written by the quit. A file that was not open or not touched is as it was. Where no open file
/// was touched, all files are as they were, and the code is 0.
pub fn an_application_that_leaves_closes_its_files()
    ensures closed { (s : Managers) → Sound s.resources
        → (f : OpenFile) × ((leave s).after.resources.chain ≡ f ∷ []) × (f.number ≡ 0) }
    ensures count { (s : Managers)
        → length (leave s).after.resources.files ≡ length s.resources.files }
    ensures files { (s : Managers) (i : ℕ) (f : File) → slice_get s.resources.files i ≡ Some f
        → (g : File) × (slice_get (leave s).after.resources.files i ≡ Some g)
        × ((g ≡ f) ⊎ (g ≡ record f { fork = g.fork; written = true })) }
    ensures untouched { (s : Managers) (i : ℕ)
        → list_any (λ (f : OpenFile). f.touched && is_at i f.file) s.resources.chain ≡ false
        → slice_get (leave s).after.resources.files i ≡ slice_get s.resources.files i }
    ensures nothing_touched { (s : Managers)
        → list_all (λ (f : OpenFile). not f.touched) s.resources.chain ≡ true
        → ((leave s).code ≡ NO_ERR) × ((leave s).after.resources.files ≡ s.resources.files) }
{}
