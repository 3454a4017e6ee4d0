//! The calls that count and index the resources of all open files together, and those that return a
//! free ID.
//!
//! *More Macintosh Toolbox*, chapter 1, "Counting and Listing Resource Types" and "Getting a Unique
//! Resource ID".

ghost use Rattle.std.specs.Prelude.{◌≡◌, ◌≢◌, ◌<◌, ◌^◌, ◌-◌, is_some, map, option_map, Err, Ok, ℕ};
ghost use Rattle.byteorder.specs.Endian.{big_number};
ghost use Rattle.heap_calls.specs.State.{Memory};
ghost use Rattle.heap_calls.specs.Gone.{IsIdle, Hears};
ghost use Rattle.res_calls.specs.Asked.{GetIndResource};
ghost use Rattle.res_calls.specs.Given.{IsAnswered, IsFetched, managers};
ghost use Rattle.res_calls.specs.Gone.{gone_for};
ghost use Rattle.res_calls.specs.Places.{WantsHost, found_from, is_taken_in, spot_of};
ghost use Rattle.res_calls.specs.Rows as rows;
ghost use Rattle.res_calls.specs.Rows.{noting};
ghost use Rattle.res_calls.specs.Stopped.{StopsFetching};
ghost use Rattle.res_calls.specs.View.{view_open};

use crate::fetched::{Fetched, Unread};
use crate::files::{OpenFile, Resources};
use crate::find::{Spot, Wanted, Within, find_spot};
use block_store::BlockStore;
use heap_calls::{Heap, PurgeSink, Refusal};
use mac_words::{OsErr, OsType};

/// The greatest number of resources that is told.
const GREATEST_COUNT: usize = 9223372036854775807;

/// The lowest ID that is given: those below are the System's.
const LOWEST_ID: u16 = 128;

/// How many IDs there are from the lowest on.
const ALL_IDS: u16 = 32640;

/// Returns a count as it is told.
pub(crate) fn told_count(count: usize) -> usize
    ensures told { result ≡ rows.told_count count }
    ensures fits { result < 2 ^ 63 }
{
    if count > GREATEST_COUNT {
        GREATEST_COUNT
    } else {
        count
    }
}

/// Returns the number of resources of a type in open files, as it is told.
#[tactic(auto, using(crate::proofs::Indexing::count_start, crate::proofs::Indexing::count_on, crate::proofs::Indexing::count_end, crate::proofs::Indexing::count_done))]
fn count_each(files: &[OpenFile], ty: OsType) -> usize
    ensures count { result
        ≡ rows.told_count (rows.count_each (big_number 4 ty.0) (map view_open files.now)) }
    ensures fits { result < 2 ^ 63 }
{
    let mut total = 0;
    for i in 0..files.len() {
        total = told_count(total + files[i].map.count(ty));
    }
    total
}

/// Returns which one of the references after a file is the one that is the `n`-th from that file
/// on, where the file has this number of them.
pub(crate) fn after_file(n: u32, count: usize) -> u32
    ensures { result ≡ n - count }
{
    (n as usize).saturating_sub(count) as u32
}

/// Returns the place of the `n`-th reference of a type, counted from 1, in open files.
#[tactic(auto, using(crate::proofs::Finding::spot_start, crate::proofs::Indexing::each_here, crate::proofs::Indexing::each_on))]
fn nth_each(files: &[OpenFile], ty: OsType, n: u32) -> Option<Spot>
    ensures { result
        ≡ option_map spot_of (rows.nth_each (big_number 4 ty.0) n (map view_open files.now)) }
{
    let mut left = n;
    for i in 0..files.len() {
        if let Some(reference) = files[i].map.find_nth(ty, left) {
            return Some(Spot { file: i, reference });
        }
        left = after_file(left, files[i].map.count(ty));
    }
    None
}

/// Reports whether a resource of a type has an ID, in the files that are searched.
#[tactic(auto, using(crate::proofs::Indexing::taken_so))]
fn is_taken(files: &[OpenFile], within: Within, ty: OsType, id: u16) -> bool
    requires { id < 2 ^ 15 }
    ensures { result ≡ is_taken_in within (big_number 4 ty.0) (map view_open files.now) id }
{
    find_spot(files, within, Wanted::Id(ty, id as i16)).is_some()
}

/// Returns the lowest ID that no resource of a type has, in the files that are searched.
#[tactic(auto, using(crate::proofs::Indexing::free_here, crate::proofs::Indexing::free_on, crate::proofs::Indexing::free_end, crate::proofs::Indexing::free_done))]
fn first_free(files: &[OpenFile], within: Within, ty: OsType) -> Option<u32>
    ensures { result ≡ rows.first_free (is_taken_in within (big_number 4 ty.0)
        (map view_open files.now)) rows.all_ids rows.lowest_id }
{
    for i in 0..ALL_IDS {
        if !is_taken(files, within, ty, LOWEST_ID + i) {
            return Some((LOWEST_ID + i) as u32);
        }
    }
    None
}

/// Returns the place of the `n`-th reference of a type in open files, as it is found there.
#[tactic(auto, using(crate::proofs::Indexing::each_again, crate::proofs::Indexing::each_placed))]
fn find_each(files: &[OpenFile], ty: OsType, n: u32) -> Option<Spot>
    ensures found { found_from result (map view_open files.now)
        ≡ rows.nth_each (big_number 4 ty.0) n (map view_open files.now) }
    ensures placed { is_some (found_from result (map view_open files.now)) ≡ is_some result }
{
    nth_each(files, ty, n)
}

impl Resources {
    /// `CountResources`: returns the number of resources of a type in all open files together.
    pub fn count_resources(&mut self, ty: OsType) -> usize
        ensures answer { (m : Memory) → IsAnswered (λ (n : ℕ). n)
            (noting (rows.count_resources rows.EachFile (big_number 4 ty.0)) (managers self.old m))
            (Ok result) (managers self.new m) }
        ensures fits { result < 2 ^ 63 }
    {
        self.error = OsErr::NO_ERR;
        count_each(&self.chain, ty)
    }

    /// Returns the place of the `n`-th reference of a type, counted from 1, in all open files
    /// together.
    fn find_nth_of_all(&self, ty: OsType, n: u32) -> Option<Spot>
        ensures found { found_from result self.now.chain
            ≡ rows.nth_each (big_number 4 ty.0) n self.now.chain }
        ensures placed { is_some (found_from result self.now.chain) ≡ is_some result }
    {
        find_each(&self.chain, ty, n)
    }

    /// `GetIndResource`: finds the `n`-th resource of a type in all open files together, the file
    /// opened last first, counted from 1, fetches the resource, and returns its handle. Returns
    /// -192 (resNotFound) where there is no `n`-th resource of the type, and -108 (memFullErr)
    /// where the zone has no room. The blocks that are purged for it are reported to the sink, if
    /// it listens.
    #[tactic(auto, using(crate::proofs::Fetches::ind_noted))]
    pub fn get_ind_resource<S: BlockStore, K: PurgeSink>(
        &mut self,
        heap: &mut Heap<S>,
        ty: OsType,
        n: u32,
        sink: &mut K,
    ) -> Result<Fetched, Unread>
        requires idle { IsIdle K.told K.waits sink.old }
        ensures answer { IsFetched (noting (rows.get_ind_resource rows.EachFile (big_number 4 ty.0)
            n) (managers self.old heap.old.memory)) result (managers self.new heap.new.memory) }
        ensures hears { Hears K.told K.waits K.listens (¬ (WantsHost result))
            (gone_for (GetIndResource rows.EachFile (big_number 4 ty.0) n)
            (managers self.old heap.old.memory)) sink.old sink.new }
        ensures stops { WantsHost result → StopsFetching S.TAKES_HOST K.told K.listens
            (self.new ≡ self.old) heap.old heap.new sink.old sink.new }
        ensures lies { heap.new.memory.window ≡ heap.old.memory.window }
    {
        let loading = self.loading;
        let found = self.find_nth_of_all(ty, n);
        let answer = self.fetch_found(heap, found, loading, sink);
        self.note_fetch(answer)
    }

    /// `UniqueID`: returns the lowest ID from 128 on that no resource of a type has in any open
    /// file. Returns -30001 (profileErr) where each ID is taken.
    pub fn unique_id(&mut self, ty: OsType) -> Result<u32, Refusal>
        ensures answer { (m : Memory) → IsAnswered (λ (n : ℕ). n)
            (noting (rows.unique_id rows.EachFile (big_number 4 ty.0)) (managers self.old m)) result
            (managers self.new m) }
        ensures host { result ≢ Err Refusal.HostMemory }
    {
        let answer = self.free_id(Within::Each, ty);
        self.note(answer)
    }

    /// `Unique1ID`: returns the lowest ID from 128 on that no resource of a type has in the current
    /// file. Returns -30001 (profileErr) where each ID is taken.
    pub fn unique1_id(&mut self, ty: OsType) -> Result<u32, Refusal>
        ensures answer { (m : Memory) → IsAnswered (λ (n : ℕ). n)
            (noting (rows.unique_id rows.Current (big_number 4 ty.0)) (managers self.old m)) result
            (managers self.new m) }
        ensures host { result ≢ Err Refusal.HostMemory }
    {
        let answer = self.free_id(Within::Only(self.current), ty);
        self.note(answer)
    }

    /// Returns the lowest ID that no resource of a type has in the files that are searched.
    fn free_id(&self, within: Within, ty: OsType) -> Result<u32, Refusal>
        ensures answer { (m : Memory) → IsAnswered (λ (n : ℕ). n) (rows.told_or OsErr.PROFILE
            (rows.first_free (is_taken_in within (big_number 4 ty.0) self.now.chain) rows.all_ids
            rows.lowest_id) (managers self.now m)) result (managers self.now m) }
        ensures host { result ≢ Err Refusal.HostMemory }
    {
        match first_free(&self.chain, within, ty) {
            None => Err(Refusal::Code(OsErr::PROFILE)),
            Some(id) => Ok(id),
        }
    }
}
