//! Resources of the application's own fork.
//!
//! *Processes*, chapter 7, "The Segment Manager".

ghost use Rattle.std.specs.Prelude.{◌≡◌, is_some, option_map, true};
ghost use Rattle.byteorder.specs.Endian.{big_number};
ghost use Rattle.heap_calls.specs.Gone.{IsIdle, Hears};
ghost use Rattle.res_map.specs.View.{view_lent};
ghost use Rattle.res_calls.specs.Files.{Found};
ghost use Rattle.res_calls.specs.Gone.{own_gone};
ghost use Rattle.res_calls.specs.Own as own;
ghost use Rattle.res_calls.specs.Given.{IsFetched, managers};
ghost use Rattle.res_calls.specs.Places.{WantsHost, found_from};
ghost use Rattle.res_calls.specs.Stopped.{StopsFetching};

use crate::fetched::{Fetched, Unread};
use crate::files::Resources;
use crate::find::{Spot, Wanted, Within, entry_at};
use block_store::BlockStore;
use heap_calls::{Heap, PurgeSink};
use mac_words::OsType;
use res_map::LentReference;

impl Resources {
    /// Returns the place of the first reference of a type and ID in the application's own file.
    fn find_own(&self, ty: OsType, id: i16) -> Option<Spot>
        ensures found { found_from result self.now.chain
            ≡ own.find_own (big_number 4 ty.0) id self.now }
        ensures placed { is_some (found_from result self.now.chain) ≡ is_some result }
    {
        self.find(Within::Own, Wanted::Id(ty, id))
    }

    /// Returns the first reference of a type and ID in the application's own file.
    fn own_entry(&self, ty: OsType, id: i16) -> Option<LentReference<'_>>
        ensures { option_map view_lent result ≡ option_map (λ (f : Found). f.reference.here)
            (own.find_own (big_number 4 ty.0) id self.now) }
    {
        match self.find_own(ty, id) {
            None => None,
            Some(at) => Some(entry_at(&self.chain, at)),
        }
    }

    /// Returns the stored data of the first resource of a type and ID in the application's own
    /// fork. Returns `None` where the fork is not open or has no such resource.
    #[tactic(auto, using(crate::proofs::OwnFork::no_datum, crate::proofs::OwnFork::datum_lent))]
    pub fn own_datum(&self, ty: OsType, id: i16) -> Option<&[u8]>
        ensures { option_map (λ b. b.now) result ≡ own.own_datum (big_number 4 ty.0) id self.now }
    {
        match self.own_entry(ty, id) {
            None => None,
            Some(entry) => Some(entry.stored.datum),
        }
    }

    /// Returns the handle of the first resource of a type and ID in the application's own fork.
    /// Returns `None` where the fork is not open or has no such resource, or where the resource has
    /// no handle.
    #[tactic(auto, using(crate::proofs::OwnFork::no_handle, crate::proofs::OwnFork::handle_lent))]
    pub fn own_handle(&self, ty: OsType, id: i16) -> Option<usize>
        ensures { result ≡ own.own_handle (big_number 4 ty.0) id self.now }
    {
        match self.own_entry(ty, id) {
            None => None,
            Some(entry) => entry.handle,
        }
    }

    /// Fetches the first resource of a type and ID in the application's own fork, under whatever
    /// number the fork is open and whichever file is current. The stored data is read whether
    /// loading is on or off, and the code that `ResError` returns stays as it was. Returns -192
    /// (resNotFound) where the fork is not open or has no such resource, and -108 (memFullErr)
    /// where the zone has no room. The blocks that are purged for it are reported to the sink, if
    /// it listens.
    pub fn fetch_own<S: BlockStore, K: PurgeSink>(
        &mut self,
        heap: &mut Heap<S>,
        ty: OsType,
        id: i16,
        sink: &mut K,
    ) -> Result<Fetched, Unread>
        requires idle { IsIdle K.told K.waits sink.old }
        ensures answer { IsFetched (own.fetch_own (big_number 4 ty.0) id
            (managers self.old heap.old.memory)) result (managers self.new heap.new.memory) }
        ensures hears { Hears K.told K.waits K.listens (¬ (WantsHost result)) (own_gone
            (big_number 4 ty.0) id (managers self.old heap.old.memory)) sink.old sink.new }
        ensures stops { WantsHost result → StopsFetching S.TAKES_HOST K.told K.listens
            (self.new ≡ self.old) heap.old heap.new sink.old sink.new }
        ensures lies { heap.new.memory.window ≡ heap.old.memory.window }
    {
        let found = self.find_own(ty, id);
        self.fetch_found(heap, found, true, sink)
    }
}
