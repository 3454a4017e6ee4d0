//! The calls that find a resource and fetch the resource.

ghost use Rattle.std.specs.Prelude.{◌≡◌, ◌==◌, is_some, map, true};
ghost use Rattle.byteorder.specs.Endian.{big_number};
ghost use Rattle.heap_calls.specs.Gone.{IsIdle, Hears};
ghost use Rattle.res_map.specs.Split.{split};
ghost use Rattle.res_calls.specs.Asked.{GetResource, Get1Resource, GetNamedResource};
ghost use Rattle.res_calls.specs.Asked.{Get1NamedResource, GetIndResource, LoadResource};
ghost use Rattle.res_calls.specs.Files.{OpenFile as OpenFileValue, file_of, find};
ghost use Rattle.res_calls.specs.Gone.{fetch_gone, gone_for};
ghost use Rattle.res_calls.specs.Rows as rows;
ghost use Rattle.res_calls.specs.Rows.{noting};
ghost use Rattle.res_calls.specs.Given.{IsFetched, managers};
ghost use Rattle.res_calls.specs.Places.{WantsHost, found_from, fetch_wanted, is_searched};
ghost use Rattle.res_calls.specs.Places.{is_wanted};
ghost use Rattle.res_calls.specs.View.{view_open};
ghost use Rattle.res_calls.specs.Stopped.{StopsFetching};

use crate::chain::place_numbered;
use crate::fetched::{Fetched, Unread};
use crate::files::{OpenFile, Resources};
use crate::find::{Spot, Wanted, Within};
use block_store::BlockStore;
use heap_calls::{Heap, PurgeSink};
use mac_words::OsType;

/// Returns the place of the `n`-th reference of a type, counted from 1, in the open file whose
/// number is `number`.
#[tactic(auto, using(crate::proofs::Standing::nth_found, crate::proofs::Standing::nth_none, crate::proofs::Standing::nth_closed, crate::proofs::Standing::nth_placed))]
fn nth_spot(files: &[OpenFile], number: u32, ty: OsType, n: u32) -> Option<Spot>
    ensures found { found_from result (map view_open files.now) ≡ rows.nth_in (big_number 4 ty.0) n
        (split (λ (f : OpenFileValue). f.number == number) (map view_open files.now)) }
    ensures placed { is_some (found_from result (map view_open files.now)) ≡ is_some result }
{
    let file = place_numbered(files, number)?;
    let reference = files[file].map.find_nth(ty, n)?;
    Some(Spot { file, reference })
}

impl Resources {
    /// Returns the place of the `n`-th reference of a type, counted from 1, in the current file.
    fn find_nth(&self, ty: OsType, n: u32) -> Option<Spot>
        ensures found { found_from result self.now.chain ≡ rows.nth_in (big_number 4 ty.0) n
            (file_of self.now.current self.now) }
        ensures placed { is_some (found_from result self.now.chain) ≡ is_some result }
    {
        nth_spot(&self.chain, self.current, ty, n)
    }

    /// Finds a reference, fetches the reference, and sets the code that `ResError` returns. The
    /// blocks that are purged for it are reported to the sink, if it listens.
    fn fetch_wanted<S: BlockStore, K: PurgeSink>(
        &mut self,
        heap: &mut Heap<S>,
        within: Within,
        wanted: Wanted<'_>,
        loading: bool,
        sink: &mut K,
    ) -> Result<Fetched, Unread>
        requires idle { IsIdle K.told K.waits sink.old }
        ensures answer { IsFetched (noting (fetch_wanted within wanted.entry loading)
            (managers self.old heap.old.memory)) result (managers self.new heap.new.memory) }
        ensures hears { Hears K.told K.waits K.listens (¬ (WantsHost result))
            (fetch_gone loading (find (is_searched within) (is_wanted wanted.entry) self.old.chain)
            (managers self.old heap.old.memory)) sink.old sink.new }
        ensures stops { WantsHost result → StopsFetching S.TAKES_HOST K.told K.listens
            (self.new ≡ self.old) heap.old heap.new sink.old sink.new }
        ensures lies { heap.new.memory.window ≡ heap.old.memory.window }
    {
        let found = self.find(within, wanted);
        let answer = self.fetch_found(heap, found, loading, sink);
        self.note_fetch(answer)
    }

    /// `GetResource`: finds the first resource of the given type and ID on the search path, fetches
    /// the resource, and returns its handle; where loading is off, nothing is read, and a resource
    /// without a handle gets an empty handle. Returns -192 (resNotFound) where no file on the
    /// search path has the resource, and -108 (memFullErr) where the zone has no room. The blocks
    /// that are purged for it are reported to the sink, if it listens.
    pub fn get_resource<S: BlockStore, K: PurgeSink>(
        &mut self,
        heap: &mut Heap<S>,
        ty: OsType,
        id: i16,
        sink: &mut K,
    ) -> Result<Fetched, Unread>
        requires idle { IsIdle K.told K.waits sink.old }
        ensures answer { IsFetched (noting (rows.get_resource (big_number 4 ty.0) id)
            (managers self.old heap.old.memory)) result (managers self.new heap.new.memory) }
        ensures hears { Hears K.told K.waits K.listens (¬ (WantsHost result))
            (gone_for (GetResource (big_number 4 ty.0) id) (managers self.old heap.old.memory))
            sink.old sink.new }
        ensures stops { WantsHost result → StopsFetching S.TAKES_HOST K.told K.listens
            (self.new ≡ self.old) heap.old heap.new sink.old sink.new }
        ensures lies { heap.new.memory.window ≡ heap.old.memory.window }
    {
        let (current, load) = (self.current, self.loading);
        self.fetch_wanted(heap, Within::UpTo(current), Wanted::Id(ty, id), load, sink)
    }

    /// `Get1Resource`: finds the first resource of the given type and ID in the current file,
    /// fetches the resource, and returns its handle. Returns -192 (resNotFound) where the current
    /// file has no such resource, and -108 (memFullErr) where the zone has no room. The blocks that
    /// are purged for it are reported to the sink, if it listens.
    pub fn get1_resource<S: BlockStore, K: PurgeSink>(
        &mut self,
        heap: &mut Heap<S>,
        ty: OsType,
        id: i16,
        sink: &mut K,
    ) -> Result<Fetched, Unread>
        requires idle { IsIdle K.told K.waits sink.old }
        ensures answer { IsFetched (noting (rows.get1_resource (big_number 4 ty.0) id)
            (managers self.old heap.old.memory)) result (managers self.new heap.new.memory) }
        ensures hears { Hears K.told K.waits K.listens (¬ (WantsHost result))
            (gone_for (Get1Resource (big_number 4 ty.0) id) (managers self.old heap.old.memory))
            sink.old sink.new }
        ensures stops { WantsHost result → StopsFetching S.TAKES_HOST K.told K.listens
            (self.new ≡ self.old) heap.old heap.new sink.old sink.new }
        ensures lies { heap.new.memory.window ≡ heap.old.memory.window }
    {
        let (current, load) = (self.current, self.loading);
        self.fetch_wanted(heap, Within::Only(current), Wanted::Id(ty, id), load, sink)
    }

    /// `GetNamedResource`: finds the first resource of the given type and name on the search path,
    /// fetches the resource, and returns its handle. Uppercase and lowercase ASCII letters match
    /// each other. Returns -192 (resNotFound) where no file on the search path has the resource,
    /// and -108 (memFullErr) where the zone has no room. The blocks that are purged for it are
    /// reported to the sink, if it listens.
    pub fn get_named_resource<S: BlockStore, K: PurgeSink>(
        &mut self,
        heap: &mut Heap<S>,
        ty: OsType,
        name: &[u8],
        sink: &mut K,
    ) -> Result<Fetched, Unread>
        requires idle { IsIdle K.told K.waits sink.old }
        ensures answer { IsFetched (noting (rows.get_named_resource (big_number 4 ty.0) name.now)
            (managers self.old heap.old.memory)) result (managers self.new heap.new.memory) }
        ensures hears { Hears K.told K.waits K.listens (¬ (WantsHost result))
            (gone_for (GetNamedResource (big_number 4 ty.0) name.now)
            (managers self.old heap.old.memory)) sink.old sink.new }
        ensures stops { WantsHost result → StopsFetching S.TAKES_HOST K.told K.listens
            (self.new ≡ self.old) heap.old heap.new sink.old sink.new }
        ensures lies { heap.new.memory.window ≡ heap.old.memory.window }
    {
        let (current, load) = (self.current, self.loading);
        self.fetch_wanted(
            heap,
            Within::UpTo(current),
            Wanted::Named(ty, name),
            load,
            sink,
        )
    }

    /// `Get1NamedResource`: finds the first resource of the given type and name in the current
    /// file, fetches the resource, and returns its handle. Names are compared as by
    /// `GetNamedResource`. Returns -192 (resNotFound) where the current file has no such resource,
    /// and -108 (memFullErr) where the zone has no room. The blocks that are purged for it are
    /// reported to the sink, if it listens.
    pub fn get1_named_resource<S: BlockStore, K: PurgeSink>(
        &mut self,
        heap: &mut Heap<S>,
        ty: OsType,
        name: &[u8],
        sink: &mut K,
    ) -> Result<Fetched, Unread>
        requires idle { IsIdle K.told K.waits sink.old }
        ensures answer { IsFetched (noting (rows.get1_named_resource (big_number 4 ty.0) name.now)
            (managers self.old heap.old.memory)) result (managers self.new heap.new.memory) }
        ensures hears { Hears K.told K.waits K.listens (¬ (WantsHost result))
            (gone_for (Get1NamedResource (big_number 4 ty.0) name.now)
            (managers self.old heap.old.memory)) sink.old sink.new }
        ensures stops { WantsHost result → StopsFetching S.TAKES_HOST K.told K.listens
            (self.new ≡ self.old) heap.old heap.new sink.old sink.new }
        ensures lies { heap.new.memory.window ≡ heap.old.memory.window }
    {
        let (current, load) = (self.current, self.loading);
        self.fetch_wanted(
            heap,
            Within::Only(current),
            Wanted::Named(ty, name),
            load,
            sink,
        )
    }

    /// `Get1IndResource`: finds the `n`-th resource of a type in the current file, counted from 1,
    /// fetches the resource, and returns its handle. Returns -192 (resNotFound) where the current
    /// file has no `n`-th resource of the type, and -108 (memFullErr) where the zone has no room.
    /// The blocks that are purged for it are reported to the sink, if it listens.
    #[tactic(auto, using(crate::proofs::Fetches::ind_noted))]
    pub fn get1_ind_resource<S: BlockStore, K: PurgeSink>(
        &mut self,
        heap: &mut Heap<S>,
        ty: OsType,
        n: u32,
        sink: &mut K,
    ) -> Result<Fetched, Unread>
        requires idle { IsIdle K.told K.waits sink.old }
        ensures answer { IsFetched (noting (rows.get_ind_resource rows.Current (big_number 4 ty.0)
            n) (managers self.old heap.old.memory)) result (managers self.new heap.new.memory) }
        ensures hears { Hears K.told K.waits K.listens (¬ (WantsHost result))
            (gone_for (GetIndResource rows.Current (big_number 4 ty.0) n)
            (managers self.old heap.old.memory)) sink.old sink.new }
        ensures stops { WantsHost result → StopsFetching S.TAKES_HOST K.told K.listens
            (self.new ≡ self.old) heap.old heap.new sink.old sink.new }
        ensures lies { heap.new.memory.window ≡ heap.old.memory.window }
    {
        let loading = self.loading;
        let found = self.find_nth(ty, n);
        let answer = self.fetch_found(heap, found, loading, sink);
        self.note_fetch(answer)
    }

    /// `LoadResource`: reads the stored data of a resource into a new block of its handle where the
    /// handle is empty, whether loading is on or off. Returns -192 (resNotFound) where the handle
    /// is not a resource's, and -108 (memFullErr) where the zone has no room. The blocks that are
    /// purged for it are reported to the sink, if it listens.
    pub fn load_resource<S: BlockStore, K: PurgeSink>(
        &mut self,
        heap: &mut Heap<S>,
        handle: Option<usize>,
        sink: &mut K,
    ) -> Result<Fetched, Unread>
        requires idle { IsIdle K.told K.waits sink.old }
        ensures answer { IsFetched (noting (rows.load_resource handle)
            (managers self.old heap.old.memory)) result (managers self.new heap.new.memory) }
        ensures hears { Hears K.told K.waits K.listens (¬ (WantsHost result))
            (gone_for (LoadResource handle) (managers self.old heap.old.memory)) sink.old sink.new }
        ensures stops { WantsHost result → StopsFetching S.TAKES_HOST K.told K.listens
            (self.new ≡ self.old) heap.old heap.new sink.old sink.new }
        ensures lies { heap.new.memory.window ≡ heap.old.memory.window }
    {
        let found = self.find_handle(handle);
        let answer = self.fetch_found(heap, found, true, sink);
        self.note_fetch(answer)
    }
}
