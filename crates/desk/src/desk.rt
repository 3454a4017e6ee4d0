//! The desk: several applications in one memory.

ghost use Rattle.std.specs.Prelude.{◌≡◌, ℕ, ◌≤◌, ◌<◌, ◌%◌, ◌+◌, List, [], length, map, Option};
ghost use Rattle.std.specs.Prelude.{None, option_map, IsTrue, Err, false, is_ok, IfOk, IsOk, OnOk};
ghost use Rattle.std.specs.Prelude.{OnErr, IfErr, IfSome, slice_get, vec_len, vec_capacity};
ghost use Rattle.std.specs.List.{list_all, Contains};
ghost use Rattle.memory_windows.specs.declared.Window.{Window as Stretch};
ghost use Rattle.memory_windows.specs.declared.list.TheConstants.{MOST_WINDOWS};
ghost use Rattle.memory_windows.specs.Outside.{IsOutside};
ghost use Rattle.memory_windows.specs.Windows.{Misses, taken_out};
ghost use Rattle.block_store.specs.Block.{Block, fresh};
ghost use Rattle.block_store.specs.Rest.{Site};
ghost use Rattle.block_store.specs.Slot.{Slot};
ghost use Rattle.block_store.specs.declared.measures.TheConstants.{GREATEST_ZONE};
ghost use Rattle.fork_format.specs.Content.{Group as GroupValue};
ghost use Rattle.fork_format.specs.Canonical.{has_refs, are_distinct};
ghost use Rattle.fork_format.specs.View.{view};
ghost use Rattle.partitions.specs.Grant.{grant};
ghost use Rattle.script_text.specs.declared.job.Act.TheVariants.{Step, Turn, Quit};
ghost use Rattle.res_calls.specs.Given.{IsReply};
ghost use Rattle.script_text.specs.declared.desk_log.TheConstants.{APP_ROOM};
ghost use Rattle.desk.specs.Desk.{launched_at, reply_at, acted_at, any_runs, longest, told};
ghost use Rattle.desk.specs.Ready.{UnlessHostMemory};
ghost use Rattle.desk.specs.Free.{IsFree};
ghost use Rattle.desk.specs.Job.{opening};
ghost use Rattle.desk.specs.Halting.{WithinAt, halted};
ghost use Rattle.desk.specs.Held.{MadeOf, opened, closed};
ghost use Rattle.desk.specs.Phase.{begun};
ghost use Rattle.desk.specs.Live.{live_seen};
ghost use Rattle.desk.specs.Lying.{AllLie};
ghost use Rattle.desk.specs.View.{seen, told_seen};

use crate::departure::{Departure, SeatParts};
use crate::job::App;
use crate::live::Live;
use crate::outcome::AppOutcome;
use crate::partition::OpenZone;
use crate::preparing::{Ready, prepared};
use crate::seat::Seat;
use crate::seats;
use crate::sizes::PartitionSizes;
use crate::turns::longest_script;
use block_store::{BlockStore, ZoneMaker};
use fork_format::Content;
use heap_calls::Refusal;
use mac_words::OsErr;
use memory_windows::Window;
use partitions::Grants;
use script_text::{APP_ROOM, Act, write_app_end, write_app_launch, write_app_refusal};
use std::alloc::{AllocError, Global};
use std::marker::Model;

/// Several applications in one memory, each in a window of its own.
///
/// *Inside Macintosh: Processes*, chapter 1.
pub struct Desk<'j, Z: ZoneMaker> {
    alloc: Global,
    zones: Z,
    grants: Grants,
    seats: Vec<Seat<'j, Z::Store>>,
    /// The list in which `finish` gathers what each application leaves. Its memory is taken when
    /// the desk is made.
    outcome: Vec<AppOutcome>,
    log: Vec<u8>,
}

/// What a desk leaves that is finished.
pub struct Finished<Z: ZoneMaker> {
    /// What the applications leave, in order.
    pub apps: Vec<AppOutcome>,
    /// The desk's log.
    pub log: Vec<u8>,
    /// The maker of zones, with no zone open.
    pub zones: Z,
}

impl<'j, Z: ZoneMaker> Model for Desk<'j, Z> {
    ghost use Rattle.std.specs.Prelude.{◌≡◌, ◌≤◌, vec_len, vec_capacity};
    ghost use Rattle.desk.specs.Held.{AreHoused};
    ghost use Rattle.desk.specs.View.{DeskSeen, seen, lots};

    ghost Value = { DeskSeen Z };

    ghost view = { λ d. record {
      state = record {
        memory = d.grants.memory;
        windows = d.grants.windows;
        places = seen d.seats.items;
        log = d.log.items;
      };
      zones = d.zones;
    } };

    ghost invariant = { λ d. AreHoused (Z.made d.zones) (Z.windows d.zones) d.grants.windows
        (seen d.seats.items) (lots d.seats.items)
        × (Z.memory d.zones ≡ d.grants.memory)
        × (vec_len d.outcome ≡ 0) × (vec_len d.seats ≤ vec_capacity d.outcome)
        × (vec_len d.seats ≤ 64) };
}

impl<'j, Z: ZoneMaker> Desk<'j, Z> {
    /// Makes a desk of a memory of `memory` bytes, at which every application waits for its launch.
    /// Returns the maker of zones in an `Err` if the host is out of memory.
    pub fn new(
        alloc: Global,
        memory: u32,
        system: &'j Content<'j>,
        apps: &'j [App],
        zones: Z,
    ) -> Result<Self, Z>
        requires none { Z.windows zones ≡ [] }
        requires memory { Z.memory zones ≡ memory }
        requires multiple { memory % 16 ≡ 0 }
        requires few { length apps.now ≤ 64 }
        requires types { IsTrue
            (are_distinct (map (λ (g : GroupValue). g.kind) (view system.now).groups)) }
        requires references { IsTrue (list_all has_refs (view system.now).groups) }
        ensures ok { IfOk result (λ desk. desk.state ≡ opening memory (view system.now) apps.now) }
        ensures zones { IfOk result (λ desk. desk.zones ≡ zones) }
        ensures err { IfErr result (λ z. z ≡ zones) }
    {
        let Ok(outcome) = Vec::with_capacity(alloc, apps.len()) else {
            return Err(zones);
        };
        let Ok(grants) = Grants::new(alloc, memory) else {
            return Err(zones);
        };
        match seats::places(alloc, system, apps) {
            Ok(seats) => Ok(Desk {
                alloc,
                zones,
                grants,
                seats,
                outcome,
                log: Vec::new(alloc),
            }),
            Err(_) => Err(zones),
        }
    }

    /// Launches application `i`, and returns the size of the partition that it was granted; the log
    /// says that the application was launched, or why it was not.
    ///
    /// *Inside Macintosh: Processes*, chapter 2, "Launching Applications".
    ///
    /// # Errors
    ///
    /// The launch is refused: -30001 (profileErr) if the application runs or has ended already, or
    /// if there is no application of that number; -39 (eofErr) or -199 (mapReadErr) if its fork
    /// can't be opened; -108 (memFullErr) if there is no room. Or the host is out of memory: the
    /// application still waits, and the log is as it was; after this the desk can only be finished.
    pub fn launch(&mut self, i: usize) -> Result<u32, Refusal>
        ensures answer { IsReply (reply_at i self.old.state) result }
        ensures state { UnlessHostMemory result (self.new.state ≡ launched_at i self.old.state) }
        ensures host { result ≡ Err Refusal.HostMemory → self.new.state ≡ self.old.state }
        ensures memory { self.new.state.memory ≡ self.old.state.memory }
        ensures kept { (w : Stretch) (site : Site) → Z.made self.old.zones w site
            → Z.made self.new.zones w site }
        ensures outside { (place : ℕ) → IsFree place (launched_at i self.old.state)
            → Z.byte self.new.zones place ≡ Z.byte self.old.zones place }
    {
        match self.try_launch(i) {
            Ok(Ok(size)) => Ok(size),
            Ok(Err(code)) => Err(Refusal::Code(code)),
            Err(_) => Err(Refusal::HostMemory),
        }
    }

    /// Launches application `i`. Returns the size of its partition, or the result code for which
    /// the launch is refused.
    pub(crate) fn try_launch(&mut self, i: usize) -> Result<Result<u32, OsErr>, AllocError>
        ensures answer { IfOk result (λ reply. reply ≡ reply_at i self.old.state) }
        ensures ok { OnOk result (self.new.state ≡ launched_at i self.old.state) }
        ensures host { OnErr result (self.new.state ≡ self.old.state) }
        ensures memory { self.new.state.memory ≡ self.old.state.memory }
        ensures kept { (w : Stretch) (site : Site) → Z.made self.old.zones w site
            → Z.made self.new.zones w site }
        ensures outside { (place : ℕ) → IsFree place (launched_at i self.old.state)
            → Z.byte self.new.zones place ≡ Z.byte self.old.zones place }
    {
        let Some(seat) = self.seats.get(i) else {
            return Ok(Err(OsErr::PROFILE));
        };
        let app = seat.app;
        // The room of the launch's line is taken before the application is begun.
        self.log.reserve(app.name.0.len() + APP_ROOM)?;
        let ready = match prepared(self.alloc, seat) {
            Ok(ready) => ready,
            Err(Refusal::Code(code)) => {
                return once_written(write_app_refusal(&mut self.log, &app.name, code), Err(code));
            }
            Err(Refusal::HostMemory) => return Err(AllocError),
        };
        let begun = begin(self.alloc, &mut self.zones, &mut self.grants, ready)?;
        let Some(live) = begun else {
            return once_written(
                write_app_refusal(&mut self.log, &app.name, OsErr::MEM_FULL),
                Err(OsErr::MEM_FULL),
            );
        };
        let size = live.partition.window.len;
        seats::start_at(&mut self.seats, i, live);
        once_written(write_app_launch(&mut self.log, &app.name, size), Ok(size))
    }

    /// Takes the next step of application `i`, if there is an application of that number and it
    /// runs: its next call, or a quit if it has no call left.
    ///
    /// # Errors
    ///
    /// The host is out of memory: the log, and what each application leaves, are as after the last
    /// step that was completed. After this the desk can only be finished.
    pub fn step(&mut self, i: usize) -> Result<(), AllocError>
        ensures ok { OnOk result (self.new.state ≡ acted_at Step i self.old.state) }
        ensures within { OnErr result
            (WithinAt (λ m. halted m ≡ halted self.new.state) Step i self.old.state) }
        ensures memory { self.new.state.memory ≡ self.old.state.memory }
        ensures kept { (w : Stretch) (site : Site) → Z.made self.old.zones w site
            → Z.made self.new.zones w site }
        ensures outside { (place : ℕ) → IsFree place self.old.state
            → IsFree place self.new.state
            × (Z.byte self.new.zones place ≡ Z.byte self.old.zones place) }
    {
        self.act(i, Act::Step)
    }

    /// Takes a turn of application `i`, if there is an application of that number and it runs: its
    /// steps up to and including the next `WaitNextEvent`, or to its end.
    ///
    /// *Inside Macintosh: Processes*, chapter 1, "Scheduling of Processes".
    ///
    /// # Errors
    ///
    /// The host is out of memory: the log, and what each application leaves, are as after the last
    /// step that was completed. After this the desk can only be finished.
    pub fn turn(&mut self, i: usize) -> Result<(), AllocError>
        ensures ok { OnOk result (self.new.state ≡ acted_at Turn i self.old.state) }
        ensures within { OnErr result
            (WithinAt (λ m. halted m ≡ halted self.new.state) Turn i self.old.state) }
        ensures memory { self.new.state.memory ≡ self.old.state.memory }
        ensures kept { (w : Stretch) (site : Site) → Z.made self.old.zones w site
            → Z.made self.new.zones w site }
        ensures outside { (place : ℕ) → IsFree place self.old.state
            → IsFree place self.new.state
            × (Z.byte self.new.zones place ≡ Z.byte self.old.zones place) }
    {
        self.act(i, Act::Turn)
    }

    /// Asks application `i` to quit, which ends it, if there is an application of that number and
    /// it runs.
    ///
    /// # Errors
    ///
    /// The host is out of memory: the log, and what each application leaves, are as after the last
    /// step that was completed. After this the desk can only be finished.
    pub fn quit(&mut self, i: usize) -> Result<(), AllocError>
        ensures ok { OnOk result (self.new.state ≡ acted_at Quit i self.old.state) }
        ensures within { OnErr result
            (WithinAt (λ m. halted m ≡ halted self.new.state) Quit i self.old.state) }
        ensures memory { self.new.state.memory ≡ self.old.state.memory }
        ensures kept { (w : Stretch) (site : Site) → Z.made self.old.zones w site
            → Z.made self.new.zones w site }
        ensures outside { (place : ℕ) → IsFree place self.old.state
            → IsFree place self.new.state
            × (Z.byte self.new.zones place ≡ Z.byte self.old.zones place) }
    {
        self.act(i, Act::Quit)
    }

    /// Performs an act of application `i`, if there is an application of that number and it runs.
    /// If the application ends, its zone is closed and its window is given back before the log has
    /// the line of the end, whose room is taken first.
    pub(crate) fn act(&mut self, i: usize, act: Act) -> Result<(), AllocError>
        ensures ok { OnOk result (self.new.state ≡ acted_at act i self.old.state) }
        ensures within { OnErr result
            (WithinAt (λ m. halted m ≡ halted self.new.state) act i self.old.state) }
        ensures memory { self.new.state.memory ≡ self.old.state.memory }
        ensures kept { (w : Stretch) (site : Site) → Z.made self.old.zones w site
            → Z.made self.new.zones w site }
        ensures outside { (place : ℕ) → IsFree place self.old.state
            → IsFree place self.new.state
            × (Z.byte self.new.zones place ≡ Z.byte self.old.zones place) }
    {
        take_end_room(&mut self.log, &self.seats, i)?;
        let ended = seats::act_at(&mut self.seats, i, act)?;
        match ended {
            None => Ok(()),
            Some(departure) => {
                let Departure {
                    name,
                    window,
                    code,
                    store,
                } = departure;
                give_back(&mut self.zones, &mut self.grants, window, store);
                write_app_end(&mut self.log, name, code)
            }
        }
    }

    /// Returns the number of applications.
    pub(crate) fn count(&self) -> usize
        ensures { result ≡ length self.now.state.places }
    {
        self.seats.len()
    }

    /// Reports whether any application runs.
    pub(crate) fn any_runs(&self) -> bool
        ensures { result ≡ any_runs self.now.state }
    {
        seats::any_runs(&self.seats)
    }

    /// Returns the number of steps of the longest script.
    pub(crate) fn longest(&self) -> usize
        ensures { result ≡ longest self.now.state.places }
    {
        longest_script(&self.seats)
    }

    /// Returns what the applications leave, the desk's log, and the maker of zones, with no zone
    /// open. In the window of each application that still ran lies its zone. Takes no host memory.
    pub fn finish(self) -> Finished<Z>
        ensures apps { map told_seen result.apps.items ≡ map told self.entry.state.places }
        ensures log { result.log.items ≡ self.entry.state.log }
        ensures windows { Z.windows result.zones ≡ [] }
        ensures memory { Z.memory result.zones ≡ self.entry.state.memory }
        ensures kept { (w : Stretch) (site : Site) → Z.made self.entry.zones w site
            → Z.made result.zones w site }
        ensures lies { AllLie (Z.left result.zones) self.entry.state.places }
        ensures outside { (place : ℕ) → IsFree place self.entry.state
            → Z.byte result.zones place ≡ Z.byte self.entry.zones place }
    {
        let Desk {
            alloc: _,
            mut zones,
            mut grants,
            mut seats,
            mut outcome,
            log,
        } = self;
        'places: while !seats.is_empty() {
            let seat = seats.remove(0);
            let SeatParts { app, zone } = seats::leave(seat);
            outcome.push_reserved(app);
            release(&mut zones, &mut grants, zone);
        }
        seats.destroy_empty();
        Finished {
            apps: outcome,
            log,
            zones,
        }
    }
}

/// Takes the room of the line of an application's end, if there is an application of that number.
fn take_end_room<S: BlockStore>(
    log: &mut Vec<u8>,
    seats: &[Seat<'_, S>],
    i: usize,
) -> Result<(), AllocError>
    ensures log { log.new.items ≡ log.old.items }
    ensures room { OnOk result (IfSome (slice_get (seen seats.now) i)
        (λ p. vec_len log.new + length p.name + APP_ROOM ≤ vec_capacity log.new)) }
{
    match seats.get(i) {
        Some(seat) => log.reserve(seat.app.name.0.len() + APP_ROOM),
        None => Ok(()),
    }
}

/// Returns the reply to a launch, once its line is written.
fn once_written(
    written: Result<(), AllocError>,
    reply: Result<u32, OsErr>,
) -> Result<Result<u32, OsErr>, AllocError>
    ensures reply { IfOk result (λ told. told ≡ reply) }
    ensures written { OnOk result (IsOk written) }
    ensures failed { OnErr result (is_ok written ≡ false) }
{
    match written {
        Ok(()) => Ok(reply),
        Err(fault) => Err(fault),
    }
}

/// Closes the zone of an application, and gives the application's window back.
fn give_back<Z: ZoneMaker>(zones: &mut Z, grants: &mut Grants, window: Window, store: Z::Store)
    requires same { Z.windows zones.old ≡ grants.old.windows }
    requires made { Z.made zones.old window (Z.Store.rest store).window }
    requires out { Contains grants.old.windows window }
    ensures windows { grants.new.windows ≡ taken_out window grants.old.windows }
    ensures size { grants.new.memory ≡ grants.old.memory }
    ensures zones { Z.windows zones.new ≡ grants.new.windows }
    ensures memory { Z.memory zones.new ≡ Z.memory zones.old }
    ensures kept { (w : Stretch) (site : Site) → Z.made zones.old w site → Z.made zones.new w site }
    ensures lies { Z.left zones.new window (Z.Store.zone store) (Z.Store.rest store).slots }
    ensures left { (w : Stretch) (blocks : List Block) (slots : ℕ → Slot) → Misses w window
        → Z.left zones.old w blocks slots → Z.left zones.new w blocks slots }
    ensures outside { (place : ℕ) → IsOutside place window
        → Z.byte zones.new place ≡ Z.byte zones.old place }
{
    zones.close(window, store);
    grants.give_back(window);
}

/// Closes a zone and gives its window back, if there is one.
fn release<Z: ZoneMaker>(zones: &mut Z, grants: &mut Grants, freed: Option<OpenZone<Z::Store>>)
    requires same { Z.windows zones.old ≡ grants.old.windows }
    requires made { MadeOf (Z.made zones.old)
        (option_map (λ z. (z.window, (Z.Store.rest z.store).window)) freed) }
    requires out { IfSome (option_map (λ z. z.window) freed) (λ w. Contains grants.old.windows w) }
    ensures windows { grants.new.windows
        ≡ closed (option_map (λ z. z.window) freed) grants.old.windows }
    ensures zones { Z.windows zones.new ≡ grants.new.windows }
    ensures memory { Z.memory zones.new ≡ Z.memory zones.old }
    ensures kept { (w : Stretch) (site : Site) → Z.made zones.old w site → Z.made zones.new w site }
    ensures lies { IfSome freed (λ z.
        Z.left zones.new z.window (Z.Store.zone z.store) (Z.Store.rest z.store).slots) }
    ensures left { (w : Stretch) (blocks : List Block) (slots : ℕ → Slot)
        → IfSome (option_map (λ z. z.window) freed) (λ v. Misses w v)
        → Z.left zones.old w blocks slots → Z.left zones.new w blocks slots }
    ensures outside { (place : ℕ)
        → IfSome (option_map (λ z. z.window) freed) (λ v. IsOutside place v)
        → Z.byte zones.new place ≡ Z.byte zones.old place }
{
    if let Some(OpenZone { window, store }) = freed {
        give_back(zones, grants, window, store);
    }
}

/// Opens a fresh zone in a window that is granted. Returns `None` if there is no room.
///
/// # Errors
///
/// The host is out of memory: no window is granted.
fn open_zone<Z: ZoneMaker>(
    zones: &mut Z,
    grants: &mut Grants,
    sizes: PartitionSizes,
) -> Result<Option<OpenZone<Z::Store>>, AllocError>
    requires same { Z.windows zones.old ≡ grants.old.windows }
    requires memory { Z.memory zones.old ≡ grants.old.memory }
    requires few { length grants.old.windows < MOST_WINDOWS }
    ensures answer { IfOk result (λ o. option_map (λ z. z.window) o
        ≡ grant grants.old.memory grants.old.windows sizes.preferred sizes.minimum) }
    ensures windows { IfOk result (λ o. grants.new.windows
        ≡ opened (option_map (λ z. z.window) o) grants.old.windows) }
    ensures zone { IfOk result (λ o.
        IfSome o (λ z. Z.Store.zone z.store ≡ fresh z.window.len)) }
    ensures unused { IfOk result (λ o. IfSome o (λ z. (Z.Store.rest z.store).unused ≡ 64)) }
    ensures all { IfOk result (λ o. IfSome o (λ z. (Z.Store.rest z.store).all ≡ 64)) }
    ensures moves { IfOk result (λ o. IfSome o (λ z. (Z.Store.rest z.store).moves ≡ 0)) }
    ensures whole { IfOk result (λ o. IfSome o (λ z. z.window.len % 16 ≡ 0)) }
    ensures least { IfOk result (λ o. IfSome o (λ z. 512 ≤ z.window.len)) }
    ensures most { IfOk result (λ o. IfSome o (λ z. z.window.len ≤ GREATEST_ZONE)) }
    ensures made { IfOk result (λ o.
        IfSome o (λ z. Z.made zones.new z.window (Z.Store.rest z.store).window)) }
    ensures err { OnErr result (grants.new.windows ≡ grants.old.windows) }
    ensures size { grants.new.memory ≡ grants.old.memory }
    ensures same { Z.windows zones.new ≡ grants.new.windows }
    ensures memory { Z.memory zones.new ≡ Z.memory zones.old }
    ensures kept { (w : Stretch) (site : Site) → Z.made zones.old w site → Z.made zones.new w site }
    ensures outside { (place : ℕ)
        → IfSome (grant grants.old.memory grants.old.windows sizes.preferred sizes.minimum) (λ v.
        IsOutside place v)
        → Z.byte zones.new place ≡ Z.byte zones.old place }
{
    let Ok(window) = grants.grant(sizes.preferred, sizes.minimum) else {
        return Ok(None);
    };
    match zones.open(window) {
        Ok(store) => Ok(Some(OpenZone { window, store })),
        Err(e) => {
            grants.give_back(window);
            Err(e)
        }
    }
}

/// Launches an application in a window that is granted. Returns `None` if there is no room.
///
/// # Errors
///
/// The host is out of memory: no window is granted, and no zone stays open.
fn begin<'j, Z: ZoneMaker>(
    alloc: Global,
    zones: &mut Z,
    grants: &mut Grants,
    ready: Ready,
) -> Result<Option<Live<'j, Z::Store>>, AllocError>
    requires same { Z.windows zones.old ≡ grants.old.windows }
    requires memory { Z.memory zones.old ≡ grants.old.memory }
    requires few { length grants.old.windows < MOST_WINDOWS }
    ensures answer { IfOk result (λ o. option_map (λ l. l.partition.window) o
        ≡ grant grants.old.memory grants.old.windows ready.sizes.preferred ready.sizes.minimum) }
    ensures windows { IfOk result (λ o. grants.new.windows
        ≡ opened (option_map (λ l. l.partition.window) o) grants.old.windows) }
    ensures live { IfOk result (λ o.
        IfSome o (λ l. live_seen l ≡ begun ready.resources l.partition.window)) }
    ensures made { IfOk result (λ o.
        IfSome o (λ l. Z.made zones.new l.partition.window l.application.memory.window)) }
    ensures err { OnErr result (grants.new.windows ≡ grants.old.windows) }
    ensures size { grants.new.memory ≡ grants.old.memory }
    ensures same { Z.windows zones.new ≡ grants.new.windows }
    ensures memory { Z.memory zones.new ≡ Z.memory zones.old }
    ensures kept { (w : Stretch) (site : Site) → Z.made zones.old w site → Z.made zones.new w site }
    ensures outside { (place : ℕ) → IfSome (grant grants.old.memory grants.old.windows
        ready.sizes.preferred ready.sizes.minimum) (λ v. IsOutside place v)
        → Z.byte zones.new place ≡ Z.byte zones.old place }
{
    let Ready { resources, sizes } = ready;
    let Some(OpenZone { window, store }) = open_zone(zones, grants, sizes)? else {
        return Ok(None);
    };
    match Live::begin(alloc, window, store, resources) {
        Ok(live) => Ok(Some(live)),
        Err(store) => {
            give_back(zones, grants, window, store);
            Err(AllocError)
        }
    }
}
