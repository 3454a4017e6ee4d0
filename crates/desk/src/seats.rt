//! The places of the desk.

ghost use Rattle.std.specs.Prelude.{◌≡◌, ◌⊎◌, ◌<◌, length, map, Some, None, option_map, Result};
ghost use Rattle.std.specs.Prelude.{IfOk, OnOk, OnErr, IfSome, slice_get, slice_set, vec_len, true};
ghost use Rattle.std.specs.Prelude.{IsTrue};
ghost use Rattle.std.specs.List.{list_all, list_any};
ghost use Rattle.mac_words.specs.declared.code.OsErr.{OsErr as Code};
ghost use Rattle.fork_format.specs.Content.{Group as GroupValue};
ghost use Rattle.fork_format.specs.Canonical.{has_refs, are_distinct};
ghost use Rattle.fork_format.specs.View.{view};
ghost use Rattle.res_calls.specs.Files.{Resources as Opened};
ghost use Rattle.desk.specs.Phase.{Running, acted_by, is_quit, window_of, runs, waits, told_of};
ghost use Rattle.desk.specs.Desk.{Place, places_acted, left_by, told};
ghost use Rattle.desk.specs.Job.{place_given};
ghost use Rattle.desk.specs.Halting.{WithinPhase, WithinPlaces};
ghost use Rattle.desk.specs.Held.{Fewer, holders};
ghost use Rattle.desk.specs.Live.{lot_of_live, live_seen};
ghost use Rattle.desk.specs.Lying.{IsHeapOf};
ghost use Rattle.desk.specs.View.{place_seen, phase_seen, is_waiting, seen, lot_of, lots, left_of};
ghost use Rattle.desk.specs.View.{told_seen};

use crate::departure::{Departure, LiveParts, SeatParts};
use crate::job::App;
use crate::live::Live;
use crate::outcome::AppOutcome;
use crate::partition::OpenZone;
use crate::seat::{Phase, Seat, SystemFile};
use block_store::BlockStore;
use core::mem::replace_with;
use fork_format::Content;
use mac_words::Label;
use script_text::Act;
use std::alloc::{AllocError, Global};

/// Returns a place for each application, at which it waits for its launch.
pub(crate) fn places<'j, S: BlockStore>(
    alloc: Global,
    system: &'j Content<'j>,
    apps: &'j [App],
) -> Result<Vec<Seat<'j, S>>, AllocError>
    requires types { IsTrue
        (are_distinct (map (λ (g : GroupValue). g.kind) (view system.now).groups)) }
    requires references { IsTrue (list_all has_refs (view system.now).groups) }
    ensures places { IfOk result (λ seats. seen seats.items
        ≡ map (place_given (view system.now)) apps.now) }
    ensures lots { IfOk result (λ seats. lots seats.items ≡ map (λ app. None) apps.now) }
    ensures len { IfOk result (λ seats. vec_len seats ≡ length apps.now) }
{
    let mut seats = Vec::new(alloc);
    if seats.reserve(apps.len()).is_err() {
        seats.destroy_empty();
        return Err(AllocError);
    }
    for app in apps {
        let seat = Seat {
            system: SystemFile { content: system },
            app,
            phase: Phase::Waiting,
        };
        match seats.push(seat) {
            Ok(()) => {}
            Err(_) => unreachable!(),
        }
    }
    Ok(seats)
}

/// Performs an act of application `i`, if there is an application of that number and it runs.
/// Returns what the application gives back if it ends.
///
/// # Errors
///
/// The host is out of memory: after this the application can only be closed. It leaves what it left
/// after the last step that was completed.
pub(crate) fn act_at<'j, S: BlockStore>(
    seats: &mut Vec<Seat<'j, S>>,
    i: usize,
    act: Act,
) -> Result<Option<Departure<'j, S>>, AllocError>
    ensures places { OnOk result (seen seats.new.items
        ≡ places_acted act i (slice_get (seen seats.old.items) i) (seen seats.old.items)) }
    ensures left { IfOk result (λ d. option_map left_of d
        ≡ left_by act (slice_get (seen seats.old.items) i)) }
    ensures name { IfOk result (λ d. IfSome d (λ d. option_map (λ (p : Place). p.name)
        (slice_get (seen seats.old.items) i) ≡ Some d.name.now.0.items)) }
    ensures lot { IfOk result (λ d. IfSome d (λ d. slice_get (lots seats.old.items) i
        ≡ Some (Some (d.window, (S.rest d.store).window)))) }
    ensures fewer { Fewer (lots seats.old.items) (lots seats.new.items) }
    ensures held { OnErr result (holders (seen seats.new.items) ≡ holders (seen seats.old.items)) }
    ensures within { OnErr result (WithinPlaces (λ places. map told places
        ≡ map told (seen seats.new.items)) act i (seen seats.old.items)) }
    ensures len { vec_len seats.new ≡ vec_len seats.old }
{
    if i < seats.len() {
        let seat = &mut seats[i];
        let app = seat.app;
        replace_with(&mut seat.phase, (app, act), advance)
    } else {
        Ok(None)
    }
}

/// Returns the phase of an application after an act, and what the application gives back if it
/// ends.
fn advance<'j, S: BlockStore>(
    phase: Phase<'j, S>,
    what: (&'j App, Act),
) -> (Phase<'j, S>, Result<Option<Departure<'j, S>>, AllocError>)
    ensures after { (start : Result Opened Code) → OnOk result.1 (phase_seen start result.0
        ≡ (acted_by what.entry.1 what.entry.0.now.script (phase_seen start phase.entry)).phase) }
    ensures left { (start : Result Opened Code) → IfOk result.1 (λ d. option_map left_of d
        ≡ (acted_by what.entry.1 what.entry.0.now.script (phase_seen start phase.entry)).left) }
    ensures name { IfOk result.1 (λ d. IfSome d (λ d. d.name.now ≡ what.entry.0.now.name)) }
    ensures lot { IfOk result.1 (λ d.
        IfSome d (λ d. lot_of phase.entry ≡ Some (d.window, (S.rest d.store).window))) }
    ensures fewer { (lot_of result.0 ≡ None) ⊎ (lot_of result.0 ≡ lot_of phase.entry) }
    ensures held { (start : Result Opened Code) → OnErr result.1
        (window_of (phase_seen start result.0) ≡ window_of (phase_seen start phase.entry)) }
    ensures within { (start : Result Opened Code)
        → OnErr result.1 (WithinPhase (λ q. told_of q ≡ told_of (phase_seen start result.0))
        what.entry.1 what.entry.0.now.script (phase_seen start phase.entry)) }
{
    let (app, act) = what;
    let mut live = match phase {
        Phase::Running(live) => live,
        Phase::Waiting => return (Phase::Waiting, Ok(None)),
        Phase::Ended(launched) => return (Phase::Ended(launched), Ok(None)),
    };
    match live.act(&app.script, act) {
        Ok(None) => (Phase::Running(live), Ok(None)),
        Ok(Some(code)) => {
            let LiveParts { launched, zone } = live.leave(is_asked(act));
            let OpenZone { window, store } = zone;
            let departure = Departure {
                name: &app.name,
                window,
                code,
                store,
            };
            (Phase::Ended(launched), Ok(Some(departure)))
        }
        Err(fault) => (Phase::Running(live), Err(fault)),
    }
}

/// Reports whether the end of an act is one that was asked for.
fn is_asked(act: Act) -> bool
    ensures { result ≡ is_quit act }
{
    match act {
        Act::Step | Act::Turn => false,
        Act::Quit => true,
    }
}

/// Makes the waiting application `i` run.
pub(crate) fn start_at<'j, S: BlockStore>(seats: &mut Vec<Seat<'j, S>>, i: usize, live: Live<'j, S>)
    requires waits { IfSome (slice_get (seen seats.old.items) i) (λ p. waits p.phase ≡ true) }
    requires there { i < vec_len seats.old }
    ensures places { IfSome (slice_get (seen seats.old.items) i) (λ p. seen seats.new.items
        ≡ slice_set (seen seats.old.items) i
        (record p { phase = Running (live_seen live.entry) })) }
    ensures lots { lots seats.new.items
        ≡ slice_set (lots seats.old.items) i (Some (lot_of_live live.entry)) }
    ensures len { vec_len seats.new ≡ vec_len seats.old }
{
    let seat = &mut seats[i];
    replace_with(&mut seat.phase, live, occupy);
}

/// Returns the phase of a waiting application that begins to run.
fn occupy<'j, S: BlockStore>(phase: Phase<'j, S>, live: Live<'j, S>) -> (Phase<'j, S>, ())
    requires waits { is_waiting phase ≡ true }
    ensures after { (start : Result Opened Code)
        → phase_seen start result.0 ≡ Running (live_seen live.entry) }
    ensures lot { lot_of result.0 ≡ Some (lot_of_live live.entry) }
{
    match phase {
        Phase::Waiting => (Phase::Running(live), ()),
        _ => unreachable!(),
    }
}

/// Returns what an application leaves, with its zone, if that is open.
pub(crate) fn leave<'j, S: BlockStore>(seat: Seat<'j, S>) -> SeatParts<S>
    ensures told { told_seen result.app ≡ told (place_seen seat.entry) }
    ensures window { option_map (λ z. z.window) result.zone
        ≡ window_of (place_seen seat.entry).phase }
    ensures lot { option_map (λ z. (z.window, (S.rest z.store).window)) result.zone
        ≡ lot_of seat.entry.phase }
    ensures zone { IfSome result.zone (λ z.
        IsHeapOf (place_seen seat.entry).phase (S.zone z.store) (S.rest z.store).slots) }
{
    let Seat {
        system: _,
        app,
        phase,
    } = seat;
    let (launched, zone) = match phase {
        Phase::Waiting => (None, None),
        Phase::Running(live) => {
            let LiveParts { launched, zone } = live.leave(false);
            (Some(launched), Some(zone))
        }
        Phase::Ended(launched) => (Some(launched), None),
    };
    let name = own_name(&app.name);
    SeatParts {
        app: AppOutcome { name, launched },
        zone,
    }
}

/// Returns a copy of a name.
fn own_name(name: &Label) -> Label
    ensures { result.0.items ≡ name.now.0.items }
{
    match name.clone() {
        Ok(name) => name,
        Err(_) => unreachable!(),
    }
}

/// Reports whether the application of a place runs.
fn is_running<S: BlockStore>(seat: &Seat<'_, S>) -> bool
    ensures { result ≡ runs (place_seen seat.now).phase }
{
    matches!(seat.phase, Phase::Running(_))
}

/// Reports whether any application runs.
pub(crate) fn any_runs<S: BlockStore>(seats: &[Seat<'_, S>]) -> bool
    ensures { result ≡ list_any (λ (p : Place). runs p.phase) (seen seats.now) }
{
    for seat in seats {
        if is_running(seat) {
            return true;
        }
    }
    false
}
