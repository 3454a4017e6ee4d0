//! The events at the desk.

ghost use Rattle.std.specs.Prelude.{◌≡◌, ◌<◌, ◌≤◌, ℕ, suc, length, take, OnOk, OnErr};
ghost use Rattle.std.specs.Io.KnownBytes.{append_known};
ghost use Rattle.memory_windows.specs.declared.Window.{Window as Stretch};
ghost use Rattle.block_store.specs.Rest.{Site};
ghost use Rattle.applications.specs.Reports.{reports};
ghost use Rattle.script_text.specs.declared.job.Act.TheVariants.{Step, Turn, Quit};
ghost use Rattle.desk.specs.Desk.{launched_at, round, rested, after_event, after_events};
ghost use Rattle.desk.specs.Desk.{longest};
ghost use Rattle.desk.specs.Free.{IsFree, StaysFree};
ghost use Rattle.desk.specs.Halting.{HaltsAfter, WithinEvent, WithinRound, WithinRounds, halted};
ghost use Rattle.desk.specs.View.{seen};

use crate::desk::Desk;
use crate::seat::Seat;
use applications::{Watch, tell};
use block_store::{BlockStore, ZoneMaker};
use script_text::{Act, Event};
use std::alloc::AllocError;

/// Returns the number of steps of the longest script.
#[tactic(auto, using(crate::proofs::Rounds::longest_next))]
pub(crate) fn longest_script<S: BlockStore>(seats: &[Seat<'_, S>]) -> usize
    ensures { result ≡ longest (seen seats.now) }
{
    let mut most: usize = 0;
    for seat in seats {
        most = most.max(seat.app.script.steps().len());
    }
    most
}

impl<'j, Z: ZoneMaker> Desk<'j, Z> {
    /// Takes a round: each application in order takes a turn, if it runs.
    #[tactic(auto, using(crate::proofs::Rounds::turned_next))]
    fn round(&mut self) -> Result<(), AllocError>
        ensures ok { OnOk result (self.new.state ≡ round self.old.state) }
        ensures within { OnErr result
            (WithinRound (λ m. halted m ≡ halted self.new.state) self.old.state) }
        ensures memory { self.new.state.memory ≡ self.old.state.memory }
        ensures kept { (w : Stretch) (site : Site) → Z.made self.old.zones w site
            → Z.made self.new.zones w site }
        ensures outside { (place : ℕ) → IsFree place self.old.state
            → IsFree place self.new.state
            × (Z.byte self.new.zones place ≡ Z.byte self.old.zones place) }
    {
        let count = self.count();
        for i in 0..count {
            self.act(i, Act::Turn)?;
        }
        Ok(())
    }

    /// Takes rounds until no application runs.
    ///
    /// # Errors
    ///
    /// The host is out of memory: the log, and what each application leaves, are as after the last
    /// launch, step or quit that was completed. After this the desk can only be finished.
    #[tactic(auto, using(crate::proofs::Rounds::round_next, crate::proofs::Rounds::round_none))]
    pub fn rest(&mut self) -> Result<(), AllocError>
        ensures ok { OnOk result (self.new.state ≡ rested self.old.state) }
        ensures within { OnErr result (WithinRounds (λ m. halted m ≡ halted self.new.state)
            (suc (longest self.old.state.places)) self.old.state) }
        ensures memory { self.new.state.memory ≡ self.old.state.memory }
        ensures kept { (w : Stretch) (site : Site) → Z.made self.old.zones w site
            → Z.made self.new.zones w site }
        ensures outside { (place : ℕ) → IsFree place self.old.state
            → IsFree place self.new.state
            × (Z.byte self.new.zones place ≡ Z.byte self.old.zones place) }
    {
        let most = self.longest();
        for _ in 0..most {
            if !self.any_runs() {
                return Ok(());
            }
            self.round()?;
        }
        if self.any_runs() {
            self.round()?;
        }
        Ok(())
    }

    /// Performs an event.
    ///
    /// # Errors
    ///
    /// The host is out of memory: the log, and what each application leaves, are as after the last
    /// launch, step or quit that was completed. After this the desk can only be finished.
    pub fn serve(&mut self, event: Event) -> Result<(), AllocError>
        ensures ok { OnOk result (self.new.state ≡ after_event event self.old.state) }
        ensures within { OnErr result
            (WithinEvent (λ m. halted m ≡ halted self.new.state) event self.old.state) }
        ensures memory { self.new.state.memory ≡ self.old.state.memory }
        ensures kept { (w : Stretch) (site : Site) → Z.made self.old.zones w site
            → Z.made self.new.zones w site }
        ensures outside { (place : ℕ) → IsFree place self.old.state
            → IsFree place (after_event event self.old.state)
            → IsFree place self.new.state
            × (Z.byte self.new.zones place ≡ Z.byte self.old.zones place) }
    {
        match event {
            Event::Launch(i) => match self.try_launch(i) {
                Ok(_) => Ok(()),
                Err(fault) => Err(fault),
            },
            Event::Act(i, act) => self.act(i, act),
            Event::Rest => self.rest(),
        }
    }
}

/// Performs events, up to the first for which the host is out of memory, and informs a watch of the
/// number of events that have happened. Returns that number.
#[tactic(auto, using(crate::proofs::Rounds::events_next))]
pub(crate) fn serve_all<Z: ZoneMaker, W: Watch>(
    desk: &mut Desk<'_, Z>,
    events: &[Event],
    watch: &mut W,
) -> usize
    ensures few { result ≤ length events.now }
    ensures all { result ≡ length events.now
        → desk.new.state ≡ after_events events.now desk.old.state }
    ensures within { result < length events.now
        → HaltsAfter (λ m. halted m ≡ halted desk.new.state) result events.now desk.old.state }
    ensures memory { desk.new.state.memory ≡ desk.old.state.memory }
    ensures kept { (w : Stretch) (site : Site) → Z.made desk.old.zones w site
        → Z.made desk.new.zones w site }
    ensures outside { (place : ℕ) → StaysFree place (take (suc result) events.now) desk.old.state
        → IsFree place desk.new.state
        × (Z.byte desk.new.zones place ≡ Z.byte desk.old.zones place) }
    ensures heard { W.heard watch.new
        ≡ append_known (W.heard watch.old) (reports result (length events.now)) }
{
    for (index, event) in events.iter().enumerate() {
        match desk.serve(*event) {
            Ok(()) => tell(watch, index + 1, events.len()),
            Err(_) => return index,
        }
    }
    events.len()
}
