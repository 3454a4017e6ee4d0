//! An application that runs at the desk.

ghost use Rattle.std.specs.Prelude.{◌≡◌, ◌+◌, ◌%◌, ◌^◌, ◌<◌, ◌≤◌, Bool, false, true, drop, length};
ghost use Rattle.std.specs.Prelude.{slice_get, Some, IfOk, IfErr, OnErr};
ghost use Rattle.block_store.specs.Block.{fresh};
ghost use Rattle.block_store.specs.declared.measures.TheConstants.{GREATEST_ZONE};
ghost use Rattle.heap_calls.specs.Stored.{IsStored};
ghost use Rattle.applications.specs.Step.{step};
ghost use Rattle.applications.specs.Replies.{Extends, end_by};
ghost use Rattle.desk.specs.Phase.{begun, ends, called, run_out, stepped, turned, quitted, acted};
ghost use Rattle.desk.specs.Phase.{is_quit, leaves};
ghost use Rattle.desk.specs.Halting.{WithinTurn, WithinAct};
ghost use Rattle.desk.specs.Live.{live_seen, HasCome, LeavesAs, lot_of_live, leaves_seen};
ghost use Rattle.desk.specs.Lying.{heap_of};

use crate::departure::LiveParts;
use crate::outcome::Launched;
use crate::partition::{OpenZone, Partition};
use applications::{Application, Exit, ends_turn};
use block_store::BlockStore;
use mac_words::OsErr;
use memory_windows::Window;
use res_calls::Resources;
use script_text::{Act, END_ROOM, Line, Script, write_end, write_launch};
use std::alloc::{AllocError, Global};

/// An application that runs in a window of the memory, with the number of steps that it took since
/// its launch.
pub struct Live<'j, S: BlockStore> {
    pub(crate) application: Application<'j, S>,
    pub(crate) partition: Partition,
    /// The number of steps that the application took.
    pub(crate) steps: usize,
    /// The transcript so far.
    pub(crate) text: Vec<u8>,
}

impl<'j, S: BlockStore> Live<'j, S> {
    /// Launches an application with the given resources in the store of a fresh zone, which fills
    /// the window.
    ///
    /// # Errors
    ///
    /// The host is out of memory: the store is returned, where it lay.
    pub(crate) fn begin(
        alloc: Global,
        window: Window,
        store: S,
        resources: Resources,
    ) -> Result<Self, S>
        requires zone { S.zone store ≡ fresh window.len }
        requires unused { (S.rest store).unused ≡ 64 }
        requires all { (S.rest store).all ≡ 64 }
        requires moves { (S.rest store).moves ≡ 0 }
        requires whole { window.len % 16 ≡ 0 }
        requires least { 512 ≤ window.len }
        requires most { window.len ≤ GREATEST_ZONE }
        ensures live { IfOk result (λ live. live_seen live ≡ begun resources window) }
        ensures window { IfOk result (λ live. live.partition.window ≡ window) }
        ensures lies { IfOk result (λ live. live.application.memory.window
            ≡ (S.rest store).window) }
        ensures back { IfErr result (λ back. (S.rest back).window ≡ (S.rest store).window) }
    {
        let mut text = Vec::new(alloc);
        let Ok(()) = write_launch(&mut text, window.len) else {
            return Err(store);
        };
        let application = Application::launch_with(alloc, store, resources)?;
        Ok(Live {
            application,
            partition: Partition { window },
            steps: 0,
            text,
        })
    }

    /// Ends the application with the given exit, and appends the line of the end to the transcript.
    /// Where the host is out of memory, the transcript and the files stay as they were: the room of
    /// the line is taken first.
    fn end(&mut self, exit: Option<Exit>) -> Result<OsErr, AllocError>
        ensures came { (asked : Bool) → IfOk result (λ code. HasCome asked (ends asked
            (end_by exit (live_seen self.old).state) (live_seen self.old)) (Some code) self.new) }
        ensures stays { OnErr result (LeavesAs (live_seen self.old) self.new) }
        ensures lies { self.new.application.memory.window ≡ self.old.application.memory.window }
        ensures window { self.new.partition ≡ self.old.partition }
    {
        self.text.reserve(END_ROOM)?;
        let code = self.application.end(exit)?;
        write_end(&mut self.text, code)?;
        Ok(code)
    }

    /// Takes the next call, or quits if no call is left; the quit counts as a step. If the
    /// application ends with the call, its end is part of the step. Where the host is out of memory,
    /// the transcript may have the lines of the call.
    fn take_step(&mut self, script: &'j Script) -> Result<Option<OsErr>, AllocError>
        ensures came { IfOk result (λ end.
            HasCome false (stepped script.now (live_seen self.old)) end self.new) }
        ensures front { OnErr result (Extends self.old.text.items self.new.text.items) }
        ensures files { OnErr result (self.new.application.resources.files
            ≡ self.old.application.resources.files) }
        ensures lies { self.new.application.memory.window ≡ self.old.application.memory.window }
        ensures window { self.new.partition ≡ self.old.partition }
    {
        let Some(line) = script.steps().get(self.steps) else {
            self.steps = script.steps().len() + 1;
            return Ok(Some(self.end(None)?));
        };
        self.steps += 1;
        match self.application.step(script, line, &mut self.text)? {
            Some(exit) => Ok(Some(self.end(Some(exit))?)),
            None => Ok(None),
        }
    }

    /// Takes a step: the next call, or a quit if no call is left. Returns the result code of the
    /// end if the application ends. Where the host is out of memory, the application leaves what it
    /// left before the step: its lines are cut off, and the step does not count.
    fn step(&mut self, script: &'j Script) -> Result<Option<OsErr>, AllocError>
        ensures came { IfOk result (λ end.
            HasCome false (stepped script.now (live_seen self.old)) end self.new) }
        ensures stays { OnErr result (LeavesAs (live_seen self.old) self.new) }
        ensures lies { self.new.application.memory.window ≡ self.old.application.memory.window }
        ensures window { self.new.partition ≡ self.old.partition }
    {
        let (steps, length) = (self.steps, self.text.len());
        let end = self.take_step(script);
        if end.is_err() {
            self.steps = steps;
            self.text.truncate(length);
        }
        end
    }

    /// Takes a turn: steps up to and including the next `WaitNextEvent`, or to the end.
    fn turn(&mut self, script: &'j Script) -> Result<Option<OsErr>, AllocError>
        ensures came { IfOk result (λ end.
            HasCome false (turned script.now (live_seen self.old)) end self.new) }
        ensures within { OnErr result (WithinTurn (λ m. LeavesAs m self.new)
            (drop self.old.steps script.now.steps) script.now (live_seen self.old)) }
        ensures lies { self.new.application.memory.window ≡ self.old.application.memory.window }
        ensures window { self.new.partition ≡ self.old.partition }
    {
        for line in rest_of(script, self.steps) {
            let end = self.step(script)?;
            if end.is_some() || ends_turn(&line.call) {
                return Ok(end);
            }
        }
        self.step(script)
    }

    /// Performs an act. Returns the result code of the end if the application ends.
    ///
    /// # Errors
    ///
    /// The host is out of memory: after this the application can only be closed. It leaves what it
    /// left after the last step that was completed. Its zone stays where it lies.
    pub(crate) fn act(&mut self, script: &'j Script, act: Act) -> Result<Option<OsErr>, AllocError>
        ensures came { IfOk result (λ end.
            HasCome (is_quit act) (acted act script.now (live_seen self.old)) end self.new) }
        ensures within { OnErr result
            (WithinAct (λ m. LeavesAs m self.new) act script.now (live_seen self.old)) }
        ensures lies { self.new.application.memory.window ≡ self.old.application.memory.window }
        ensures window { self.new.partition ≡ self.old.partition }
    {
        match act {
            Act::Step => self.step(script),
            Act::Turn => self.turn(script),
            Act::Quit => Ok(Some(self.end(None)?)),
        }
    }

    /// Returns what the application leaves as it stands, with its zone. `asked` says whether it was
    /// asked to quit.
    pub(crate) fn leave(self, asked: bool) -> LiveParts<S>
        ensures launched { leaves_seen result.launched ≡ leaves asked (live_seen self.entry) }
        ensures lot { (result.zone.window, (S.rest result.zone.store).window)
            ≡ lot_of_live self.entry }
        ensures heap { IsStored (S.zone result.zone.store) (S.rest result.zone.store).slots
            (heap_of (live_seen self.entry)) }
    {
        let Live {
            application,
            partition,
            steps,
            text,
        } = self;
        let (store, files) = application.into_parts();
        let launched = Launched {
            size: partition.window.len,
            steps,
            asked,
            transcript: text,
            files,
        };
        LiveParts {
            launched,
            zone: OpenZone {
                window: partition.window,
                store,
            },
        }
    }
}

/// Returns the lines of a script after the first `n`.
fn rest_of(script: &Script, n: usize) -> &[Line]
    ensures { result.now ≡ drop n script.now.steps }
{
    match script.steps().get(n..) {
        Some(lines) => lines,
        None => &[],
    }
}
