//! The transcript and the files of an application that runs alone.

ghost use Rattle.std.specs.Prelude.{◌≡◌, ◌%◌, ◌≤◌, ◌++◌, ◌||◌, ℕ, map, take, length, nat_lt, IfOk};
ghost use Rattle.std.specs.Prelude.{IfErr, OnOk, OnErr};
ghost use Rattle.std.specs.Io.KnownBytes.{append_known};
ghost use Rattle.block_store.specs.Block.{fresh, sizes};
ghost use Rattle.block_store.specs.declared.measures.TheConstants.{GREATEST_ZONE, LEAST_ZONE};
ghost use Rattle.heap_calls.specs.Stored.{IsStored};
ghost use Rattle.res_calls.specs.View.{view_file};
ghost use Rattle.applications.specs.Step.{course_of};
ghost use Rattle.applications.specs.Application.{lines_told};
ghost use Rattle.applications.specs.Alone.{alone, heap_alone, ending_of, left_after, end_told};
ghost use Rattle.applications.specs.Reports.{reports};
ghost use Rattle.applications.specs.Stopping.{steps_taken, steps_alone};
ghost use Rattle.applications.specs.Replies.{end_if, left_if};

use crate::application::Application;
use crate::quitting::Exit;
use crate::watch::{Unwatched, Watch};
use block_store::BlockStore;
use list_store::ListStore;
use res_calls::{File, Resources};
use script_text::{Line, Script, write_end, write_launch};
use std::alloc::{AllocError, Global};
use std::marker::Model;

/// The results of an application that ran alone: its transcript, and its files as they were left.
#[derive(Drop)]
pub struct Given {
    transcript: Vec<u8>,
    files: Vec<File>,
}

impl Model for Given {
    ghost use Rattle.std.specs.Prelude.{map};
    ghost use Rattle.res_calls.specs.View.{view_file};
    ghost use Rattle.applications.specs.Alone as gives;

    ghost Value = { gives.Alone };

    ghost view = { λ g.
        record { transcript = g.transcript.items; files = map view_file g.files.items } };
}

impl Given {
    /// Returns the transcript.
    pub fn into_transcript(self) -> Vec<u8>
        ensures { result.items ≡ self.transcript }
    {
        self.transcript
    }

    /// Returns the files of the application, in order.
    pub fn files(&self) -> &[File]
        ensures { map view_file result.now ≡ self.now.files }
    {
        &self.files
    }
}

/// Returns the first `n` lines, or all lines where there are fewer.
fn first(lines: &[Line], n: usize) -> &[Line]
    ensures { result.now ≡ take n lines.now }
{
    match lines.get(..n) {
        Some(first) => first,
        None => lines,
    }
}

/// Reports whether the application is to quit: because `quit` says so, or because the number of
/// steps passes the last line.
fn is_asked(lines: &[Line], steps: usize, quit: bool) -> bool
    ensures { result ≡ (nat_lt (length lines.now) steps || quit) }
{
    lines.len() < steps || quit
}

impl<'s, S: BlockStore> Application<'s, S> {
    /// Ends the application where a call ended it or a quit is asked for, and appends the line of
    /// the end to `text`.
    fn end_if(
        &mut self,
        exit: Option<Exit>,
        asked: bool,
        text: &mut Vec<u8>,
    ) -> Result<(), AllocError>
        ensures text { OnOk result (text.new.items
            ≡ text.old.items ++ end_told (end_if exit asked self.old)) }
        ensures after { OnOk result (self.new ≡ left_if exit asked self.old) }
        ensures lies { self.new.memory.window ≡ self.old.memory.window }
    {
        if exit.is_none() && !asked {
            return Ok(());
        }
        let code = self.end(exit)?;
        write_end(text, code)
    }

    /// Takes the lines of a script in order, and ends the application where a call ends it or a
    /// quit is asked for. Appends the lines of the transcript, and the line of the end, to `text`,
    /// and reports the number of steps done to the watch. Where the host is out of memory, the
    /// reports are those of the steps that were completed.
    #[tactic(auto, using(crate::proofs::Quits::gives_so))]
    fn give<W: Watch>(
        &mut self,
        script: &'s Script,
        lines: &[Line],
        asked: bool,
        text: &mut Vec<u8>,
        watch: &mut W,
    ) -> Result<(), AllocError>
        ensures text { OnOk result (text.new.items
            ≡ text.old.items ++ lines_told (course_of script.now.blocks lines.now self.old).lines
            ++ end_told (ending_of asked (course_of script.now.blocks lines.now self.old))) }
        ensures after { OnOk result (self.new
            ≡ left_after asked (course_of script.now.blocks lines.now self.old)) }
        ensures heard { OnOk result (W.heard watch.new ≡ append_known (W.heard watch.old)
            (reports (steps_taken script.now.blocks lines.now self.old) (length lines.now))) }
        ensures stopped { OnErr result ((k : ℕ)
            × (k ≤ steps_taken script.now.blocks lines.now self.old)
            × (W.heard watch.new
            ≡ append_known (W.heard watch.old) (reports k (length lines.now)))) }
        ensures lies { self.new.memory.window ≡ self.old.memory.window }
    {
        let exit = self.run(script, lines, text, watch)?;
        self.end_if(exit, asked, text)
    }
}

/// Returns what an application with these resources leaves when it runs alone, and takes `steps`
/// steps of its script in the store of a fresh zone, which is its partition. The transcript has the
/// line of the launch, the lines of each call, and the line of the end where the application ends.
/// The application ends where a call ends it; the application quits after its last step, where
/// `steps` passes that step, and where `quit` asks for a quit. The store is returned in its place,
/// with the heap as the application left it. The number of steps done is reported to the watch.
///
/// # Errors
///
/// Returns an error where the host is out of memory; the store is returned all the same, and the
/// reports are those of the steps that were completed.
pub fn give_in<S: BlockStore, W: Watch>(
    alloc: Global,
    store: S,
    resources: Resources,
    script: &Script,
    steps: usize,
    quit: bool,
    watch: &mut W,
) -> (Result<Given, AllocError>, S)
    requires zone { S.zone store ≡ fresh (sizes (S.zone store)) }
    requires unused { (S.rest store).unused ≡ 64 }
    requires all { (S.rest store).all ≡ 64 }
    requires moves { (S.rest store).moves ≡ 0 }
    ensures given { IfOk result.0 (λ given. given
        ≡ alone resources (sizes (S.zone store)) script.now steps quit) }
    ensures stored { IfOk result.0 (λ _. IsStored (S.zone result.1) (S.rest result.1).slots
        (heap_alone resources (sizes (S.zone store)) script.now steps quit)) }
    ensures heard { IfOk result.0 (λ _. W.heard watch.new ≡ append_known (W.heard watch.old)
        (reports (steps_alone resources (sizes (S.zone store)) script.now steps)
        (length (take steps script.now.steps)))) }
    ensures stopped { IfErr result.0 (λ _. (k : ℕ)
        × (k ≤ steps_alone resources (sizes (S.zone store)) script.now steps)
        × (W.heard watch.new
        ≡ append_known (W.heard watch.old) (reports k (length (take steps script.now.steps))))) }
    ensures window { (S.rest result.1).window ≡ (S.rest store).window }
{
    let mut transcript = Vec::new(alloc);
    let Ok(()) = write_launch(&mut transcript, store.len()) else {
        return (Err(AllocError), store);
    };
    let mut application = match Application::launch_with(alloc, store, resources) {
        Ok(application) => application,
        Err(store) => return (Err(AllocError), store),
    };
    let lines = script.steps();
    let asked = is_asked(lines, steps, quit);
    let given = application.give(script, first(lines, steps), asked, &mut transcript, watch);
    let (store, files) = application.into_parts();
    match given {
        Ok(()) => (Ok(Given { transcript, files }), store),
        Err(fault) => (Err(fault), store),
    }
}

/// Returns what an application leaves when it runs alone, as `give_in` does, in a partition of
/// `size` bytes that is kept in lists and without a watch.
///
/// # Errors
///
/// Returns an error where the host is out of memory.
pub fn give_alone(
    alloc: Global,
    size: u32,
    resources: Resources,
    script: &Script,
    steps: usize,
    quit: bool,
) -> Result<Given, AllocError>
    requires even { size % 16 ≡ 0 }
    requires low { LEAST_ZONE ≤ size }
    requires high { size ≤ GREATEST_ZONE }
    ensures { IfOk result (λ given. given ≡ alone resources size script.now steps quit) }
{
    let store = ListStore::new(alloc, size)?;
    let (given, store) = give_in(alloc, store, resources, script, steps, quit, &mut Unwatched);
    drop(store);
    given
}
