//! A step of an application: a call is tried, and tried again as long as the grow-zone script makes
//! room.

ghost use Rattle.std.specs.Prelude.{List};
ghost use Rattle.std.specs.Prelude.{◌≡◌, ◌++◌, ◌+◌, ◌≤◌, ℕ, [], length, false, true, None, IfOk};
ghost use Rattle.std.specs.Prelude.{IsOk, OnOk, OnErr, is_some, nat_lt, vec_len};
ghost use Rattle.std.specs.Io.KnownBytes.{append_known};
ghost use Rattle.std.specs.Vec.{vec_capacity};
ghost use Rattle.heap_calls.specs.Staying.{ease};
ghost use Rattle.script_text.specs.Call.{word_of};
ghost use Rattle.script_text.specs.Script.{are_allowed};
ghost use Rattle.script_text.specs.declared.transcript.TheConstants.{CODE_ROOM};
ghost use Rattle.script_text.specs.declared.word.CallWord.{CallWord as Word};
ghost use Rattle.script_text.specs.Transcript.{call_at, reply_line, values_of};
ghost use Rattle.applications.specs.Trying.{once};
ghost use Rattle.applications.specs.Step.{marked, marked_for, grown, grown_for, kept_anew};
ghost use Rattle.applications.specs.Step.{names_given, round, step, course_of, turn};
ghost use Rattle.applications.specs.Step as steps;
ghost use Rattle.applications.specs.Inside.{Glance, glances, glances_for, glances_grown};
ghost use Rattle.applications.specs.Inside.{glances_try};
ghost use Rattle.applications.specs.Application.{bytes_told};
ghost use Rattle.applications.specs.Replies.{Came, CameRound, exit_of, Extends, goes_on};
ghost use Rattle.applications.specs.Reports.{reports};
ghost use Rattle.applications.specs.Stopping.{steps_taken, StopsAfter};

use crate::application::Application;
use crate::finding::named_resource;
use crate::onlooker::{Onlooker, Unseen};
use crate::quitting::Exit;
use crate::tried::Tried;
use crate::trying::{Arguments, named};
use crate::turns::up_to_wait;
use crate::watch::{Unwatched, Watch, tell};
use block_store::BlockStore;
use mac_words::{Call, HeapCall, ResourceCall};
use script_text::{CallWord, LINE_ROOM, Line, Script, write_grow_reply, write_reply};
use std::alloc::AllocError;

/// What is done after a round of a step.
#[derive(Clone, Copy)]
pub(crate) enum Next {
    /// The call is tried again.
    Again,
    /// The call has ended, and the application ends with the call as the `Exit` says, if there is
    /// one.
    Ended(Option<Exit>),
}

/// Returns room, in bytes, that is enough for the line of any call at this number of a line, where
/// the reply has no values.
#[tactic(auto, using(crate::proofs::LineRoom::line_fits))]
fn room_at(_number: usize) -> usize
    ensures { (word : Word) → length (call_at _number word) + CODE_ROOM ≤ result }
{
    LINE_ROOM
}

impl<'s, S: BlockStore> Application<'s, S> {
    /// Marks the handle or the pointer of a number as busy, or as idle again.
    fn mark_number(&mut self, busy: bool, number: Option<usize>)
        ensures { self.new ≡ record self.old { memory = marked busy number self.old.memory } }
    {
        if let Some(number) = number {
            self.heap.set_busy(number, busy);
        }
    }

    /// Marks the handles and pointers that a call names, and the empty handle that the call would
    /// have read again, as busy, or as idle again.
    fn mark(&mut self, busy: bool, call: &Call, reading: Option<usize>)
        ensures { self.new ≡ marked_for busy call.now reading self.old }
    {
        match call {
            Call::Heap(call) => {
                let Arguments { first, second } = named(call, &self.names);
                self.mark_number(busy, first);
                self.mark_number(busy, second);
                self.mark_number(busy, reading);
            }
            Call::Resource(call) => {
                let handle = named_resource(call, &self.names);
                self.mark_number(busy, handle);
                self.mark_number(busy, reading);
            }
            Call::Segment(_) => self.mark_number(busy, reading),
            Call::Control(_) => {}
        }
    }

    /// Runs the lines of a grow-zone script in order, and appends the lines of their transcript to
    /// `text`.
    fn take_lines<O: Onlooker>(
        &mut self,
        script: &'s Script,
        lines: &[Line],
        text: &mut Vec<u8>,
        onlooker: &mut O,
    ) -> Result<(), AllocError>
        requires allowed { are_allowed lines.now ≡ true }
        ensures came { OnOk result (Came (grown script.now.blocks lines.now self.old) text.old.items
            text.new.items self.new) }
        ensures saw { OnOk result ((before : List Glance) → O.saw onlooker.old before
            → O.saw onlooker.new (before ++ glances_grown script.now.blocks lines.now self.old)) }
        ensures front { Extends text.old.items text.new.items }
        ensures files { self.new.resources.files ≡ self.old.resources.files }
        ensures lies { self.new.memory.window ≡ self.old.memory.window }
    {
        for line in lines {
            let tried = self.once(script, &line.call)?;
            onlooker.look(self, true, line, tried.reply.code)?;
            let shown = self.shown(&line.call);
            write_grow_reply(
                text,
                line.number,
                CallWord::of(&line.call),
                &tried.reply,
                shown,
            )?;
        }
        Ok(())
    }

    /// Runs the grow-zone script for a call that found no room, while the handles and pointers that
    /// the call names are busy.
    fn ask_script<O: Onlooker>(
        &mut self,
        script: &'s Script,
        line: &Line,
        reading: Option<usize>,
        text: &mut Vec<u8>,
        onlooker: &mut O,
    ) -> Result<(), AllocError>
        ensures came { OnOk result (Came (grown_for script.now.blocks line.now reading self.old)
            text.old.items text.new.items self.new) }
        ensures saw { OnOk result ((before : List Glance) → O.saw onlooker.old before
            → O.saw onlooker.new (before
            ++ glances_for script.now.blocks line.now reading self.old)) }
        ensures front { Extends text.old.items text.new.items }
        ensures files { self.new.resources.files ≡ self.old.resources.files }
        ensures lies { self.new.memory.window ≡ self.old.memory.window }
    {
        let lines = self.grow;
        self.mark(true, &line.call, reading);
        self.take_lines(script, lines, text, onlooker)?;
        self.mark(false, &line.call, reading);
        Ok(())
    }

    /// Runs the grow-zone script for a call that found no room, and reports whether more bytes can
    /// be had after the script than before it. Without a grow-zone script nothing can have changed,
    /// and no block is examined.
    fn ask_for_room<O: Onlooker>(
        &mut self,
        script: &'s Script,
        line: &Line,
        reading: Option<usize>,
        text: &mut Vec<u8>,
        onlooker: &mut O,
    ) -> Result<bool, AllocError>
        ensures came { OnOk result (Came (grown_for script.now.blocks line.now reading self.old)
            text.old.items text.new.items self.new) }
        ensures saw { OnOk result ((before : List Glance) → O.saw onlooker.old before
            → O.saw onlooker.new (before
            ++ glances_for script.now.blocks line.now reading self.old)) }
        ensures room { IfOk result (λ made.
            made ≡ nat_lt (ease self.old.memory.heap.zone) (ease self.new.memory.heap.zone)) }
        ensures front { Extends text.old.items text.new.items }
        ensures files { self.new.resources.files ≡ self.old.resources.files }
        ensures lies { self.new.memory.window ≡ self.old.memory.window }
    {
        if self.grow.is_empty() {
            self.ask_script(script, line, reading, text, onlooker)?;
            return Ok(false);
        }
        let before = self.heap.free_or_purgeable();
        self.ask_script(script, line, reading, text, onlooker)?;
        Ok(before < self.heap.free_or_purgeable())
    }

    /// Sets the code of the call's manager to the code of a call whose answer stands, since the
    /// calls of the grow-zone script have set it since.
    fn keep_anew(&mut self, call: &Call, tried: &Tried)
        ensures { self.new ≡ kept_anew call.now tried.now.reply.code self.old }
    {
        match call {
            Call::Heap(_) => self.heap.keep_code(tried.reply.code),
            Call::Resource(_) => self.resources.keep_error(tried.reply.code),
            Call::Segment(_) => {}
            Call::Control(_) => {}
        }
    }

    /// Binds the name of a call that binds a name to the number that the call returned.
    fn bind(&mut self, call: &Call, given: Option<usize>) -> Result<(), AllocError>
        ensures bound { OnOk result (self.new
            ≡ record self.old { names = names_given call.now given self.old.names }) }
        ensures resources { self.new.resources ≡ self.old.resources }
        ensures none { given ≡ None → IsOk result }
        ensures lies { self.new.memory.window ≡ self.old.memory.window }
    {
        let Some(number) = given else { return Ok(()) };
        match call {
            Call::Heap(HeapCall::NewHandle(name, _)) => self.names.bind(name, number),
            Call::Heap(HeapCall::NewEmptyHandle(name)) => self.names.bind(name, number),
            Call::Heap(HeapCall::HandToHand(name, _)) => self.names.bind(name, number),
            Call::Heap(HeapCall::PtrToHand(name, _)) => self.names.bind(name, number),
            Call::Heap(HeapCall::RecoverHandle(name, _)) => self.names.bind(name, number),
            Call::Heap(HeapCall::NewPtr(name, _)) => self.names.bind(name, number),
            Call::Resource(ResourceCall::GetResource(name, _, _)) => self.names.bind(name, number),
            Call::Resource(ResourceCall::Get1Resource(name, _, _)) => self.names.bind(name, number),
            Call::Resource(ResourceCall::GetNamedResource(name, _, _)) => {
                self.names.bind(name, number)
            }
            Call::Resource(ResourceCall::Get1NamedResource(name, _, _)) => {
                self.names.bind(name, number)
            }
            Call::Resource(ResourceCall::GetIndResource(name, _, _)) => {
                self.names.bind(name, number)
            }
            Call::Resource(ResourceCall::Get1IndResource(name, _, _)) => {
                self.names.bind(name, number)
            }
            _ => Ok(()),
        }
    }

    /// Ends a call with its try: appends the line of the call to `text`, and binds the call's name.
    fn end_call(&mut self, line: &Line, tried: &Tried, text: &mut Vec<u8>) -> Result<(), AllocError>
        ensures text { OnOk result (text.new.items ≡ text.old.items ++ reply_line line.now.number
            (word_of line.now.call) tried.now.reply.code.0
            (values_of tried.now.reply (bytes_told (once [] line.now.call self.old).told))) }
        ensures after { OnOk result (self.new ≡ record self.old {
          names = names_given line.now.call tried.now.given
              self.old.names;
        }) }
        ensures front { Extends text.old.items text.new.items }
        ensures resources { self.new.resources ≡ self.old.resources }
        ensures room { vec_len text.old + length (call_at line.now.number (word_of line.now.call))
            + CODE_ROOM ≤ vec_capacity text.old → tried.now.given ≡ None
            → values_of tried.now.reply (bytes_told (once [] line.now.call self.old).told) ≡ []
            → IsOk result }
        ensures lies { self.new.memory.window ≡ self.old.memory.window }
    {
        let shown = self.shown(&line.call);
        write_reply(
            text,
            line.number,
            CallWord::of(&line.call),
            &tried.reply,
            shown,
        )?;
        self.bind(&line.call, tried.given)
    }

    /// Tries a call, and runs the grow-zone script where the call found no room. `text` has room
    /// for the line of a call whose reply has no values, so that no host memory is needed after a
    /// file was written.
    fn try_call<O: Onlooker>(
        &mut self,
        script: &'s Script,
        line: &Line,
        text: &mut Vec<u8>,
        onlooker: &mut O,
    ) -> Result<Next, AllocError>
        requires room { vec_len text.old
            + length (call_at line.now.number (word_of line.now.call)) + CODE_ROOM
            ≤ vec_capacity text.old }
        ensures came { IfOk result (λ next. CameRound (round script.now.blocks line.now self.old)
            next text.old.items text.new.items self.new) }
        ensures saw { OnOk result ((before : List Glance) → O.saw onlooker.old before
            → O.saw onlooker.new (before ++ glances_try script.now.blocks line.now
            (once script.now.blocks line.now.call self.old))) }
        ensures front { Extends text.old.items text.new.items }
        ensures files { OnErr result (self.new.resources.files ≡ self.old.resources.files) }
        ensures stays { IfOk result (λ next. goes_on next ≡ false
            → self.new.resources.files ≡ self.old.resources.files) }
        ensures lies { self.new.memory.window ≡ self.old.memory.window }
    {
        let tried = self.once(script, &line.call)?;
        let exit = tried.exit();
        if tried.wants {
            onlooker.look(self, false, line, tried.reply.code)?;
            let made_room = self.ask_for_room(script, line, tried.reading, text, onlooker)?;
            if made_room {
                return Ok(Next::Again);
            }
            self.keep_anew(&line.call, &tried);
            write_reply(
                text,
                line.number,
                CallWord::of(&line.call),
                &tried.reply,
                None,
            )?;
        } else {
            self.end_call(line, &tried, text)?;
        }
        Ok(Next::Ended(exit))
    }

    /// Takes a round of a step: the room of the call's line is taken, and the call is tried. Where
    /// the host is out of memory, the files stay as they were.
    fn round<O: Onlooker>(
        &mut self,
        script: &'s Script,
        line: &Line,
        text: &mut Vec<u8>,
        onlooker: &mut O,
    ) -> Result<Next, AllocError>
        ensures came { IfOk result (λ next. CameRound (round script.now.blocks line.now self.old)
            next text.old.items text.new.items self.new) }
        ensures saw { OnOk result ((before : List Glance) → O.saw onlooker.old before
            → O.saw onlooker.new (before ++ glances_try script.now.blocks line.now
            (once script.now.blocks line.now.call self.old))) }
        ensures front { Extends text.old.items text.new.items }
        ensures files { OnErr result (self.new.resources.files ≡ self.old.resources.files) }
        ensures stays { IfOk result (λ next. goes_on next ≡ false
            → self.new.resources.files ≡ self.old.resources.files) }
        ensures lies { self.new.memory.window ≡ self.old.memory.window }
    {
        text.reserve(room_at(line.number))?;
        self.try_call(script, line, text, onlooker)
    }

    /// Takes the rounds of a step, until the call ends. Where the host is out of memory, the text
    /// may have lines of the step's grow-zone script, and the files stay as they were.
    fn take_rounds<O: Onlooker>(
        &mut self,
        script: &'s Script,
        line: &Line,
        text: &mut Vec<u8>,
        onlooker: &mut O,
    ) -> Result<Option<Exit>, AllocError>
        ensures ends { IfOk result (λ exit. exit
            ≡ exit_of (step script.now.blocks line.now self.old)) }
        ensures came { OnOk result (Came (step script.now.blocks line.now self.old) text.old.items
            text.new.items self.new) }
        ensures saw { OnOk result ((before : List Glance) → O.saw onlooker.old before
            → O.saw onlooker.new (before ++ glances script.now.blocks line.now self.old)) }
        ensures front { Extends text.old.items text.new.items }
        ensures files { OnErr result (self.new.resources.files ≡ self.old.resources.files) }
        ensures over { IfOk result (λ exit. is_some exit ≡ true
            → self.new.resources.files ≡ self.old.resources.files) }
        ensures lies { self.new.memory.window ≡ self.old.memory.window }
    {
        let most = u64::from(self.heap.len()) + 1;
        for _round in 0..most {
            match self.round(script, line, text, onlooker)? {
                Next::Again => {}
                Next::Ended(exit) => return Ok(exit),
            }
        }
        Ok(None)
    }

    /// Has the application's names hashed by its script, if no name is bound yet.
    fn hash_names(&mut self, script: &Script)
        ensures { self.new ≡ self.old }
    {
        self.names.hash_by(script.digest());
    }

    /// Takes a step as `step` does, and has an onlooker see the application inside it: after each
    /// try of the call that found no room, and after each line of the grow-zone script that is run
    /// for it. Where the host is out of memory, the onlooker may have seen some of that.
    pub fn step_seen<O: Onlooker>(
        &mut self,
        script: &'s Script,
        line: &Line,
        text: &mut Vec<u8>,
        onlooker: &mut O,
    ) -> Result<Option<Exit>, AllocError>
        ensures ends { IfOk result (λ exit. exit
            ≡ exit_of (step script.now.blocks line.now self.old)) }
        ensures came { OnOk result (Came (step script.now.blocks line.now self.old) text.old.items
            text.new.items self.new) }
        ensures saw { OnOk result ((before : List Glance) → O.saw onlooker.old before
            → O.saw onlooker.new (before ++ glances script.now.blocks line.now self.old)) }
        ensures text { OnErr result (text.new.items ≡ text.old.items) }
        ensures files { OnErr result (self.new.resources.files ≡ self.old.resources.files) }

        // A step that ends the application changes no file.
        ensures over { IfOk result (λ exit. is_some exit ≡ true
            → self.new.resources.files ≡ self.old.resources.files) }
        ensures lies { self.new.memory.window ≡ self.old.memory.window }
    {
        self.hash_names(script);
        let length = text.len();
        let exit = self.take_rounds(script, line, text, onlooker);
        if exit.is_err() {
            text.truncate(length);
        }
        exit
    }

    /// Takes a step, which is the call of a line. The call is tried; where the call finds no room,
    /// the grow-zone script is run, and where the script makes room the call is tried again, and
    /// otherwise the answer of the call stands. Appends the lines of the transcript to `text`.
    /// Returns how the application ends with the step, or `None` where it goes on. Where the host
    /// is out of memory, the transcript and the files are as before the step.
    ///
    /// *Inside Macintosh: Memory*, chapter 1, "Grow-Zone Functions".
    pub fn step(
        &mut self,
        script: &'s Script,
        line: &Line,
        text: &mut Vec<u8>,
    ) -> Result<Option<Exit>, AllocError>
        ensures ends { IfOk result (λ exit. exit
            ≡ exit_of (step script.now.blocks line.now self.old)) }
        ensures came { OnOk result (Came (step script.now.blocks line.now self.old) text.old.items
            text.new.items self.new) }
        ensures text { OnErr result (text.new.items ≡ text.old.items) }
        ensures files { OnErr result (self.new.resources.files ≡ self.old.resources.files) }

        // A step that ends the application changes no file.
        ensures over { IfOk result (λ exit. is_some exit ≡ true
            → self.new.resources.files ≡ self.old.resources.files) }
        ensures lies { self.new.memory.window ≡ self.old.memory.window }
    {
        self.step_seen(script, line, text, &mut Unseen)
    }

    /// Takes steps in order, to the last line or to the end of the application, and reports the
    /// number of steps done to the watch. Returns how the application ends, or `None` where it goes
    /// on. Where the host is out of memory, the transcript, the files and the reports are those of
    /// the steps that were completed, and nothing of another.
    pub fn run<W: Watch>(
        &mut self,
        script: &'s Script,
        lines: &[Line],
        text: &mut Vec<u8>,
        watch: &mut W,
    ) -> Result<Option<Exit>, AllocError>
        ensures ends { IfOk result (λ exit. exit
            ≡ exit_of (course_of script.now.blocks lines.now self.old)) }
        ensures came { OnOk result (Came (course_of script.now.blocks lines.now self.old)
            text.old.items text.new.items self.new) }
        ensures heard { OnOk result (W.heard watch.new ≡ append_known (W.heard watch.old)
            (reports (steps_taken script.now.blocks lines.now self.old) (length lines.now))) }

        // Where the host is out of memory, the text, the files and the reports are those of the
        // first `k` steps.
        ensures stopped { OnErr result ((k : ℕ) × StopsAfter k script.now.blocks lines.now self.old
            self.new text.old.items text.new.items
            × (W.heard watch.new
            ≡ append_known (W.heard watch.old) (reports k (length lines.now)))) }
        ensures lies { self.new.memory.window ≡ self.old.memory.window }
    {
        let mut done: usize = 0;
        for line in lines {
            let exit = self.step(script, line, text)?;
            done += 1;
            tell(watch, done, lines.len());
            if exit.is_some() {
                return Ok(exit);
            }
        }
        Ok(None)
    }

    /// Takes a turn: the steps up to and including the next `WaitNextEvent`, or to the last line,
    /// as `up_to_wait` selects them. Returns how the application ends with the turn, or `None`
    /// where it goes on. Where the host is out of memory, the transcript and the files are those of
    /// the steps that were completed, and nothing of another.
    ///
    /// *Inside Macintosh: Processes*, chapter 1, "Scheduling of Processes".
    pub fn turn(
        &mut self,
        script: &'s Script,
        lines: &[Line],
        text: &mut Vec<u8>,
    ) -> Result<Option<Exit>, AllocError>
        ensures ends { IfOk result (λ exit. exit
            ≡ exit_of (turn script.now.blocks lines.now self.old)) }
        ensures came { OnOk result (Came (turn script.now.blocks lines.now self.old) text.old.items
            text.new.items self.new) }
        ensures stopped { OnErr result ((k : ℕ) × StopsAfter k script.now.blocks
            (steps.up_to_wait lines.now) self.old self.new text.old.items text.new.items) }
        ensures lies { self.new.memory.window ≡ self.old.memory.window }
    {
        self.run(script, up_to_wait(lines), text, &mut Unwatched)
    }
}
