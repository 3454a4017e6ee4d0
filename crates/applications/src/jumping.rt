//! One try of a call on a segment.

ghost use Rattle.std.specs.Prelude.{◌≡◌, None, false, IfOk, OnOk, OnErr, IsOk};
ghost use Rattle.mac_words.specs.Told.{Done};
ghost use Rattle.res_calls.specs.Fetch as fetch;
ghost use Rattle.segments.specs.Calls.{Program, Answer};
ghost use Rattle.segments.specs.Calls as calls;
ghost use Rattle.segments.specs.Given.{IsLoaded, IsCalled, WantsHost, shown_as};
ghost use Rattle.heap_calls.specs.Gone.{IsIdle, Hears};
ghost use Rattle.segments.specs.Gone.{gone_for};
ghost use Rattle.segments.specs.Asked.{served, telling, tell_loaded, tell_called, tell_shown};
ghost use Rattle.applications.specs.Trying.{Running, segment_tried, storing, program_of, is_fatal};
ghost use Rattle.applications.specs.Replies.{IsTried, Settled};

use crate::application::Application;
use crate::tried::Tried;
use block_store::BlockStore;
use heap_calls::{PurgeSink, Refusal};
use mac_words::{OsErr, Reply, SegmentCall};
use res_calls::Purges;
use segments::{Called, Shown, Unloaded};
use std::alloc::AllocError;

/// Returns a try of a call on a segment. The application ends with the try where the code is system
/// error 15.
fn tried_as(reply: Reply, reading: Option<usize>, wants: bool) -> Tried
    ensures reply { result.reply ≡ reply }
    ensures given { result.given ≡ None }
    ensures reading { result.reading ≡ reading }
    ensures wants { result.wants ≡ wants }
    ensures over { result.over ≡ is_fatal reply.code }
{
    let over = reply.code == OsErr::SYSTEM_ERROR;
    Tried {
        reply,
        given: None,
        reading,
        wants,
        over,
    }
}

/// Returns the try of `LoadSeg`, whose reply says whether the segment was read.
fn loaded(answer: Result<bool, Unloaded>) -> Result<Tried, AllocError>
    ensures tried { IfOk result (λ tried. (a : Answer fetch.Fetched) (after : Program) (r : Running)
        → IsLoaded a answer after → Settled a
        → IsTried tried (segment_tried (telling tell_loaded a) r)) }
    ensures after { OnOk result ((a : Answer fetch.Fetched) (after : Program)
        → IsLoaded a answer after
        → a.after ≡ after) }
    ensures wants { OnErr result (WantsHost answer) }
    ensures host { OnOk result (¬ (WantsHost answer)) }
{
    match answer {
        Ok(read) => Ok(tried_as(Reply::number(u32::from(read)), None, false)),
        Err(
            Unloaded {
                refusal: Refusal::Code(code),
                reading,
                wants_room,
            },
        ) => Ok(tried_as(Reply::of(code), reading, wants_room)),
        Err(
            Unloaded {
                refusal: Refusal::HostMemory,
                ..
            },
        ) => Err(AllocError),
    }
}

/// Returns the try of `CallEntry`, whose reply is the segment and whether the segment was read.
fn called(answer: Result<Called, Unloaded>) -> Result<Tried, AllocError>
    ensures tried { IfOk result (λ tried. (a : Answer calls.Called) (after : Program) (r : Running)
        → IsCalled a answer after → Settled a
        → IsTried tried (segment_tried (telling tell_called a) r)) }
    ensures after { OnOk result ((a : Answer calls.Called) (after : Program)
        → IsCalled a answer after
        → a.after ≡ after) }
    ensures wants { OnErr result (WantsHost answer) }
    ensures host { OnOk result (¬ (WantsHost answer)) }
{
    match answer {
        Ok(called) => Ok(tried_as(Reply::entry(called.segment, called.read), None, false)),
        Err(
            Unloaded {
                refusal: Refusal::Code(code),
                reading,
                wants_room,
            },
        ) => Ok(tried_as(Reply::of(code), reading, wants_room)),
        Err(
            Unloaded {
                refusal: Refusal::HostMemory,
                ..
            },
        ) => Err(AllocError),
    }
}

/// Returns the try of `UnloadSeg`, whose reply has no value.
fn unloaded(answer: Result<(), OsErr>) -> Tried
    ensures { (a : Answer (Unit {0})) (r : Running) → a.reply ≡ answer → a.wants ≡ false
        → IsTried result (segment_tried (telling (λ (u : Unit {0}). Done) a) r) }
{
    match answer {
        Ok(()) => tried_as(Reply::of(OsErr::NO_ERR), None, false),
        Err(code) => tried_as(Reply::of(code), None, false),
    }
}

/// Returns the try of `ShowEntry`, whose reply is the segment and whether the entry is loaded.
fn shown(answer: Result<Shown, OsErr>) -> Tried
    ensures { (a : Answer calls.Shown) (r : Running) → a.reply ≡ shown_as answer → a.wants ≡ false
        → IsTried result (segment_tried (telling tell_shown a) r) }
{
    match answer {
        Ok(shown) => tried_as(Reply::entry(shown.segment, shown.loaded), None, false),
        Err(code) => tried_as(Reply::of(code), None, false),
    }
}

impl<'s, S: BlockStore> Application<'s, S> {
    /// Tries a call of the Segment Manager, or a call through the jump table.
    pub(crate) fn jump(&mut self, call: &SegmentCall) -> Result<Tried, AllocError>
        ensures tried { IfOk result (λ tried.
            IsTried tried (segment_tried (served call.now (program_of self.old)) self.old)) }
        ensures after { OnOk result (self.new ≡ storing self.old.resources.purging
            (gone_for call.now (program_of self.old))
            (segment_tried (served call.now (program_of self.old)) self.old).after) }
        ensures files { OnErr result (self.new.resources.files ≡ self.old.resources.files) }
        ensures lies { self.new.memory.window ≡ self.old.memory.window }
    {
        let mut purges = Purges::new(self.alloc, self.resources.purging());
        let tried = self.answer_segment(call, &mut purges);
        self.resources.store_purged(purges.into_told());
        tried
    }

    /// Tries a call of the Segment Manager, or a call through the jump table. The blocks that the
    /// call purges are offered to the sink, if it listens.
    #[tactic(auto, using(crate::proofs::Hearing::hears_nothing, crate::proofs::Hearing::hears_tried))]
    fn answer_segment<K: PurgeSink>(
        &mut self,
        call: &SegmentCall,
        sink: &mut K,
    ) -> Result<Tried, AllocError>
        requires idle { IsIdle K.told K.waits sink.old }
        ensures tried { IfOk result (λ tried.
            IsTried tried (segment_tried (served call.now (program_of self.old)) self.old)) }
        ensures after { OnOk result (self.new
            ≡ (segment_tried (served call.now (program_of self.old)) self.old).after) }
        ensures hears { Hears K.told K.waits K.listens (IsOk result)
            (gone_for call.now (program_of self.old)) sink.old sink.new }
        ensures files { OnErr result (self.new.resources.files ≡ self.old.resources.files) }
        ensures lies { self.new.memory.window ≡ self.old.memory.window }
    {
        match call {
            SegmentCall::LoadSeg(segment) => loaded(
                self.table
                    .load(&mut self.heap, &mut self.resources, *segment, sink),
            ),
            SegmentCall::UnloadSeg(segment) => Ok(unloaded(
                self.table.unload(&mut self.heap, &self.resources, *segment),
            )),
            SegmentCall::CallEntry(index) => called(
                self.table
                    .call(&mut self.heap, &mut self.resources, *index, sink),
            ),
            SegmentCall::ShowEntry(index) => Ok(shown(self.table.show(*index))),
        }
    }
}
