//! One try of a call.

ghost use Rattle.std.specs.Prelude.{◌≡◌, [], true, false, None, IfOk, OnOk, OnErr, IsOk};
ghost use Rattle.std.specs.Option.{option_map};
ghost use Rattle.heap_calls.specs.Table.{served, gone_in, first_named, second_named};
ghost use Rattle.heap_calls.specs.Gone.{IsIdle, Hears};
ghost use Rattle.applications.specs.Trying.{asked, once, storing, control_tried};
ghost use Rattle.applications.specs.Step.{deed_of};
ghost use Rattle.applications.specs.Laws.{writes_files};
ghost use Rattle.applications.specs.Application.{bytes_told};
ghost use Rattle.applications.specs.Replies.{TellsTold, IsTried};

use crate::application::Application;
use crate::finding::shown_in as found_in;
use crate::names::Names;
use crate::tried::{
    Tried, code_of_another, completed, done, given, measured, number, offset, recovered, replaced,
    shown, space, state,
};
use block_store::BlockStore;
use heap_calls::{Heap, PurgeSink};
use mac_words::{Call, ControlCall, HeapCall, OsErr, Replacement, Reply};
use res_calls::Purges;
use script_text::Script;
use std::alloc::AllocError;

/// The numbers of the handles and pointers that a call names as arguments, two at most.
pub struct Arguments {
    /// The number of the one that the call names first, or alone.
    pub first: Option<usize>,
    /// The number of the one that the call names second.
    pub second: Option<usize>,
}

/// Returns the numbers of a call that names at most one handle or pointer.
fn only(first: Option<usize>) -> Arguments
    ensures first { result.first ≡ first }
    ensures second { result.second ≡ None }
{
    Arguments {
        first,
        second: None,
    }
}

/// Returns the numbers of a call that names two handles or pointers.
fn both(first: Option<usize>, second: Option<usize>) -> Arguments
    ensures first { result.first ≡ first }
    ensures second { result.second ≡ second }
{
    Arguments { first, second }
}

/// Returns the numbers of the handles and pointers that a call names as arguments, two at most. A
/// name that the call binds is not an argument.
pub fn named(call: &HeapCall, names: &Names) -> Arguments
    ensures first { result.first ≡ first_named (asked call.now names.now) }
    ensures second { result.second ≡ second_named (asked call.now names.now) }
{
    match call {
        HeapCall::HandAndHand(from, to) => both(names.number(from), names.number(to)),
        HeapCall::BlockMove(from, _, to, _, _) => both(names.number(from), names.number(to)),
        HeapCall::DisposeHandle(name) => only(names.number(name)),
        HeapCall::GetHandleSize(name) => only(names.number(name)),
        HeapCall::SetHandleSize(name, _) => only(names.number(name)),
        HeapCall::ReallocateHandle(name, _) => only(names.number(name)),
        HeapCall::EmptyHandle(name) => only(names.number(name)),
        HeapCall::HLock(name) => only(names.number(name)),
        HeapCall::HUnlock(name) => only(names.number(name)),
        HeapCall::HPurge(name) => only(names.number(name)),
        HeapCall::HNoPurge(name) => only(names.number(name)),
        HeapCall::HGetState(name) => only(names.number(name)),
        HeapCall::HandleZone(name) => only(names.number(name)),
        HeapCall::HSetState(name, _) => only(names.number(name)),
        HeapCall::MoveHHi(name) => only(names.number(name)),
        HeapCall::HLockHi(name) => only(names.number(name)),
        HeapCall::HandToHand(_, from) => only(names.number(from)),
        HeapCall::PtrAndHand(name, _) => only(names.number(name)),
        HeapCall::PtrToXHand(name, _) => only(names.number(name)),
        HeapCall::Munger(name, _, _, new) => match &**new {
            Replacement::Bytes(_) | Replacement::Nil => only(names.number(name)),
        },
        HeapCall::DisposePtr(name) => only(names.number(name)),
        HeapCall::GetPtrSize(name) => only(names.number(name)),
        HeapCall::PtrZone(name) => only(names.number(name)),
        HeapCall::SetPtrSize(name, _) => only(names.number(name)),
        HeapCall::Put(name, _, _) => only(names.number(name)),
        HeapCall::Show(name) => only(names.number(name)),
        HeapCall::PutPtr(name, _, _) => only(names.number(name)),
        HeapCall::ShowPtr(name) => only(names.number(name)),
        HeapCall::Where(name) => only(names.number(name)),
        HeapCall::NewHandle(..)
        | HeapCall::NewEmptyHandle(_)
        | HeapCall::PtrToHand(..)
        | HeapCall::RecoverHandle(..)
        | HeapCall::NewPtr(..)
        | HeapCall::FreeMem
        | HeapCall::MaxBlock
        | HeapCall::PurgeSpace
        | HeapCall::CompactMem(_)
        | HeapCall::PurgeMem(_)
        | HeapCall::MaxMem
        | HeapCall::ReserveMem(_)
        | HeapCall::MoreMasters
        | HeapCall::MemError => only(None),
    }
}

impl<'s, S: BlockStore> Application<'s, S> {
    /// Tries a call once, and returns the outcome without the bytes that the call shows.
    pub(crate) fn once(&mut self, script: &'s Script, call: &Call) -> Result<Tried, AllocError>
        ensures tried { IfOk result (λ tried.
            IsTried tried (once script.now.blocks call.now self.old)) }
        ensures after { OnOk result (self.new ≡ (once script.now.blocks call.now self.old).after) }
        ensures wants { OnErr result (self.new.resources.files ≡ self.old.resources.files) }
        ensures files { writes_files (deed_of call.now self.old.names) ≡ false
            → self.new.resources.files ≡ self.old.resources.files }
        ensures lies { self.new.memory.window ≡ self.old.memory.window }
    {
        match call {
            Call::Heap(call) => self.answer(call),
            Call::Resource(call) => self.find(call),
            Call::Segment(call) => self.jump(call),
            Call::Control(call) => Ok(self.steer(script, call)),
        }
    }

    /// Tries a call by which the application says how it is run: `SetGrowZone`, `WaitNextEvent` or
    /// `ExitToShell`.
    fn steer(&mut self, script: &'s Script, call: &ControlCall) -> Tried
        ensures tried { IsTried result (control_tried script.now.blocks call.now self.old) }
        ensures after { self.new ≡ (control_tried script.now.blocks call.now self.old).after }
    {
        let mut tried = Tried::told(Reply::of(OsErr::NO_ERR));
        match call {
            ControlCall::SetGrowZone(name) => self.grow = script.block(name),
            ControlCall::WaitNextEvent => {}
            ControlCall::ExitToShell => tried.over = true,
        }
        tried
    }

    /// Returns the bytes that a call shows, in the state that the call leaves.
    #[tactic(auto, using(crate::proofs::JumpCalls::jump_shows_nothing))]
    pub(crate) fn shown(&self, call: &Call) -> Option<&[u8]>
        ensures { option_map (λ bytes. bytes.now) result
            ≡ bytes_told (once [] call.now self.now).told }
    {
        match call {
            Call::Heap(call) => shown_in(&self.heap, &self.names, call),
            Call::Resource(call) => found_in(&self.resources, &self.heap, &self.names, call),
            Call::Segment(_) => None,
            Call::Control(_) => None,
        }
    }

    /// Tries a call of the Memory Manager, and stores what is to be stored of the blocks that it
    /// purges.
    fn answer(&mut self, call: &HeapCall) -> Result<Tried, AllocError>
        ensures told { IfOk result (λ tried. TellsTold tried (served (asked call.now self.old.names)
            self.old.memory).0) }
        ensures after { OnOk result (self.new ≡ storing self.old.resources.purging
            (gone_in (asked call.now self.old.names) self.old.memory)
            (record self.old {
              memory = (served (asked call.now self.old.names) self.old.memory).1;
            })) }
        ensures files { self.new.resources.files ≡ self.old.resources.files }
        ensures lies { self.new.memory.window ≡ self.old.memory.window }
    {
        let mut purges = Purges::new(self.alloc, self.resources.purging());
        let tried = answered(&mut self.heap, &self.names, call, &mut purges);
        self.resources.store_purged(purges.into_told());
        tried
    }
}

/// Returns the bytes that a call of the Memory Manager shows of `heap`.
fn shown_in<'a, S: BlockStore>(
    heap: &'a Heap<S>,
    names: &Names,
    call: &HeapCall,
) -> Option<&'a [u8]>
    ensures { option_map (λ bytes. bytes.now) result
        ≡ bytes_told (served (asked call.now names.now) heap.now.memory).0 }
{
    match call {
        HeapCall::Show(name) => heap.show(names.number(name)).ok(),
        HeapCall::ShowPtr(name) => heap.show_pointer(names.number(name)).ok(),
        _ => None,
    }
}

/// Answers a call of the Memory Manager in `heap`; the names of the call are bound as `names` says.
/// The blocks that the call purges are offered to the sink, if it listens.
#[tactic(auto, using(crate::proofs::Hearing::hears_nothing, crate::proofs::Hearing::hears_tried))]
fn answered<S: BlockStore, K: PurgeSink>(
    heap: &mut Heap<S>,
    names: &Names,
    call: &HeapCall,
    sink: &mut K,
) -> Result<Tried, AllocError>
    requires idle { IsIdle K.told K.waits sink.old }
    ensures told { IfOk result (λ tried.
        TellsTold tried (served (asked call.now names.now) heap.old.memory).0) }
    ensures after { OnOk result (heap.new.memory
        ≡ (served (asked call.now names.now) heap.old.memory).1) }
    ensures hears { Hears K.told K.waits K.listens (IsOk result)
        (gone_in (asked call.now names.now) heap.old.memory) sink.old sink.new }
    ensures lies { heap.new.memory.window ≡ heap.old.memory.window }
{
    let Arguments { first, second } = named(call, names);
    match call {
        HeapCall::NewHandle(_, size) => given(heap.new_handle(*size, sink)),
        HeapCall::NewEmptyHandle(_) => given(heap.new_empty_handle(sink)),
        HeapCall::DisposeHandle(_) => done(heap.dispose_handle(first)),
        HeapCall::GetHandleSize(_) => number(heap.get_handle_size(first)),
        HeapCall::SetHandleSize(_, size) => completed(heap.set_handle_size(first, *size, sink)),
        HeapCall::ReallocateHandle(_, size) => completed(heap.reallocate_handle(
            first, *size, sink,
        )),
        HeapCall::EmptyHandle(_) => done(heap.empty_handle(first)),
        HeapCall::HLock(_) => done(heap.h_lock(first)),
        HeapCall::HUnlock(_) => done(heap.h_unlock(first)),
        HeapCall::HPurge(_) => done(heap.h_purge(first)),
        HeapCall::HNoPurge(_) => done(heap.h_no_purge(first)),
        HeapCall::HGetState(_) => state(heap.h_get_state(first)),
        HeapCall::HandleZone(_) => number(heap.handle_zone(first)),
        HeapCall::RecoverHandle(_, place) => recovered(heap.recover_handle(*place)),
        HeapCall::HSetState(_, state) => done(heap.h_set_state(first, *state)),
        HeapCall::MoveHHi(_) => done(heap.move_h_hi(first)),
        HeapCall::HLockHi(_) => done(heap.h_lock_hi(first)),
        HeapCall::HandToHand(..) => given(heap.hand_to_hand(first, sink)),
        HeapCall::PtrToHand(_, bytes) => given(heap.pointer_to_hand(bytes, sink)),
        HeapCall::HandAndHand(..) => completed(heap.hand_and_hand(first, second, sink)),
        HeapCall::PtrAndHand(_, bytes) => completed(heap.pointer_and_hand(first, bytes, sink)),
        HeapCall::PtrToXHand(_, bytes) => completed(heap.pointer_to_x_hand(first, bytes, sink)),
        HeapCall::Munger(_, from, old, new) => match &**new {
            Replacement::Bytes(new) => replaced(heap.munger(first, *from, old, new, sink)),
            Replacement::Nil => offset(heap.munger_nil(first, *from, old)),
        },
        HeapCall::NewPtr(_, size) => given(heap.new_pointer(*size, sink)),
        HeapCall::DisposePtr(_) => done(heap.dispose_pointer(first)),
        HeapCall::GetPtrSize(_) => number(heap.get_pointer_size(first)),
        HeapCall::PtrZone(_) => number(heap.pointer_zone(first)),
        HeapCall::SetPtrSize(_, size) => completed(heap.set_pointer_size(first, *size, sink)),
        HeapCall::BlockMove(_, start, _, offset, count) => done(heap.block_move(
            first, *start, second, *offset, *count,
        )),
        HeapCall::FreeMem => number(Ok(heap.free_mem())),
        HeapCall::MaxBlock => number(Ok(heap.max_block())),
        HeapCall::PurgeSpace => space(heap.purge_space()),
        HeapCall::CompactMem(size) => number(Ok(heap.compact_mem(*size))),
        HeapCall::PurgeMem(size) => completed(heap.purge_mem(*size, sink)),
        HeapCall::MaxMem => measured(heap.max_mem(sink)),
        HeapCall::ReserveMem(size) => completed(heap.reserve_mem(*size, sink)),
        HeapCall::MoreMasters => completed(heap.more_masters(sink)),
        HeapCall::MemError => code_of_another(heap.mem_error()),
        HeapCall::Put(_, from, bytes) => done(heap.put(first, *from, bytes)),
        HeapCall::Show(_) => shown(heap.show(first)),
        HeapCall::PutPtr(_, from, bytes) => done(heap.put_pointer(first, *from, bytes)),
        HeapCall::ShowPtr(_) => shown(heap.show_pointer(first)),
        HeapCall::Where(_) => number(heap.place_of(first)),
    }
}
