//! The outcome of one try of a call.

ghost use Rattle.std.specs.Prelude.{◌≡◌, ◌≢◌, ◌<◌, ◌^◌, ℕ, true, false, None, Err, List, IfOk};
ghost use Rattle.std.specs.Prelude.{OnOk, OnErr, IsOk};
ghost use Rattle.mac_words.specs.Told.{Told, Done, Given, Number, Numbers, Offset, Code, Bytes};
ghost use Rattle.mac_words.specs.Told.{Kind};
ghost use Rattle.applications.specs.Trying.{is_full};
ghost use Rattle.byteorder.specs.Endian.{big_number};
ghost use Rattle.mac_words.specs.declared.name.OsType.{OsType as Type4};
ghost use Rattle.res_calls.specs.Fetch.{Managers, Answer};
ghost use Rattle.res_calls.specs.Fetch as fetch;
ghost use Rattle.res_calls.specs.Rows as rows;
ghost use Rattle.heap_calls.specs.Serving.{told_as};
ghost use Rattle.res_calls.specs.Asked.{telling, tell_fetched, tell_info};
ghost use Rattle.mac_words.specs.declared.attributes.Attrs.{Attrs as StoredAttrs};
ghost use Rattle.res_calls.specs.Given.{IsAnswered, IsAnsweredUnseen, IsFetched};
ghost use Rattle.res_calls.specs.Places.{WantsHost, seen_info};
ghost use Rattle.applications.specs.Replies.{TellsTold, TellsServed, GivenAs, exit_as};

use crate::quitting::Exit;
use heap_calls::{Refusal, Space};
use mac_words::{Attrs, OsErr, OsType, Reply};
use res_calls::{Fetched, Info, Unread};
use std::alloc::{AllocError, Global};

/// The outcome of one try of a call. A try binds no name, writes no line, and is not repeated.
#[derive(Drop)]
pub struct Tried {
    /// The reply, without the bytes that the call shows.
    pub reply: Reply,
    /// The number of the handle or pointer that the call returned.
    pub given: Option<usize>,
    /// The number of the empty handle that would have been read again.
    pub reading: Option<usize>,
    /// Whether the call found no room.
    pub wants: bool,
    /// Whether the application ends with the call.
    pub over: bool,
}

impl Tried {
    /// Returns the try of a call that has this reply and returned no handle or pointer.
    pub fn told(reply: Reply) -> Tried
        ensures reply { result.reply ≡ reply }
        ensures given { result.given ≡ None }
        ensures reading { result.reading ≡ None }
        ensures wants { result.wants ≡ is_full reply.code }
        ensures goes_on { result.over ≡ false }
    {
        let wants = reply.code == OsErr::MEM_FULL;
        Tried {
            reply,
            given: None,
            reading: None,
            wants,
            over: false,
        }
    }

    /// Returns how the application ends with the call, or `None` where it goes on.
    pub fn exit(&self) -> Option<Exit>
        ensures { result ≡ exit_as self.now.over self.now.reply.code }
    {
        if !self.over {
            return None;
        }
        if self.reply.code == OsErr::SYSTEM_ERROR {
            Some(Exit::Stops)
        } else {
            Some(Exit::Quits)
        }
    }
}

/// Returns the try of a call that returns a new handle or pointer.
pub fn given(answer: Result<usize, Refusal>) -> Result<Tried, AllocError>
    ensures tried { IfOk result (λ tried. (told : Told) → GivenAs Given answer told
        → TellsTold tried told) }
    ensures host { OnOk result (answer ≢ Err Refusal.HostMemory) }
{
    match answer {
        Ok(number) => Ok(Tried {
            reply: Reply::of(OsErr::NO_ERR),
            given: Some(number),
            reading: None,
            wants: false,
            over: false,
        }),
        Err(Refusal::Code(code)) => Ok(Tried::told(Reply::of(code))),
        Err(Refusal::HostMemory) => Err(AllocError),
    }
}

/// Returns the try of a call that shows bytes, without the bytes.
pub fn shown(answer: Result<&[u8], OsErr>) -> Result<Tried, AllocError>
    ensures tried { IfOk result (λ tried.
        TellsTold tried (told_as (λ bytes. Bytes bytes.now) answer.entry)) }
    ensures is { IsOk result }
{
    match answer {
        Ok(_) => Ok(Tried::told(Reply::of(OsErr::NO_ERR))),
        Err(code) => Ok(Tried::told(Reply::of(code))),
    }
}

/// Returns the try of a call that returns no value.
pub fn done(answer: Result<(), OsErr>) -> Result<Tried, AllocError>
    ensures tried { IfOk result (λ tried. TellsTold tried (told_as (λ _. Done) answer)) }
    ensures is { IsOk result }
{
    match answer {
        Ok(()) => Ok(Tried::told(Reply::of(OsErr::NO_ERR))),
        Err(code) => Ok(Tried::told(Reply::of(code))),
    }
}

/// Returns the try of a call that returns no value, and may find the host out of memory.
pub fn completed(answer: Result<(), Refusal>) -> Result<Tried, AllocError>
    ensures tried { IfOk result (λ tried. (told : Told) → GivenAs (λ _. Done) answer told
        → TellsTold tried told) }
    ensures host { OnOk result (answer ≢ Err Refusal.HostMemory) }
{
    match answer {
        Ok(()) => Ok(Tried::told(Reply::of(OsErr::NO_ERR))),
        Err(Refusal::Code(code)) => Ok(Tried::told(Reply::of(code))),
        Err(Refusal::HostMemory) => Err(AllocError),
    }
}

/// Returns the try of a call that returns a number.
pub fn number(answer: Result<u32, OsErr>) -> Result<Tried, AllocError>
    ensures tried { IfOk result (λ tried. TellsTold tried (told_as Number answer)) }
    ensures is { IsOk result }
{
    match answer {
        Ok(number) => Ok(Tried::told(Reply::number(number))),
        Err(code) => Ok(Tried::told(Reply::of(code))),
    }
}

/// Returns the try of a call that returns a number, and may find the host out of memory.
pub fn measured(answer: Result<u32, Refusal>) -> Result<Tried, AllocError>
    ensures tried { IfOk result (λ tried. (told : Told) → GivenAs Number answer told
        → TellsTold tried told) }
    ensures host { OnOk result (answer ≢ Err Refusal.HostMemory) }
{
    match answer {
        Ok(number) => Ok(Tried::told(Reply::number(number))),
        Err(Refusal::Code(code)) => Ok(Tried::told(Reply::of(code))),
        Err(Refusal::HostMemory) => Err(AllocError),
    }
}

/// Returns the try of a call that returns a handle that was given before.
pub fn recovered(answer: Result<usize, OsErr>) -> Result<Tried, AllocError>
    ensures tried { IfOk result (λ tried. TellsTold tried (told_as Given answer)) }
    ensures is { IsOk result }
{
    match answer {
        Ok(number) => Ok(Tried {
            reply: Reply::of(OsErr::NO_ERR),
            given: Some(number),
            reading: None,
            wants: false,
            over: false,
        }),
        Err(code) => Ok(Tried::told(Reply::of(code))),
    }
}

/// Returns the try of a call that returns an offset, which is negative where nothing was found.
pub fn offset(answer: Result<i64, OsErr>) -> Result<Tried, AllocError>
    ensures tried { IfOk result (λ tried. TellsTold tried (told_as Offset answer)) }
    ensures is { IsOk result }
{
    match answer {
        Ok(offset) => Ok(Tried::told(Reply::offset(offset))),
        Err(code) => Ok(Tried::told(Reply::of(code))),
    }
}

/// Returns the try of a call that returns an offset, which is negative where nothing was found, and
/// may find the host out of memory.
pub fn replaced(answer: Result<i64, Refusal>) -> Result<Tried, AllocError>
    ensures tried { IfOk result (λ tried. (told : Told) → GivenAs Offset answer told
        → TellsTold tried told) }
    ensures host { OnOk result (answer ≢ Err Refusal.HostMemory) }
{
    match answer {
        Ok(offset) => Ok(Tried::told(Reply::offset(offset))),
        Err(Refusal::Code(code)) => Ok(Tried::told(Reply::of(code))),
        Err(Refusal::HostMemory) => Err(AllocError),
    }
}

/// Returns the try of a call that returns the flags of a handle.
pub fn state(answer: Result<u8, OsErr>) -> Result<Tried, AllocError>
    ensures tried { IfOk result (λ tried. TellsTold tried (told_as Number answer)) }
    ensures is { IsOk result }
{
    match answer {
        Ok(state) => Ok(Tried::told(Reply::number(state as u32))),
        Err(code) => Ok(Tried::told(Reply::of(code))),
    }
}

/// Returns the try of `PurgeSpace`.
pub fn space(space: Space) -> Result<Tried, AllocError>
    ensures tried { IfOk result (λ tried. TellsTold tried (Numbers space.total space.contiguous)) }
    ensures is { IsOk result }
{
    Ok(Tried::told(Reply::pair(space.total, space.contiguous)))
}

/// Returns the try of `MemError`, which returns the code of another call.
pub fn code_of_another(code: OsErr) -> Result<Tried, AllocError>
    ensures tried { IfOk result (λ tried. TellsTold tried (Code code)) }
    ensures is { IsOk result }
{
    Ok(Tried::told(Reply::telling(code)))
}

/// Returns the try of a call that returns a resource's handle and whether the stored data was read
/// for the handle.
pub fn fetched(answer: Result<Fetched, Unread>) -> Result<Tried, AllocError>
    ensures tried { IfOk result (λ tried. (a : Answer fetch.Fetched) (after : Managers)
        → IsFetched a answer after
        → TellsServed tried (telling tell_fetched a) true) }
    ensures after { OnOk result ((a : Answer fetch.Fetched) (after : Managers)
        → IsFetched a answer after
        → a.after ≡ after) }
    ensures wants { OnErr result (WantsHost answer) }
    ensures host { OnOk result (¬ (WantsHost answer)) }
{
    match answer {
        Ok(fetched) => Ok(Tried {
            reply: Reply::number(u32::from(fetched.read)),
            given: Some(fetched.handle),
            reading: None,
            wants: false,
            over: false,
        }),
        Err(
            Unread {
                refusal: Refusal::Code(code),
                reading,
            },
        ) => Ok(Tried {
            reply: Reply::of(code),
            given: None,
            reading,
            wants: code == OsErr::MEM_FULL,
            over: false,
        }),
        Err(
            Unread {
                refusal: Refusal::HostMemory,
                ..
            },
        ) => Err(AllocError),
    }
}

/// Returns the try of a call of the Resource Manager that returns no value.
pub fn done_on_resource(answer: Result<(), Refusal>) -> Result<Tried, AllocError>
    ensures tried { IfOk result (λ tried. (a : Answer (Unit {0})) (after : Managers) →
        IsAnswered (λ (u : Unit {0}). u) a answer after
        → TellsServed tried (telling (λ (u : Unit {0}). Done) a) false) }
    ensures after { OnOk result ((a : Answer (Unit {0})) (after : Managers)
        → IsAnswered (λ (u : Unit {0}). u) a answer after
        → a.after ≡ after) }
    ensures wants { OnErr result (answer ≡ Err Refusal.HostMemory) }
{
    match answer {
        Ok(()) => Ok(Tried::told(Reply::of(OsErr::NO_ERR))),
        Err(Refusal::Code(code)) => Ok(Tried::told(Reply::of(code))),
        Err(Refusal::HostMemory) => Err(AllocError),
    }
}

/// Returns the try of a call of the Resource Manager that shows bytes, without the bytes.
#[tactic(auto, using(crate::proofs::FoundCalls::ok_told))]
pub fn read(answer: Result<(), Refusal>) -> Result<Tried, AllocError>
    ensures tried { IfOk result (λ tried. (a : Answer (List ℕ)) (after : Managers) →
        IsAnsweredUnseen a answer after
        → TellsServed tried (telling Bytes a) false) }
    ensures after { OnOk result ((a : Answer (List ℕ)) (after : Managers)
        → IsAnsweredUnseen a answer after
        → a.after ≡ after) }
    ensures wants { OnErr result (answer ≡ Err Refusal.HostMemory) }
    ensures host { OnOk result (answer ≢ Err Refusal.HostMemory) }
{
    match answer {
        Ok(()) => Ok(Tried::told(Reply::of(OsErr::NO_ERR))),
        Err(Refusal::Code(code)) => Ok(Tried::told(Reply::of(code))),
        Err(Refusal::HostMemory) => Err(AllocError),
    }
}

/// Returns the try of a call of the Resource Manager that returns a number.
pub fn counted(answer: Result<u32, Refusal>) -> Result<Tried, AllocError>
    ensures tried { IfOk result (λ tried. (a : Answer ℕ) (after : Managers)
        → IsAnswered (λ (n : ℕ). n) a answer after
        → TellsServed tried (telling Number a) false) }
    ensures after { OnOk result ((a : Answer ℕ) (after : Managers)
        → IsAnswered (λ (n : ℕ). n) a answer after
        → a.after ≡ after) }
    ensures wants { OnErr result (answer ≡ Err Refusal.HostMemory) }
    ensures host { OnOk result (answer ≢ Err Refusal.HostMemory) }
{
    match answer {
        Ok(value) => Ok(Tried::told(Reply::number(value))),
        Err(Refusal::Code(code)) => Ok(Tried::told(Reply::of(code))),
        Err(Refusal::HostMemory) => Err(AllocError),
    }
}

/// Returns the try of a call of the Resource Manager that returns a count.
pub fn sized(answer: Result<usize, Refusal>) -> Result<Tried, AllocError>
    requires { IfOk answer (λ n. n < 2 ^ 63) }
    ensures tried { IfOk result (λ tried. (a : Answer ℕ) (after : Managers)
        → IsAnswered (λ (n : ℕ). n) a answer after
        → TellsServed tried (telling Number a) false) }
    ensures after { OnOk result ((a : Answer ℕ) (after : Managers)
        → IsAnswered (λ (n : ℕ). n) a answer after
        → a.after ≡ after) }
    ensures wants { OnErr result (answer ≡ Err Refusal.HostMemory) }
{
    match answer {
        Ok(value) => Ok(Tried::told(Reply::count(value))),
        Err(Refusal::Code(code)) => Ok(Tried::told(Reply::of(code))),
        Err(Refusal::HostMemory) => Err(AllocError),
    }
}

/// Returns the try of a call that returns the attributes of a resource.
pub fn attributes(answer: Result<Attrs, Refusal>) -> Result<Tried, AllocError>
    ensures tried { IfOk result (λ tried. (a : Answer ℕ) (after : Managers)
        → IsAnswered (λ (a : StoredAttrs). a.0) a answer after
        → TellsServed tried (telling Number a) false) }
    ensures after { OnOk result ((a : Answer ℕ) (after : Managers)
        → IsAnswered (λ (a : StoredAttrs). a.0) a answer after
        → a.after ≡ after) }
    ensures wants { OnErr result (answer ≡ Err Refusal.HostMemory) }
{
    match answer {
        Ok(Attrs(bits)) => Ok(Tried::told(Reply::number(u32::from(bits)))),
        Err(Refusal::Code(code)) => Ok(Tried::told(Reply::of(code))),
        Err(Refusal::HostMemory) => Err(AllocError),
    }
}

/// Returns the try of a call that returns a resource type.
pub fn kind(answer: Result<OsType, Refusal>) -> Result<Tried, AllocError>
    ensures tried { IfOk result (λ tried. (a : Answer ℕ) (after : Managers) →
        IsAnswered (λ (t : Type4). big_number 4 t.0) a answer after
        → TellsServed tried (telling Kind a) false) }
    ensures after { OnOk result ((a : Answer ℕ) (after : Managers)
        → IsAnswered (λ (t : Type4). big_number 4 t.0) a answer after
        → a.after ≡ after) }
    ensures wants { OnErr result (answer ≡ Err Refusal.HostMemory) }
{
    match answer {
        Ok(value) => Ok(Tried::told(Reply::kind(value))),
        Err(Refusal::Code(code)) => Ok(Tried::told(Reply::of(code))),
        Err(Refusal::HostMemory) => Err(AllocError),
    }
}

/// Returns the try of a call that returns the ID, the type and the name of a resource.
pub fn info(alloc: Global, answer: Result<Info, Refusal>) -> Result<Tried, AllocError>
    ensures tried { IfOk result (λ tried. (a : Answer rows.Info) (after : Managers)
        → IsAnswered seen_info a answer after
        → TellsServed tried (telling tell_info a) false) }
    ensures after { OnOk result ((a : Answer rows.Info) (after : Managers)
        → IsAnswered seen_info a answer after
        → a.after ≡ after) }
{
    match answer {
        Ok(value) => {
            let name = Box::new(alloc, value.name)?;
            Ok(Tried::told(Reply::info(value.id, value.ty, name)))
        }
        Err(Refusal::Code(code)) => Ok(Tried::told(Reply::of(code))),
        Err(Refusal::HostMemory) => Err(AllocError),
    }
}
