//! The words of the calls.

ghost use Rattle.std.specs.Prelude.{◌≡◌, ◌≢◌, List, [], ◌∷◌, true, Some, IfOk, IfSome, MatchOption, bytes_eq};
ghost use Rattle.script_text.specs.Argument.{Value};
ghost use Rattle.script_text.specs.Call.{spelling, kinds, meant, spoken, word_of, may_stand};
ghost use Rattle.script_text.specs.Call.{heap_spoken, resource_spoken, segment_spoken};
ghost use Rattle.script_text.specs.Call.{control_spoken, word_spelled, call_read};
ghost use Rattle.script_text.specs.Reading.{Gives};
ghost use Rattle.script_text.specs.declared.word.CallWord as declared;
ghost use Rattle.script_text.specs.declared.word.CallWord.{CallWord as Word};

use crate::argument::Argument;
use crate::arguments::{five, four, none, one, three, two};
use crate::fault::FaultKind;
use crate::likely::likely;
use mac_words::{Call, ControlCall, HeapCall, ResourceCall, SegmentCall};
use std::alloc::Global;

/// The word of a call, spelled as its variant is named.
#[derive(Clone, Copy, Debug, PartialEq, Eq)]
pub enum CallWord {
    NewHandle,
    NewEmptyHandle,
    DisposeHandle,
    GetHandleSize,
    SetHandleSize,
    ReallocateHandle,
    EmptyHandle,
    HLock,
    HUnlock,
    HPurge,
    HNoPurge,
    HGetState,
    HSetState,
    HandleZone,
    RecoverHandle,
    MoveHHi,
    HLockHi,
    HandToHand,
    PtrToHand,
    HandAndHand,
    PtrAndHand,
    PtrToXHand,
    Munger,
    NewPtr,
    DisposePtr,
    GetPtrSize,
    SetPtrSize,
    PtrZone,
    BlockMove,
    FreeMem,
    MaxBlock,
    PurgeSpace,
    CompactMem,
    PurgeMem,
    MaxMem,
    ReserveMem,
    MoreMasters,
    MemError,
    SetGrowZone,
    OpenResFile,
    CreateResFile,
    CloseResFile,
    UpdateResFile,
    UseResFile,
    CurResFile,
    HomeResFile,
    GetResource,
    Get1Resource,
    GetNamedResource,
    Get1NamedResource,
    GetResFileAttrs,
    SetResFileAttrs,
    CountTypes,
    Count1Types,
    GetIndType,
    Get1IndType,
    CountResources,
    Count1Resources,
    GetIndResource,
    Get1IndResource,
    UniqueID,
    Unique1ID,
    LoadResource,
    ReleaseResource,
    DetachResource,
    AddResource,
    RemoveResource,
    ChangedResource,
    WriteResource,
    GetResInfo,
    SetResInfo,
    GetResAttrs,
    SetResAttrs,
    GetResourceSizeOnDisk,
    ReadPartialResource,
    WritePartialResource,
    SetResourceSize,
    SetResPurge,
    SetResLoad,
    ResError,
    LoadSeg,
    UnloadSeg,
    CallEntry,
    ShowEntry,
    Put,
    Show,
    PutPtr,
    ShowPtr,
    Where,
    WaitNextEvent,
    ExitToShell,
    NewHandleClear,
    NewPtrClear,
    SizeResource,
    MaxSizeRsrc,
    InlineGetHandleSize,
    BlockMoveData,
}

/// The calls by the part of the toolbox that they belong to: for each its word, the enums that hold
/// the call, what reads its arguments, and a line of help. After them stand the other names of
/// calls, each with the word of the call that it names. The list at the end has the words of the
/// calls that a grow-zone script may hold.
macro_rules! calls {
    ($part:ident $($given:expr),*) => {
        $part! { $($given),* ;
            "The Memory Manager, relocatable blocks" {
                NewHandle = Heap HeapCall two(h, size)
                    "allocates a relocatable block of size bytes, all 0";
                NewEmptyHandle = Heap HeapCall one(h)
                    "binds h to a new empty handle";
                DisposeHandle = Heap HeapCall one(h)
                    "disposes of the block and its handle, locked or not";
                GetHandleSize = Heap HeapCall one(h)
                    "returns the logical size of the block";
                SetHandleSize = Heap HeapCall two(h, size)
                    "changes the logical size; new bytes are 0";
                ReallocateHandle = Heap HeapCall two(h, size)
                    "replaces the block with a new one of size bytes, all 0";
                EmptyHandle = Heap HeapCall one(h)
                    "removes the block, purgeable or not; the handle becomes empty";
                HLock = Heap HeapCall one(h)
                    "locks the block, so that it is neither moved nor purged";
                HUnlock = Heap HeapCall one(h)
                    "unlocks the block";
                HPurge = Heap HeapCall one(h)
                    "makes the block purgeable";
                HNoPurge = Heap HeapCall one(h)
                    "makes the block unpurgeable";
                HGetState = Heap HeapCall one(h)
                    "returns locked (128), purgeable (64) and resource (32), summed";
                HSetState = Heap HeapCall two(h, byte)
                    "sets locked and purgeable from bits 128 and 64 of byte";
                HandleZone = Heap HeapCall one(h)
                    "returns where the zone of the handle begins: 0";
                RecoverHandle = Heap HeapCall two(h, place)
                    "binds h to the handle of the block whose content stands at place";
                MoveHHi = Heap HeapCall one(h)
                    "moves the block to the top of its run of movable blocks";
                HLockHi = Heap HeapCall one(h)
                    "moves the block to the top of its run and locks it";
                HandToHand = Heap HeapCall two(b, a)
                    "binds b to a new handle with a copy of the bytes of a";
                PtrToHand = Heap HeapCall two(h, bytes)
                    "allocates a relocatable block with a copy of bytes";
                HandAndHand = Heap HeapCall two(a, b)
                    "appends the bytes of a to b";
                PtrAndHand = Heap HeapCall two(h, bytes)
                    "appends bytes to the block";
                PtrToXHand = Heap HeapCall two(h, bytes)
                    "replaces the bytes of the block, which gets their size";
                Munger = Heap HeapCall four(h, offset, old, new)
                    "puts new for the first old from offset on; returns the offset after it";
            }
            "The Memory Manager, nonrelocatable blocks" {
                NewPtr = Heap HeapCall two(p, size)
                    "allocates a nonrelocatable block of size bytes, all 0";
                DisposePtr = Heap HeapCall one(p)
                    "disposes of the nonrelocatable block";
                GetPtrSize = Heap HeapCall one(p)
                    "returns the logical size of the nonrelocatable block";
                SetPtrSize = Heap HeapCall two(p, size)
                    "changes the logical size, in place; new bytes are 0";
                PtrZone = Heap HeapCall one(p)
                    "returns where the zone of the block begins: 0";
                BlockMove = Heap HeapCall five(a, offset, b, offset, count)
                    "copies count bytes of a, from an offset on, to an offset of b";
            }
            "The Memory Manager, the heap zone" {
                FreeMem = Heap HeapCall none()
                    "returns the sum of all free blocks, headers included";
                MaxBlock = Heap HeapCall none()
                    "returns the largest size that compaction alone would yield";
                PurgeSpace = Heap HeapCall none()
                    "returns free plus purgeable bytes, and the largest such stretch";
                CompactMem = Heap HeapCall one(size)
                    "compacts until size bytes fit; returns the largest size";
                PurgeMem = Heap HeapCall one(size)
                    "purges, the lowest block first, until size bytes fit";
                MaxMem = Heap HeapCall none()
                    "purges and compacts the whole zone; returns the largest size";
                ReserveMem = Heap HeapCall one(size)
                    "makes room for size bytes as low in the zone as it can be";
                MoreMasters = Heap HeapCall none()
                    "allocates a block of 64 master pointers";
                MemError = Heap HeapCall none()
                    "returns the result code of the last Memory Manager call";
                SetGrowZone = Control ControlCall one(name)
                    "sets the grow-zone script; the name none sets no script";
            }
            "The Resource Manager" {
                OpenResFile = Resource ResourceCall one(file)
                    "opens a resource fork, makes it current, returns its number";
                CreateResFile = Resource ResourceCall one(file)
                    "makes a file whose fork has no resources";
                CloseResFile = Resource ResourceCall one(n)
                    "updates and closes a file and disposes of its handles";
                UpdateResFile = Resource ResourceCall one(n)
                    "writes the changed resources of a touched file to its fork";
                UseResFile = Resource ResourceCall one(n)
                    "makes an open file the current one";
                CurResFile = Resource ResourceCall none()
                    "returns the number of the current file";
                HomeResFile = Resource ResourceCall one(h)
                    "returns the number of the file that the resource is of";
                GetResource = Resource ResourceCall three(h, type, id)
                    "fetches by type and ID, along the search path";
                Get1Resource = Resource ResourceCall three(h, type, id)
                    "fetches by type and ID, from the current file only";
                GetNamedResource = Resource ResourceCall three(h, type, text)
                    "fetches by type and name, along the search path";
                Get1NamedResource = Resource ResourceCall three(h, type, text)
                    "fetches by type and name, from the current file only";
                GetResFileAttrs = Resource ResourceCall one(n)
                    "returns mapReadOnly (128) and mapChanged (32) of an open file, summed";
                SetResFileAttrs = Resource ResourceCall two(n, byte)
                    "sets mapReadOnly (128) and mapChanged (32) of an open file";
                CountTypes = Resource ResourceCall none()
                    "counts the resource types of all open files together";
                Count1Types = Resource ResourceCall none()
                    "counts the resource types of the current file";
                GetIndType = Resource ResourceCall one(n)
                    "returns the n-th type of all open files together, from 1";
                Get1IndType = Resource ResourceCall one(n)
                    "returns the n-th type of the current file, from 1";
                CountResources = Resource ResourceCall one(type)
                    "counts the resources of a type in all open files together";
                Count1Resources = Resource ResourceCall one(type)
                    "counts the resources of a type in the current file";
                GetIndResource = Resource ResourceCall three(h, type, n)
                    "fetches the n-th resource of a type in all open files together";
                Get1IndResource = Resource ResourceCall three(h, type, n)
                    "fetches the n-th resource of a type in the current file";
                UniqueID = Resource ResourceCall one(type)
                    "returns the lowest ID from 128 on that is free in all open files";
                Unique1ID = Resource ResourceCall one(type)
                    "returns the lowest ID from 128 on that is free in the current file";
                LoadResource = Resource ResourceCall one(h)
                    "reads the stored data into an empty handle of a resource";
                ReleaseResource = Resource ResourceCall one(h)
                    "disposes of a handle, unless its resource is changed";
                DetachResource = Resource ResourceCall one(h)
                    "makes the handle of a resource the application's own";
                AddResource = Resource ResourceCall four(h, type, id, text)
                    "adds the block to the current file as a new resource";
                RemoveResource = Resource ResourceCall one(h)
                    "removes a resource from the current file; its handle stays";
                ChangedResource = Resource ResourceCall one(h)
                    "marks the resource as changed and its file as touched";
                WriteResource = Resource ResourceCall one(h)
                    "stores the bytes of a changed resource in the resource map";
                GetResInfo = Resource ResourceCall one(h)
                    "returns the ID, type and name of the resource";
                SetResInfo = Resource ResourceCall three(h, id, text)
                    "sets the ID and, unless text is empty, the name";
                GetResAttrs = Resource ResourceCall one(h)
                    "returns the attributes of the resource";
                SetResAttrs = Resource ResourceCall two(h, byte)
                    "sets the attributes of the resource, except resChanged (2)";
                GetResourceSizeOnDisk = Resource ResourceCall one(h)
                    "returns the number of bytes of the stored data";
                ReadPartialResource = Resource ResourceCall three(h, offset, count)
                    "returns count bytes of the stored data, from offset on";
                WritePartialResource = Resource ResourceCall three(h, offset, bytes)
                    "writes bytes into the stored data, from offset on";
                SetResourceSize = Resource ResourceCall two(h, size)
                    "changes the size of the stored data; new bytes are 0";
                SetResPurge = Resource ResourceCall one(switch)
                    "turns the storing of changed resources as they are purged on (TRUE) or off (FALSE)";
                SetResLoad = Resource ResourceCall one(switch)
                    "turns the reading of stored data on (TRUE) or off (FALSE)";
                ResError = Resource ResourceCall none()
                    "returns the result code of the last Resource Manager call";
            }
            "The Segment Manager" {
                LoadSeg = Segment SegmentCall one(id)
                    "loads a segment: fetches it, moves it high and locks it";
                UnloadSeg = Segment SegmentCall one(id)
                    "unloads a segment: unlocks it and makes it purgeable";
                CallEntry = Segment SegmentCall one(n)
                    "calls through jump table entry n, from 0; loads its segment";
                ShowEntry = Segment SegmentCall one(n)
                    "returns the segment of entry n, and 1 if it is loaded";
            }
            "The application, on its own blocks" {
                Put = Heap HeapCall three(h, offset, bytes)
                    "writes bytes into the block of h, from offset on";
                Show = Heap HeapCall one(h)
                    "returns the bytes of the block of h";
                PutPtr = Heap HeapCall three(p, offset, bytes)
                    "writes bytes into the block of p, from offset on";
                ShowPtr = Heap HeapCall one(p)
                    "returns the bytes of the block of p";
                Where = Heap HeapCall one(name)
                    "returns where the content stands, counted from the zone's bottom";
            }
            "Turns" {
                WaitNextEvent = Control ControlCall none()
                    "ends the turn of the application";
                ExitToShell = Control ControlCall none()
                    "quits: updates and closes its files, the last opened first";
            }
            also "Other names of calls; a transcript has the call's own" {
                NewHandleClear = NewHandle Heap HeapCall two(h, size)
                    "NewHandle, whose new bytes are 0";
                NewPtrClear = NewPtr Heap HeapCall two(p, size)
                    "NewPtr, whose new bytes are 0";
                SizeResource = GetResourceSizeOnDisk Resource ResourceCall one(h)
                    "GetResourceSizeOnDisk";
                MaxSizeRsrc = GetResourceSizeOnDisk Resource ResourceCall one(h)
                    "GetResourceSizeOnDisk, since stored data has no room to spare";
                InlineGetHandleSize = GetHandleSize Heap HeapCall one(h)
                    "GetHandleSize";
                BlockMoveData = BlockMove Heap HeapCall five(a, offset, b, offset, count)
                    "BlockMove, of bytes that are no code";
            }
            [EmptyHandle DisposeHandle DisposePtr HPurge HNoPurge HUnlock ReleaseResource UnloadSeg]
        }
    };
}

macro_rules! words {
    (
        ;
        $($owner:literal { $($word:ident = $group:ident $calls:ident $read:ident $names:tt $what:literal;)* })*
        also $also:literal {
            $($other:ident = $own:ident $table:ident $kind:ident $by:ident $named:tt $same:literal;)*
        }
        [$($held:ident)*]
    ) => {
        [$($(CallWord::$word,)*)* $(CallWord::$other,)*]
    };
}

macro_rules! spelling_of {
    (
        $given:expr;
        $($owner:literal { $($word:ident = $group:ident $calls:ident $read:ident $names:tt $what:literal;)* })*
        also $also:literal {
            $($other:ident = $own:ident $table:ident $kind:ident $by:ident $named:tt $same:literal;)*
        }
        [$($held:ident)*]
    ) => {
        match $given {
            $($(CallWord::$word => stringify!($word),)*)*
            $(CallWord::$other => stringify!($other),)*
        }
    };
}

macro_rules! own_word {
    (
        $given:expr;
        $($owner:literal { $($word:ident = $group:ident $calls:ident $read:ident $names:tt $what:literal;)* })*
        also $also:literal {
            $($other:ident = $own:ident $table:ident $kind:ident $by:ident $named:tt $same:literal;)*
        }
        [$($held:ident)*]
    ) => {
        match $given {
            $($(CallWord::$word => CallWord::$word,)*)*
            $(CallWord::$other => CallWord::$own,)*
        }
    };
}

macro_rules! bare_arm {
    ($word:ident $group:ident $calls:ident none()) => {
        Some(Call::$group($calls::$word))
    };
    ($word:ident $group:ident $calls:ident $read:ident $names:tt) => {
        None
    };
}

macro_rules! bare_of {
    (
        $given:expr;
        $($owner:literal { $($word:ident = $group:ident $calls:ident $read:ident $names:tt $what:literal;)* })*
        also $also:literal {
            $($other:ident = $own:ident $table:ident $kind:ident $by:ident $named:tt $same:literal;)*
        }
        [$($held:ident)*]
    ) => {
        match $given {
            $($(CallWord::$word => bare_arm!($word $group $calls $read $names),)*)*
            $(CallWord::$other => bare_arm!($own $table $kind $by $named),)*
        }
    };
}

macro_rules! arm {
    ($given:expr, $alloc:expr, $text:expr; $word:ident $calls:ident none()) => {
        $given.of_none($text)
    };
    ($given:expr, $alloc:expr, $text:expr; $word:ident $calls:ident one $names:tt) => {
        $given.of_one($alloc, $text, $calls::$word)
    };
    ($given:expr, $alloc:expr, $text:expr; $word:ident $calls:ident two $names:tt) => {
        $given.of_two($alloc, $text, $calls::$word)
    };
    ($given:expr, $alloc:expr, $text:expr; $word:ident $calls:ident three $names:tt) => {
        $given.of_three($alloc, $text, $calls::$word)
    };
    ($given:expr, $alloc:expr, $text:expr; $word:ident $calls:ident four $names:tt) => {
        $given.of_four($alloc, $text, $calls::$word)
    };
    ($given:expr, $alloc:expr, $text:expr; $word:ident $calls:ident five $names:tt) => {
        $given.of_five($alloc, $text, $calls::$word)
    };
}

macro_rules! read_of {
    (
        $given:expr, $alloc:expr, $text:expr;
        $($owner:literal { $($word:ident = $group:ident $calls:ident $read:ident $names:tt $what:literal;)* })*
        also $also:literal {
            $($other:ident = $own:ident $table:ident $kind:ident $by:ident $named:tt $same:literal;)*
        }
        [$($held:ident)*]
    ) => {
        match $given {
            $($(CallWord::$word => arm!($given, $alloc, $text; $word $calls $read $names),)*)*
            $(CallWord::$other => arm!($given, $alloc, $text; $own $kind $by $named),)*
        }
    };
}

macro_rules! word_of_call {
    (
        $given:expr;
        $($owner:literal { $($word:ident = $group:ident $calls:ident $read:ident $names:tt $what:literal;)* })*
        also $also:literal $others:tt
        [$($held:ident)*]
    ) => {
        match $given { $($(Call::$group($calls::$word { .. }) => CallWord::$word,)*)* }
    };
}

macro_rules! listed {
    (
        ;
        $($owner:literal { $($word:ident = $group:ident $calls:ident $read:ident ($($name:ident),*) $what:literal;)* })*
        also $also:literal {
            $($other:ident = $own:ident $table:ident $kind:ident $by:ident ($($named:ident),*)
            $same:literal;)*
        }
        [$($held:ident)*]
    ) => {
        concat!(
            $($owner, ":\n", $("  ", stringify!($word), $(" ", stringify!($name),)* ": ", $what, "\n",)*)*
            $also, ":\n", $("  ", stringify!($other), $(" ", stringify!($named),)* ": ", $same, "\n",)*
            "Grow-zone scripts, anywhere in a script; 'SetGrowZone none' sets no script:\n",
            "  grow NAME .. end, each on a line of its own, with lines of these calls between them:\n",
            "   ", $(" ", stringify!($held),)* "\n",
            "Result codes:\n",
            "  0 noErr: the call was done\n",
            "  15 dsLoadErr: a segment cannot be loaded, a system error; the application ends\n",
            "  -34 dskFulErr: the content does not fit a resource fork, or the application has 256 files\n",
            "  -39 eofErr: the file's resource fork has no bytes\n",
            "  -43 fnfErr: the application has no file of this name\n",
            "  -48 dupFNErr: the file has a resource fork already\n",
            "  -61 wrPermErr: the System file and its resources cannot be changed\n",
            "  -108 memFullErr: there is no room in the zone\n",
            "  -109 nilHandleErr: the name is unbound, or its handle is empty\n",
            "  -111 memWZErr: the handle or pointer was disposed of, or the name is of the other kind\n",
            "  -112 memPurErr: the block is locked and cannot be removed\n",
            "  -117 memLockedErr: the block is locked and cannot be moved, or the name is busy\n",
            "  -188 resourceInMemory: the block of the resource is in memory; what is written is stored\n",
            "  -189 writingPastEnd: the resource would be longer than a resource can be\n",
            "  -190 inputOutOfBounds: the stored data ends before the place in the call\n",
            "  -192 resNotFound: there is no such resource, or the handle belongs to no resource\n",
            "  -193 resFNotFound: no file is open under this number\n",
            "  -194 addResFailed: the handle belongs to a resource already, or is empty\n",
            "  -196 rmvResFailed: the resource is protected, is in another file, or the handle belongs to none\n",
            "  -198 resAttrErr: the resource is protected or changed, which the call does not allow\n",
            "  -199 mapReadErr: the resource fork is damaged\n",
            "  -30001 profileErr: this program's own code, where the manuals say nothing\n",
        )
    };
}

macro_rules! is_held {
    (
        $given:expr;
        $($owner:literal { $($word:ident = $group:ident $calls:ident $read:ident $names:tt $what:literal;)* })*
        also $also:literal $others:tt
        [$($held:ident)*]
    ) => {
        matches!($given, $(CallWord::$held)|*)
    };
}

/// The calls as a person reads them: a line for each, with the names of its arguments and what the
/// call does, below the line of the part of the toolbox. Then the lines that make a grow-zone
/// script and the calls that it may hold, and the result codes.
pub const CALLS: &str = calls!(listed);

/// The words of all calls, in the order of the tables.
pub static WORDS: [CallWord; 97] = calls!(words);

/// Returns the word that a token spells, if the word is one of the few of the token's length that
/// are tried first.
fn likely_word(token: &[u8]) -> Option<CallWord>
    ensures { IfSome result (λ word. bytes_eq (spelling word) token.now ≡ true) }
{
    for word in likely(token.len()) {
        if word.text() == token {
            return Some(*word);
        }
    }
    None
}

/// Returns the word that a token spells, by trying every word.
#[tactic(auto, unfolding(crate::specs::Call::word_spelled))]
fn any_word(token: &[u8]) -> Option<CallWord>
    ensures { result ≡ word_spelled token.now }
{
    WORDS.iter().copied().find(|word| word.text() == token)
}

/// A call of one part of the toolbox.
trait Spoken: Sized {
    ghost said: { Self → Word × List Value };

    /// Returns the call, as one of all calls.
    fn into_call(self) -> Call
        ensures { spoken result ≡ said self };
}

impl Spoken for HeapCall {
    ghost said = { heap_spoken };

    fn into_call(self) -> Call {
        Call::Heap(self)
    }
}

impl Spoken for ResourceCall {
    ghost said = { resource_spoken };

    fn into_call(self) -> Call {
        Call::Resource(self)
    }
}

impl Spoken for SegmentCall {
    ghost said = { segment_spoken };

    fn into_call(self) -> Call {
        Call::Segment(self)
    }
}

impl Spoken for ControlCall {
    ghost said = { control_spoken };

    fn into_call(self) -> Call {
        Call::Control(self)
    }
}

impl CallWord {
    /// Returns the word of a call.
    pub fn of(call: &Call) -> CallWord
        ensures { result ≡ word_of call.now }
    {
        calls!(word_of_call call)
    }

    fn name(self) -> &'static str
        ensures { result.now ≡ spelling self }
    {
        calls!(spelling_of self)
    }

    /// Returns the spelling of the word.
    pub fn text(self) -> &'static [u8]
        ensures { result.now ≡ spelling self }
    {
        self.name().as_bytes()
    }

    /// Returns the call's own word, where the word is another name of a call.
    pub fn meant(self) -> CallWord
        ensures { result ≡ meant self }
    {
        calls!(own_word self)
    }

    /// Reports whether a grow-zone script may hold the call.
    pub fn is_allowed(self) -> bool
        ensures { result ≡ may_stand self }
    {
        calls!(is_held self)
    }

    /// Returns the word that a token spells, if the token spells one.
    #[tactic(auto, using(crate::proofs::Spelled::spelled_so))]
    pub fn find(token: &[u8]) -> Option<CallWord>
        ensures { result ≡ word_spelled token.now }
    {
        match likely_word(token) {
            Some(word) => Some(word),
            None => any_word(token),
        }
    }

    /// Returns the call of a word that takes no argument.
    fn bare_call(self) -> Option<Call>
        ensures { MatchOption result (kinds self ≢ []) (λ call. spoken call ≡ (meant self, [])) }
    {
        calls!(bare_of self)
    }

    /// Makes the call of a word that takes no argument. The text must then be blank.
    #[tactic(auto, using(crate::proofs::Allowed::spoken_stands))]
    fn of_none(self, text: &[u8]) -> Result<Call, FaultKind>
        requires { kinds self ≡ [] }
        ensures call { Gives spoken result (call_read self text.now) }
        ensures word { IfOk result (λ call. may_stand (word_of call) ≡ may_stand self) }
    {
        none(text)?;
        match self.bare_call() {
            Some(call) => Ok(call),
            None => Err(FaultKind::BadArgument),
        }
    }

    /// Reads the one argument of a word from a text and makes the call.
    #[tactic(auto, using(crate::proofs::Allowed::spoken_stands))]
    fn of_one<A: Argument + Drop, T: Spoken, F: FnOnce(A) -> T>(
        self,
        alloc: Global,
        text: &[u8],
        make: F,
    ) -> Result<Call, FaultKind>
        requires callable { F.IsAlwaysCallable make }
        requires kinds { kinds self ≡ A.kind ∷ [] }
        requires made { (a : A) → (call : T) → F.post make a call
            → T.said call ≡ (meant self, A.seen a ∷ []) }
        ensures call { Gives spoken result (call_read self text.now) }
        ensures word { IfOk result (λ call. may_stand (word_of call) ≡ may_stand self) }
    {
        let a = one(alloc, text)?;
        Ok(make(a).into_call())
    }

    /// Reads the two arguments of a word from a text and makes the call.
    #[tactic(auto, using(crate::proofs::Allowed::spoken_stands))]
    fn of_two<A: Argument + Drop, B: Argument + Drop, T: Spoken, F: FnOnce(A, B) -> T>(
        self,
        alloc: Global,
        text: &[u8],
        make: F,
    ) -> Result<Call, FaultKind>
        requires callable { F.IsAlwaysCallable make }
        requires kinds { kinds self ≡ A.kind ∷ B.kind ∷ [] }
        requires made { (a : A) → (b : B) → (call : T) → F.post make a b call
            → T.said call ≡ (meant self, A.seen a ∷ B.seen b ∷ []) }
        ensures call { Gives spoken result (call_read self text.now) }
        ensures word { IfOk result (λ call. may_stand (word_of call) ≡ may_stand self) }
    {
        let (a, b) = two(alloc, text)?;
        Ok(make(a, b).into_call())
    }

    /// Reads the three arguments of a word from a text and makes the call.
    #[tactic(auto, using(crate::proofs::Allowed::spoken_stands))]
    fn of_three<
        A: Argument + Drop,
        B: Argument + Drop,
        C: Argument + Drop,
        T: Spoken,
        F: FnOnce(A, B, C) -> T,
    >(self, alloc: Global, text: &[u8], make: F) -> Result<Call, FaultKind>
        requires callable { F.IsAlwaysCallable make }
        requires kinds { kinds self ≡ A.kind ∷ B.kind ∷ C.kind ∷ [] }
        requires made { (a : A) → (b : B) → (c : C) → (call : T) → F.post make a b c call
            → T.said call ≡ (meant self, A.seen a ∷ B.seen b ∷ C.seen c ∷ []) }
        ensures call { Gives spoken result (call_read self text.now) }
        ensures word { IfOk result (λ call. may_stand (word_of call) ≡ may_stand self) }
    {
        let (a, b, c) = three(alloc, text)?;
        Ok(make(a, b, c).into_call())
    }

    /// Reads the four arguments of a word from a text and makes the call.
    #[tactic(auto, using(crate::proofs::Allowed::spoken_stands))]
    fn of_four<
        A: Argument + Drop,
        B: Argument + Drop,
        C: Argument + Drop,
        D: Argument + Drop,
        T: Spoken,
        F: FnOnce(A, B, C, D) -> T,
    >(self, alloc: Global, text: &[u8], make: F) -> Result<Call, FaultKind>
        requires callable { F.IsAlwaysCallable make }
        requires kinds { kinds self ≡ A.kind ∷ B.kind ∷ C.kind ∷ D.kind ∷ [] }
        requires made { (a : A) → (b : B) → (c : C) → (d : D) → (call : T) → F.post make a b c d call
            → T.said call ≡ (meant self, A.seen a ∷ B.seen b ∷ C.seen c ∷ D.seen d ∷ []) }
        ensures call { Gives spoken result (call_read self text.now) }
        ensures word { IfOk result (λ call. may_stand (word_of call) ≡ may_stand self) }
    {
        let (a, b, c, d) = four(alloc, text)?;
        Ok(make(a, b, c, d).into_call())
    }

    /// Reads the five arguments of a word from a text and makes the call.
    #[tactic(auto, using(crate::proofs::Allowed::spoken_stands))]
    fn of_five<
        A: Argument + Drop,
        B: Argument + Drop,
        C: Argument + Drop,
        D: Argument + Drop,
        E: Argument + Drop,
        T: Spoken,
        F: FnOnce(A, B, C, D, E) -> T,
    >(self, alloc: Global, text: &[u8], make: F) -> Result<Call, FaultKind>
        requires callable { F.IsAlwaysCallable make }
        requires kinds { kinds self ≡ A.kind ∷ B.kind ∷ C.kind ∷ D.kind ∷ E.kind ∷ [] }
        requires made { (a : A) → (b : B) → (c : C) → (d : D) → (e : E) → (call : T) → F.post make a b c d e call
            → T.said call ≡ (meant self, A.seen a ∷ B.seen b ∷ C.seen c ∷ D.seen d ∷ E.seen e ∷ []) }
        ensures call { Gives spoken result (call_read self text.now) }
        ensures word { IfOk result (λ call. may_stand (word_of call) ≡ may_stand self) }
    {
        let (a, b, c, d, e) = five(alloc, text)?;
        Ok(make(a, b, c, d, e).into_call())
    }

    /// Reads the arguments of a word from a text and makes the call.
    pub(crate) fn read(self, alloc: Global, text: &[u8]) -> Result<Call, FaultKind>
        ensures call { Gives spoken result (call_read self text.now) }
        ensures word { IfOk result (λ call. may_stand (word_of call) ≡ may_stand self) }
    {
        calls!(read_of self, alloc, text)
    }
}

/// Finds each word by its spelling: no two words are spelled alike, and no word is forgotten.
pub fn words_are_apart()
    ensures { (w : declared.CallWord) → word_spelled (spelling w) ≡ Some w }
{}
