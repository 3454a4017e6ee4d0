//! What the arguments of each call stand for.

ghost use Rattle.std.specs.Prelude.{◌≡◌, map};
ghost use Rattle.script_text.specs.Call.{kinds, spelling};
ghost use Rattle.lint.specs.Roles.{kind};

use crate::form::Form;
use crate::role::Role;
use script_text::CallWord;

/// Returns what the arguments of a call stand for, in order.
pub fn roles_of(word: CallWord) -> &'static [Role]
    ensures { map kind result.now ≡ kinds word }
{
    match word {
        CallWord::NewHandle
        | CallWord::NewHandleClear
        | CallWord::SetHandleSize
        | CallWord::ReallocateHandle
        | CallWord::SetResourceSize => &[Role::Handle, Role::Size],
        CallWord::NewEmptyHandle
        | CallWord::DisposeHandle
        | CallWord::GetHandleSize
        | CallWord::EmptyHandle
        | CallWord::HLock
        | CallWord::HUnlock
        | CallWord::HPurge
        | CallWord::HNoPurge
        | CallWord::HGetState
        | CallWord::HandleZone
        | CallWord::MoveHHi
        | CallWord::HLockHi
        | CallWord::HomeResFile
        | CallWord::LoadResource
        | CallWord::ReleaseResource
        | CallWord::DetachResource
        | CallWord::RemoveResource
        | CallWord::ChangedResource
        | CallWord::WriteResource
        | CallWord::GetResInfo
        | CallWord::GetResAttrs
        | CallWord::GetResourceSizeOnDisk
        | CallWord::SizeResource
        | CallWord::MaxSizeRsrc
        | CallWord::InlineGetHandleSize
        | CallWord::Show => &[Role::Handle],
        CallWord::HSetState | CallWord::SetResAttrs => &[Role::Handle, Role::Byte],
        CallWord::HandToHand => &[Role::Target, Role::Source],
        CallWord::HandAndHand => &[Role::Source, Role::Target],
        CallWord::PtrToHand | CallWord::PtrAndHand | CallWord::PtrToXHand => &[
            Role::Handle,
            Role::Bytes,
        ],
        CallWord::NewPtr | CallWord::NewPtrClear | CallWord::SetPtrSize => &[
            Role::Pointer,
            Role::Size,
        ],
        CallWord::DisposePtr | CallWord::GetPtrSize | CallWord::PtrZone | CallWord::ShowPtr => &[
            Role::Pointer,
        ],
        CallWord::FreeMem
        | CallWord::MaxBlock
        | CallWord::PurgeSpace
        | CallWord::MaxMem
        | CallWord::MoreMasters
        | CallWord::MemError
        | CallWord::CurResFile
        | CallWord::CountTypes
        | CallWord::Count1Types
        | CallWord::ResError
        | CallWord::WaitNextEvent
        | CallWord::ExitToShell => &[],
        CallWord::CompactMem | CallWord::PurgeMem | CallWord::ReserveMem => &[Role::Size],
        CallWord::SetGrowZone => &[Role::GrowZone],
        CallWord::OpenResFile | CallWord::CreateResFile => &[Role::File],
        CallWord::SetResFileAttrs => &[Role::Number, Role::Byte],
        CallWord::CloseResFile
        | CallWord::UpdateResFile
        | CallWord::UseResFile
        | CallWord::GetResFileAttrs
        | CallWord::GetIndType
        | CallWord::Get1IndType
        | CallWord::CallEntry
        | CallWord::ShowEntry => &[Role::Number],
        CallWord::GetResource | CallWord::Get1Resource => &[Role::Handle, Role::Type, Role::Id],
        CallWord::GetNamedResource | CallWord::Get1NamedResource => &[
            Role::Handle,
            Role::Type,
            Role::Text,
        ],
        CallWord::CountResources
        | CallWord::Count1Resources
        | CallWord::UniqueID
        | CallWord::Unique1ID => &[Role::Type],
        CallWord::GetIndResource | CallWord::Get1IndResource => &[
            Role::Handle,
            Role::Type,
            Role::Number,
        ],
        CallWord::AddResource => &[Role::Handle, Role::Type, Role::Id, Role::Text],
        CallWord::SetResInfo => &[Role::Handle, Role::Id, Role::Text],
        CallWord::ReadPartialResource => &[Role::Handle, Role::Offset, Role::Count],
        CallWord::WritePartialResource | CallWord::Put => &[
            Role::Handle,
            Role::Offset,
            Role::Bytes,
        ],
        CallWord::SetResPurge | CallWord::SetResLoad => &[Role::Switch],
        CallWord::LoadSeg | CallWord::UnloadSeg => &[Role::Id],
        CallWord::PutPtr => &[Role::Pointer, Role::Offset, Role::Bytes],
        CallWord::Where => &[Role::Variable],
        CallWord::RecoverHandle => &[Role::Handle, Role::Place],
        CallWord::Munger => &[Role::Handle, Role::Offset, Role::Old, Role::New],
        CallWord::BlockMove | CallWord::BlockMoveData => &[
            Role::From,
            Role::Offset,
            Role::Into,
            Role::Offset,
            Role::Count,
        ],
    }
}

/// Returns how a call is written.
pub fn form_of(word: CallWord) -> Form
    ensures word { result.word.now ≡ spelling word }
    ensures roles { map kind result.roles.now ≡ kinds word }
{
    Form {
        word: word.text(),
        roles: roles_of(word),
    }
}
