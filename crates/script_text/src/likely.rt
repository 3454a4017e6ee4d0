//! The words of calls, by their length.

use crate::word::CallWord;

static OF_THREE: [CallWord; 1] = [CallWord::Put];

static OF_FOUR: [CallWord; 1] = [CallWord::Show];

static OF_FIVE: [CallWord; 2] = [CallWord::HLock, CallWord::Where];

static OF_SIX: [CallWord; 5] = [
    CallWord::NewPtr,
    CallWord::HPurge,
    CallWord::MaxMem,
    CallWord::PutPtr,
    CallWord::Munger,
];

static OF_SEVEN: [CallWord; 7] = [
    CallWord::HUnlock,
    CallWord::MoveHHi,
    CallWord::HLockHi,
    CallWord::FreeMem,
    CallWord::LoadSeg,
    CallWord::ShowPtr,
    CallWord::PtrZone,
];

static OF_EIGHT: [CallWord; 6] = [
    CallWord::HNoPurge,
    CallWord::MaxBlock,
    CallWord::PurgeMem,
    CallWord::MemError,
    CallWord::ResError,
    CallWord::UniqueID,
];

static OF_NINE: [CallWord; 9] = [
    CallWord::NewHandle,
    CallWord::PtrToHand,
    CallWord::HGetState,
    CallWord::HSetState,
    CallWord::UnloadSeg,
    CallWord::CallEntry,
    CallWord::ShowEntry,
    CallWord::Unique1ID,
    CallWord::BlockMove,
];

static OF_TEN: [CallWord; 17] = [
    CallWord::DisposePtr,
    CallWord::HandToHand,
    CallWord::PtrAndHand,
    CallWord::GetPtrSize,
    CallWord::SetPtrSize,
    CallWord::PurgeSpace,
    CallWord::CompactMem,
    CallWord::ReserveMem,
    CallWord::UseResFile,
    CallWord::CurResFile,
    CallWord::GetResInfo,
    CallWord::SetResInfo,
    CallWord::SetResLoad,
    CallWord::HandleZone,
    CallWord::CountTypes,
    CallWord::GetIndType,
    CallWord::PtrToXHand,
];

static OF_ELEVEN: [CallWord; 16] = [
    CallWord::GetResource,
    CallWord::EmptyHandle,
    CallWord::HandAndHand,
    CallWord::MoreMasters,
    CallWord::SetGrowZone,
    CallWord::OpenResFile,
    CallWord::HomeResFile,
    CallWord::Count1Types,
    CallWord::Get1IndType,
    CallWord::AddResource,
    CallWord::GetResAttrs,
    CallWord::SetResAttrs,
    CallWord::SetResPurge,
    CallWord::ExitToShell,
    CallWord::NewPtrClear,
    CallWord::MaxSizeRsrc,
];

static OF_TWELVE: [CallWord; 4] = [
    CallWord::CloseResFile,
    CallWord::Get1Resource,
    CallWord::LoadResource,
    CallWord::SizeResource,
];

static OF_THIRTEEN: [CallWord; 9] = [
    CallWord::DisposeHandle,
    CallWord::SetHandleSize,
    CallWord::GetHandleSize,
    CallWord::CreateResFile,
    CallWord::UpdateResFile,
    CallWord::WriteResource,
    CallWord::WaitNextEvent,
    CallWord::RecoverHandle,
    CallWord::BlockMoveData,
];

static OF_FOURTEEN: [CallWord; 6] = [
    CallWord::NewEmptyHandle,
    CallWord::NewHandleClear,
    CallWord::DetachResource,
    CallWord::RemoveResource,
    CallWord::CountResources,
    CallWord::GetIndResource,
];

static OF_FIFTEEN: [CallWord; 7] = [
    CallWord::Count1Resources,
    CallWord::Get1IndResource,
    CallWord::ReleaseResource,
    CallWord::ChangedResource,
    CallWord::SetResourceSize,
    CallWord::GetResFileAttrs,
    CallWord::SetResFileAttrs,
];

static OF_SIXTEEN: [CallWord; 2] = [CallWord::ReallocateHandle, CallWord::GetNamedResource];

static OF_SEVENTEEN: [CallWord; 1] = [CallWord::Get1NamedResource];

static OF_NINETEEN: [CallWord; 2] = [CallWord::ReadPartialResource, CallWord::InlineGetHandleSize];

static OF_TWENTY: [CallWord; 1] = [CallWord::WritePartialResource];

static OF_TWENTY_ONE: [CallWord; 1] = [CallWord::GetResourceSizeOnDisk];

/// Returns the words of `length` letters, among which a token of that length is searched for first.
/// A word that is missing here is found nevertheless, since all words are searched afterwards.
pub fn likely(length: usize) -> &'static [CallWord] {
    match length {
        3 => &OF_THREE,
        4 => &OF_FOUR,
        5 => &OF_FIVE,
        6 => &OF_SIX,
        7 => &OF_SEVEN,
        8 => &OF_EIGHT,
        9 => &OF_NINE,
        10 => &OF_TEN,
        11 => &OF_ELEVEN,
        12 => &OF_TWELVE,
        13 => &OF_THIRTEEN,
        14 => &OF_FOURTEEN,
        15 => &OF_FIFTEEN,
        16 => &OF_SIXTEEN,
        17 => &OF_SEVENTEEN,
        19 => &OF_NINETEEN,
        20 => &OF_TWENTY,
        21 => &OF_TWENTY_ONE,
        _ => &[],
    }
}
