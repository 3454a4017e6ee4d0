//! Result codes.

ghost use Rattle.std.specs.Prelude.{◌≡◌};

/// A result code of the Toolbox: 0 when a call was done, else the reason why it was not.
///
/// *Inside Macintosh: Memory*, "Result Codes"; *More Macintosh Toolbox*, chapter 1, "Result Codes".
#[derive(Clone, Copy, Debug, PartialEq, Eq)]
pub struct OsErr(pub i16);

impl OsErr {
    /// `noErr` (0) is returned when a call was done.
    pub const NO_ERR: OsErr = OsErr(0);
    /// `dsLoadErr` (system error 15) is returned by `LoadSeg` and `CallEntry` when a segment can't
    /// be loaded, or when an entry of the jump table belongs to no segment; it ends the
    /// application.
    pub const SYSTEM_ERROR: OsErr = OsErr(15);
    /// `dskFulErr` (-34) is returned by `UpdateResFile`, `CloseResFile` and the end of an
    /// application when changed resources do not fit the format of a resource fork, and by
    /// `CreateResFile` when an application has 256 files.
    pub const DISK_FULL: OsErr = OsErr(-34);
    /// `eofErr` (-39) is returned when a resource fork that is to be opened has no bytes.
    pub const END_OF_FILE: OsErr = OsErr(-39);
    /// `fnfErr` (-43) is returned by `OpenResFile` when the application has no file of the given
    /// name.
    pub const FILE_NOT_FOUND: OsErr = OsErr(-43);
    /// `dupFNErr` (-48) is returned by `CreateResFile` when the file has a resource fork already.
    pub const DUPLICATE_FILE: OsErr = OsErr(-48);
    /// `wrPermErr` (-61) is returned by `AddResource`, `RemoveResource`, `ChangedResource`,
    /// `SetResInfo`, `WritePartialResource` and `SetResourceSize` when the call would change the
    /// resources of the System file.
    pub const WRITE_PERMISSION: OsErr = OsErr(-61);
    /// `memFullErr` (-108) is returned when the zone has no room for a block, or the memory none
    /// for a partition.
    pub const MEM_FULL: OsErr = OsErr(-108);
    /// `nilHandleErr` (-109) is returned when a name in the call is unbound, or when its handle is
    /// an empty handle and the call needs a block.
    pub const NIL_HANDLE: OsErr = OsErr(-109);
    /// `memWZErr` (-111) is returned when the handle or the pointer was disposed of, or when the
    /// call needs a handle and the name is bound to a pointer, or the other way round.
    pub const WRONG_ZONE: OsErr = OsErr(-111);
    /// `memPurErr` (-112) is returned by `EmptyHandle` and `ReallocateHandle` when the block is
    /// locked, so that it can't be purged.
    pub const PURGED: OsErr = OsErr(-112);
    /// `memLockedErr` (-117) is returned by `MoveHHi` and `HLockHi` when the block is locked, so
    /// that it can't be moved, and by a call of a grow-zone script on a busy handle or pointer.
    pub const LOCKED: OsErr = OsErr(-117);
    /// `resourceInMemory` (-188) is returned by `ReadPartialResource`, `WritePartialResource` and
    /// `SetResourceSize` when the resource's block is in memory. The first has then read nothing;
    /// the other two have changed the stored data, and not the block.
    pub const IN_MEMORY: OsErr = OsErr(-188);
    /// `writingPastEnd` (-189) is returned by `WritePartialResource` and `SetResourceSize` when the
    /// resource would have more bytes than a resource can have.
    pub const TOO_LONG: OsErr = OsErr(-189);
    /// `inputOutOfBounds` (-190) is returned by `ReadPartialResource` when bytes past the end of
    /// the resource's stored data are to be read, and by `WritePartialResource` when the offset is
    /// past that end.
    pub const OFFSET: OsErr = OsErr(-190);
    /// `resNotFound` (-192) is returned when a search finds no resource, or when a name in the call
    /// is bound to no handle or, but for `AddResource` and `RemoveResource`, to no resource's
    /// handle.
    pub const RES_NOT_FOUND: OsErr = OsErr(-192);
    /// `resFNotFound` (-193) is returned when no resource fork is open under the number in the
    /// call.
    pub const RES_FILE_NOT_FOUND: OsErr = OsErr(-193);
    /// `addResFailed` (-194) is returned by `AddResource` when the handle is a resource's already,
    /// or is an empty handle.
    pub const ADD_RES_FAILED: OsErr = OsErr(-194);
    /// `rmvResFailed` (-196) is returned by `RemoveResource` when the handle is no resource's, or
    /// when the resource is protected or belongs to another file than the current one.
    pub const REMOVE_RES_FAILED: OsErr = OsErr(-196);
    /// `resAttrErr` (-198) is returned by `ChangedResource`, `SetResInfo`, `WritePartialResource`
    /// and `SetResourceSize` when the resource is protected, and by `DetachResource` when the
    /// resource was changed.
    pub const RES_ATTR: OsErr = OsErr(-198);
    /// `mapReadErr` (-199) is returned when a resource fork that is to be opened is damaged: its
    /// bytes spell no content.
    pub const MAP_READ: OsErr = OsErr(-199);
    /// `profileErr` (-30001), this project's own code, is returned when the manuals leave the
    /// result of a call undefined.
    pub const PROFILE: OsErr = OsErr(-30001);

    /// Returns the number of the code.
    pub fn number(self) -> i16
        ensures { result ≡ self.0 }
    {
        let OsErr(number) = self;
        number
    }
}
