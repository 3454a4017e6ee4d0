//! The calls of the Resource Manager.

use crate::name::{FileName, Label, Name, OsType};

/// A call of the Resource Manager. An open resource fork is named by the number that `OpenResFile`
/// returns; types and resources are counted from 1. The first name of a call is bound to the
/// resource's handle by the call, or is bound already.
///
/// *More Macintosh Toolbox*, chapter 1, "Resource Manager Routines". Calls that return a handle
/// also report whether the resource's stored data was read for it, as 1 or 0.
#[derive(Drop)]
pub enum ResourceCall {
    /// Opens a file's resource fork, makes it the current one, and returns its number.
    OpenResFile(FileName),
    /// Creates a file whose resource fork has no resources.
    CreateResFile(FileName),
    /// Updates and closes a resource fork, and disposes of the handles of its resources.
    CloseResFile(u32),
    /// Writes the resource fork of an open file, if the file is touched.
    UpdateResFile(u32),
    /// Makes an open resource fork the current one, in which searches begin.
    UseResFile(u32),
    /// Returns the number of the current resource fork.
    CurResFile,
    /// Returns the attributes of an open resource fork's map.
    GetResFileAttrs(u32),
    /// Sets the attributes of an open resource fork's map.
    SetResFileAttrs(u32, u8),
    /// Returns the number of the resource fork to which a resource belongs.
    HomeResFile(Label),
    /// Binds the name to the handle of the first resource of a type and ID on the search path.
    GetResource(Label, OsType, i16),
    /// Binds the name to the handle of the resource of a type and ID in the current resource fork
    /// alone.
    Get1Resource(Label, OsType, i16),
    /// Binds the name to the handle of the first resource of a type and name on the search path.
    GetNamedResource(Label, OsType, Box<Name>),
    /// Binds the name to the handle of the resource of a type and name in the current resource fork
    /// alone.
    Get1NamedResource(Label, OsType, Box<Name>),
    /// Returns the number of types in all open resource forks together.
    CountTypes,
    /// Returns the number of types in the current resource fork.
    Count1Types,
    /// Returns the type at the given place, from 1 on, in all open resource forks together.
    GetIndType(u32),
    /// Returns the type at the given place, from 1 on, in the current resource fork.
    Get1IndType(u32),
    /// Returns the number of resources of a type in all open resource forks together.
    CountResources(OsType),
    /// Returns the number of resources of a type in the current resource fork.
    Count1Resources(OsType),
    /// Binds the name to the handle of the resource of a type at the given place, from 1 on, in all
    /// open resource forks together.
    GetIndResource(Label, OsType, u32),
    /// Binds the name to the handle of the resource of a type at the given place, from 1 on, in the
    /// current resource fork.
    Get1IndResource(Label, OsType, u32),
    /// Returns an ID that no resource of a type has in any open resource fork.
    UniqueID(OsType),
    /// Returns an ID that no resource of a type has in the current resource fork.
    Unique1ID(OsType),
    /// Reads a resource's stored data into its block, if its handle is an empty handle.
    LoadResource(Label),
    /// Disposes of a resource's handle; the resource stays in its resource fork.
    ReleaseResource(Label),
    /// Makes a resource's handle the application's own; the resource stays in its resource fork.
    DetachResource(Label),
    /// Makes the application's own handle the handle of a new resource of a type, ID and name in
    /// the current resource fork.
    AddResource(Label, OsType, i16, Box<Name>),
    /// Removes a resource from the current resource fork; its handle stays as the
    /// application's own.
    RemoveResource(Label),
    /// Marks a resource as changed: the next update of its file stores the bytes of its block.
    ChangedResource(Label),
    /// Stores the bytes of a changed resource's block, before the next update of its file.
    WriteResource(Label),
    /// Returns a resource's ID, type and name.
    GetResInfo(Label),
    /// Changes a resource's ID and name.
    SetResInfo(Label, i16, Box<Name>),
    /// Returns a resource's attributes.
    GetResAttrs(Label),
    /// Changes a resource's attributes.
    SetResAttrs(Label, u8),
    /// Returns the size in bytes of a resource's stored data.
    GetResourceSizeOnDisk(Label),
    /// Returns bytes of a resource's stored data: from an offset on, as many as the count. It
    /// returns none while the resource's block is in memory.
    ///
    /// *More Macintosh Toolbox*, chapter 1, "Reading and Writing Partial Resources".
    ReadPartialResource(Label, u32, u32),
    /// Writes bytes into a resource's stored data, from an offset on; the data grows where they
    /// reach past its end. The resource's block stays as it is.
    ///
    /// *More Macintosh Toolbox*, chapter 1, "Reading and Writing Partial Resources".
    WritePartialResource(Label, u32, Vec<u8>),
    /// Sets the size in bytes of a resource's stored data; new bytes are 0. The resource's block
    /// stays as it is.
    ///
    /// *More Macintosh Toolbox*, chapter 1, "Reading and Writing Partial Resources".
    SetResourceSize(Label, u32),
    /// Sets whether what was changed of a resource is stored as its block is purged.
    SetResPurge(bool),
    /// Sets whether the calls that return a handle also read the resource's stored data.
    SetResLoad(bool),
    /// Returns the result code of the last Resource Manager call before this one; `ResError` itself
    /// sets no code.
    ResError,
}
