//! The calls that return what is recorded of a resource: its file, ID, type, name, attributes and
//! size on disk.

ghost use Rattle.std.specs.Prelude.{◌≡◌, ◌≢◌, ◌<◌, ◌^◌, Err, ℕ, IfOk, option_map};
ghost use Rattle.mac_words.specs.declared.attributes.Attrs.{Attrs as AttrsValue};
ghost use Rattle.res_calls.specs.Files.{Found};
ghost use Rattle.heap_calls.specs.State.{Memory};
ghost use Rattle.res_map.specs.View.{view_lent};
ghost use Rattle.res_calls.specs.Rows as rows;
ghost use Rattle.res_calls.specs.Rows.{noting};
ghost use Rattle.res_calls.specs.Given.{IsAnswered, managers};
ghost use Rattle.res_calls.specs.Places.{seen_info, name_bytes};

use crate::files::Resources;
use crate::find::{entry_at, number_at};
use arrayvec::ArrayVec;
use fork_format::RefName;
use heap_calls::Refusal;
use mac_words::{Attrs, Name, OsErr, OsType};
use res_map::LentReference;

/// The ID, the type and the name of a resource.
///
/// *More Macintosh Toolbox*, chapter 1, "Getting Resource Information".
#[derive(Clone, Debug, PartialEq, Eq, Drop)]
pub struct Info {
    /// The ID of the resource.
    pub id: i16,
    /// The type of the resource.
    pub ty: OsType,
    /// The name of the resource; the name has no bytes where the resource has no name.
    pub name: Name,
}

/// Returns the bytes of a name, or no bytes where there is no name.
fn name_of(name: Option<RefName<'_>>) -> Name
    ensures { result.0.items ≡ name_bytes name.entry }
{
    let mut bytes = ArrayVec::new();
    if let Some(name) = name {
        match bytes.try_extend_from_slice(name.bytes) {
            Ok(()) => {}
            Err(_) => unreachable!(),
        }
    }
    Name(bytes)
}

/// Returns the ID, the type and the name of a reference.
fn info_of(entry: &LentReference<'_>) -> Info
    ensures { seen_info result ≡ rows.info_of (view_lent entry.now) }
{
    Info {
        id: entry.stored.id,
        ty: entry.ty,
        name: name_of(entry.stored.name),
    }
}

impl Resources {
    /// Returns the reference of the resource whose handle is `handle`.
    pub(crate) fn entry(&self, handle: Option<usize>) -> Option<LentReference<'_>>
        ensures { option_map view_lent result ≡ option_map (λ (f : Found). f.reference.here)
            (rows.resource_of handle self.now) }
    {
        match self.find_handle(handle) {
            None => None,
            Some(at) => Some(entry_at(&self.chain, at)),
        }
    }

    /// Returns the number of the file that holds the resource whose handle is `handle`.
    fn home(&self, handle: Option<usize>) -> Option<u32>
        ensures { result
            ≡ option_map (λ (f : Found). f.file.here.number) (rows.resource_of handle self.now) }
    {
        match self.find_handle(handle) {
            None => None,
            Some(at) => Some(number_at(&self.chain, at)),
        }
    }

    /// `HomeResFile`: returns the number of the open file that holds a resource. Returns -192
    /// (resNotFound) where the handle is not a resource's.
    pub fn home_res_file(&mut self, handle: Option<usize>) -> Result<u32, Refusal>
        ensures answer { (m : Memory) → IsAnswered (λ (n : ℕ). n)
            (noting (rows.home_res_file handle) (managers self.old m))
            result (managers self.new m) }
        ensures host { result ≢ Err Refusal.HostMemory }
    {
        let answer = self.home_of(handle);
        self.note(answer)
    }

    /// Does the work of `HomeResFile` without setting the code that `ResError` returns.
    fn home_of(&self, handle: Option<usize>) -> Result<u32, Refusal>
        ensures answer { (m : Memory) → IsAnswered (λ (n : ℕ). n)
            (rows.home_res_file handle (managers self.now m)) result (managers self.now m) }
        ensures host { result ≢ Err Refusal.HostMemory }
    {
        match self.home(handle) {
            None => Err(Refusal::Code(OsErr::RES_NOT_FOUND)),
            Some(number) => Ok(number),
        }
    }

    /// `GetResInfo`: returns the ID, the type and the name of a resource. Returns -192
    /// (resNotFound) where the handle is not a resource's.
    pub fn get_res_info(&mut self, handle: Option<usize>) -> Result<Info, Refusal>
        ensures answer { (m : Memory) → IsAnswered seen_info
            (noting (rows.get_res_info handle) (managers self.old m)) result (managers self.new m) }
        ensures host { result ≢ Err Refusal.HostMemory }
    {
        let answer = self.info_at(handle);
        self.note(answer)
    }

    /// Does the work of `GetResInfo` without setting the code that `ResError` returns.
    fn info_at(&self, handle: Option<usize>) -> Result<Info, Refusal>
        ensures answer { (m : Memory) → IsAnswered seen_info
            (rows.get_res_info handle (managers self.now m)) result (managers self.now m) }
        ensures host { result ≢ Err Refusal.HostMemory }
    {
        match self.entry(handle) {
            None => Err(Refusal::Code(OsErr::RES_NOT_FOUND)),
            Some(entry) => Ok(info_of(&entry)),
        }
    }

    /// `GetResAttrs`: returns the attributes of a resource. Returns -192 (resNotFound) where the
    /// handle is not a resource's.
    pub fn get_res_attrs(&mut self, handle: Option<usize>) -> Result<Attrs, Refusal>
        ensures answer { (m : Memory) → IsAnswered (λ (a : AttrsValue). a.0)
            (noting (rows.get_res_attrs handle) (managers self.old m))
            result (managers self.new m) }
        ensures host { result ≢ Err Refusal.HostMemory }
    {
        let answer = self.attrs_at(handle);
        self.note(answer)
    }

    /// Does the work of `GetResAttrs` without setting the code that `ResError` returns.
    fn attrs_at(&self, handle: Option<usize>) -> Result<Attrs, Refusal>
        ensures answer { (m : Memory) → IsAnswered (λ (a : AttrsValue). a.0)
            (rows.get_res_attrs handle (managers self.now m))
            result (managers self.now m) }
        ensures host { result ≢ Err Refusal.HostMemory }
    {
        match self.entry(handle) {
            None => Err(Refusal::Code(OsErr::RES_NOT_FOUND)),
            Some(entry) => Ok(entry.stored.attrs),
        }
    }

    /// `GetResourceSizeOnDisk`: returns the number of bytes in the stored data of a resource.
    /// Returns -192 (resNotFound) where the handle is not a resource's.
    pub fn get_resource_size_on_disk(&mut self, handle: Option<usize>) -> Result<usize, Refusal>
        ensures answer { (m : Memory) → IsAnswered (λ (n : ℕ). n)
            (noting (rows.get_resource_size_on_disk handle) (managers self.old m))
            result (managers self.new m) }
        ensures fits { IfOk result (λ n. n < 2 ^ 63) }
        ensures host { result ≢ Err Refusal.HostMemory }
    {
        let answer = self.size_at(handle);
        self.note(answer)
    }

    /// Does the work of `GetResourceSizeOnDisk` without setting the code that `ResError` returns.
    fn size_at(&self, handle: Option<usize>) -> Result<usize, Refusal>
        ensures answer { (m : Memory) → IsAnswered (λ (n : ℕ). n)
            (rows.get_resource_size_on_disk handle (managers self.now m))
            result (managers self.now m) }
        ensures fits { IfOk result (λ n. n < 2 ^ 63) }
        ensures host { result ≢ Err Refusal.HostMemory }
    {
        match self.entry(handle) {
            None => Err(Refusal::Code(OsErr::RES_NOT_FOUND)),
            Some(entry) => Ok(entry.stored.datum.len()),
        }
    }
}
