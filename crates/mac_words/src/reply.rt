//! Replies.

ghost use Rattle.std.specs.Prelude.{◌≡◌, ◌<◌, ◌^◌, pos, [], ◌∷◌, Some, None, if◌then◌else◌};

use crate::code::OsErr;
use crate::name::{Name, OsType};
use arrayvec::ArrayVec;

/// The reply of a call: its result code and, after code 0, its values in the order of the fields.
/// Bytes that a call shows are no part of the reply: they are written from the block in which they
/// stand.
#[derive(Debug, Drop)]
pub struct Reply {
    pub code: OsErr,
    pub numbers: ArrayVec<i64, 2>,
    pub ty: Option<OsType>,
    pub name: Option<Box<Name>>,
}

impl Reply {
    /// Returns a reply of a result code and no value.
    pub fn of(code: OsErr) -> Reply
        ensures code { result.code ≡ code }
        ensures numbers { result.numbers.items ≡ [] }
        ensures ty { result.ty ≡ None }
        ensures name { result.name ≡ None }
    {
        Reply {
            code,
            numbers: ArrayVec::new(),
            ty: None,
            name: None,
        }
    }

    /// Returns a reply of code 0 and the number of another result code.
    pub fn telling(code: OsErr) -> Reply
        ensures code { result.code ≡ OsErr.NO_ERR }
        ensures numbers { result.numbers.items ≡ code.0 ∷ [] }
        ensures ty { result.ty ≡ None }
        ensures name { result.name ≡ None }
    {
        let mut numbers = ArrayVec::new();
        numbers.push(code.number() as i64);
        Reply {
            code: OsErr::NO_ERR,
            numbers,
            ty: None,
            name: None,
        }
    }

    /// Returns a reply of code 0 and two numbers.
    pub fn pair(one: u32, other: u32) -> Reply
        ensures code { result.code ≡ OsErr.NO_ERR }
        ensures numbers { result.numbers.items ≡ pos one ∷ pos other ∷ [] }
        ensures ty { result.ty ≡ None }
        ensures name { result.name ≡ None }
    {
        let mut numbers = ArrayVec::new();
        numbers.push(one as i64);
        numbers.push(other as i64);
        Reply {
            code: OsErr::NO_ERR,
            numbers,
            ty: None,
            name: None,
        }
    }

    /// Returns a reply of code 0, the segment of a jump table's entry, and a flag as 1 or 0.
    pub fn entry(segment: i16, flag: bool) -> Reply
        ensures code { result.code ≡ OsErr.NO_ERR }
        ensures numbers { result.numbers.items ≡ segment ∷ pos (if flag then 1 else 0) ∷ [] }
        ensures ty { result.ty ≡ None }
        ensures name { result.name ≡ None }
    {
        let mut numbers = ArrayVec::new();
        numbers.push(segment as i64);
        numbers.push(if flag { 1 } else { 0 });
        Reply {
            code: OsErr::NO_ERR,
            numbers,
            ty: None,
            name: None,
        }
    }

    /// Returns a reply of code 0 and a number.
    pub fn number(number: u32) -> Reply
        ensures code { result.code ≡ OsErr.NO_ERR }
        ensures numbers { result.numbers.items ≡ pos number ∷ [] }
        ensures ty { result.ty ≡ None }
        ensures name { result.name ≡ None }
    {
        Reply::count(number as usize)
    }

    /// Returns a reply of code 0 and an offset, which is negative where nothing was found.
    pub fn offset(offset: i64) -> Reply
        ensures code { result.code ≡ OsErr.NO_ERR }
        ensures numbers { result.numbers.items ≡ offset ∷ [] }
        ensures ty { result.ty ≡ None }
        ensures name { result.name ≡ None }
    {
        let mut numbers = ArrayVec::new();
        numbers.push(offset);
        Reply {
            code: OsErr::NO_ERR,
            numbers,
            ty: None,
            name: None,
        }
    }

    /// Returns a reply of code 0 and a count.
    pub fn count(number: usize) -> Reply
        requires { number < 2 ^ 63 }
        ensures code { result.code ≡ OsErr.NO_ERR }
        ensures numbers { result.numbers.items ≡ pos number ∷ [] }
        ensures ty { result.ty ≡ None }
        ensures name { result.name ≡ None }
    {
        let mut numbers = ArrayVec::new();
        numbers.push(number as i64);
        Reply {
            code: OsErr::NO_ERR,
            numbers,
            ty: None,
            name: None,
        }
    }

    /// Returns a reply of code 0 and the type of a resource.
    pub fn kind(ty: OsType) -> Reply
        ensures code { result.code ≡ OsErr.NO_ERR }
        ensures numbers { result.numbers.items ≡ [] }
        ensures ty { result.ty ≡ Some ty }
        ensures name { result.name ≡ None }
    {
        Reply {
            code: OsErr::NO_ERR,
            numbers: ArrayVec::new(),
            ty: Some(ty),
            name: None,
        }
    }

    /// Returns a reply of code 0 and a resource's ID, type and name. A resource without a name is
    /// given an empty name.
    pub fn info(id: i16, ty: OsType, name: Box<Name>) -> Reply
        ensures code { result.code ≡ OsErr.NO_ERR }
        ensures numbers { result.numbers.items ≡ id ∷ [] }
        ensures ty { result.ty ≡ Some ty }
        ensures name { result.name ≡ Some name }
    {
        let mut numbers = ArrayVec::new();
        numbers.push(id as i64);
        Reply {
            code: OsErr::NO_ERR,
            numbers,
            ty: Some(ty),
            name: Some(name),
        }
    }
}
