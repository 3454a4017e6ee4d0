//! The calls that count and index the types of all open files together.
//!
//! *More Macintosh Toolbox*, chapter 1, "Counting and Listing Resource Types".

ghost use Rattle.std.specs.Prelude.{◌≡◌, ◌≢◌, ◌<◌, ◌^◌, ℕ, Err, Ok, length, map, option_map};
ghost use Rattle.std.specs.Prelude.{if◌then◌else◌};
ghost use Rattle.byteorder.specs.Endian.{big_number};
ghost use Rattle.heap_calls.specs.State.{Memory};
ghost use Rattle.mac_words.specs.declared.name.OsType.{OsType as OsTypeValue};
ghost use Rattle.res_map.specs.Map.{nth, types};
ghost use Rattle.res_calls.specs.Given.{IsAnswered, managers};
ghost use Rattle.res_calls.specs.Owning.{references};
ghost use Rattle.res_calls.specs.Places.{has_type, new_types};
ghost use Rattle.res_calls.specs.Rows as rows;
ghost use Rattle.res_calls.specs.Rows.{noting};
ghost use Rattle.res_calls.specs.View.{view_open};

use crate::files::{OpenFile, Resources};
use crate::listing::{after_file, told_count};
use heap_calls::Refusal;
use mac_words::{OsErr, OsType};
use res_map::ResFile;

/// Reports whether one of the open files has resources of a type.
#[tactic(auto, using(crate::proofs::Typing::has_here, crate::proofs::Typing::has_on))]
fn has_type(files: &[OpenFile], ty: OsType) -> bool
    ensures { result ≡ has_type (map view_open files.now) (big_number 4 ty.0) }
{
    for i in 0..files.len() {
        if files[i].map.has_type(ty) {
            return true;
        }
    }
    false
}

/// Returns 1 for a type that none of the open files has, and 0 for one that some file has.
fn one_if_new(files: &[OpenFile], ty: OsType) -> usize
    ensures { result ≡ (if has_type (map view_open files.now) (big_number 4 ty.0) then 0 else 1) }
{
    if has_type(files, ty) { 0 } else { 1 }
}

/// Returns the number of a file's types that none of the open files before the file has.
#[tactic(auto, using(crate::proofs::Typing::count_none))]
fn count_new(before: &[OpenFile], file: &ResFile) -> usize
    ensures count { result ≡ length (new_types (map view_open before.now) file.now.references) }
    ensures fits { result < 2 ^ 63 }
{
    let mut count = 0;
    for i in 0..file.count_types() {
        count += one_if_new(before, file.type_at(i));
    }
    count
}

/// Returns the `n`-th, counted from 1, of a file's types that none of the open files before the
/// file has.
#[tactic(auto, using(crate::proofs::Typing::nth_here, crate::proofs::Typing::nth_new, crate::proofs::Typing::nth_known, crate::proofs::Typing::nth_none))]
fn nth_new(before: &[OpenFile], file: &ResFile, n: u32) -> Option<OsType>
    ensures { option_map (λ (t : OsTypeValue). big_number 4 t.0) result
        ≡ nth n (new_types (map view_open before.now) file.now.references) }
{
    let mut left = n;
    for i in 0..file.count_types() {
        let ty = file.type_at(i);
        if !has_type(before, ty) {
            if left == 1 {
                return Some(ty);
            }
            left = left.saturating_sub(1);
        }
    }
    None
}

/// Returns the number of types of open files, as it is told: a type of several files counts once.
#[tactic(auto, using(crate::proofs::Typing::types_start, crate::proofs::Typing::types_on, crate::proofs::Typing::types_end))]
fn count_all_types(files: &[OpenFile]) -> usize
    ensures count { result
        ≡ rows.told_count (length (types (references (map view_open files.now)))) }
    ensures fits { result < 2 ^ 63 }
{
    let mut total = 0;
    for i in 0..files.len() {
        total = told_count(total + count_new(&files[..i], &files[i].map));
    }
    total
}

/// Returns the `n`-th type of open files, counted from 1.
#[tactic(auto, using(crate::proofs::Typing::each_start, crate::proofs::Typing::each_here, crate::proofs::Typing::each_on, crate::proofs::Typing::each_end))]
fn nth_of_all_types(files: &[OpenFile], n: u32) -> Option<OsType>
    ensures { option_map (λ (t : OsTypeValue). big_number 4 t.0) result
        ≡ nth n (types (references (map view_open files.now))) }
{
    let mut left = n;
    for i in 0..files.len() {
        if let Some(ty) = nth_new(&files[..i], &files[i].map, left) {
            return Some(ty);
        }
        left = after_file(left, count_new(&files[..i], &files[i].map));
    }
    None
}

impl Resources {
    /// `CountTypes`: returns the number of resource types in all open files together.
    pub fn count_types(&mut self) -> usize
        ensures answer { (m : Memory) → IsAnswered (λ (n : ℕ). n)
            (noting (rows.count_types rows.EachFile) (managers self.old m)) (Ok result)
            (managers self.new m) }
        ensures fits { result < 2 ^ 63 }
    {
        self.error = OsErr::NO_ERR;
        count_all_types(&self.chain)
    }

    /// `GetIndType`: returns the `n`-th resource type of all open files together, counted from 1.
    /// Returns -192 (resNotFound) where they have no `n`-th type.
    pub fn get_ind_type(&mut self, n: u32) -> Result<OsType, Refusal>
        ensures answer { (m : Memory) → IsAnswered (λ (t : OsTypeValue). big_number 4 t.0)
            (noting (rows.get_ind_type rows.EachFile n) (managers self.old m)) result
            (managers self.new m) }
        ensures host { result ≢ Err Refusal.HostMemory }
    {
        let answer = self.ind_type_of_all(n);
        self.note(answer)
    }

    /// Does the work of `GetIndType` without setting the code that `ResError` returns.
    fn ind_type_of_all(&self, n: u32) -> Result<OsType, Refusal>
        ensures answer { (m : Memory) → IsAnswered (λ (t : OsTypeValue). big_number 4 t.0)
            (rows.get_ind_type rows.EachFile n (managers self.now m)) result (managers self.now m) }
        ensures host { result ≢ Err Refusal.HostMemory }
    {
        match nth_of_all_types(&self.chain, n) {
            None => Err(Refusal::Code(OsErr::RES_NOT_FOUND)),
            Some(ty) => Ok(ty),
        }
    }
}
