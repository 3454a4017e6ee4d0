//! The calls that return and set the current file, that count and index the types and resources of
//! the current file, that turn loading on and off, and that return the last result code.

ghost use Rattle.std.specs.Prelude.{◌≡◌, ◌≢◌, ◌<◌, ◌^◌, ◌==◌, map, length, option_map, Err, Ok, ℕ};
ghost use Rattle.byteorder.specs.Endian.{big_number};
ghost use Rattle.mac_words.specs.declared.name.OsType.{OsType as OsTypeValue};
ghost use Rattle.heap_calls.specs.State.{Memory};
ghost use Rattle.res_map.specs.Split.{split};
ghost use Rattle.res_map.specs.Map.{types, of_type, nth};
ghost use Rattle.res_calls.specs.Files.{OpenFile as OpenFileValue, references_in};
ghost use Rattle.res_calls.specs.Given.{IsAnswered, managers, noted};
ghost use Rattle.res_calls.specs.Rows as rows;
ghost use Rattle.res_calls.specs.Rows.{noting};
ghost use Rattle.res_calls.specs.View.{view_open};

use crate::chain::place_numbered;
use crate::files::{OpenFile, Resources};
use heap_calls::Refusal;
use mac_words::{OsErr, OsType};

/// Returns the number of types in the open file whose number is `number`, or 0 where no such file
/// is open.
#[tactic(auto, using(crate::proofs::Lookups::references_seen))]
fn count_types(chain: &[OpenFile], number: u32) -> usize
    ensures count { result ≡ length (types (references_in
        (split (λ (f : OpenFileValue). f.number == number) (map view_open chain.now)))) }
    ensures fits { result < 2 ^ 63 }
{
    match place_numbered(chain, number) {
        None => 0,
        Some(at) => chain[at].map.count_types(),
    }
}

/// Returns the `n`-th type, counted from 1, of the open file whose number is `number`.
#[tactic(auto, using(crate::proofs::Lookups::references_seen))]
fn nth_type(chain: &[OpenFile], number: u32, n: u32) -> Option<OsType>
    ensures { option_map (λ (t : OsTypeValue). big_number 4 t.0) result
        ≡ nth n (types (references_in
        (split (λ (f : OpenFileValue). f.number == number) (map view_open chain.now)))) }
{
    match place_numbered(chain, number) {
        None => None,
        Some(at) => chain[at].map.nth_type(n),
    }
}

/// Returns the number of resources of a type in the open file whose number is `number`, or 0 where
/// no such file is open.
#[tactic(auto, using(crate::proofs::Lookups::references_seen))]
fn count_resources(chain: &[OpenFile], number: u32, ty: OsType) -> usize
    ensures fits { result < 2 ^ 63 }
    ensures count { result ≡ length (of_type (big_number 4 ty.0) (references_in
        (split (λ (f : OpenFileValue). f.number == number) (map view_open chain.now)))) }
{
    match place_numbered(chain, number) {
        None => 0,
        Some(at) => chain[at].map.count(ty),
    }
}

impl Resources {
    /// `UseResFile`: makes the open file whose number is `number` the current file. Returns -193
    /// (resFNotFound) where no such file is open.
    pub fn use_res_file(&mut self, number: u32) -> Result<(), Refusal>
        ensures answer { (m : Memory) → IsAnswered (λ (u : Unit {0}). u)
            (noting (rows.use_res_file number) (managers self.old m)) result (managers self.new m) }
        ensures host { result ≢ Err Refusal.HostMemory }
    {
        let answer = self.use_file(number);
        self.note(answer)
    }

    /// Does the work of `UseResFile` without setting the code that `ResError` returns.
    fn use_file(&mut self, number: u32) -> Result<(), Refusal>
        ensures answer { (m : Memory) → IsAnswered (λ (u : Unit {0}). u) (rows.use_res_file number
            (managers self.old m)) result (managers self.new m) }
        ensures host { result ≢ Err Refusal.HostMemory }
    {
        match place_numbered(&self.chain, number) {
            None => Err(Refusal::Code(OsErr::RES_FILE_NOT_FOUND)),
            Some(_) => {
                self.current = number;
                Ok(())
            }
        }
    }

    /// `CurResFile`: returns the number of the current file.
    pub fn cur_res_file(&mut self) -> u32
        ensures { (m : Memory) → IsAnswered (λ (n : ℕ). n)
            (noting rows.cur_res_file (managers self.old m)) (Ok result) (managers self.new m) }
    {
        self.error = OsErr::NO_ERR;
        self.current
    }

    /// `Count1Types`: returns the number of resource types in the current file.
    pub fn count1_types(&mut self) -> usize
        ensures answer { (m : Memory) → IsAnswered (λ (n : ℕ). n)
            (noting (rows.count_types rows.Current) (managers self.old m))
            (Ok result) (managers self.new m) }
        ensures fits { result < 2 ^ 63 }
    {
        self.error = OsErr::NO_ERR;
        count_types(&self.chain, self.current)
    }

    /// `Get1IndType`: returns the `n`-th resource type of the current file, counted from 1. Returns
    /// -192 (resNotFound) where the current file has no `n`-th type.
    pub fn get1_ind_type(&mut self, n: u32) -> Result<OsType, Refusal>
        ensures answer { (m : Memory) → IsAnswered (λ (t : OsTypeValue). big_number 4 t.0) (noting
            (rows.get_ind_type rows.Current n) (managers self.old m)) result (managers self.new m) }
        ensures host { result ≢ Err Refusal.HostMemory }
    {
        let answer = self.ind_type(n);
        self.note(answer)
    }

    /// Does the work of `Get1IndType` without setting the code that `ResError` returns.
    fn ind_type(&self, n: u32) -> Result<OsType, Refusal>
        ensures answer { (m : Memory) → IsAnswered (λ (t : OsTypeValue). big_number 4 t.0)
            (rows.get_ind_type rows.Current n (managers self.now m)) result (managers self.now m) }
        ensures host { result ≢ Err Refusal.HostMemory }
    {
        match nth_type(&self.chain, self.current, n) {
            None => Err(Refusal::Code(OsErr::RES_NOT_FOUND)),
            Some(ty) => Ok(ty),
        }
    }

    /// `Count1Resources`: returns the number of resources of a type in the current file.
    pub fn count1_resources(&mut self, ty: OsType) -> usize
        ensures answer { (m : Memory) → IsAnswered (λ (n : ℕ). n)
            (noting (rows.count_resources rows.Current (big_number 4 ty.0)) (managers self.old m))
            (Ok result) (managers self.new m) }
        ensures fits { result < 2 ^ 63 }
    {
        self.error = OsErr::NO_ERR;
        count_resources(&self.chain, self.current, ty)
    }

    /// `SetResPurge`: turns on or off the storing of what was changed: while it is on, the bytes of
    /// a block that is purged are stored of the block's resource, as `WriteResource` stores them.
    ///
    /// *More Macintosh Toolbox*, chapter 1, "SetResPurge".
    pub fn set_res_purge(&mut self, on: bool)
        ensures { (m : Memory) → IsAnswered (λ (u : Unit {0}). u) (noting (rows.set_res_purge on)
            (managers self.old m)) (Ok tt) (managers self.new m) }
    {
        self.purging = on;
        self.error = OsErr::NO_ERR;
    }

    /// `SetResLoad`: turns on or off the reading of stored data by the calls that return a
    /// resource's handle and by `OpenResFile`.
    pub fn set_res_load(&mut self, on: bool)
        ensures { (m : Memory) → IsAnswered (λ (u : Unit {0}). u) (noting (rows.set_res_load on)
            (managers self.old m)) (Ok tt) (managers self.new m) }
    {
        self.loading = on;
        self.error = OsErr::NO_ERR;
    }

    /// `ResError`: returns the result code of the last call.
    pub fn res_error(&self) -> OsErr
        ensures { result ≡ self.now.error }
    {
        self.error
    }

    /// Sets the code that `ResError` returns.
    pub fn keep_error(&mut self, code: OsErr)
        ensures { (m : Memory) → managers self.new m ≡ rows.keep_error code (managers self.old m) }
    {
        self.error = code;
    }

    /// Sets the code that `ResError` returns to the code of `answer`, and returns `answer`. Where
    /// the host was out of memory, the code that `ResError` returns stays as it was.
    pub(crate) fn note<T>(&mut self, answer: Result<T, Refusal>) -> Result<T, Refusal>
        ensures answer { result ≡ answer }
        ensures noted { self.new ≡ noted answer self.old }
    {
        match &answer {
            Ok(_) => self.error = OsErr::NO_ERR,
            Err(Refusal::Code(code)) => self.error = *code,
            Err(Refusal::HostMemory) => {}
        }
        answer
    }
}
