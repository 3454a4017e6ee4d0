//! The calls that return and set the attributes of an open file's resource map.
//!
//! *More Macintosh Toolbox*, chapter 1, "Getting and Setting Resource Fork Attributes".

ghost use Rattle.std.specs.Prelude.{◌≡◌, ◌≢◌, ◌==◌, ℕ, Err, map, option_map, if◌then◌else◌};
ghost use Rattle.fork_format.specs.Fork.{map_kept};
ghost use Rattle.heap_calls.specs.State.{Memory};
ghost use Rattle.mac_words.specs.Attributes.{has_bit};
ghost use Rattle.res_map.specs.Split.{Split, split};
ghost use Rattle.res_calls.specs.Changing as changing;
ghost use Rattle.res_calls.specs.Files.{OpenFile as OpenFileValue, Resources as ResourcesValue};
ghost use Rattle.res_calls.specs.Files.{file_of};
ghost use Rattle.res_calls.specs.Given.{IsAnswered, managers};
ghost use Rattle.res_calls.specs.Places.{chained};
ghost use Rattle.res_calls.specs.Rows as rows;
ghost use Rattle.res_calls.specs.Rows.{attrs_told, noting};
ghost use Rattle.res_calls.specs.View.{view_open};

use crate::chain::place_numbered;
use crate::files::{OpenFile, Resources};
use heap_calls::Refusal;
use mac_words::OsErr;

/// Returns mapChanged (32) for a file that is touched, and 0 for one that is not.
fn map_changed(touched: bool) -> u16
    ensures { result ≡ (if touched then 32 else 0) }
{
    if touched { 32 } else { 0 }
}

/// Returns the attributes that a resource map records: all but mapCompact (64) and mapChanged (32).
fn recorded(attrs: u16) -> u16
    ensures { result ≡ map_kept attrs }
{
    attrs & 0xff9f
}

/// Returns the attributes of an open file's map, as they are told.
fn told_attrs(file: &OpenFile) -> u32
    ensures { result ≡ attrs_told (view_open file.now) }
{
    (recorded(file.map.map_attrs()) | map_changed(file.touched)) as u32
}

/// Returns the attributes of the map of the open file whose number is `number`, as they are told.
#[tactic(auto, using(crate::proofs::FileAttrs::attrs_seen, crate::proofs::FileAttrs::attrs_unseen))]
fn attrs_in(chain: &[OpenFile], number: u32) -> Option<u32>
    ensures { result ≡ option_map (λ (at : Split OpenFileValue). attrs_told at.here)
        (split (λ (f : OpenFileValue). f.number == number) (map view_open chain.now)) }
{
    match place_numbered(chain, number) {
        None => None,
        Some(at) => Some(told_attrs(&chain[at])),
    }
}

/// Sets the attributes of an open file's map, and whether the file is touched.
fn put_attrs(file: &mut OpenFile, attrs: u8)
    ensures map { file.new.map ≡ record file.old.map { attrs = map_kept attrs } }
    ensures touched { file.new
        ≡ record file.old { map = file.new.map; touched = has_bit 32 attrs } }
{
    file.map.set_map_attrs(recorded(attrs as u16));
    file.touched = attrs & 32 != 0;
}

/// Sets the attributes of the map of the open file whose number is `number`. Returns -61
/// (wrPermErr) for the System file. Where no file of that number is open, nothing is done.
fn set_attrs_in(chain: &mut Vec<OpenFile>, number: u32, attrs: u8) -> Result<(), Refusal>
    ensures answer { (r : ResourcesValue) (m : Memory) → IsAnswered (λ (u : Unit {0}). u)
        (changing.set_res_file_attrs number attrs (managers (chained chain.old.items r) m)) result
        (managers (chained chain.new.items r) m) }
    ensures host { result ≢ Err Refusal.HostMemory }
{
    let Some(at) = place_numbered(chain, number) else {
        return Ok(());
    };
    if number == 0 {
        return Err(Refusal::Code(OsErr::WRITE_PERMISSION));
    }
    put_attrs(&mut chain[at], attrs);
    Ok(())
}

impl Resources {
    /// `GetResFileAttrs`: returns the attributes of the resource map of the open file whose number
    /// is `number`: mapReadOnly (128) as the map records it, and mapChanged (32) where the file is
    /// touched. Returns -193 (resFNotFound) where no such file is open.
    pub fn get_res_file_attrs(&mut self, number: u32) -> Result<u32, Refusal>
        ensures answer { (m : Memory) → IsAnswered (λ (n : ℕ). n) (noting
            (rows.get_res_file_attrs number) (managers self.old m)) result (managers self.new m) }
        ensures host { result ≢ Err Refusal.HostMemory }
    {
        let answer = self.attrs_of_file(number);
        self.note(answer)
    }

    /// Returns the attributes of the map of the open file whose number is `number`, as they are
    /// told.
    fn open_attrs(&self, number: u32) -> Option<u32>
        ensures { result ≡ option_map (λ (at : Split OpenFileValue). attrs_told at.here)
            (file_of number self.now) }
    {
        attrs_in(&self.chain, number)
    }

    /// Does the work of `GetResFileAttrs` without setting the code that `ResError` returns.
    fn attrs_of_file(&self, number: u32) -> Result<u32, Refusal>
        ensures answer { (m : Memory) → IsAnswered (λ (n : ℕ). n)
            (rows.get_res_file_attrs number (managers self.now m)) result (managers self.now m) }
        ensures host { result ≢ Err Refusal.HostMemory }
    {
        match self.open_attrs(number) {
            None => Err(Refusal::Code(OsErr::RES_FILE_NOT_FOUND)),
            Some(attrs) => Ok(attrs),
        }
    }

    /// `SetResFileAttrs`: sets the attributes of the resource map of the open file whose number is
    /// `number`; mapChanged (32) sets whether the file is touched. Returns -61 (wrPermErr) for the
    /// System file. Where no such file is open, nothing is done.
    pub fn set_res_file_attrs(&mut self, number: u32, attrs: u8) -> Result<(), Refusal>
        ensures answer { (m : Memory) → IsAnswered (λ (u : Unit {0}). u)
            (noting (changing.set_res_file_attrs number attrs) (managers self.old m)) result
            (managers self.new m) }
        ensures host { result ≢ Err Refusal.HostMemory }
    {
        let answer = self.set_attrs_of_file(number, attrs);
        self.note(answer)
    }

    /// Does the work of `SetResFileAttrs` without setting the code that `ResError` returns.
    fn set_attrs_of_file(&mut self, number: u32, attrs: u8) -> Result<(), Refusal>
        ensures answer { (m : Memory) → IsAnswered (λ (u : Unit {0}). u)
            (changing.set_res_file_attrs number attrs (managers self.old m)) result
            (managers self.new m) }
        ensures host { result ≢ Err Refusal.HostMemory }
    {
        set_attrs_in(&mut self.chain, number, attrs)
    }
}
