//! Laws of sound declarations.

ghost use Rattle.std.specs.Prelude.{◌≡◌, ◌≤◌, ℕ, true, List, Some, None, length};
ghost use Rattle.rez_types.specs.Fields.{Declaration};
ghost use Rattle.rez_types.specs.Values.{Value};
ghost use Rattle.rez_types.specs.Decoding.{values_of_datum};
ghost use Rattle.rez_types.specs.Encoding.{datum_of_values};
ghost use Rattle.rez_types.specs.Whole.{AreBytes, has_whole_runs};
ghost use Rattle.rez_declarations.specs.Sound.{fault_of};

use rez_types::what_is_read_is_written;

/// States that the runs of each sound declaration are whole.
pub fn sound_runs_are_whole()
    ensures { (d : Declaration) → fault_of d ≡ None → has_whole_runs d ≡ true }
{}

/// States that by each sound declaration the values of a resource's bytes are written as those
/// bytes, where they are at most 16 MB.
pub fn sound_declarations_keep_bytes()
    ensures { (d : Declaration) (bytes : List ℕ) (values : List Value) → fault_of d ≡ None
        → AreBytes bytes
        → length bytes ≤ 16777216 → values_of_datum d bytes ≡ Some values
        → datum_of_values d values ≡ Some bytes }
{
    what_is_read_is_written();
}
