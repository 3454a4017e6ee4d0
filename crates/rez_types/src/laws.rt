//! A law of values and bytes.

ghost use Rattle.std.specs.Prelude.{◌≡◌, ◌≤◌, ℕ, true, List, Some, length};
ghost use Rattle.rez_types.specs.Fields.{Declaration};
ghost use Rattle.rez_types.specs.Values.{Value};
ghost use Rattle.rez_types.specs.Decoding.{values_of_datum};
ghost use Rattle.rez_types.specs.Encoding.{datum_of_values};
ghost use Rattle.rez_types.specs.Whole.{AreBytes, has_whole_runs};

/// States that the values of a resource's bytes are written as those bytes, by each declaration
/// whose runs are whole, where they are at most 16 MB.
pub fn what_is_read_is_written()
    ensures { (d : Declaration) (bytes : List ℕ) (values : List Value) → has_whole_runs d ≡ true
        → AreBytes bytes
        → length bytes ≤ 16777216 → values_of_datum d bytes ≡ Some values
        → datum_of_values d values ≡ Some bytes }
{}
