//! Laws of forks in files.

ghost use Rattle.std.specs.Prelude.{◌≡◌, true, ℕ, List, Some, Ok};
ghost use Rattle.bin_hex.specs.File.{File, AreBytes};
ghost use Rattle.bin_hex.specs.Putting.{with_fork};
ghost use Rattle.byteorder.specs.Endian.{big_number};
ghost use Rattle.fork_edits.specs.Renaming.{renamed};
ghost use Rattle.fork_edits.specs.Resources.{found, is_at, others, rows};
ghost use Rattle.fork_edits.specs.Setting.{resource_set};
ghost use Rattle.fork_format.specs.Content.{Ref, Content};
ghost use Rattle.fork_format.specs.Fork.{is_fork};
ghost use Rattle.rez_statements.specs.Types.{Declared};
ghost use Rattle.fork_commands.specs.Opening.{is_encoded, opened};
ghost use Rattle.fork_commands.specs.Packaging.{packed};
ghost use Rattle.fork_commands.specs.Reading.{fork_in};
ghost use Rattle.fork_commands.specs.Pairs.{bytes_alone, stated_naming, with_stated};
ghost use Rattle.fork_commands.specs.Sources.{printed, StatesSelected};
ghost use Rattle.fork_commands.specs.declared.packaging.Packaging.TheVariants.{AsRead};
ghost use Rattle.fork_commands.specs.declared.pair.Setting.{Setting};
ghost use Rattle.fork_commands.specs.declared.selecting.Selection.{Selection};
ghost use Rattle.fork_commands.specs.declared.source_form.SourceForm.{SourceForm};

/// States that a fork that was put into a file is found there again, and what stays in a BinHex
/// file.
pub fn a_fork_that_was_put_is_found()
    // In a wrapper, in BinHex, or as the file itself.
    ensures fork { (file fork new : List ℕ) → AreBytes file → AreBytes fork → is_fork fork ≡ true
        → packed AsRead file fork ≡ Ok new → fork_in new ≡ Ok fork }

    // In BinHex any bytes, also those that no reader takes for a fork.
    ensures encoded { (file fork new : List ℕ) → AreBytes fork → is_encoded file ≡ true
        → packed AsRead file fork ≡ Ok new → fork_in new ≡ Ok fork }

    // There the name, the type, the creator, the Finder's flags and the data fork stay.
    ensures rest { (file fork new : List ℕ) (old : File) → AreBytes fork
        → opened file ≡ Ok (Some old)
        → packed AsRead file fork ≡ Ok new → opened new ≡ Ok (Some (with_fork fork old)) }
{}

/// States that what is printed of a fork is source of what is selected of it, in every form and for
/// every selection, whatever types are tried: it is read again as that, whatever types are declared
/// before it, and whatever files are there.
pub fn what_is_printed_is_read_again()
    ensures { (form : SourceForm) (selection : Selection) (tried : List Declared)
        (bytes fork text : List ℕ)
        → fork_in bytes ≡ Ok fork → AreBytes fork → printed form selection tried bytes ≡ Ok text
        → StatesSelected selection bytes text }
{}

/// States what a content holds once a resource of it was set to one that is stated (`set --rez`).
pub fn setting_a_stated_resource_changes_nothing_else()
    // The first resource of the type and the ID has the stated bytes, and the name, or no name, and
    // the attributes.
    ensures set { (s : Setting) (r : Ref) (c : Content)
        → found (big_number 4 s.key.ty.0) s.key.id (with_stated s r c)
        ≡ Some (renamed (stated_naming s r)
        (resource_set (big_number 4 s.key.ty.0) s.key.id (bytes_alone r) c)) }

    // All others are those that there were, in their order.
    ensures others { (s : Setting) (r : Ref) (c : Content)
        → others (is_at (big_number 4 s.key.ty.0) s.key.id) (rows (with_stated s r c).groups)
        ≡ others (is_at (big_number 4 s.key.ty.0) s.key.id) (rows c.groups) }
{}
