//! Laws of BinHex files.

ghost use Rattle.std.specs.Prelude.{◌≡◌, false, List, ◌∷◌, ◌++◌, ℕ, map, filter, is_some, None, Ok};
ghost use Rattle.bin_hex.specs.Alphabet.{character, is_dark};
ghost use Rattle.bin_hex.specs.BinHex.{decoded, encoded, groups};
ghost use Rattle.bin_hex.specs.File.{File, AreBytes, IsOfBytes, refusal};
ghost use Rattle.bin_hex.specs.Putting.{opening, closing, with_fork, with_resource_fork};
ghost use Rattle.bin_hex.specs.Text.{mark, is_bin_hex, after_colon};

/// States that each file that can be written is read again from the text that is written for it,
/// whatever text stands before it, if the line is not in that, and after it.
pub fn a_file_is_read_again()
    ensures { (file : File) (before after : List ℕ) → refusal file ≡ None → IsOfBytes file
        → is_bin_hex before ≡ false
        → decoded (before ++ (encoded file ++ after)) ≡ Ok file }
{}

/// States that a file is read from its characters between two colons however blanks, tabs and ends
/// of lines, be they CR, LF or CR with LF, stand among them, and whatever text without a colon
/// stands between the line and the first colon.
pub fn a_file_is_read_from_any_lines()
    ensures { (file : File) (before between text after : List ℕ) → refusal file ≡ None
        → IsOfBytes file
        → is_bin_hex before ≡ false → is_some (after_colon between) ≡ false
        → filter is_dark text ≡ map character (groups file)
        → decoded (before ++ (mark ++ (between ++ 58 ∷ (text ++ 58 ∷ after)))) ≡ Ok file }
{}

/// States what is read from a BinHex file into which a resource fork was put, and what stays in it.
pub fn a_fork_that_was_put_is_read_again()
    // The file that is read is the old one with this fork: its name, type, creator, flags and data
    // fork stay.
    ensures file { (bytes fork new : List ℕ) (file : File) → AreBytes fork → decoded bytes ≡ Ok file
        → with_resource_fork bytes fork ≡ Ok new → decoded new ≡ Ok (with_fork fork file) }

    // The text up to the first colon after the mark stays, and so does the text after the colon
    // that ends the encoded text.
    ensures opening { (bytes fork new : List ℕ) → with_resource_fork bytes fork ≡ Ok new
        → opening new ≡ opening bytes }
    ensures closing { (bytes fork new : List ℕ) → with_resource_fork bytes fork ≡ Ok new
        → closing new ≡ closing bytes }

    // A file that holds the fork stays as it is.
    ensures same { (bytes : List ℕ) (file : File) → decoded bytes ≡ Ok file
        → with_resource_fork bytes file.resource_fork ≡ Ok bytes }
{}

/// States that a file that is read is made of bytes, and can be written.
pub fn a_file_that_is_read_can_be_written()
    ensures bytes { (bytes : List ℕ) (file : File) → decoded bytes ≡ Ok file → IsOfBytes file }
    ensures fits { (bytes : List ℕ) (file : File) → decoded bytes ≡ Ok file → refusal file ≡ None }
{}
