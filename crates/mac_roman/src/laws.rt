//! Laws of text in Mac OS Roman.

ghost use Rattle.std.specs.Prelude.{◌≡◌, ◌<◌, ◌∷◌, [], ℕ, List, Some, Ok};
ghost use Rattle.std.specs.List.{AllByRecursion, flat_map};
ghost use Rattle.mac_roman.specs.Table.{char_of, byte_of};
ghost use Rattle.mac_roman.specs.Roman.{from_roman, to_roman};
ghost use Rattle.mac_roman.specs.Charset.{character};

/// States that each byte is one character, and each character that Mac OS Roman has is one byte.
pub fn characters_are_one_to_one()
    ensures bytes { (b : ℕ) → b < 256 → byte_of (char_of b) ≡ Some b }
    ensures characters { (c b : ℕ) → byte_of c ≡ Some b → char_of b ≡ c }
    ensures apart { (a b : ℕ) → a < 256 → b < 256 → char_of a ≡ char_of b → a ≡ b }
{}

/// States that any bytes are read again from what is written of them in UTF-8.
pub fn roman_text_is_read_again()
    ensures { (bytes : List ℕ) → AllByRecursion (λ b. b < 256) bytes
        → to_roman (from_roman bytes) ≡ Ok bytes }
{}

/// States that a text of ASCII is taken as it is, and printed as it is; and that a text is printed
/// character by character.
pub fn ascii_text_is_taken_as_it_is()
    ensures taken { (text : List ℕ) → AllByRecursion (λ b. b < 128) text → to_roman text ≡ Ok text }
    ensures printed { (b : ℕ) → b < 128 → character b ≡ b ∷ [] }
    ensures whole { (bytes : List ℕ) → flat_map character bytes ≡ from_roman bytes }
{}
