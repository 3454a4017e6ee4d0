//! Laws of printing and reading.

ghost use Rattle.std.specs.Prelude.{◌≡◌, ℕ, true, false, ◌++◌, List, [], length, Ok, Err, map};
ghost use Rattle.std.specs.List.{list_all};
ghost use Rattle.mac_roman.specs.declared.charset.Charset.{Charset};
ghost use Rattle.mac_roman.specs.Roman.{from_roman};
ghost use Rattle.fork_format.specs.Content.{Group, Content, IsContent};
ghost use Rattle.fork_format.specs.Canonical.{are_distinct, clear, has_refs};
ghost use Rattle.fork_format.specs.Fork.{Spells};
ghost use Rattle.rez_statements.specs.Types.{Declared};
ghost use Rattle.rez_text.specs.Bytes.{AreBytes, IsOfBytes};
ghost use Rattle.rez_text.specs.Coding.{coding_comment, is_coded};
ghost use Rattle.rez_text.specs.Printing.{source_of};
ghost use Rattle.rez_text.specs.Reading.{Lacking, later, read, read_roman};

/// States that, whatever types are declared before it, whatever files are given, and whatever
/// characters its comments have, each content whose parts keep their limits, and whose types stand
/// once each and have resources, is read again from the source that is printed for it, without the
/// bits that no stored fork has; a content that has none of them, as `read_fork` ensures of every
/// content, is read again as it is.
pub fn a_source_is_read_again()
    ensures again { (types : List Declared) (files : List (List ℕ)) (set : Charset) (c : Content)
        → IsContent c → IsOfBytes c
        → list_all has_refs c.groups ≡ true
        → are_distinct (map (λ (g : Group). g.kind) c.groups) ≡ true
        → read types files (source_of set c) ≡ Ok (clear c) }
    ensures same { (types : List Declared) (files : List (List ℕ)) (set : Charset) (c : Content)
        → IsContent c → IsOfBytes c
        → list_all has_refs c.groups ≡ true
        → are_distinct (map (λ (g : Group). g.kind) c.groups) ≡ true → clear c ≡ c
        → read types files (source_of set c) ≡ Ok c }
    ensures spelled { (types : List Declared) (files : List (List ℕ)) (set : Charset)
        (bytes : List ℕ) (c : Content)
        → IsContent c → IsOfBytes c → Spells bytes c → read types files (source_of set c) ≡ Ok c }
{}

/// States how texts are read by their coding: one in UTF-8, after the comment that says so, as the
/// bytes in Mac OS Roman of which it was made, one line further down; and one that does not say so
/// as its bytes.
pub fn a_coded_source_is_read_as_its_bytes()
    ensures coded { (types : List Declared) (files : List (List ℕ)) (text : List ℕ) → AreBytes text
        → read types files (coding_comment ++ from_roman text)
        ≡ later (read_roman types files text) }
    ensures content { (types : List Declared) (files : List (List ℕ)) (text : List ℕ) (c : Content)
        → AreBytes text
        → read_roman types files text ≡ Ok c
        → read types files (coding_comment ++ from_roman text) ≡ Ok c }
    ensures others { (types : List Declared) (files : List (List ℕ)) (text : List ℕ)
        → is_coded text ≡ false
        → read types files text ≡ read_roman types files text }
{}

/// States that no file is lacking where as many are given as the text names that lacks all: what a
/// text names does not depend on what files are given.
pub fn files_that_are_named_are_enough()
    ensures { (types : List Declared) (files : List (List ℕ)) (text : List ℕ)
        (names more : List (List ℕ))
        → read types [] text ≡ Err (Lacking names) → length files ≡ length names
        → ¬ (read types files text ≡ Err (Lacking more)) }
{}
