//! The law of printing with typed statements and reading again.

ghost use Rattle.std.specs.Prelude.{◌≡◌, ℕ, true, List, Ok, map};
ghost use Rattle.std.specs.List.{list_all};
ghost use Rattle.fork_format.specs.Content.{Group, Content, IsContent};
ghost use Rattle.fork_format.specs.Canonical.{are_distinct, clear, has_refs};
ghost use Rattle.fork_format.specs.Fork.{Spells};
ghost use Rattle.rez_statements.specs.Types.{Declared};
ghost use Rattle.rez_text.specs.Bytes.{IsOfBytes};
ghost use Rattle.rez_text.specs.Reading.{read};
ghost use Rattle.rez_typed.specs.declared.style.SourceStyle.{SourceStyle};
ghost use Rattle.rez_typed.specs.Source.{typed_source};

/// States that, in each style, whatever types are tried, and whatever types are declared before the
/// text and files are given, each content whose parts keep their limits, and whose types stand once
/// each and have resources, is read again from the source that is printed for it with typed
/// statements, without the bits that no stored fork has; a content that has none of them, as
/// `read_fork` ensures of every content, is read again as it is.
pub fn a_typed_source_is_read_again()
    ensures again { (types tried : List Declared) (files : List (List ℕ))
        (style : SourceStyle) (c : Content)
        → IsContent c → IsOfBytes c
        → list_all has_refs c.groups ≡ true
        → are_distinct (map (λ (g : Group). g.kind) c.groups) ≡ true
        → read types files (typed_source style tried c) ≡ Ok (clear c) }
    ensures same { (types tried : List Declared) (files : List (List ℕ))
        (style : SourceStyle) (c : Content)
        → IsContent c → IsOfBytes c
        → list_all has_refs c.groups ≡ true
        → are_distinct (map (λ (g : Group). g.kind) c.groups) ≡ true
        → clear c ≡ c → read types files (typed_source style tried c) ≡ Ok c }
    ensures spelled { (types tried : List Declared) (files : List (List ℕ)) (style : SourceStyle)
        (bytes : List ℕ) (c : Content)
        → IsContent c → IsOfBytes c → Spells bytes c
        → read types files (typed_source style tried c) ≡ Ok c }
{}
