//! Laws of what bytes spell, and of canonical forks.

ghost use Rattle.std.specs.Prelude.{◌≡◌, ◌≢◌, ℕ, true, List, [], map, Ok, Err};
ghost use Rattle.std.specs.List.{list_all};
ghost use Rattle.fork_format.specs.Content.{Group, Content, IsContent};
ghost use Rattle.fork_format.specs.Fork.{Spells, IsUnspelled};
ghost use Rattle.fork_format.specs.Canonical.{canon, clear, fits, has_refs, are_distinct};
ghost use Rattle.fork_format.specs.Code.{content_or_code};
ghost use Rattle.mac_words.specs.declared.code.TheConstants.OsErr.{END_OF_FILE, MAP_READ};

/// States that bytes spell at most one content, that each type of that content stands once and has
/// references, and that the content has none of the bits that a reader clears.
pub fn bytes_spell_one_content()
    ensures one { (bytes : List ℕ) (c d : Content) → Spells bytes c → Spells bytes d → c ≡ d }
    ensures distinct { (bytes : List ℕ) (c : Content) → Spells bytes c
        → are_distinct (map (λ (g : Group). g.kind) c.groups) ≡ true }
    ensures references { (bytes : List ℕ) (c : Content) → Spells bytes c
        → list_all has_refs c.groups ≡ true }
    ensures clear { (bytes : List ℕ) (c : Content) → Spells bytes c → clear c ≡ c }
{}

/// States which bytes have a content, and which result code the others have.
///
/// *More Macintosh Toolbox*, chapter 1, "Result Codes".
pub fn bytes_have_a_content_or_a_code()
    ensures content { (bytes : List ℕ) (c : Content) → Spells bytes c
        → content_or_code bytes ≡ Ok c }
    ensures empty { content_or_code [] ≡ Err END_OF_FILE }
    ensures damaged { (bytes : List ℕ) → bytes ≢ [] → IsUnspelled bytes
        → content_or_code bytes ≡ Err MAP_READ }
{}

/// States that each content that fits the format is read again from its canonical fork: the fork
/// spells the content without the bits that a reader clears, and spells nothing else.
///
/// *More Macintosh Toolbox*, chapter 1, "Resource File Format".
pub fn a_canonical_fork_is_read_again()
    ensures spelled { (c : Content) → IsContent c → fits c ≡ true → Spells (canon c) (clear c) }
    ensures only { (c d : Content) → IsContent c → fits c ≡ true
        → Spells (canon c) d → d ≡ clear c }
{}
