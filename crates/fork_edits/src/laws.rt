//! Laws of a content in which a resource is set, taken out or renamed, of two contents merged, and
//! of the names of files and resources.

ghost use Rattle.std.specs.Prelude.{◌≡◌, ◌≢◌, ◌<◌, ◌≤◌, ◌^◌, ◌++◌, ◌∷◌, FitsSigned, ℕ, ℤ, List};
ghost use Rattle.std.specs.Prelude.{Some, None, Ok, true, is_some, length, map, option_map};
ghost use Rattle.std.specs.Prelude.{unwrap_or};
ghost use Rattle.std.specs.List.{AllByRecursion, filter, list_all};
ghost use Rattle.std.specs.Int.{w16};
ghost use Rattle.std.specs.Str.{str_to_ascii_lowercase};
ghost use Rattle.fork_format.specs.Canonical.{canon, has_refs};
ghost use Rattle.fork_format.specs.Content.{Ref, Group, Content, distinct};
ghost use Rattle.fork_format.specs.Fork.{Spells};
ghost use Rattle.fork_edits.specs.Resources.{Row, rows, is_at, found, others};
ghost use Rattle.fork_edits.specs.Setting.{Change, first_changed, row_changed, with_resource};
ghost use Rattle.fork_edits.specs.Setting.{resource_set};
ghost use Rattle.fork_edits.specs.Removing.{without_resource};
ghost use Rattle.fork_edits.specs.Renaming.{Renaming, renamed, row_renamed, with_renamed, refusal};
ghost use Rattle.fork_edits.specs.Merging.{both, with_both, or_other, clash};
ghost use Rattle.fork_edits.specs.Contents.{Listed, listed, contents_text};
ghost use Rattle.fork_edits.specs.FileNames.{file_name};
ghost use Rattle.fork_edits.specs.Filed.{filed, AreApart};
ghost use Rattle.fork_edits.specs.Listing.{contents_read};
ghost use Rattle.fork_edits.specs.Packing.{packed_content, named_files, file_bytes, HasFiles};
ghost use Rattle.fork_edits.specs.Packing.{IsListable};
ghost use Rattle.fork_edits.specs.FixedNames.{fixed_name};
ghost use Rattle.fork_edits.specs.Twins.{twin};
ghost use Rattle.fork_edits.specs.Types.{type_read};
ghost use Rattle.fork_edits.specs.RomanNames.{name_read};
ghost use Rattle.fork_edits.specs.RomanTypes.{some_type, type_text_read};

/// States that setting a resource of a type and an ID changes nothing else.
pub fn setting_a_resource_changes_nothing_else()
    // The first resource of the type and the ID is then the one that was set.
    ensures set { (kind : ℕ) (id : ℤ) (change : Change) (c : Content)
        → found kind id (with_resource kind id change c) ≡ Some (resource_set kind id change c) }

    // All others are those that there were, in their order.
    ensures others { (kind : ℕ) (id : ℤ) (change : Change) (c : Content)
        → others (is_at kind id) (rows (with_resource kind id change c).groups)
        ≡ others (is_at kind id) (rows c.groups) }

    // Where there was one of the type and the ID, it stays in its place, and so does each other.
    ensures places { (kind : ℕ) (id : ℤ) (change : Change) (c : Content)
        → is_some (found kind id c) ≡ true
        → rows (with_resource kind id change c).groups
        ≡ first_changed (is_at kind id) (row_changed change) (rows c.groups) }

    // The map's attributes and the 240 bytes after the header stay.
    ensures attrs { (kind : ℕ) (id : ℤ) (change : Change) (c : Content)
        → (with_resource kind id change c).attrs ≡ c.attrs }
    ensures area { (kind : ℕ) (id : ℤ) (change : Change) (c : Content)
        → (with_resource kind id change c).area ≡ c.area }
{}

/// States that taking out a resource of a type and an ID changes nothing else.
pub fn removing_a_resource_changes_nothing_else()
    // All others are those that there were, in their order.
    ensures others { (kind : ℕ) (id : ℤ) (c : Content)
        → rows (without_resource kind id c).groups ≡ others (is_at kind id) (rows c.groups) }

    // Where there was but one of the type and the ID, none is found any more.
    ensures gone { (kind : ℕ) (id : ℤ) (c : Content)
        → length (filter (is_at kind id) (rows c.groups)) ≤ 1
        → found kind id (without_resource kind id c) ≡ None }

    // Where there was none, the content is as it was.
    ensures none { (kind : ℕ) (id : ℤ) (c : Content) → found kind id c ≡ None
        → without_resource kind id c ≡ c }

    // Where each type had a resource, each type that is left has one.
    ensures types { (kind : ℕ) (id : ℤ) (c : Content) → list_all has_refs c.groups ≡ true
        → list_all has_refs (without_resource kind id c).groups ≡ true }

    // The map's attributes and the 240 bytes after the header stay.
    ensures attrs { (kind : ℕ) (id : ℤ) (c : Content)
        → (without_resource kind id c).attrs ≡ c.attrs }
    ensures area { (kind : ℕ) (id : ℤ) (c : Content) → (without_resource kind id c).area ≡ c.area }
{}

/// States that giving a resource of a type and an ID another ID, name and attributes changes
/// nothing else.
pub fn renaming_a_resource_changes_nothing_else()
    // The resource stays in its place, and so does each other.
    ensures places { (kind : ℕ) (id : ℤ) (new : Renaming) (c : Content)
        → rows (with_renamed kind id new c).groups
        ≡ first_changed (is_at kind id) (row_renamed new) (rows c.groups) }

    // Where it isn't refused, it is the first one of its type and its new ID.
    ensures found { (kind : ℕ) (id : ℤ) (new : Renaming) (c : Content)
        → refusal kind id new c ≡ None
        → found kind (unwrap_or new.id id) (with_renamed kind id new c)
        ≡ option_map (renamed new) (found kind id c) }

    // All others are then those that there were, in their order.
    ensures others { (kind : ℕ) (id : ℤ) (new : Renaming) (c : Content)
        → refusal kind id new c ≡ None
        → others (is_at kind (unwrap_or new.id id)) (rows (with_renamed kind id new c).groups)
        ≡ others (is_at kind id) (rows c.groups) }

    // Its stored data stays.
    ensures datum { (new : Renaming) (r : Ref) → (renamed new r).datum ≡ r.datum }

    // The map's attributes and the 240 bytes after the header stay.
    ensures attrs { (kind : ℕ) (id : ℤ) (new : Renaming) (c : Content)
        → (with_renamed kind id new c).attrs ≡ c.attrs }
    ensures area { (kind : ℕ) (id : ℤ) (new : Renaming) (c : Content)
        → (with_renamed kind id new c).area ≡ c.area }
{}

/// States that two contents merged have the resources of both, and nothing else.
pub fn merging_keeps_each_resource()
    // Of each type and ID the second's resource is found, where it has one, or else the first's.
    ensures found { (kind : ℕ) (id : ℤ) (c d : Content)
        → found kind id (with_both c d) ≡ or_other (found kind id d) (found kind id c) }

    // Of each type and ID there are the resources of both in their order, and no others.
    ensures all { (kind : ℕ) (id : ℤ) (c d : Content)
        → filter (is_at kind id) (rows (with_both c d).groups)
        ≡ filter (is_at kind id) (both (rows c.groups) (rows d.groups)) }

    // Where no type and ID stand in both, the resources of both are those of the first and then
    // those of the second.
    ensures apart { (olds news : List Row) → clash olds news ≡ None
        → both olds news ≡ olds ++ news }

    // Each type stands once, in the order in which the types first occur among the resources of
    // both.
    ensures types { (c d : Content) → map (λ (g : Group). g.kind) (with_both c d).groups
        ≡ distinct (map (λ (x : Row). x.kind) (both (rows c.groups) (rows d.groups))) }

    // The map's attributes and the 240 bytes after the header are the first's.
    ensures attrs { (c d : Content) → (with_both c d).attrs ≡ c.attrs }
    ensures area { (c d : Content) → (with_both c d).area ≡ c.area }
{}

/// States that two names of files by type and ID differ where the types or the IDs do, also where
/// letters in either case are taken for the same.
pub fn fixed_file_names_are_apart()
    ensures { (j k : ℕ) (x y : ℤ) → j < 2 ^ 32 → k < 2 ^ 32 → FitsSigned w16 x → FitsSigned w16 y
        → str_to_ascii_lowercase (fixed_name j x) ≡ str_to_ascii_lowercase (fixed_name k y)
        → (j ≡ k) × (x ≡ y) }
{}

/// States that where no two resources have one type and ID, no two have one name of a file by type
/// and ID, also where letters in either case are taken for the same.
pub fn files_without_twins_are_apart()
    ensures { (x y : Row) (before between after : List Row) → x.kind < 2 ^ 32 → y.kind < 2 ^ 32
        → FitsSigned w16 x.resource.id → FitsSigned w16 y.resource.id
        → twin (before ++ x ∷ (between ++ y ∷ after)) ≡ None
        → str_to_ascii_lowercase (fixed_name x.kind x.resource.id)
        ≢ str_to_ascii_lowercase (fixed_name y.kind y.resource.id) }
{}

/// States that two names of files with different numbers differ, also where letters in either case
/// are taken for the same.
pub fn file_names_are_apart()
    ensures { (m n : ℕ) (x y : Row) → m < 2 ^ 64 → n < 2 ^ 64
        → str_to_ascii_lowercase (file_name m x) ≡ str_to_ascii_lowercase (file_name n y) → m ≡ n }
{}

/// States that no two files of the resources of a content have one name, also where letters in
/// either case are taken for the same.
pub fn files_are_apart()
    ensures { (c : Content) → IsListable c → AreApart (filed (rows c.groups)) }
{}

/// States that names and types of ASCII are taken as they are.
pub fn ascii_words_are_taken_as_they_are()
    ensures names { (text : List ℕ) → AllByRecursion (λ b. b < 128) text → length text ≤ 255
        → name_read text ≡ Ok text }
    ensures types { (text : List ℕ) → AllByRecursion (λ b. b < 128) text
        → type_text_read text ≡ some_type (type_read text) }
{}

/// States that a content is packed again from what is written for it: the list of what it holds and
/// the files of its resources.
///
/// *More Macintosh Toolbox*, chapter 1, "Resource Files".
pub fn a_content_is_packed_again()
    // What bytes spell can be listed.
    ensures spelled { (bytes : List ℕ) (c : Content) → AllByRecursion (λ b. b < 256) bytes
        → Spells bytes c → IsListable c }

    // The list says what it is written for.
    ensures list { (c : Content) → IsListable c
        → contents_read (contents_text c) ≡ Ok (listed c (filed (rows c.groups))) }

    // A folder in which its files are written has them.
    ensures folder { (c : Content) → IsListable c
        → HasFiles (file_bytes (filed (rows c.groups))) (filed (rows c.groups)) }

    // What the list states, with the files that it names, is the content.
    ensures content { (c : Content) (folder : List ℕ → List ℕ) (l : Listed) → IsListable c
        → HasFiles folder (filed (rows c.groups)) → contents_read (contents_text c) ≡ Ok l
        → packed_content l (named_files folder l) ≡ c }

    // So is its canonical fork that of the content.
    ensures fork { (c : Content) (folder : List ℕ → List ℕ) (l : Listed) → IsListable c
        → HasFiles folder (filed (rows c.groups)) → contents_read (contents_text c) ≡ Ok l
        → canon (packed_content l (named_files folder l)) ≡ canon c }
{}
