//! Laws of each content that is opened, and of the content that a map makes.

ghost use Rattle.std.specs.Prelude.{◌≡◌, true, None, map};
ghost use Rattle.std.specs.List.{list_all};
ghost use Rattle.fork_format.specs.Content.{Group as GroupValue, Content as ContentValue};
ghost use Rattle.fork_format.specs.Canonical.{has_refs, are_distinct};
ghost use Rattle.res_map.specs.Map.{Reference, Map, stand_together, with_handle, content, map_of};

/// The map of a content makes that content again: nothing of the content is lost when its file is
/// opened.
#[tactic(auto, using(crate::proofs::Contents::content_told))]
pub fn a_content_that_is_opened_is_told_again()
    ensures { (c : ContentValue) → are_distinct (map (λ (g : GroupValue). g.kind) c.groups) ≡ true
        → list_all has_refs c.groups ≡ true → content (map_of c) ≡ c }
{}

/// The content that a map makes is opened as the same map, but without handles.
#[tactic(auto, using(crate::proofs::Contents::map_told))]
pub fn a_map_whose_content_is_opened_is_there_again()
    ensures { (m : Map) → stand_together (map (λ (r : Reference). r.kind) m.references) ≡ true
        → map_of (content m) ≡ record m { references = map (with_handle None) m.references } }
{}
