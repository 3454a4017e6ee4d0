//! Names, and the types of resources.

ghost use Rattle.std.specs.Prelude.{◌≡◌, [], ◌∷◌, bytes_eq};
ghost use Rattle.std.proofs.Common.{rules};
ghost use Rattle.std.specs.Cmp.Rules.{comparing, hashing};

use arrayvec::ArrayVec;
use std::hash::{Hash, Hasher};

/// A name of a script, to which a handle or a pointer is bound: 1 to 63 bytes, first a letter or
/// `_` and then letters, digits and `_`.
#[derive(Clone, Debug, Eq, PartialOrd, Ord, Drop)]
pub struct Label(pub ArrayVec<u8, 63>);

/// Reports whether two texts have the same bytes.
#[tactic(auto, using(crate::proofs::Same::same_next, crate::proofs::Same::differ_here, crate::proofs::Same::same_at_end, crate::proofs::Same::differ_long))]
fn are_same(one: &[u8], other: &[u8]) -> bool
    ensures { result ≡ bytes_eq one.now other.now }
{
    if one.len() != other.len() {
        return false;
    }
    for index in 0..one.len() {
        if one[index] != other[index] {
            return false;
        }
    }
    true
}

impl PartialEq for Label {
    ghost eq = { λ a b. bytes_eq a.0.items b.0.items };

    ghost laws = { Prim.search (comparing, rules) };

    fn eq(&self, other: &Label) -> bool {
        are_same(self.0.as_slice(), other.0.as_slice())
    }
}

/// A name is hashed by its bytes alone, in one write.
impl Hash for Label {
    ghost hash_input = { λ label. label.0.items ∷ [] };

    ghost respects_eq = { Prim.search (hashing, rules) };

    fn hash<H: Hasher>(&self, state: &mut H) {
        state.write(self.0.as_slice());
    }
}

/// The name of a file: 1 to 63 bytes. Names of files are compared byte by byte.
#[derive(Clone, Debug, PartialEq, Eq, PartialOrd, Ord, Hash, Drop)]
pub struct FileName(pub ArrayVec<u8, 63>);

/// The name of a resource: at most 255 bytes.
#[derive(Clone, Debug, PartialEq, Eq, Hash, Drop)]
pub struct Name(pub ArrayVec<u8, 255>);

/// The type of a resource: four bytes, for example `TEXT`.
#[derive(Clone, Copy, Debug, PartialEq, Eq, Hash)]
pub struct OsType(pub [u8; 4]);
