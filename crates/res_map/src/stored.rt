//! What a map keeps of a reference.

ghost use Rattle.std.specs.Prelude.{◌≡◌, ◌≤◌, length};
ghost use Rattle.res_map.specs.Print.{print};

use mac_words::Attrs;

/// The name of a resource: at most 255 bytes; and its print.
#[derive(Drop)]
pub struct StoredName {
    pub bytes: Vec<u8>,
    pub mark: i32,
    ghost short: { length bytes.items ≤ 255 },
    ghost marked: { mark ≡ print bytes.items },
}

/// The part of a reference that no search by type and ID reads.
#[derive(Drop)]
pub struct Rest {
    pub name: Option<StoredName>,
    pub datum: Vec<u8>,
    pub handle: Option<usize>,
}

/// A reference. The part that a search by type and ID reads lies close to that of the next
/// reference; the other part lies elsewhere in memory.
#[derive(Drop)]
pub struct StoredReference {
    /// The type, as a number.
    pub kind: u32,
    pub id: i16,
    pub attrs: Attrs,
    pub rest: Box<Rest>,
}
