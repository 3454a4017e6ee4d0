//! Names that a list says.

ghost use Rattle.std.specs.Prelude.{◌≤◌, length};

/// The name of a resource: at most 255 bytes.
#[derive(Drop)]
pub(crate) struct ListedName {
    pub bytes: Vec<u8>,
    ghost short: { length bytes.items ≤ 255 },
}
