//! Names that a source states.

ghost use Rattle.std.specs.Prelude.{◌≤◌, length};

/// The name of a resource: at most 255 bytes.
#[derive(Drop)]
pub(crate) struct SourceName {
    pub bytes: Vec<u8>,
    ghost short: { length bytes.items ≤ 255 },
}
