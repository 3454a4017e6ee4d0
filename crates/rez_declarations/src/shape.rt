//! What fields come to, as they are judged.

ghost use Rattle.std.specs.Prelude.{◌≡◌};
ghost use Rattle.rez_declarations.specs.Sound as spec;

use crate::unsound::Unsound;
use rez_types::KeyPlace;

/// How many bytes a resource has at most, and one.
pub(crate) const TOO_MANY_BYTES: usize = 16_777_217;

/// How many fields a declaration has at most, and one.
pub(crate) const TOO_MANY_FIELDS: usize = 513;

/// How deep blocks may stand in one another.
const MOST_DEPTH: usize = 8;

/// What the fields of a block come to, so far.
#[derive(Clone, Copy)]
pub(crate) struct Shape {
    /// The fewest bytes that they have; more than 16 MB are 16,777,217.
    pub least: usize,
    /// How many they are, with those of the blocks in them; more than 512 are 513.
    pub fields: usize,
    /// How deep blocks stand in them.
    pub depth: usize,
    /// Whether they state something.
    pub states: bool,
    /// Whether the last of them ends with the resource.
    pub is_open: bool,
    /// Whether nothing was stated after the last fill.
    pub after_fill: bool,
    /// How many counts they have.
    pub counts: usize,
}

/// The key of a case.
#[derive(Clone, Copy)]
pub(crate) struct CaseKey {
    /// Where it stands.
    pub place: KeyPlace,
    /// What it is.
    pub pattern: u32,
}

impl Shape {
    /// Returns the shape of no fields.
    pub(crate) fn none() -> Shape
        ensures { result ≡ spec.no_fields }
    {
        Shape {
            least: 0,
            fields: 0,
            depth: 0,
            states: false,
            is_open: false,
            after_fill: false,
            counts: 0,
        }
    }

    /// Returns the shape with so many bytes more at least.
    pub(crate) fn longer(self, bytes: usize) -> Shape
        ensures { result ≡ spec.longer bytes self }
    {
        Shape {
            least: self.least.saturating_add(bytes).min(TOO_MANY_BYTES),
            ..self
        }
    }

    /// Returns the shape with one more field.
    pub(crate) fn one_more(self) -> Shape
        ensures { result ≡ spec.one_more self }
    {
        Shape {
            fields: self.fields.saturating_add(1).min(TOO_MANY_FIELDS),
            ..self
        }
    }

    /// Returns the shape after something that is stated.
    pub(crate) fn stating(self) -> Shape
        ensures { result ≡ spec.stating self }
    {
        Shape {
            states: true,
            after_fill: false,
            ..self
        }
    }

    /// Returns the shape after a fill.
    pub(crate) fn filling(self) -> Result<Shape, Unsound>
        ensures { result ≡ spec.filling self }
    {
        if self.after_fill {
            return Err(Unsound::FillAfterFill);
        }
        Ok(Shape {
            after_fill: true,
            ..self
        })
    }

    /// Returns the shape with the fields of a block in it.
    pub(crate) fn with_block(self, inner: &Shape) -> Result<Shape, Unsound>
        ensures { result ≡ spec.within inner.now self }
    {
        if MOST_DEPTH <= inner.depth {
            return Err(Unsound::TooDeep);
        }
        Ok(Shape {
            depth: self.depth.max(inner.depth + 1),
            fields: self
                .fields
                .saturating_add(inner.fields)
                .min(TOO_MANY_FIELDS),
            ..self
        })
    }
}
