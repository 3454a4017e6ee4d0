//! The attributes of a resource.

ghost use Rattle.std.specs.Prelude.{◌≡◌};
ghost use Rattle.mac_words.specs.Attributes.{unchanged, changed, set, has_bit};

/// The attribute byte of a resource. Bits without a name here keep their values.
///
/// *More Macintosh Toolbox*, chapter 1, "Resource Attributes".
#[derive(Clone, Copy, Debug, PartialEq, Eq)]
pub struct Attrs(pub u8);

impl Attrs {
    /// `resSysHeap`: the resource belongs in the system heap.
    pub const SYSTEM_HEAP: u8 = 64;
    /// `resPurgeable`: the block of the resource is purgeable.
    pub const PURGEABLE: u8 = 32;
    /// `resLocked`: the block of the resource is locked when the resource is read.
    pub const LOCKED: u8 = 16;
    /// `resProtected`: the resource can't be changed.
    pub const PROTECTED: u8 = 8;
    /// `resPreload`: the resource is read when its file is opened.
    pub const PRELOAD: u8 = 4;
    /// `resChanged`: the resource is written at the next update.
    pub const CHANGED: u8 = 2;

    /// Returns the attributes without `resChanged`, as a reader of a resource fork keeps them.
    pub fn unchanged(self) -> Attrs
        ensures { result.0 ≡ unchanged self.0 }
    {
        Attrs(self.0 & 0xfd)
    }

    /// Returns the attributes with `resChanged`.
    pub fn changed(self) -> Attrs
        ensures { result.0 ≡ changed self.0 }
    {
        Attrs(self.0 | Attrs::CHANGED)
    }

    /// Returns the new attributes, with `resChanged` as it stands in the old ones.
    pub fn set(self, new: Attrs) -> Attrs
        ensures { result.0 ≡ set new.0 self.0 }
    {
        Attrs((new.0 & 0xfd) | (self.0 & Attrs::CHANGED))
    }

    /// Reports whether the attributes have a bit, given by the bit's value.
    pub fn has(self, bit: u8) -> bool
        ensures { result ≡ has_bit bit self.0 }
    {
        self.0 & bit != 0
    }
}
