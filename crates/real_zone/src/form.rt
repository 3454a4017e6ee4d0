//! The two forms of a zone, and what differs between them.

ghost use Rattle.std.specs.Prelude.{◌≡◌, ◌<◌, ◌≤◌, ◌^◌};
ghost use Rattle.real_zone.specs.Form.{header_size, alignment, address_in};

/// The form of a zone: how wide its addresses are, and with them the headers of its blocks.
///
/// *Inside Macintosh: Memory*, chapter 2, "Heap Zones" and "Block Headers".
#[derive(Clone, Copy, Debug, PartialEq, Eq)]
pub enum Form {
    /// Addresses have 24 bits, and the high byte of a master pointer has flags.
    Bits24,
    /// Addresses have 32 bits, and the flags stand in the headers of blocks.
    Bits32,
}

impl Form {
    /// Returns the size of a block's header in bytes.
    pub fn header(self) -> usize
        ensures size { result ≡ header_size self }
        ensures small { result ≤ 12 }
    {
        match self {
            Form::Bits24 => 8,
            Form::Bits32 => 12,
        }
    }

    /// Returns the number of which sizes and places are multiples.
    pub fn grain(self) -> usize
        ensures grain { result ≡ alignment self }
        ensures some { 0 < result }
    {
        match self {
            Form::Bits24 => 2,
            Form::Bits32 => 4,
        }
    }

    /// Returns the address in four bytes.
    pub fn address(self, long: usize) -> usize
        ensures address { result ≡ address_in self long }
        ensures below { result ≤ long }
    {
        match self {
            Form::Bits24 => long % 0x1000000,
            Form::Bits32 => long,
        }
    }
}

/// The kind of a block, as its tag says it.
#[derive(Clone, Copy, Debug, PartialEq, Eq)]
pub enum Tag {
    Free,
    Nonrelocatable,
    Relocatable,
}
