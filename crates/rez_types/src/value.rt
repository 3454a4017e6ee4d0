//! What a statement of a resource states.

/// A value that a statement states, or that stands among those which it states. The values of a
/// resource stand in a list, in the order of the fields; the declaration says which of them belong
/// together.
#[derive(Drop)]
pub enum Value {
    /// An integer, a bit string, or a fill of bits, by its bits; or a coordinate, as a number of 16
    /// bits.
    Number(u32),
    /// How many elements the array of a count has, where the count stands.
    Count(u32),
    /// A string.
    Text(Vec<u8>),
    /// The bytes of a fill or of an alignment.
    Filled(Vec<u8>),
    /// Another element of an array follows.
    Element,
    /// No further element of the array follows.
    NoElement,
    /// The place of a case in its switch. Its values follow.
    Case(usize),
}
