//! What is wrong with a declaration.

use std::fmt;
use thiserror::Error;

/// Why a declaration does not say where each value begins and ends.
#[derive(Clone, Copy, Debug, PartialEq, Eq, Error)]
pub enum Unsound {
    /// Bit strings, booleans and fills of bits side by side end amid a byte, or are more than 32
    /// bits before they end at one.
    PartialBytes,
    /// A constant has more bits than its field.
    WideConstant,
    /// Two constants of a field, two cases of a switch or two arrays of a block have one name,
    /// whatever its case.
    TwoNames,
    /// A fill has no bytes, or more than 256.
    LongFill,
    /// A fill or an alignment stands after another, and nothing is stated between them.
    FillAfterFill,
    /// A named string is none that the field can be.
    WrongText,
    /// What ends with the resource stands before something else, or in an array.
    NotLast,
    /// An array has a length of 0.
    NoLength,
    /// A count has no array after it in its block, or more than one.
    CountWithoutArray,
    /// Neither a length, a count, a constant after it, nor the end of the resource ends an array.
    EndlessArray,
    /// The constant that ends an array has more bytes than an element may have.
    LongConstant,
    /// The elements of an array may have no bytes.
    NoElementBytes,
    /// The elements of an array state nothing.
    NothingStated,
    /// Arrays and switches stand more than eight deep in one another.
    TooDeep,
    /// An array or a case names a block that does not stand before it.
    NoBlock,
    /// A switch has no case.
    NoCase,
    /// A case has no key after fields of fixed length.
    NoKey,
    /// The keys of a switch stand at different places.
    KeysApart,
    /// Two cases have one key.
    TwoKeys,
    /// A declaration has more than 512 fields.
    ManyFields,
    /// Each resource of the declaration has more than 16 MB.
    LongResource,
}

impl fmt::Display for Unsound {
    fn fmt<W: fmt::Write>(&self, f: &mut fmt::Formatter<W>) -> fmt::Result {
        let words = match self {
            Unsound::PartialBytes => "bits that are not one to four whole bytes",
            Unsound::WideConstant => "a constant of more bits than its field",
            Unsound::TwoNames => "two constants, cases or arrays of one name",
            Unsound::LongFill => "a fill of more than 256 bytes",
            Unsound::FillAfterFill => "two fills with nothing stated between them",
            Unsound::WrongText => "a constant that is no such string",
            Unsound::NotLast =>
                "a string or an array without an end that is not at the end of the resource",
            Unsound::NoLength => "an array of no elements",
            Unsound::CountWithoutArray => "a count that is not the count of one array after it",
            Unsound::EndlessArray =>
                "an array without an end: give it a length, a count or a constant after it, \
                 or put it last",
            Unsound::LongConstant =>
                "a constant after an array that is longer than an element may be",
            Unsound::NoElementBytes => "elements that may have no bytes",
            Unsound::NothingStated => "elements that state nothing",
            Unsound::TooDeep => "arrays and switches more than 8 deep",
            Unsound::NoBlock => "a block that does not stand before",
            Unsound::NoCase => "a switch without a case",
            Unsound::NoKey => "a case without a key after fields of fixed length",
            Unsound::KeysApart => "keys at different places",
            Unsound::TwoKeys => "two cases of one key",
            Unsound::ManyFields => "more than 512 fields",
            Unsound::LongResource => "more bytes than a resource can have",
        };
        f.write_str(words)
    }
}
