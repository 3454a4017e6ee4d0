//! Where a reader stands: within a token, and within a statement.

ghost use Rattle.std.specs.Prelude.{◌≡◌};
ghost use Rattle.rez_text.specs.Tokens.{data_needed, needed};
ghost use Rattle.rez_text.specs.Ascii.{quote_byte, base};

use crate::fault::FaultKind;
use crate::scope::Scope;

/// Quotes.
#[derive(Clone, Copy)]
pub enum Quote {
    /// The double quotes of a string.
    Double,
    /// The single quotes of a type.
    Single,
}

impl Quote {
    /// Returns the byte of the quote.
    pub fn byte(self) -> u8
        ensures { result ≡ quote_byte self }
    {
        match self {
            Quote::Double => b'"',
            Quote::Single => b'\'',
        }
    }
}

/// How a number is written.
#[derive(Clone, Copy)]
pub(crate) enum Radix {
    Binary,
    Octal,
    Decimal,
    Hexadecimal,
}

impl Radix {
    /// Returns how many digits there are.
    pub fn base(self) -> u8
        ensures { result ≡ base self }
    {
        match self {
            Radix::Binary => 2,
            Radix::Octal => 8,
            Radix::Decimal => 10,
            Radix::Hexadecimal => 16,
        }
    }
}

/// Where a reader stands within a token.
#[derive(Clone, Copy)]
pub(crate) enum Mode {
    /// Between tokens.
    Between,
    /// After a `/`.
    Slash,
    /// In a comment that `*/` ends.
    Comment,
    /// In such a comment, after a `*`.
    Star,
    /// In a comment that the line's end ends.
    LineComment,
    /// In a word.
    Word,
    /// In the text of a statement `type`.
    Declaring(Scope),
    /// In the text between the braces of a statement `resource`.
    Body(Scope),
    /// After a 0 with which a number begins.
    Zero,
    /// After `0x` or `0b`.
    Prefixed(Radix),
    /// In a number, with what its digits write so far.
    Number(Radix, u32),
    /// After a `$`.
    Dollar,
    /// In a hexadecimal string, between bytes.
    HexString,
    /// In a hexadecimal string, after the high digit of a byte.
    HexHalf(u8),
    /// Between quotes.
    Quoted(Quote),
    /// There, after a `\`.
    Escape(Quote),
    /// There, after `\0`.
    EscapeZero(Quote),
    /// There, in an escape by a number: how many digits are to come, and what those before them
    /// write.
    EscapeNumber(Quote, Radix, u8, u8),
}

/// How a statement states a resource.
#[derive(Clone, Copy)]
pub(crate) enum Form {
    /// By the bytes of its data, after `data`.
    Data,
    /// By values of its type, after `resource`.
    Resource,
    /// By the name of a file that has its data, after `read`.
    Read,
}

impl Form {
    /// Returns what is wrong where after the arguments something else stands than what states the
    /// data.
    fn data_needed(self) -> FaultKind
        ensures { result ≡ data_needed self }
    {
        match self {
            Form::Data | Form::Resource => FaultKind::BraceNeeded,
            Form::Read => FaultKind::FileNeeded,
        }
    }
}

/// Where a reader stands within a statement, by what may stand next.
#[derive(Clone, Copy)]
pub(crate) enum Place {
    /// A statement.
    Outside,
    /// A statement `type`, where no other may stand.
    Declaration,
    /// A type.
    Type,
    /// An opening parenthesis.
    Parenthesis,
    /// An ID.
    Id,
    /// A number, after a minus.
    Negative,
    /// A comma before a name or an attribute, or a closing parenthesis.
    AfterId,
    /// A name or an attribute.
    NameOrAttribute,
    /// A comma before an attribute, or a closing parenthesis.
    AfterArgument,
    /// An attribute.
    Attribute,
    /// What states the data: an opening brace; in a statement `read` the name of a file.
    Brace,
    /// A string, or a closing brace.
    Data,
    /// A semicolon.
    Semicolon,
}

impl Place {
    /// Returns what is wrong where something else stands, in a statement of a form.
    pub fn needed(self, form: Form) -> FaultKind
        ensures { result ≡ needed form self }
    {
        match self {
            Place::Outside | Place::Declaration => FaultKind::NotAStatement,
            Place::Type => FaultKind::TypeNeeded,
            Place::Parenthesis => FaultKind::ParenthesisNeeded,
            Place::Id | Place::Negative => FaultKind::IdNeeded,
            Place::AfterId | Place::AfterArgument => FaultKind::EndOfArgumentsNeeded,
            Place::NameOrAttribute => FaultKind::NameOrAttributeNeeded,
            Place::Attribute => FaultKind::AttributeNeeded,
            Place::Brace => form.data_needed(),
            Place::Data => FaultKind::DataNeeded,
            Place::Semicolon => FaultKind::SemicolonNeeded,
        }
    }
}
