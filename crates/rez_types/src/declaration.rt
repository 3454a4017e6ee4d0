//! Declarations of types, as Rez reads them after `type`: *Macintosh Programmer's Workshop:
//! Building and Managing Programs in MPW*, chapter "Rez".
//!
//! The fields of a declaration stand in a list. Those of its arrays' elements and of its switches'
//! cases stand in lists of their own, its blocks, which an array and a case name by their place.

ghost use Rattle.std.specs.Prelude.{◌≤◌};

/// A number of bits: from 1 to 32.
#[derive(Clone, Copy)]
pub struct Width {
    /// The number.
    pub bits: u8,
    ghost positive: { 1 ≤ bits },
    ghost fits: { bits ≤ 32 },
}

/// How an integer is written in a statement.
#[derive(Clone, Copy)]
pub enum Form {
    /// In decimal, with a sign.
    Signed,
    /// In decimal, without a sign.
    Unsigned,
    /// In hexadecimal.
    Hex,
    /// In binary.
    Binary,
    /// As characters between quotes.
    Literal,
    /// As `true` or `false`.
    Boolean,
}

/// A name that stands for a number in statements.
#[derive(Drop)]
pub struct NamedNumber {
    /// The name.
    pub name: Vec<u8>,
    /// The bits of the number.
    pub pattern: u32,
}

/// A name that stands for a string in statements.
#[derive(Drop)]
pub struct NamedText {
    /// The name.
    pub name: Vec<u8>,
    /// The string.
    pub text: Vec<u8>,
}

/// An integer that a statement states.
#[derive(Drop)]
pub struct Integer {
    /// Its bits.
    pub width: Width,
    /// How it is written.
    pub form: Form,
    /// Its named values.
    pub constants: Vec<NamedNumber>,
}

/// An integer that always has one value, and that no statement states.
#[derive(Clone, Copy)]
pub struct Constant {
    /// Its bits.
    pub width: Width,
    /// Its value, as bits.
    pub pattern: u32,
    /// Whether it is the key of its case.
    pub is_key: bool,
}

/// How many elements an array of the block has, which no statement states.
#[derive(Clone, Copy)]
pub struct Count {
    /// Its bits.
    pub width: Width,
    /// Whether it is one less.
    pub is_less_one: bool,
}

/// A part of a run.
#[derive(Drop)]
pub enum Part {
    /// An integer.
    Integer(Integer),
    /// A constant.
    Constant(Constant),
    /// A count.
    Count(Count),
    /// Bits of a fill.
    Fill(Width),
}

/// Bit strings, bytes, integers and fills of bits side by side, which together are one to four
/// whole bytes.
#[derive(Drop)]
pub struct Run {
    /// How many bytes they are.
    pub bytes: u8,
    /// The parts, from the highest bit on.
    pub parts: Vec<Part>,
    ghost fits: { bytes ≤ 4 },
}

/// Where an alignment ends.
#[derive(Clone, Copy)]
pub enum Boundary {
    /// At a multiple of two bytes.
    Word,
    /// At a multiple of four bytes.
    Long,
}

/// How a string ends.
#[derive(Clone, Copy)]
pub enum TextEnd {
    /// A byte before it has its length: `pstring`.
    Pascal,
    /// A byte of 0 after it ends it: `cstring`.
    C,
    /// It has one byte: `char`.
    Char,
    /// It has so many bytes: `string[n]`.
    Fixed(u16),
    /// It ends with the resource: `string`.
    Resource,
}

/// A string.
#[derive(Drop)]
pub struct Text {
    /// How it ends.
    pub end: TextEnd,
    /// Whether it is written in hexadecimal.
    pub is_hex: bool,
    /// Its named values.
    pub constants: Vec<NamedText>,
}

/// Bytes that end an array, since no element begins with them.
#[derive(Clone, Copy)]
pub struct Stop {
    /// How many bytes they are.
    pub bytes: u8,
    /// The number that they are, the highest byte first.
    pub pattern: u32,
    ghost fits: { bytes ≤ 4 },
}

/// How an array ends.
#[derive(Clone, Copy)]
pub enum ArrayEnd {
    /// It has so many elements: `array [n]`.
    Fixed(u16),
    /// A count of its block has the number of its elements: the first count of the block is 0, the
    /// next is 1.
    Counted(usize),
    /// A constant after it ends it.
    Constant(Stop),
    /// It ends with the resource.
    Resource,
}

/// An array.
#[derive(Drop)]
pub struct Array {
    /// Its name; without bytes where it has none.
    pub name: Vec<u8>,
    /// How it ends.
    pub end: ArrayEnd,
    /// The block of each element's fields.
    pub block: usize,
}

/// Where the key of a switch's cases stands, from the first byte of the case on.
#[derive(Clone, Copy)]
pub struct KeyPlace {
    /// The bytes before the run in which it stands.
    pub before: u32,
    /// The bytes of that run.
    pub bytes: u8,
    /// The bits of the run after the key.
    pub below: u8,
    /// The bits of the key.
    pub width: Width,
    ghost fits: { bytes ≤ 4 },
    ghost within: { below ≤ 32 },
}

/// A case of a switch.
#[derive(Drop)]
pub struct Case {
    /// Its name.
    pub name: Vec<u8>,
    /// The key that tells it from the others.
    pub pattern: u32,
    /// The block of its fields.
    pub block: usize,
}

/// A switch.
#[derive(Drop)]
pub struct Switch {
    /// Where the keys stand.
    pub key: KeyPlace,
    /// The cases.
    pub cases: Vec<Case>,
}

/// A field of a declaration. Each begins at a whole byte.
#[derive(Drop)]
pub enum Field {
    /// Integers side by side.
    Run(Run),
    /// So many bytes that no statement states.
    Fill(u16),
    /// Bytes up to a boundary, counted from the first byte of the resource on, that no statement
    /// states.
    Align(Boundary),
    /// A string.
    Text(Text),
    /// A point: its vertical and its horizontal coordinate.
    Point,
    /// A rectangle: top, left, bottom, right.
    Rect,
    /// An array.
    Array(Array),
    /// One of several cases.
    Switch(Switch),
}

/// The fields of an array's elements, or of a case.
#[derive(Drop)]
pub struct Block {
    /// The fields.
    pub fields: Vec<Field>,
}

/// A declaration of a type.
#[derive(Drop)]
pub struct Declaration {
    /// The fields of the resource.
    pub fields: Vec<Field>,
    /// The fields of its arrays' elements, and of its cases.
    pub blocks: Vec<Block>,
}
