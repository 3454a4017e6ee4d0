//! What an item of a template stands for.

ghost use Rattle.std.specs.Prelude.{◌≡◌, ◌<◌, IfSome, bytes_eq, option_map};
ghost use Rattle.rez_templates.specs.Items as spec;
ghost use Rattle.rez_templates.specs.View.{item_in};

/// What the number in a count of a list is.
#[derive(Clone, Copy)]
pub(crate) enum CountFrom {
    /// The number of its elements: `OCNT`.
    One,
    /// One less: `ZCNT`.
    Zero,
}

/// How a list ends.
#[derive(Clone, Copy)]
pub(crate) enum ListEnd {
    /// With the resource: `LSTB`.
    Resource,
    /// Before a byte of 0: `LSTZ`.
    Zero,
    /// After as many elements as the count before it says: `LSTC`.
    Counted,
}

/// What an item of a template stands for.
#[derive(Clone, Copy)]
pub(crate) enum Item {
    /// A field of a declaration, by its text.
    Field(&'static [u8]),
    /// A string of so many bytes, in hexadecimal.
    Hex(u16),
    /// So many bytes that have no meaning.
    Fill(u16),
    /// The number of elements of the next list.
    Count(CountFrom),
    /// The beginning of a list.
    Begin(ListEnd),
    /// The end of a list.
    End,
}

/// Reports whether four characters are these.
fn is(code: &[u8], characters: &[u8]) -> bool
    ensures { result ≡ bytes_eq code.now characters.now }
{
    code == characters
}

/// Returns what four characters of a decimal number stand for.
fn decimal_item(code: &[u8]) -> Option<Item>
    ensures { option_map item_in result ≡ spec.decimal_item code.now }
{
    if is(code, b"DBYT") {
        Some(Item::Field(b"byte; "))
    } else if is(code, b"DWRD") {
        Some(Item::Field(b"integer; "))
    } else if is(code, b"DLNG") {
        Some(Item::Field(b"longint; "))
    } else if is(code, b"UBYT") {
        Some(Item::Field(b"unsigned byte; "))
    } else if is(code, b"UWRD") {
        Some(Item::Field(b"unsigned integer; "))
    } else if is(code, b"ULNG") {
        Some(Item::Field(b"unsigned longint; "))
    } else {
        None
    }
}

/// Returns what four characters of a number in another form stand for.
fn other_item(code: &[u8]) -> Option<Item>
    ensures { option_map item_in result ≡ spec.other_item code.now }
{
    if is(code, b"HBYT") {
        Some(Item::Field(b"hex byte; "))
    } else if is(code, b"HWRD") {
        Some(Item::Field(b"hex integer; "))
    } else if is(code, b"HLNG") {
        Some(Item::Field(b"hex longint; "))
    } else if is(code, b"BBIT") {
        Some(Item::Field(b"boolean; "))
    } else if is(code, b"BOOL") {
        Some(Item::Field(b"hex integer false, true = 256; "))
    } else if is(code, b"TNAM") {
        Some(Item::Field(b"literal longint; "))
    } else {
        None
    }
}

/// Returns what four characters of a string stand for.
fn text_item(code: &[u8]) -> Option<Item>
    ensures { option_map item_in result ≡ spec.text_item code.now }
{
    if is(code, b"CHAR") {
        Some(Item::Field(b"char; "))
    } else if is(code, b"PSTR") {
        Some(Item::Field(b"pstring; "))
    } else if is(code, b"CSTR") {
        Some(Item::Field(b"cstring; "))
    } else if is(code, b"HEXD") {
        Some(Item::Field(b"hex string; "))
    } else {
        None
    }
}

/// Returns what four characters of coordinates, or of the ID of a resource, stand for.
fn place_item(code: &[u8]) -> Option<Item>
    ensures { option_map item_in result ≡ spec.place_item code.now }
{
    if is(code, b"RECT") {
        Some(Item::Field(b"rect; "))
    } else if is(code, b"PNT ") {
        Some(Item::Field(b"point; "))
    } else if is(code, b"RSID") {
        Some(Item::Field(b"integer; "))
    } else {
        None
    }
}

/// Returns what four characters of an alignment, or of bytes that have no meaning, stand for.
fn gap_item(code: &[u8]) -> Option<Item>
    ensures { option_map item_in result ≡ spec.gap_item code.now }
{
    if is(code, b"AWRD") {
        Some(Item::Field(b"align word; "))
    } else if is(code, b"ALNG") {
        Some(Item::Field(b"align long; "))
    } else if is(code, b"FBYT") {
        Some(Item::Fill(1))
    } else if is(code, b"FWRD") {
        Some(Item::Fill(2))
    } else if is(code, b"FLNG") {
        Some(Item::Fill(4))
    } else {
        None
    }
}

/// Returns what four characters of a list stand for.
fn list_item(code: &[u8]) -> Option<Item>
    ensures { option_map item_in result ≡ spec.list_item code.now }
{
    if is(code, b"OCNT") {
        Some(Item::Count(CountFrom::One))
    } else if is(code, b"ZCNT") {
        Some(Item::Count(CountFrom::Zero))
    } else if is(code, b"LSTB") {
        Some(Item::Begin(ListEnd::Resource))
    } else if is(code, b"LSTZ") {
        Some(Item::Begin(ListEnd::Zero))
    } else if is(code, b"LSTC") {
        Some(Item::Begin(ListEnd::Counted))
    } else if is(code, b"LSTE") {
        Some(Item::End)
    } else {
        None
    }
}

/// Returns the value of a hexadecimal digit in upper case.
fn digit_value(digit: u8) -> Option<u16>
    ensures value { result ≡ spec.digit_value digit }
    ensures small { IfSome result (λ n. n < 16) }
{
    if b'0' <= digit && digit <= b'9' {
        Some((digit - b'0') as u16)
    } else if b'A' <= digit && digit <= b'F' {
        Some((digit - b'A' + 10) as u16)
    } else {
        None
    }
}

/// Returns what `H` and three hexadecimal digits stand for.
fn hex_item(code: &[u8]) -> Option<Item>
    ensures { option_map item_in result ≡ spec.hex_item code.now }
{
    match code {
        [b'H', high, middle, low] => {
            let high = digit_value(*high)?;
            let middle = digit_value(*middle)?;
            let low = digit_value(*low)?;
            Some(Item::Hex(256 * high + 16 * middle + low))
        }
        _ => None,
    }
}

/// Returns what the four characters of an item stand for, if they are known.
#[tactic(auto, unfolding(crate::specs::Items::item_of))]
pub(crate) fn item_of(code: &[u8]) -> Option<Item>
    ensures { option_map item_in result ≡ spec.item_of code.now }
{
    if let Some(item) = decimal_item(code) {
        return Some(item);
    }
    if let Some(item) = other_item(code) {
        return Some(item);
    }
    if let Some(item) = text_item(code) {
        return Some(item);
    }
    if let Some(item) = place_item(code) {
        return Some(item);
    }
    if let Some(item) = gap_item(code) {
        return Some(item);
    }
    if let Some(item) = list_item(code) {
        return Some(item);
    }
    hex_item(code)
}
