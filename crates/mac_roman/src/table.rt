//! The characters of Mac OS Roman.

ghost use Rattle.std.specs.Prelude.{◌≡◌, ◌<◌, ◌+◌, ◌==◌, ℕ, IfSome, length, option_map};
ghost use Rattle.std.specs.List.{position};
ghost use Rattle.mac_roman.specs.Table.{high, char_of, byte_of};

/// The characters of the bytes from 0x80 to 0xFF.
///
/// *Inside Macintosh: Text*, appendix A, "Built-in Script Support and Character Encoding"; Apple's
/// table of 1998 for Unicode.
const HIGH: [char; 128] = [
    '\u{c4}', '\u{c5}', '\u{c7}', '\u{c9}', '\u{d1}', '\u{d6}', '\u{dc}', '\u{e1}', '\u{e0}',
    '\u{e2}', '\u{e4}', '\u{e3}', '\u{e5}', '\u{e7}', '\u{e9}', '\u{e8}', '\u{ea}', '\u{eb}',
    '\u{ed}', '\u{ec}', '\u{ee}', '\u{ef}', '\u{f1}', '\u{f3}', '\u{f2}', '\u{f4}', '\u{f6}',
    '\u{f5}', '\u{fa}', '\u{f9}', '\u{fb}', '\u{fc}', '\u{2020}', '\u{b0}', '\u{a2}', '\u{a3}',
    '\u{a7}', '\u{2022}', '\u{b6}', '\u{df}', '\u{ae}', '\u{a9}', '\u{2122}', '\u{b4}', '\u{a8}',
    '\u{2260}', '\u{c6}', '\u{d8}', '\u{221e}', '\u{b1}', '\u{2264}', '\u{2265}', '\u{a5}',
    '\u{b5}', '\u{2202}', '\u{2211}', '\u{220f}', '\u{3c0}', '\u{222b}', '\u{aa}', '\u{ba}',
    '\u{3a9}', '\u{e6}', '\u{f8}', '\u{bf}', '\u{a1}', '\u{ac}', '\u{221a}', '\u{192}', '\u{2248}',
    '\u{2206}', '\u{ab}', '\u{bb}', '\u{2026}', '\u{a0}', '\u{c0}', '\u{c3}', '\u{d5}', '\u{152}',
    '\u{153}', '\u{2013}', '\u{2014}', '\u{201c}', '\u{201d}', '\u{2018}', '\u{2019}', '\u{f7}',
    '\u{25ca}', '\u{ff}', '\u{178}', '\u{2044}', '\u{20ac}', '\u{2039}', '\u{203a}', '\u{fb01}',
    '\u{fb02}', '\u{2021}', '\u{b7}', '\u{201a}', '\u{201e}', '\u{2030}', '\u{c2}', '\u{ca}',
    '\u{c1}', '\u{cb}', '\u{c8}', '\u{cd}', '\u{ce}', '\u{cf}', '\u{cc}', '\u{d3}', '\u{d4}',
    '\u{f8ff}', '\u{d2}', '\u{da}', '\u{db}', '\u{d9}', '\u{131}', '\u{2c6}', '\u{2dc}', '\u{af}',
    '\u{2d8}', '\u{2d9}', '\u{2da}', '\u{b8}', '\u{2dd}', '\u{2db}', '\u{2c7}',
];

/// Returns the character of a byte.
pub fn character_of(byte: u8) -> char
    ensures { result ≡ char_of byte }
{
    if byte < 0x80 {
        return char::from(byte);
    }
    HIGH[byte as usize - 0x80]
}

/// Returns the index of a character in a table.
fn index_in(table: &[char], character: char) -> Option<usize>
    ensures index { result ≡ position (λ (c : ℕ). c == character) table.now }
    ensures inside { IfSome result (λ index. index < length table.now) }
{
    table.iter().position(|c| *c == character)
}

/// Returns the byte of a character that is not in ASCII, if Mac OS Roman has the character.
fn high_byte(character: char) -> Option<u8>
    ensures { result ≡ option_map (λ (i : ℕ). i + 128) (position (λ (c : ℕ). c == character) high) }
{
    match index_in(&HIGH, character) {
        Some(index) => Some(index as u8 + 0x80),
        None => None,
    }
}

/// Returns the byte of a character, if Mac OS Roman has the character.
pub fn byte_for(character: char) -> Option<u8>
    ensures { result ≡ byte_of character }
{
    let code = character as u32;
    if code < 0x80 {
        return Some(code as u8);
    }
    high_byte(character)
}
