//! What the picture of a zone is made of: numbers, texts and colours.

ghost use Rattle.std.specs.Prelude.{◌≡◌, ◌++◌, OnOk, decimal};
ghost use Rattle.real_zone_view.specs.Drawing as spec;

use crate::fields::put;
use itoa::Buffer;
use std::alloc::AllocError;

/// Appends a text within SVG: `&`, `<` and `>` by their names.
pub fn push_escaped(text: &mut Vec<u8>, bytes: &[u8]) -> Result<(), AllocError>
    ensures { OnOk result (text.new.items ≡ text.old.items ++ spec.escaped bytes.now) }
{
    for byte in bytes {
        match *byte {
            b'&' => put(text, b"&amp;")?,
            b'<' => put(text, b"&lt;")?,
            b'>' => put(text, b"&gt;")?,
            other => text.push(other)?,
        }
    }
    Ok(())
}

/// Appends a number in decimal.
pub fn push_decimal(text: &mut Vec<u8>, number: u128) -> Result<(), AllocError>
    ensures { OnOk result (text.new.items ≡ text.old.items ++ decimal number) }
{
    text.extend_from_slice(Buffer::new().format(number).as_bytes())
}

/// Returns a word where something holds, else nothing.
pub fn mark(holds: bool, word: &[u8]) -> &[u8]
    ensures { result.now ≡ spec.mark holds word.now }
{
    if holds { word } else { b"" }
}

/// Appends an attribute that is a number.
pub fn push_attribute(text: &mut Vec<u8>, name: &[u8], number: u128) -> Result<(), AllocError>
    ensures { OnOk result (text.new.items ≡ text.old.items ++ spec.attribute name.now number) }
{
    put(text, b" ")?;
    put(text, name)?;
    put(text, b"=\"")?;
    push_decimal(text, number)?;
    put(text, b"\"")?;
    Ok(())
}

/// Appends what a picture of a height begins with.
pub fn push_svg_opened(text: &mut Vec<u8>, height: u128) -> Result<(), AllocError>
    ensures { OnOk result (text.new.items ≡ text.old.items ++ spec.svg_opened height) }
{
    put(
        text,
        b"<svg xmlns=\"http://www.w3.org/2000/svg\" width=\"972\"",
    )?;
    push_attribute(text, b"height", height)?;
    put(text, b" viewBox=\"0 0 972 ")?;
    push_decimal(text, height)?;
    put(text, b"\" font-family=\"monospace\" font-size=\"11\">\n")?;
    Ok(())
}

/// Returns the colours of a picture, and its ground.
pub fn svg_style() -> &'static [u8]
    ensures { result.now ≡ spec.svg_style }
{
    b"<style>text{fill:#222}rect{stroke:#555;stroke-width:.5;vector-effect:non-scaling-stroke}.b{fill:#fff}.u{fill:#777}.s{fill:#ddd29a}.f{fill:#f4f4f4}.n{fill:#f2b27a}.r{fill:#9cc8ea}.l{fill:#f0a0a0}.p{fill-opacity:.5}.d{fill:#c22}.b,.d{stroke:none}@media(prefers-color-scheme:dark){text{fill:#eee}rect{stroke:#aaa}.b{fill:#161616}.s{fill:#6b6236}.f{fill:#2c2c2c}.n{fill:#8a5524}.r{fill:#2b5f86}.l{fill:#8a3030}.d{fill:#f66}}</style>\n<rect class=\"b\" width=\"100%\" height=\"100%\"/>\n"
}

/// Returns what the colours of a picture stand for.
pub fn svg_legend() -> &'static [u8]
    ensures { result.now ≡ spec.svg_legend }
{
    b"<rect class=\"f\" x=\"12\" y=\"46\" width=\"16\" height=\"12\"/><text x=\"34\" y=\"56\">free</text><rect class=\"n\" x=\"84\" y=\"46\" width=\"16\" height=\"12\"/><text x=\"106\" y=\"56\">nonrelocatable</text><rect class=\"r\" x=\"226\" y=\"46\" width=\"16\" height=\"12\"/><text x=\"248\" y=\"56\">relocatable</text><rect class=\"r l\" x=\"346\" y=\"46\" width=\"16\" height=\"12\"/><text x=\"368\" y=\"56\">locked</text><rect class=\"r p\" x=\"434\" y=\"46\" width=\"16\" height=\"12\"/><text x=\"456\" y=\"56\">purgeable</text><rect class=\"s\" x=\"542\" y=\"46\" width=\"16\" height=\"12\"/><text x=\"564\" y=\"56\">mixed or unknown</text><rect class=\"u\" x=\"696\" y=\"46\" width=\"16\" height=\"12\"/><text x=\"718\" y=\"56\">no block</text><rect class=\"d\" x=\"798\" y=\"46\" width=\"16\" height=\"12\"/><text x=\"820\" y=\"56\">damaged</text>\n"
}
