//! The texts of resources and of declarations.

use crate::words::bytes_of;
use anyhow::{Context, Result, bail};
use rez_declarations::TypeStated;
use rez_printing::{Style, declaration_text, show};
use rez_statements::{DeclaringStatement, datum_by, read_declaring};
use rez_types::{Declaration, decode};
use std::alloc::Global;

/// A declaration, the bytes of a resource in hexadecimal, its text, and the text of the
/// declaration.
struct Row {
    declared: &'static str,
    bytes: &'static str,
    text: &'static str,
    statement: &'static str,
}

const ROWS: [Row; 12] = [
    Row {
        declared: "type 'STR ' { pstring; };",
        bytes: "0c 486922 5c 0d 41 09 0a c4 0d 21 0d",
        text: "\t\"Hi\\\"\\\\\\n\"\n\t\t\"A\\t\\0x0A\\0xC4\\n\"\n\t\t\"!\\n\"\n",
        statement: "type 'STR ' { pstring; };",
    },
    Row {
        declared: "type 'STR#' { integer = $$CountOf(StringArray); array StringArray { pstring; }; };",
        bytes: "0002024e6f03596573",
        text: "\t{\n\t\t\"No\";\n\t\t\"Yes\"\n\t}\n",
        statement: "type 'STR#' { integer = $$CountOf(StringArray); array StringArray { pstring; }; };",
    },
    Row {
        declared: "type 'DITL' { integer = $$CountOf(DITLarray) - 1; array DITLarray { fill long; rect; switch {
            case Button: boolean enabled, disabled; key bitstring[7] = 4; pstring;
            case Icon: boolean enabled, disabled; key bitstring[7] = 32; byte = 2; integer;
            }; align word; }; };",
        bytes: "0001 00000000000a0014001e0050 04024f4b 00000001fff6000000200020 a0020080",
        text: "\t{\n\t\t{10, 20, 30, 80}, Button { enabled, \"OK\" };\n\t\t/* fill $00000001 */ {-10, 0, 32, 32}, Icon { disabled, 128 }\n\t}\n",
        statement: "type 'DITL' { integer = $$CountOf(DITLarray) - 1; array DITLarray { fill byte[4]; rect; switch { case Button: boolean enabled = 0, disabled = 1; key bitstring[7] = 0x4; pstring; case Icon: boolean enabled = 0, disabled = 1; key bitstring[7] = 0x20; byte = 0x2; integer; }; align word; }; };",
    },
    Row {
        declared: "type 'MENU' { integer; fill word[2]; integer textMenuProc = 0; fill word;
            unsigned hex bitstring[31] allEnabled = 2147483647; boolean disabled, enabled; pstring;
            array { pstring; byte noIcon = 0; char; char; fill bit; unsigned bitstring[7] plain = 0; }; byte = 0; };",
        bytes: "00800000000000000000ffffffff0446696c65034e6577004e000000",
        text: "\t128,\n\ttextMenuProc,\n\tallEnabled,\n\tenabled,\n\t\"File\",\n\t{\n\t\t\"New\", noIcon, \"N\", \"\\0x00\", plain\n\t}\n",
        statement: "type 'MENU' { integer; fill byte[4]; integer textMenuProc = 0; fill byte[2]; hex bitstring[31] allEnabled = 0x7FFFFFFF; boolean disabled = 0, enabled = 1; pstring; array { pstring; byte noIcon = 0; char; char; fill bit[1]; unsigned bitstring[7] plain = 0; }; byte = 0x0; };",
    },
    Row {
        declared: "type 'CURS' { hex string[18]; point; };",
        bytes: "000102030405060708090a0b0c0d0e0f1011 fffe0005",
        text: "\t$\"0001 0203 0405 0607 0809 0A0B 0C0D 0E0F\"\n\t\t$\"1011\",\n\t{-2, 5}\n",
        statement: "type 'CURS' { hex string[18]; point; };",
    },
    Row {
        declared: "type 'TEST' { fill nibble; hex bitstring[4]; align long; hex string; };",
        bytes: "2b000100",
        text: "\t/* fill $02 */ 0xB /* fill $000100 */,\n\t$\"\"\n",
        statement: "type 'TEST' { fill bit[4]; hex bitstring[4]; align long; hex string; };",
    },
    Row {
        declared: "type 'TEST' { literal longint; literal bitstring[4]; binary bitstring[4]; unsigned byte; byte; hex longint; };",
        bytes: "41272009 a6 ff ff 00000000",
        text: "\t'A\\' \\t',\n\t10,\n\t0b110,\n\t255,\n\t-1,\n\t0x0\n",
        statement: "type 'TEST' { literal longint; literal bitstring[4]; binary bitstring[4]; unsigned byte; byte; hex longint; };",
    },
    Row {
        declared: "type 'TEST' { integer none = -1, half = -32768, one = 1; pstring empty = \"\", yes = \"Yes\"; cstring; };",
        bytes: "ffff 03596573 00",
        text: "\tnone,\n\tyes,\n\t\"\"\n",
        statement: "type 'TEST' { integer none = -1, half = -32768, one = 1; pstring empty = \"\", yes = \"Yes\"; cstring; };",
    },
    Row {
        declared: "type 'TEST' { boolean; boolean; bitstring[6]; array [2] { byte = $$CountOf(Inner); array Inner { char; byte; }; }; };",
        bytes: "a0 02 4101 42ff 00",
        text: "\ttrue,\n\tfalse,\n\t-32,\n\t{\n\t\t{ \"A\", 1; \"B\", -1 };\n\t\t{ }\n\t}\n",
        statement: "type 'TEST' { boolean; boolean; bitstring[6]; array [2] { byte = $$CountOf(Inner); array Inner { char; byte; }; }; };",
    },
    Row {
        declared: "type 'TEST' { byte = $$CountOf(A); byte = $$CountOf(B); array B { byte; }; array A { char; }; fill byte; };",
        bytes: "01 02 05 06 58 07",
        text: "\t{\n\t\t5;\n\t\t6\n\t},\n\t{\n\t\t\"X\"\n\t} /* fill $07 */\n",
        statement: "type 'TEST' { byte = $$CountOf(A); byte = $$CountOf(B); array B { byte; }; array A { char; }; fill byte; };",
    },
    Row {
        declared: "type 'TEST' { fill long; };",
        bytes: "00000000",
        text: "",
        statement: "type 'TEST' { fill byte[4]; };",
    },
    Row {
        declared: "type 'TEST' { array { switch { case One: key byte = 1; string[2]; case Two: key byte = 2; array [1] { rect; }; }; }; };",
        bytes: "01 4142 02 0001000200038000 01 0d0d",
        text: "\t{\n\t\tOne { \"AB\" };\n\t\tTwo { { {1, 2, 3, -32768} } };\n\t\tOne { \"\\n\"\n\t\t\"\\n\" }\n\t}\n",
        statement: "type 'TEST' { array { switch { case One: key byte = 0x1; string[2]; case Two: key byte = 0x2; array [1] { rect; }; }; }; };",
    },
];

/// Returns the type and the declaration that the text of a statement states.
fn declared(alloc: Global, text: &str) -> Result<([u8; 4], Declaration)> {
    let DeclaringStatement { ty, stated } = read_declaring(alloc, text.as_bytes())?;
    match stated {
        TypeStated::Declared(declaration) => Ok((ty, declaration)),
        TypeStated::As(_) => bail!("no fields"),
    }
}

/// Returns the text of a resource's values.
fn shown(alloc: Global, declaration: &Declaration, bytes: &[u8]) -> Result<Vec<u8>> {
    let values = decode(alloc, declaration, bytes).context("no values")?;
    Ok(show(alloc, Style::PLAIN, declaration, values.as_slice())?)
}

/// Returns the text of the declaration that the text of a statement states.
fn declared_text(alloc: Global, text: &str) -> Result<Vec<u8>> {
    let (ty, declaration) = declared(alloc, text)?;
    Ok(declaration_text(alloc, ty, &declaration)?)
}

#[test]
fn resources_are_shown_and_read_again(rt: HostRuntime) -> Result<()> {
    let alloc = rt.alloc();
    for row in &ROWS {
        let (_ty, declaration) = declared(alloc, row.declared).context("a declaration")?;
        let bytes = bytes_of(alloc, row.bytes)?;
        let text = shown(alloc, &declaration, bytes.as_slice())?;
        assert_eq!(rt; str::from_utf8(text.as_slice())?, row.text);
        let stated = datum_by(alloc, &declaration, row.text.as_bytes()).context("a text")?;
        assert!(rt; stated == bytes);
    }
    Ok(())
}

#[test]
fn declarations_are_shown_and_read_again(rt: HostRuntime) -> Result<()> {
    let alloc = rt.alloc();
    for row in &ROWS {
        let text = declared_text(alloc, row.declared).context("a declaration")?;
        assert_eq!(rt; str::from_utf8(text.as_slice())?, row.statement);
        let again = declared_text(alloc, row.statement).context("its text")?;
        assert!(rt; again == text);
    }
    Ok(())
}
