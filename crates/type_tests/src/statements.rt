//! Types that are declared, and resources by them.

use anyhow::{Context, Result, bail};
use rez_statements::{Types, TypesFault};
use std::alloc::Global;

/// A declaration, a type, what stands between braces, and the bytes of the resource in hexadecimal,
/// or why there are none.
struct Row {
    declared: &'static str,
    ty: [u8; 4],
    stated: &'static str,
    bytes: &'static str,
}

const STRINGS: &str =
    "type 'STR#' { integer = $$CountOf(StringArray); array StringArray { pstring; }; };";

const ROWS: [Row; 9] = [
    Row {
        declared: STRINGS,
        ty: *b"STR#",
        stated: " { \"No\"; \"Yes\\n\", $\"00\" \"\\0x41\" } ",
        bytes: "0003024e6f045965730d020041",
    },
    Row {
        declared: STRINGS,
        ty: *b"STR#",
        stated: "{}",
        bytes: "0000",
    },
    Row {
        declared: STRINGS,
        ty: *b"Nu\x00p",
        stated: "{}",
        bytes: "line 1: no type 'Nu.p' is declared",
    },
    Row {
        declared: STRINGS,
        ty: *b"STR#",
        stated: "\r\n{ \"No\"; \n12 }",
        bytes: "line 3: a string is needed",
    },
    Row {
        declared: STRINGS,
        ty: *b"STR#",
        stated: "{ \"No }",
        bytes: "line 1: a string does not end",
    },
    Row {
        declared: "type 'TEST' /* fill $00 */ { integer; // here\n fill word; byte no = 2, yes; };",
        ty: *b"TEST",
        stated: "-2 /* fill $6b 6c */, Yes",
        bytes: "fffe6b6c03",
    },
    Row {
        declared: "type 'TEST' { array { pstring; }; byte = 0; };",
        ty: *b"TEST",
        stated: "{ \"\" }",
        bytes: "line 1: an element would end its array, or the resource is too long",
    },
    Row {
        declared: "type 'TEST' { integer; }; type",
        ty: *b"TEST",
        stated: "",
        bytes: "line 1: a declaration is needed",
    },
    Row {
        declared: "type 'TEST' as 'Nump';",
        ty: *b"TEST",
        stated: "",
        bytes: "line 1: no type 'Nump' is declared",
    },
];

fn datum(alloc: Global, row: &Row) -> Result<Vec<u8>, TypesFault> {
    let mut types = Types::new(alloc);
    types.declare(row.declared.as_bytes())?;
    types.datum(row.ty, row.stated.as_bytes())
}

#[test]
fn resources_are_stated(rt: HostRuntime) -> Result<()> {
    let alloc = rt.alloc();
    for row in &ROWS {
        match datum(alloc, row) {
            Ok(bytes) => {
                assert_eq!(rt; hex::encode(alloc, bytes.as_slice())?.as_str(), row.bytes);
            }
            Err(fault) => assert_eq!(rt; format!(in alloc; "{fault}")?.as_str(), row.bytes),
        }
    }
    Ok(())
}

#[test]
fn the_last_declaration_is_in_force(rt: HostRuntime) -> Result<()> {
    let alloc = rt.alloc();
    let mut types = Types::new(alloc);
    types.declare(b"type 'AAAA' { byte; };")?;
    types.declare(b"type 'BBBB' as 'AAAA';")?;
    types.declare(b"type 'AAAA' { integer; };")?;
    assert!(rt; types.declare(b"type 'AAAA' { integer }").is_err());
    assert!(rt; types.datum(*b"AAAA", b"1")?.as_slice() == b"\x00\x01".as_slice());
    assert!(rt; types.datum(*b"BBBB", b"1")?.as_slice() == b"\x01".as_slice());
    assert_eq!(rt; types.list().len(), 3);
    Ok(())
}
