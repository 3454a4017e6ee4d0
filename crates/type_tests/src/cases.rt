//! Worked resources: their values, and their bytes again.

use crate::words::{bytes_of, tokens_of, words_of};
use anyhow::{Context, Result, bail};
use rez_declarations::{TypeStated, read_type};
use rez_types::{CodingFault, Declaration, decode, encode};
use std::alloc::Global;

/// A declaration, the bytes of a resource in hexadecimal, and its values; no values where the bytes
/// are no such resource.
struct Row {
    declared: &'static str,
    bytes: &'static str,
    values: &'static str,
}

const STRINGS: &str =
    "type 'STR#' { integer = $$CountOf ( StringArray ) ; array StringArray { pstring ; } ; } ;";

const ITEMS: &str =
    "type 'DITL' { integer = $$CountOf ( DITLarray ) - 1 ; array DITLarray { fill long ; rect ; switch {
    case Button : boolean enabled , disabled ; key bitstring [ 7 ] = 4 ; pstring ;
    case StaticText : boolean enabled , disabled ; key bitstring [ 7 ] = 8 ; pstring ;
    case Icon : boolean enabled , disabled ; key bitstring [ 7 ] = 32 ; byte = 2 ; integer ;
    } ; align word ; } ; } ;";

const MENU: &str = "type 'MENU' { integer ; fill word [ 2 ] ; integer textMenuProc = 0 ; fill word ;
    unsigned hex bitstring [ 31 ] allEnabled = 2147483647 ; boolean disabled , enabled ; pstring ;
    array { pstring ; byte noIcon = 0 ; char ; char ; fill bit ; unsigned bitstring [ 7 ] plain = 0 ; } ; byte = 0 ; } ;";

const ROWS: [Row; 10] = [
    Row {
        declared: "type 'STR_' { pstring ; } ;",
        bytes: "0548656c6c6f",
        values: "=48656c6c6f ",
    },
    Row {
        declared: STRINGS,
        bytes: "0002024e6f03596573",
        values: "#2 + =4e6f + =596573 . ",
    },
    Row {
        declared: STRINGS,
        bytes: "0003024e6f03596573",
        values: "",
    },
    // a button 'OK' and a disabled text 'Hi!', whose last byte is of no account
    Row {
        declared: ITEMS,
        bytes: "000100000000000a0014001e005004024f4b0000000000280014003800ff8803486921 6b",
        values: "#2 + $00000000 10 20 30 80 @0 0 =4f4b $ + $00000000 40 20 56 255 @1 1 =486921 $6b . ",
    },
    // no items
    Row {
        declared: ITEMS,
        bytes: "ffff",
        values: "#0 . ",
    },
    // an icon
    Row {
        declared: ITEMS,
        bytes: "000000000000000000000020002020020080",
        values: "#1 + $00000000 0 0 32 32 @2 0 128 $ . ",
    },
    Row {
        declared: MENU,
        bytes: "00800000000000000000ffffffff0446696c65034e6577004e000000",
        values: "128 $00000000 0 $0000 2147483647 1 =46696c65 + =4e6577 0 =4e =00 0 0 . ",
    },
    Row {
        declared: "type 'CURS' { hex string [ 4 ] ; point ; } ;",
        bytes: "01020304fffe0005",
        values: "=01020304 65534 5 ",
    },
    Row {
        declared: "type 'TEST' { array { cstring ; } ; } ;",
        bytes: "410000",
        values: "+ =41 + = . ",
    },
    Row {
        declared: "type 'TEST' { fill nibble ; hex bitstring [ 4 ] ; align long ; hex string ; } ;",
        bytes: "2b0001000708",
        values: "2 11 $000100 =0708 ",
    },
];

fn declaration_of(alloc: Global, text: &str) -> Result<Declaration> {
    let tokens = tokens_of(alloc, text)?;
    match read_type(alloc, tokens.as_slice())?.stated {
        TypeStated::Declared(declaration) => Ok(declaration),
        TypeStated::As(_) => bail!("no fields"),
    }
}

#[test]
fn resources_are_read_and_written(rt: HostRuntime) -> Result<()> {
    let alloc = rt.alloc();
    for row in &ROWS {
        let declaration = declaration_of(alloc, row.declared).context("a declaration")?;
        let bytes = bytes_of(alloc, row.bytes)?;
        match decode(alloc, &declaration, bytes.as_slice()) {
            Ok(values) => {
                assert_eq!(rt; words_of(alloc, values.as_slice())?.as_str(), row.values);
                assert!(rt; encode(alloc, &declaration, values.as_slice())? == bytes);
            }
            Err(CodingFault::Misfit) => assert_eq!(rt; row.values, ""),
            Err(fault) => bail!("{fault}"),
        }
    }
    Ok(())
}
