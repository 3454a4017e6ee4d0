//! Statements: the values that their text states, or the line and the reason why it states none.

use crate::words::{bytes_of, words_of};
use anyhow::{Context, Result, bail};
use rez_declarations::{TypeStated, read_type};
use rez_printing::{Style, show};
use rez_tokens::tokens;
use rez_types::{Declaration, decode, encode};
use rez_values::take;
use std::alloc::Global;

/// What a statement states between its braces, and its values as words, or why it has none.
struct Row {
    stated: &'static str,
    answer: &'static str,
}

const STRINGS: &str =
    "type 'STR#' { integer = $$CountOf(StringArray); array StringArray { pstring; }; };";

const STRING_ROWS: [Row; 8] = [
    Row {
        stated: "{ \"Disk full\"; \"No memory\" }",
        answer: "#2 + =4469736b2066756c6c + =4e6f206d656d6f7279 . ",
    },
    Row {
        stated: "{ \"a\" \"b\" $\"00\", }",
        answer: "#1 + =616200 . ",
    },
    Row {
        stated: "{ };",
        answer: "#0 . ",
    },
    Row {
        stated: "{ \"a\";\n12 }",
        answer: "line 2: a string is needed",
    },
    Row {
        stated: "{ \"a\" };\n\"c\"",
        answer: "line 2: nothing more may stand here",
    },
    Row {
        stated: "{ \"a\"\n",
        answer: "line 1: a closing brace is needed",
    },
    Row {
        stated: "{ ; \"a\" }",
        answer: "line 1: a string is needed",
    },
    Row {
        stated: "\"a\"",
        answer: "line 1: an array must stand in braces",
    },
];

const ITEMS: &str =
    "type 'DITL' { integer = $$CountOf(DITLarray) - 1; array DITLarray { fill long; rect; switch {
    case Button: boolean enabled, disabled; key bitstring[7] = 4; pstring;
    case StaticText: boolean enabled, disabled; key bitstring[7] = 8; pstring;
    case Icon: boolean enabled, disabled; key bitstring[7] = 32; byte = 2; integer;
    }; align word; }; };";

const ITEM_ROWS: [Row; 12] = [
    Row {
        stated: "{ {10, 20, 30, 80}, Button { enabled, \"OK\" }; {40, 20, 56, -1}, statictext { TRUE; \"Hi!\" } /* fill $6B */ }",
        answer: "#2 + $00000000 10 20 30 80 @0 0 =4f4b $ + $00000000 40 20 56 65535 @1 1 =486921 $6b . ",
    },
    Row {
        stated: "{ {0; 0; 32; 32;}, Icon { disabled, 0x80, } /* fill $01 */, /* fill $00000002 */ {0, 0, 0, 0}, Icon { 1, -32768 } }",
        answer: "#2 + $00000000 0 0 32 32 @2 1 128 $01 + $00000002 0 0 0 0 @2 1 32768 $ . ",
    },
    // the comment of an element's first fill may also stand before the separator
    Row {
        stated: "{ {0; 0; 32; 32;}, Icon { disabled, 0x80, } /* fill $01 */ /* fill $00000002 */, {0, 0, 0, 0}, Icon { 1, -32768 } }",
        answer: "#2 + $00000000 0 0 32 32 @2 1 128 $01 + $00000002 0 0 0 0 @2 1 32768 $ . ",
    },
    // comments of fills where no fill is, or of another length
    Row {
        stated: "{ /* fill $01 */ {0, 0, /* fill $02 */ 0, 0}, Icon { 0, 1 /* fill $03 */ } /* fill $0405 */ } /* fill $06 */;",
        answer: "#1 + $00000000 0 0 0 0 @2 0 1 $ . ",
    },
    Row {
        stated: "{ {10, 20, 30}, Button { enabled, \"OK\" } }",
        answer: "line 1: a rectangle must be {top, left, bottom, right}",
    },
    Row {
        stated: "{\n{10, 20, 30, 40}, Buton { enabled, \"OK\" } }",
        answer: "line 2: the name of a case is needed",
    },
    Row {
        stated: "{ {10, 20, 30, 70000}, Button { enabled, \"OK\" } }",
        answer: "line 1: a number of 16 bits is out of range",
    },
    Row {
        stated: "{ {10, 20, 30, -32769}, Button { enabled, \"OK\" } }",
        answer: "line 1: a number of 16 bits is out of range",
    },
    Row {
        stated: "{ {10, 20, 30, 40}, Button { enabeld, \"OK\" } }",
        answer: "line 1: a number is needed, or the name of a constant of its field",
    },
    Row {
        stated: "{ {10, 20, 30, 40}, Button \"OK\" }",
        answer: "line 1: an opening brace is needed",
    },
    Row {
        stated: "{ {10, 20, 30, 40}, Button { enabled, \"OK\", 1 } }",
        answer: "line 1: a closing brace is needed",
    },
    Row {
        stated: "{ {10, 20, 30, 40} Button { enabled, \"OK\" } }",
        answer: "line 1: a comma or a semicolon is needed",
    },
];

const MENU: &str = "type 'MENU' { integer; fill word[2]; integer textMenuProc = 0; fill word;
    unsigned hex bitstring[31] allEnabled = 0x7FFFFFFF; boolean disabled, enabled; pstring apple = \"\\0x14\";
    array { pstring; byte noIcon; char noKey = \"\\0x00\"; char; fill bit; unsigned bitstring[7] plain; }; byte = 0; };";

const MENU_ROWS: [Row; 4] = [
    Row {
        stated: "128, textMenuProc, allEnabled, enabled, apple, { \"New\", noicon, \"N\", $\"00\", plain; \"Quit\", 1, NOKEY, \"\\0x12\" /* fill $01 */, 4 }",
        answer: "128 $00000000 0 $0000 2147483647 1 =14 + =4e6577 0 =4e =00 0 0 + =51756974 1 =00 =12 1 4 . ",
    },
    Row {
        stated: "128, textMenuProc, 0x7FFFFFFF, enabeld, \"File\", { }",
        answer: "line 1: a number is needed, or the name of a constant of its field",
    },
    Row {
        stated: "128, textMenuProc, 0x80000000, enabled, \"File\", { }",
        answer: "line 1: a number of 31 bits is out of range",
    },
    Row {
        stated: "128, 0, allEnabled, true, \"File\", { \"New\", noIcon,\n\"No\", \"\", plain }",
        answer: "line 2: a string of length 1 is needed",
    },
];

const PARTS: &str =
    "type 'TEST' { literal longint; point; cstring; array [2] { byte off, on; }; bitstring[1] = $$CountOf(Few); fill bit[7];
    array Few { string[2]; }; };";

const PART_ROWS: [Row; 10] = [
    Row {
        stated: "'nh', {-1; 5}, \"x\", { on; off }, { \"ab\" }",
        answer: "28264 65535 5 =78 + 1 + 0 . #1 0 + =6162 . ",
    },
    Row {
        stated: "'nhack', {1, 5}, \"x\", { on; off }, { }",
        answer: "line 1: more than four characters stand for a number",
    },
    Row {
        stated: "noon, {1, 5}, \"x\", { on; off }, { }",
        answer: "line 1: a number is needed",
    },
    Row {
        stated: "1, {1}, \"x\", { on; off }, { }",
        answer: "line 1: a point must be {v, h}",
    },
    Row {
        stated: "1, 1, 5, \"x\", { on; off }, { }",
        answer: "line 1: a point must be {v, h}",
    },
    Row {
        stated: "1, {1, 5},\n$\"7800\"\n$\"78\", { on; off }, { }",
        answer: "line 2: a string has a byte of 0, which would end it",
    },
    Row {
        stated: "1, {1, 5}, \"x\", { on\n}, { }",
        answer: "line 2: an array must have so many elements: 2",
    },
    Row {
        stated: "1, {1, 5}, \"x\", { 255, -128 }, { \"ab\", \"cd\" }",
        answer: "line 1: an array has more elements than its count can state",
    },
    Row {
        stated: "1, {1, 5}, \"x\", { on, off }, { \"abc\" }",
        answer: "line 1: a string of length 2 is needed",
    },
    Row {
        stated: "",
        answer: "line 1: a number is needed",
    },
];

fn declaration_of(alloc: Global, text: &str) -> Result<Declaration> {
    let tokens = tokens(alloc, text.as_bytes())?;
    match read_type(alloc, tokens.as_slice())?.stated {
        TypeStated::Declared(declaration) => Ok(declaration),
        TypeStated::As(_) => bail!("no fields"),
    }
}

/// Returns the values of a statement as words, or why it has none.
fn answer_of(alloc: Global, declaration: &Declaration, text: &str) -> Result<String> {
    let tokens = tokens(alloc, text.as_bytes())?;
    match take(alloc, declaration, tokens.as_slice()) {
        Ok(values) => {
            encode(alloc, declaration, values.as_slice()).context("values of no resource")?;
            words_of(alloc, values.as_slice())
        }
        Err(fault) => Ok(format!(in alloc; "{fault}")?),
    }
}

#[test]
fn statements_state_values(rt: HostRuntime) -> Result<()> {
    let alloc = rt.alloc();
    let tables = [
        (STRINGS, &STRING_ROWS[..]),
        (ITEMS, &ITEM_ROWS[..]),
        (MENU, &MENU_ROWS[..]),
        (PARTS, &PART_ROWS[..]),
    ];
    for (declared, rows) in tables {
        let declaration = declaration_of(alloc, declared).context("a declaration")?;
        for row in rows {
            let answer = answer_of(alloc, &declaration, row.stated)?;
            assert_eq!(rt; answer.as_str(), row.answer);
        }
    }
    Ok(())
}

/// Resources whose fills and alignments are not 0: a declaration, and bytes in hexadecimal.
const FILLED: [(&str, &str); 8] = [
    (
        ITEMS,
        "0001 00000000000a0014001e0050 04024f4b 00000001fff6000000200020 a0020080",
    ),
    (
        ITEMS,
        "0001 00000001000a0014001e0050 0403486921 6b 00000002fff6000000200020 a0020080",
    ),
    (
        MENU,
        "0080 00000001 0000 0002 ffffffff 0446696c65 034e6577 00 4e 00 84 0151 01 00 12 00 00",
    ),
    (PARTS, "00006e68 ffff0005 7800 01 00 ff 6162"),
    (
        "type 'TEST' { fill nibble; hex bitstring[4]; align long; hex string; };",
        "2b000100 0708",
    ),
    (
        "type 'TEST' { fill word; array { fill byte; byte; align long; }; };",
        "0102 03040000 0006 0708 0900",
    ),
    (
        "type 'TEST' { array [2] { fill bit[9]; bitstring[7]; fill byte; }; align long; };",
        "ff81 01 0000 02 0506",
    ),
    ("type 'TEST' { array { cstring; }; };", "41000a2200"),
];

#[test]
fn printed_values_are_taken_again(rt: HostRuntime) -> Result<()> {
    let alloc = rt.alloc();
    for (declared, digits) in FILLED {
        let declaration = declaration_of(alloc, declared).context("a declaration")?;
        let bytes = bytes_of(alloc, digits)?;
        let values = decode(alloc, &declaration, bytes.as_slice()).context("values")?;
        let text = show(alloc, Style::PLAIN, &declaration, values.as_slice()).context("a text")?;
        let tokens = tokens(alloc, text.as_slice())?;
        let again = take(alloc, &declaration, tokens.as_slice())?;
        let written = encode(alloc, &declaration, again.as_slice())?;
        assert_eq!(rt;
            hex::encode(alloc, written.as_slice())?.as_str(),
            hex::encode(alloc, bytes.as_slice())?.as_str()
        );
    }
    Ok(())
}
