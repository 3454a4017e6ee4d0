//! Zones with each rule broken in turn.

use crate::rows::{BASE_24, BASE_32, ZONE_24, ZONE_32, bytes_of, changed};
use anyhow::Result;
use real_zone::{Form, check_zone, read_zone};

/// Other bytes at an offset, and what is then wrong, as it displays.
struct Row {
    at: usize,
    new: &'static str,
    wrong: &'static str,
}

const ROWS_24: [Row; 16] = [
    Row {
        at: 3,
        new: "33",
        wrong: "00001000: BkLim is bad",
    },
    Row {
        at: 3,
        new: "79",
        wrong: "00001000: BkLim is bad",
    },
    Row {
        at: 3,
        new: "74",
        wrong: "0000106C: BkLim does not agree with heap length",
    },
    Row {
        at: 111,
        new: "10",
        wrong: "0000106C: BkLim does not agree with heap length",
    },
    Row {
        at: 76,
        new: "C2",
        wrong: "0000104C: block type is bad",
    },
    Row {
        at: 79,
        new: "11",
        wrong: "0000104C: block length is bad",
    },
    Row {
        at: 108,
        new: "85",
        wrong: "0000106C: size correction is bad",
    },
    Row {
        at: 59,
        new: "04",
        wrong: "00001034: nonrelocatable block: pointer to zone is bad",
    },
    Row {
        at: 83,
        new: "30",
        wrong: "0000104C: relative handle is bad",
    },
    Row {
        at: 83,
        new: "78",
        wrong: "0000104C: relative handle is bad",
    },
    Row {
        at: 83,
        new: "3D",
        wrong: "0000104C: relative handle is bad",
    },
    Row {
        at: 63,
        new: "58",
        wrong: "0000104C: master pointer does not point at block",
    },
    Row {
        at: 11,
        new: "54",
        wrong: "00001054: free master pointer list is bad",
    },
    Row {
        at: 11,
        new: "4A",
        wrong: "0000104A: free master pointer list is bad",
    },
    Row {
        at: 74,
        new: "1044",
        wrong: "00001044: free master pointer list has no end",
    },
    Row {
        at: 15,
        new: "0C",
        wrong: "00001000: zcbFree does not agree with the free blocks",
    },
];

const ROWS_32: [Row; 9] = [
    Row {
        at: 135,
        new: "14",
        wrong: "00002080: BkLim does not agree with heap length",
    },
    Row {
        at: 80,
        new: "C0",
        wrong: "00002050: block type is bad",
    },
    Row {
        at: 87,
        new: "1E",
        wrong: "00002050: block length is bad",
    },
    Row {
        at: 131,
        new: "05",
        wrong: "00002080: size correction is bad",
    },
    Row {
        at: 62,
        new: "21",
        wrong: "00002034: nonrelocatable block: pointer to zone is bad",
    },
    Row {
        at: 91,
        new: "42",
        wrong: "00002050: relative handle is bad",
    },
    Row {
        at: 64,
        new: "80",
        wrong: "00002050: master pointer does not point at block",
    },
    Row {
        at: 78,
        new: "2048",
        wrong: "00002048: free master pointer list has no end",
    },
    Row {
        at: 15,
        new: "00",
        wrong: "00002000: zcbFree does not agree with the free blocks",
    },
];

#[test]
fn each_rule_of_24_bits(rt: HostRuntime) -> Result<()> {
    let alloc = rt.alloc();
    for row in &ROWS_24 {
        let bytes = changed(alloc, ZONE_24, row.at, row.new)?;
        match read_zone(alloc, bytes.as_slice(), BASE_24, BASE_24, Form::Bits24) {
            Ok(_) => assert_eq!(rt; "a zone", row.wrong),
            Err(fault) => assert_eq!(rt; format!(in alloc; "{fault}")?.as_str(), row.wrong),
        }
    }
    Ok(())
}

#[test]
fn each_rule_of_32_bits(rt: HostRuntime) -> Result<()> {
    let alloc = rt.alloc();
    for row in &ROWS_32 {
        let bytes = changed(alloc, ZONE_32, row.at, row.new)?;
        match read_zone(alloc, bytes.as_slice(), BASE_32, BASE_32, Form::Bits32) {
            Ok(_) => assert_eq!(rt; "a zone", row.wrong),
            Err(fault) => assert_eq!(rt; format!(in alloc; "{fault}")?.as_str(), row.wrong),
        }
    }
    Ok(())
}

#[test]
fn all_that_is_wrong(rt: HostRuntime) -> Result<()> {
    let alloc = rt.alloc();
    let mut bytes = changed(alloc, ZONE_24, 59, "04")?;
    assert!(rt; bytes.len() == 120);
    bytes[63] = 0x58;
    bytes[15] = 12;
    let mut text = String::new(alloc);
    for damage in &check_zone(alloc, bytes.as_slice(), BASE_24, BASE_24, Form::Bits24)? {
        text.push_str(format!(in alloc; "{damage}; ")?.as_str())?;
    }
    assert_eq!(rt;
        text.as_str(),
        "00001034: nonrelocatable block: pointer to zone is bad; 0000104C: master pointer does not point at block; 00001000: zcbFree does not agree with the free blocks; "
    );
    Ok(())
}

#[test]
fn no_zone_record(rt: HostRuntime) -> Result<()> {
    let alloc = rt.alloc();
    let bytes = bytes_of(alloc, ZONE_24)?;
    match read_zone(alloc, bytes.as_slice(), BASE_24 + 1, BASE_24, Form::Bits24) {
        Ok(_) => assert!(rt; false),
        Err(fault) => assert_eq!(rt;
            format!(in alloc; "{fault}")?.as_str(),
            "00001000: zone pointer is bad"
        ),
    }
    Ok(())
}
