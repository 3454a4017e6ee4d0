//! Calls of the Macintosh that stand in logs and are not here.

/// A call that is not here, and what stands in its place.
#[derive(Clone, Copy)]
struct AbsentCall {
    word: &'static str,
    instead: &'static str,
}

const NO_ADDRESS: &str = "an address is an offset, and has no flags: leave the line out";

const NO_STACK: &str = "a partition has no stack: leave the line out";

const NO_TEMPORARY: &str = "there is no temporary memory: leave the line out";

const ONE_ZONE: &str = "the partition is the one zone: leave the line out";

/// The calls that are not here.
const ABSENT: [AbsentCall; 22] = [
    AbsentCall {
        word: "ApplicationZone",
        instead: ONE_ZONE,
    },
    AbsentCall {
        word: "GZSaveHnd",
        instead: "what the waiting call works on is busy: leave the line out",
    },
    AbsentCall {
        word: "GetApplLimit",
        instead: ONE_ZONE,
    },
    AbsentCall {
        word: "GetZone",
        instead: ONE_ZONE,
    },
    AbsentCall {
        word: "HClrRBit",
        instead: "a handle has the resource bit while it is a resource's: use DetachResource",
    },
    AbsentCall {
        word: "HCreateResFile",
        instead: "a file is known by its name: use CreateResFile",
    },
    AbsentCall {
        word: "HOpenResFile",
        instead: "a file is known by its name: use OpenResFile",
    },
    AbsentCall {
        word: "HSetRBit",
        instead: "a handle has the resource bit while it is a resource's: use AddResource",
    },
    AbsentCall {
        word: "InitApplZone",
        instead: ONE_ZONE,
    },
    AbsentCall {
        word: "MaxApplZone",
        instead: ONE_ZONE,
    },
    AbsentCall {
        word: "NewHandleSys",
        instead: "the partition is the one zone: use NewHandle",
    },
    AbsentCall {
        word: "NewPtrSys",
        instead: "the partition is the one zone: use NewPtr",
    },
    AbsentCall {
        word: "OpenRFPerm",
        instead: "a file is known by its name: use OpenResFile",
    },
    AbsentCall {
        word: "RGetResource",
        instead: "the System file is searched last: use GetResource",
    },
    AbsentCall {
        word: "SetApplLimit",
        instead: ONE_ZONE,
    },
    AbsentCall {
        word: "SetZone",
        instead: ONE_ZONE,
    },
    AbsentCall {
        word: "StackSpace",
        instead: NO_STACK,
    },
    AbsentCall {
        word: "StripAddress",
        instead: NO_ADDRESS,
    },
    AbsentCall {
        word: "SystemZone",
        instead: ONE_ZONE,
    },
    AbsentCall {
        word: "TempFreeMem",
        instead: NO_TEMPORARY,
    },
    AbsentCall {
        word: "TempMaxMem",
        instead: NO_TEMPORARY,
    },
    AbsentCall {
        word: "TempNewHandle",
        instead: "there is no temporary memory: use NewHandle",
    },
];

/// Returns what stands in place of a call, if it is one of those that are not here.
pub(crate) fn instead_of(word: &[u8]) -> Option<&'static str> {
    for call in &ABSENT {
        if call.word.as_bytes() == word {
            return Some(call.instead);
        }
    }
    None
}
