//! Declarations that no text states, and what is wrong with them.

use anyhow::Result;
use rez_declarations::{Unsound, judge};
use rez_types::{Array, ArrayEnd, Block, Constant, Declaration, Field, Part, Run, Width};
use std::alloc::Global;

/// Returns a declaration of one array, which ends so, of points.
fn array_of(alloc: Global, end: ArrayEnd, block: usize) -> Result<Declaration> {
    let array = Array {
        name: Vec::new(alloc),
        end,
        block,
    };
    let block = Block {
        fields: vec![in alloc; Field::Point]?,
    };
    Ok(Declaration {
        fields: vec![in alloc; Field::Array(array)]?,
        blocks: vec![in alloc; block]?,
    })
}

/// Returns a declaration of a byte that always is the same number.
fn byte_of(alloc: Global, pattern: u32) -> Result<Declaration> {
    let constant = Constant {
        width: Width { bits: 8 },
        pattern,
        is_key: false,
    };
    let run = Run {
        bytes: 1,
        parts: vec![in alloc; Part::Constant(constant)]?,
    };
    Ok(Declaration {
        fields: vec![in alloc; Field::Run(run)]?,
        blocks: Vec::new(alloc),
    })
}

#[test]
fn declarations_are_judged(rt: HostRuntime) -> Result<()> {
    let alloc = rt.alloc();
    assert!(rt; judge(alloc, &byte_of(alloc, 255)?)?.is_none());
    assert!(rt; judge(alloc, &byte_of(alloc, 256)?)? == Some(Unsound::WideConstant));
    assert!(rt; judge(alloc, &array_of(alloc, ArrayEnd::Fixed(2), 0)?)?.is_none());
    assert!(rt; judge(alloc, &array_of(alloc, ArrayEnd::Fixed(0), 0)?)? == Some(Unsound::NoLength));
    assert!(rt; judge(alloc, &array_of(alloc, ArrayEnd::Resource, 1)?)? == Some(Unsound::NoBlock));
    Ok(())
}
