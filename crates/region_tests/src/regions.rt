//! Parts that are cut, written, moved and joined.

ghost use Rattle.std.specs.Prelude.{◌≡◌, ◌≤◌, [], length, IfOk};
ghost use Rattle.std.specs.List.{Contains};
ghost use Rattle.memory_windows.specs.Windows.{window, without_window};
ghost use Rattle.region_tests.specs.Parts.{AreThree};

use raw_region::{Part, Region};
use std::alloc::{AllocError, Global};
use std::test::Fail;

/// Returns a region of 48 bytes and three parts cut from the region, each filled with a byte of its
/// own.
fn three(alloc: Global) -> Result<(Region, Part, Part, Part), AllocError>
    ensures { IfOk result (λ t. AreThree t.0 t.1 t.2 t.3) }
{
    let mut region = Region::new(alloc, 48)?;
    let mut a = region.cut(0, 16);
    let mut b = region.cut(16, 16);
    let mut c = region.cut(32, 16);
    a.fill(0, 16, 1);
    b.fill(0, 16, 2);
    c.fill(0, 16, 3);
    Ok((region, a, b, c))
}

/// Returns the last byte of each third of the region, and closes the region.
fn ends(mut region: Region) -> [u8; 3]
    requires none_out { region.out ≡ [] }
    requires size { length region.bytes ≡ 48 }
{
    let all = region.cut(0, 48);
    let bytes = all.bytes();
    let ends = [bytes[15], bytes[31], bytes[47]];
    region.join(all);
    region.close();
    ends
}

/// Returns the last byte of each third of the region, after the parts are joined in this order.
fn joined(mut region: Region, first: Part, second: Part, third: Part) -> [u8; 3]
    requires size { length region.bytes ≡ 48 }
    requires homes { (first.home ≡ region.home) × (second.home ≡ region.home)
        × (third.home ≡ region.home) }
    requires first { Contains region.out (window first.at (length first.bytes)) }
    requires second { Contains (without_window first.at (length first.bytes) region.out)
        (window second.at (length second.bytes)) }
    requires third { Contains (without_window second.at (length second.bytes) (without_window
        first.at (length first.bytes) region.out)) (window third.at (length third.bytes)) }
    requires all { without_window third.at (length third.bytes) (without_window second.at
        (length second.bytes) (without_window first.at (length first.bytes) region.out)) ≡ [] }
{
    region.join(first);
    region.join(second);
    region.join(third);
    ends(region)
}

/// Returns the last byte of each third of the region, after the parts are joined in the order of
/// the letters in `order`.
fn joined_in(alloc: Global, order: &str) -> Result<[u8; 3], AllocError> {
    let (region, a, b, c) = three(alloc)?;
    Ok(match order {
        "acb" => joined(region, a, c, b),
        "bac" => joined(region, b, a, c),
        "bca" => joined(region, b, c, a),
        "cab" => joined(region, c, a, b),
        "cba" => joined(region, c, b, a),
        _ => joined(region, a, b, c),
    })
}

#[test]
fn parts_come_home_in_any_order(rt: HostRuntime) -> Result<(), Fail> {
    const ORDERS: &[&str] = &["abc", "acb", "bac", "bca", "cab", "cba"];
    for order in ORDERS {
        assert_eq!(rt; joined_in(rt.alloc(), order)?, [1, 2, 3], "in {order}");
    }
    Ok(())
}

/// Returns the words at 0, 16 and 32 of a region of 48 bytes. The words are first written with the
/// bytes 1, 2 and 3; then the 32 bytes at `from` slide to `to`.
fn slid(alloc: Global, from: usize, to: usize) -> Result<[[u8; 4]; 3], AllocError>
    requires from { from ≤ 16 }
    requires to { to ≤ 16 }
{
    let mut region = Region::new(alloc, 48)?;
    let mut part = region.cut(0, 48);
    part.put_word(0, [1; 4]);
    part.put_word(16, [2; 4]);
    part.put_word(32, [3; 4]);
    part.slide(from, to, 32);
    let words = [part.word(0), part.word(16), part.word(32)];
    region.join(part);
    region.close();
    Ok(words)
}

#[test]
fn bytes_slide_up_and_down(rt: HostRuntime) -> Result<(), Fail> {
    assert_eq!(rt; slid(rt.alloc(), 0, 16)?, [[1; 4], [1; 4], [2; 4]]);
    assert_eq!(rt; slid(rt.alloc(), 16, 0)?, [[2; 4], [3; 4], [3; 4]]);
    Ok(())
}
