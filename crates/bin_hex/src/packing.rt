//! Bytes as groups of six bits, and back.

ghost use Rattle.std.specs.Prelude.{◌≡◌, ◌<◌, ◌++◌, OnOk, IfOk};
ghost use Rattle.bin_hex.specs.Packing.{completed, held_after, IsHeld, groups_of, left_after};
ghost use Rattle.bin_hex.specs.Packing.{IsLeft, last_group, groups_after};
ghost use Rattle.bin_hex.specs.declared.packing.Left.TheVariants as left_bits;

use std::alloc::{AllocError, Global};

/// Bits that were read and make no whole byte yet: none, or so many, as the lowest of a byte.
#[derive(Clone, Copy)]
pub enum Held {
    Nothing,
    Six(u8),
    Four(u8),
    Two(u8),
}

/// Bits that are left of a byte and make no group of six yet: none, or so many, as the lowest of a
/// byte.
#[derive(Clone, Copy)]
pub enum Left {
    Nothing,
    Two(u8),
    Four(u8),
}

/// Appends the byte that six more bits complete, and returns the bits that are held then.
pub fn push_sextet(out: &mut Vec<u8>, held: Held, sextet: u8) -> Result<Held, AllocError>
    requires held { IsHeld held }
    requires sextet { sextet < 64 }
    ensures bytes { OnOk result (out.new.items ≡ out.old.items ++ completed held sextet) }
    ensures held { IfOk result (λ now. now ≡ held_after held sextet) }
    ensures whole { IfOk result IsHeld }
{
    match held {
        Held::Nothing => Ok(Held::Six(sextet)),
        Held::Six(bits) => {
            out.push(bits * 4 + sextet / 16)?;
            Ok(Held::Four(sextet % 16))
        }
        Held::Four(bits) => {
            out.push(bits * 16 + sextet / 4)?;
            Ok(Held::Two(sextet % 4))
        }
        Held::Two(bits) => {
            out.push(bits * 64 + sextet)?;
            Ok(Held::Nothing)
        }
    }
}

/// Appends the groups of six bits that a byte completes, and returns the bits that are left then.
fn push_byte(out: &mut Vec<u8>, left: Left, byte: u8) -> Result<Left, AllocError>
    requires { IsLeft left }
    ensures groups { OnOk result (out.new.items ≡ out.old.items ++ groups_of left byte) }
    ensures left { IfOk result (λ now. now ≡ left_after left byte) }
    ensures whole { IfOk result IsLeft }
{
    match left {
        Left::Nothing => {
            out.push(byte / 4)?;
            Ok(Left::Two(byte % 4))
        }
        Left::Two(bits) => {
            out.push(bits * 16 + byte / 16)?;
            Ok(Left::Four(byte % 16))
        }
        Left::Four(bits) => {
            out.extend_from_slice(&[bits * 4 + byte / 64, byte % 64])?;
            Ok(Left::Nothing)
        }
    }
}

/// Appends the group that bits make which are left at the end.
fn push_last(out: &mut Vec<u8>, left: Left) -> Result<(), AllocError>
    requires { IsLeft left }
    ensures { OnOk result (out.new.items ≡ out.old.items ++ last_group left) }
{
    match left {
        Left::Nothing => {}
        Left::Two(bits) => out.push(bits * 16)?,
        Left::Four(bits) => out.push(bits * 4)?,
    }
    Ok(())
}

/// Returns the groups of six bits of bytes.
pub fn groups_of_bytes(alloc: Global, bytes: &[u8]) -> Result<Vec<u8>, AllocError>
    ensures { IfOk result (λ groups. groups.items ≡ groups_after left_bits.Nothing bytes.now) }
{
    let mut groups = Vec::new(alloc);
    let mut left = Left::Nothing;
    for byte in bytes {
        left = push_byte(&mut groups, left, *byte)?;
    }
    push_last(&mut groups, left)?;
    Ok(groups)
}
