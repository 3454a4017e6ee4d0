//! The text of a BinHex file, down to the bytes that it stands for.

ghost use Rattle.std.specs.Prelude.{◌≡◌, ◌+◌, ◌≤◌, ◌<◌, ◌^◌, length, IfSome, IfNone, IfOk, IfErr};
ghost use Rattle.std.specs.Prelude.{Some, None, Ok};
ghost use Rattle.bin_hex.specs.BinHex.{packed_in};
ghost use Rattle.bin_hex.specs.Faults.{Tells};
ghost use Rattle.bin_hex.specs.Text as text;
ghost use Rattle.bin_hex.specs.Text.{is_bin_hex as bin_hex_is};

use crate::alphabet::{Role, judged};
use crate::fault::{BinHexFault, Damage};
use crate::packing::{Held, push_sextet};
use std::alloc::Global;

/// How the line begins by which a reader knows a BinHex file.
const MARK: &[u8; 28] = b"(This file must be converted";

/// Returns the bytes after the first place where the mark stands.
#[tactic(auto, using(crate::proofs::Finding::mark_here, crate::proofs::Finding::mark_later, crate::proofs::Finding::no_mark))]
pub fn after_mark<'b>(bytes: &'b [u8]) -> Option<&'b [u8]>
    ensures found { IfSome result (λ rest. text.after_mark bytes.now ≡ Some rest.now) }
    ensures none { IfNone result (text.after_mark bytes.now ≡ None) }
    ensures shorter { IfSome result (λ rest. length rest.now ≤ length bytes.now) }
{
    for at in 0..bytes.len() {
        if bytes[at..].starts_with(MARK) {
            return Some(&bytes[at + MARK.len()..]);
        }
    }
    None
}

/// Returns the bytes after the first colon.
#[tactic(auto, using(crate::proofs::Finding::colon_here, crate::proofs::Finding::colon_later, crate::proofs::Finding::no_colon))]
pub fn after_colon<'b>(bytes: &'b [u8]) -> Option<&'b [u8]>
    ensures found { IfSome result (λ rest. text.after_colon bytes.now ≡ Some rest.now) }
    ensures none { IfNone result (text.after_colon bytes.now ≡ None) }
    ensures shorter { IfSome result (λ rest. length rest.now ≤ length bytes.now) }
{
    for (at, byte) in bytes.iter().enumerate() {
        if *byte == b':' {
            return Some(&bytes[at + 1..]);
        }
    }
    None
}

/// Returns whether bytes are those of a BinHex file: whether a line stands among them that says
/// that the file must be converted. What follows may be damaged.
///
/// RFC 1741, appendix A.
pub fn is_bin_hex(bytes: &[u8]) -> bool
    ensures { result ≡ bin_hex_is bytes.now }
{
    after_mark(bytes).is_some()
}

/// Returns the bytes, with runs, that an encoded text stands for, up to the colon that ends it. The
/// text begins at an offset in the file.
#[tactic(auto, using(crate::proofs::Taking::ends, crate::proofs::Taking::blank, crate::proofs::Taking::six_more, crate::proofs::Taking::foreign, crate::proofs::Taking::no_end))]
pub fn packed_of(alloc: Global, encoded: &[u8], start: usize) -> Result<Vec<u8>, BinHexFault>
    requires { start + length encoded.now < 2 ^ 64 }
    ensures packed { IfOk result (λ packed. packed_in start encoded.now ≡ Ok packed.items) }
    ensures fault { IfErr result (λ fault. Tells fault (packed_in start encoded.now)) }
{
    let mut packed = Vec::new(alloc);
    let mut held = Held::Nothing;
    for (at, byte) in encoded.iter().enumerate() {
        match judged(*byte) {
            Role::Colon => return Ok(packed),
            Role::Blank => {}
            Role::Sextet(sextet) => held = push_sextet(&mut packed, held, sextet)?,
            Role::Foreign => return Err(BinHexFault::Damaged(Damage::Foreign(start + at))),
        }
    }
    Err(BinHexFault::Damaged(Damage::NoEnd))
}
