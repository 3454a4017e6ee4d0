//! The form in which a zone is judged, though it may be damaged.

ghost use Rattle.std.specs.Prelude.{◌≡◌, ◌≤◌, length, IfOk};
ghost use Rattle.real_zone.specs.Blocks.{block_places};
ghost use Rattle.real_zone.specs.Judging as spec;

use crate::blocks::after;
use crate::finding::form_of;
use crate::form::Form;
use crate::reading::{bytes_from, bytes_to_limit};
use crate::rules::can_pass;
use std::alloc::{AllocError, Global};

/// Returns how many blocks stand one at the end of the other in the bytes of a zone.
#[tactic(auto, using(crate::proofs::Judged::counted_more, crate::proofs::Judged::counted_last, crate::proofs::Judged::counted_all))]
fn reached_in(form: Form, bytes: &[u8]) -> usize
    requires { 52 ≤ length bytes.now }
    ensures { result ≡ length (block_places form bytes.now) }
{
    let mut count = 0;
    let mut at = 52;
    while at < bytes.len() {
        if !can_pass(form, bytes, at) {
            return count + 1;
        }
        count += 1;
        at = after(form, bytes, at);
    }
    count
}

/// Returns how many blocks of the zone at an address stand one at the end of the other.
#[tactic(auto, unfolding(crate::specs::Judging::reached))]
fn reached(bytes: &[u8], base: u32, address: u32, form: Form) -> usize
    ensures { result ≡ spec.reached form bytes.now base address }
{
    let Some(rest) = bytes_from(bytes, base, address) else {
        return 0;
    };
    match bytes_to_limit(form, address, rest) {
        Some(part) => reached_in(form, part),
        None => 0,
    }
}

/// Returns the form in which more blocks stand.
#[tactic(auto, unfolding(crate::specs::Judging::likely_form))]
fn likely_form(bytes: &[u8], base: u32, address: u32) -> Form
    ensures { result ≡ spec.likely_form bytes.now base address }
{
    let narrow = reached(bytes, base, address, Form::Bits24);
    let wide = reached(bytes, base, address, Form::Bits32);
    if narrow < wide {
        Form::Bits32
    } else {
        Form::Bits24
    }
}

/// Returns the form in which to judge the zone at an address in the bytes of a dump: its form where
/// a zone stands there, and else the form in which more blocks stand one at the end of the other,
/// which of a damaged zone is its own unless the damage is near its beginning.
///
/// # Errors
///
/// That the host is out of memory.
#[tactic(auto, unfolding(crate::specs::Judging::judged_form))]
pub fn judged_form(alloc: Global, bytes: &[u8], base: u32, address: u32) -> Result<Form, AllocError>
    ensures { IfOk result (λ form. form ≡ spec.judged_form bytes.now base address) }
{
    match form_of(alloc, bytes, base, address)? {
        Some(form) => Ok(form),
        None => Ok(likely_form(bytes, base, address)),
    }
}
