//! What is answered to a question about a dump.

ghost use Rattle.std.specs.Prelude.{◌≡◌, ◌+◌, ◌≤◌, ◌^◌, ◌++◌, length, IsTrue, IfOk, IfErr, OnOk};
ghost use Rattle.std.specs.Prelude.{None};
ghost use Rattle.real_zone.specs.Zone.{has_record};
ghost use Rattle.real_zone.specs.Zone as laid;
ghost use Rattle.real_zone_view.specs.Answers as spec;
ghost use Rattle.real_zone_view.specs.Damages.{damaged_text};
ghost use Rattle.real_zone_view.specs.Text.{title_text};
ghost use Rattle.real_zone_view.specs.Totals.{zone_text};
ghost use Rattle.real_zone_view.specs.declared.dump.Question.TheVariants as question;
ghost use Rattle.zone_scripts.specs.Copied.{parts_in};
ghost use Rattle.zone_scripts.specs.Text.{script_text};

use crate::damages::{push_damaged, push_damages};
use crate::dump::{Answer, DumpFault, DumpView, Place, Question, ViewFault};
use crate::finds::push_finds;
use crate::style::Style;
use crate::text::push_title;
use crate::view::{push_drawn, push_zone};
use real_zone::{
    Damage, Form, LaidZone, RealZone, Rule, ZoneFault, check_zone, find_zones, judged_form,
    laid_zone, read_zone, zone_size,
};
use std::alloc::{AllocError, Global};
use zone_scripts::{ScriptFault, script_of};

/// Returns the form in which a zone is judged.
fn form_for(alloc: Global, place: Place, dump: &[u8], base: u32) -> Result<Form, AllocError>
    ensures { IfOk result (λ form. form ≡ spec.form_for place dump.now base) }
{
    match place.form {
        Some(form) => Ok(form),
        None => judged_form(alloc, dump, base, place.address),
    }
}

/// Returns whether a zone record lies in a dump.
fn has_record(dump: &[u8], base: u32, zone: u32) -> bool
    ensures { result ≡ has_record dump.now base zone }
{
    if zone < base {
        return false;
    }
    (zone - base) as usize + 52 <= dump.len()
}

/// Returns the list of the blocks of a zone that breaks these rules.
fn list_of(
    alloc: Global,
    style: Style,
    zone: &LaidZone<'_>,
    size: usize,
    damages: &[Damage],
) -> Result<Vec<u8>, AllocError>
    ensures { IfOk result (λ text. text.items ≡ title_text style zone.now.form zone.now.address size
        ++ zone_text style zone.now.form zone.now.address zone.now.bytes.now
        ++ damaged_text style.fields damages.now) }
{
    let mut text = Vec::new(alloc);
    push_title(&mut text, style, zone.form, zone.address, size)?;
    push_zone(alloc, &mut text, style, zone)?;
    push_damaged(&mut text, style.fields, damages)?;
    Ok(text)
}

/// Returns the list of the blocks of the zone at an address, which breaks these rules.
fn listed_in(
    alloc: Global,
    style: Style,
    form: Form,
    dump: &[u8],
    base: u32,
    zone: u32,
    damages: &[Damage],
) -> Result<Vec<u8>, ViewFault>
    requires record { IsTrue (has_record dump.now base zone) }
    requires damages { damages.now ≡ laid.damages form dump.now base zone }
    ensures text { IfOk result (λ text. text.items ≡ spec.list_text style form dump.now base zone) }
    ensures allowed { IfOk result (λ text. spec.zone_fault form dump.now base zone ≡ None) }
    ensures fault { IfErr result (λ fault.
        spec.Tells fault (spec.zone_fault form dump.now base zone)) }
{
    let size = zone_size(dump, base, zone, form);
    match laid_zone(dump, base, zone, form) {
        Some(zone) => Ok(list_of(alloc, style, &zone, size, damages)?),
        None => Err(no_zone(zone)),
    }
}

/// Returns the picture of the zone at an address, which breaks these rules.
fn drawn_in(
    alloc: Global,
    form: Form,
    dump: &[u8],
    base: u32,
    zone: u32,
    damages: &[Damage],
) -> Result<Vec<u8>, ViewFault>
    requires record { IsTrue (has_record dump.now base zone) }
    requires damages { damages.now ≡ laid.damages form dump.now base zone }
    ensures text { IfOk result (λ text. text.items ≡ spec.drawn form dump.now base zone) }
    ensures allowed { IfOk result (λ text. spec.zone_fault form dump.now base zone ≡ None) }
    ensures fault { IfErr result (λ fault.
        spec.Tells fault (spec.zone_fault form dump.now base zone)) }
{
    let size = zone_size(dump, base, zone, form);
    let Some(laid) = laid_zone(dump, base, zone, form) else {
        return Err(no_zone(zone));
    };
    let mut text = Vec::new(alloc);
    push_drawn(alloc, &mut text, &laid, size, damages)?;
    Ok(text)
}

/// Returns the fault that a zone record would not lie in a dump.
fn outside(address: u32) -> ViewFault
    ensures { result ≡ ViewFault.Dump (DumpFault.Outside address) }
{
    ViewFault::Dump(DumpFault::Outside { address })
}

/// Returns the fault that no block can be looked for at an address, since bkLim is bad.
fn no_zone(address: u32) -> ViewFault
    ensures { result
        ≡ ViewFault.Dump (DumpFault.Damaged (record { rule = Rule.Limit; address = address })) }
{
    ViewFault::Dump(DumpFault::Damaged {
        damage: Damage {
            rule: Rule::Limit,
            address,
        },
    })
}

/// Lists the blocks of a zone.
fn list(
    alloc: Global,
    place: Place,
    style: Style,
    dump: &[u8],
    base: u32,
) -> Result<Answer, ViewFault>
    ensures text { IfOk result (λ answer. answer.text.items
        ≡ spec.answer_to (question.List place style) base dump.now) }
    ensures good { IfOk result (λ answer. answer.is_good
        ≡ spec.is_good_to (question.List place style) base dump.now) }
    ensures allowed { IfOk result (λ answer.
        spec.fault_to (question.List place style) base dump.now ≡ None) }
    ensures fault { IfErr result (λ fault.
        spec.Tells fault (spec.fault_to (question.List place style) base dump.now)) }
{
    if !has_record(dump, base, place.address) {
        return Err(outside(place.address));
    }
    let form = form_for(alloc, place, dump, base)?;
    let damages = check_zone(alloc, dump, base, place.address, form)?;
    let text = listed_in(
        alloc,
        style,
        form,
        dump,
        base,
        place.address,
        damages.as_slice(),
    )?;
    Ok(Answer {
        text,
        is_good: damages.is_empty(),
    })
}

/// Draws a zone.
fn draw(alloc: Global, place: Place, dump: &[u8], base: u32) -> Result<Answer, ViewFault>
    ensures text { IfOk result (λ answer. answer.text.items
        ≡ spec.answer_to (question.Draw place) base dump.now) }
    ensures good { IfOk result (λ answer. answer.is_good
        ≡ spec.is_good_to (question.Draw place) base dump.now) }
    ensures allowed { IfOk result (λ answer.
        spec.fault_to (question.Draw place) base dump.now ≡ None) }
    ensures fault { IfErr result (λ fault.
        spec.Tells fault (spec.fault_to (question.Draw place) base dump.now)) }
{
    if !has_record(dump, base, place.address) {
        return Err(outside(place.address));
    }
    let form = form_for(alloc, place, dump, base)?;
    let damages = check_zone(alloc, dump, base, place.address, form)?;
    let text = drawn_in(alloc, form, dump, base, place.address, damages.as_slice())?;
    Ok(Answer {
        text,
        is_good: damages.is_empty(),
    })
}

/// Returns the script of a zone that keeps all rules.
fn script_of_zone(alloc: Global, zone: &RealZone<'_>) -> Result<Vec<u8>, ViewFault>
    ensures text { IfOk result (λ text. text.items ≡ script_text zone.now.form zone.now.address
        (parts_in zone.now.form zone.now.address zone.now.bytes.now)) }
    ensures allowed { IfOk result (λ text.
        spec.room_fault zone.now.form zone.now.address zone.now.bytes.now ≡ None) }
    ensures fault { IfErr result (λ fault.
        spec.Tells fault (spec.room_fault zone.now.form zone.now.address zone.now.bytes.now)) }
{
    match script_of(alloc, zone) {
        Ok(text) => Ok(text),
        Err(ScriptFault::TooLarge) => Err(ViewFault::Dump(DumpFault::TooLarge {
            address: zone.address,
        })),
        Err(ScriptFault::HostMemory) => Err(ViewFault::HostMemory),
    }
}

/// Makes a script of a zone.
#[tactic(auto, using(crate::proofs::Scripted::sound_fault))]
fn script(alloc: Global, place: Place, dump: &[u8], base: u32) -> Result<Answer, ViewFault>
    ensures text { IfOk result (λ answer. answer.text.items
        ≡ spec.answer_to (question.Script place) base dump.now) }
    ensures good { IfOk result (λ answer. answer.is_good
        ≡ spec.is_good_to (question.Script place) base dump.now) }
    ensures allowed { IfOk result (λ answer.
        spec.fault_to (question.Script place) base dump.now ≡ None) }
    ensures fault { IfErr result (λ fault.
        spec.Tells fault (spec.fault_to (question.Script place) base dump.now)) }
{
    let form = form_for(alloc, place, dump, base)?;
    match read_zone(alloc, dump, base, place.address, form) {
        Ok(zone) => {
            let text = script_of_zone(alloc, &zone)?;
            Ok(Answer {
                text,
                is_good: true,
            })
        }
        Err(ZoneFault::Damaged(damage)) => Err(ViewFault::Dump(DumpFault::Damaged { damage })),
        Err(ZoneFault::HostMemory) => Err(ViewFault::HostMemory),
    }
}

/// Checks a zone.
fn check(alloc: Global, place: Place, dump: &[u8], base: u32) -> Result<Answer, ViewFault>
    ensures text { IfOk result (λ answer. answer.text.items
        ≡ spec.answer_to (question.Check place) base dump.now) }
    ensures good { IfOk result (λ answer. answer.is_good
        ≡ spec.is_good_to (question.Check place) base dump.now) }
    ensures allowed { IfOk result (λ answer.
        spec.fault_to (question.Check place) base dump.now ≡ None) }
    ensures fault { IfErr result (λ fault.
        spec.Tells fault (spec.fault_to (question.Check place) base dump.now)) }
{
    if !has_record(dump, base, place.address) {
        return Err(outside(place.address));
    }
    let form = form_for(alloc, place, dump, base)?;
    let damages = check_zone(alloc, dump, base, place.address, form)?;
    let mut text = Vec::new(alloc);
    push_damages(&mut text, damages.as_slice())?;
    Ok(Answer {
        text,
        is_good: damages.is_empty(),
    })
}

/// Finds the zones in a dump.
fn find(alloc: Global, style: Style, dump: &[u8], base: u32) -> Result<Answer, ViewFault>
    requires { base + length dump.now ≤ 2 ^ 32 }
    ensures text { IfOk result (λ answer. answer.text.items
        ≡ spec.answer_to (question.Find style) base dump.now) }
    ensures good { IfOk result (λ answer. answer.is_good
        ≡ spec.is_good_to (question.Find style) base dump.now) }
    ensures fault { IfErr result (λ fault.
        spec.Tells fault (spec.fault_to (question.Find style) base dump.now)) }
{
    let zones = find_zones(alloc, dump, base)?;
    let mut text = Vec::new(alloc);
    push_finds(&mut text, style, dump, base, zones.as_slice())?;
    Ok(Answer {
        text,
        is_good: !zones.is_empty(),
    })
}

/// Answers a question about a dump that ends by the last address.
fn answer_to(alloc: Global, asked: DumpView, dump: &[u8]) -> Result<Answer, ViewFault>
    requires { asked.base + length dump.now ≤ 2 ^ 32 }
    ensures text { IfOk result (λ answer. answer.text.items ≡ spec.answer_text asked dump.now) }
    ensures good { IfOk result (λ answer. answer.is_good ≡ spec.is_good asked dump.now) }
    ensures allowed { IfOk result (λ answer.
        spec.fault_to asked.question asked.base dump.now ≡ None) }
    ensures fault { IfErr result (λ fault.
        spec.Tells fault (spec.fault_to asked.question asked.base dump.now)) }
{
    match asked.question {
        Question::List(place, style) => list(alloc, place, style, dump, asked.base),
        Question::Draw(place) => draw(alloc, place, dump, asked.base),
        Question::Script(place) => script(alloc, place, dump, asked.base),
        Question::Check(place) => check(alloc, place, dump, asked.base),
        Question::Find(style) => find(alloc, style, dump, asked.base),
    }
}

/// Answers a question about the bytes of a dump: lists the blocks of a zone with their totals, or
/// draws them; a script that makes the zone anew; a line for each rule that a zone breaks; or the
/// zones that stand in the dump.
///
/// Of a damaged zone the blocks are listed or drawn that are passed: all, or those before the first
/// whose physical size is wrong. After the totals stands the first rule that is broken.
///
/// # Errors
///
/// The dump goes past the last address, the zone record would not lie in it, or its bkLim is bad,
/// so that no block could be listed; a script is asked for, and the zone breaks a rule or needs a
/// partition that is larger than any can be; or the host is out of memory.
#[tactic(auto, unfolding(crate::specs::Answers::dump_fault))]
pub fn answer(alloc: Global, asked: DumpView, dump: &[u8]) -> Result<Answer, ViewFault>
    ensures text { IfOk result (λ answer. answer.text.items ≡ spec.answer_text asked dump.now) }
    ensures good { IfOk result (λ answer. answer.is_good ≡ spec.is_good asked dump.now) }
    ensures allowed { IfOk result (λ answer. spec.dump_fault asked dump.now ≡ None) }
    ensures fault { IfErr result (λ fault. spec.Tells fault (spec.dump_fault asked dump.now)) }
{
    if 0x100000000 - (asked.base as usize) < dump.len() {
        return Err(ViewFault::Dump(DumpFault::TooLong));
    }
    answer_to(alloc, asked, dump)
}
