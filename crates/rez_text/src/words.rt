//! The words of statements.

ghost use Rattle.std.specs.Prelude.{◌≡◌};
ghost use Rattle.rez_text.specs.Tokens.{opposite, attribute, unread_statement, unread_directive};
ghost use Rattle.rez_text.specs.Tokens.{unread_word, no_statement as no_statement_of};

use crate::fault::{FaultKind, Unread};
use mac_words::Attrs;

/// Returns no bit where a word states the opposite of an attribute.
fn opposite_of(word: &[u8]) -> Option<u8>
    ensures { result ≡ opposite word.now }
{
    if word == b"appheap".as_slice() {
        Some(0)
    } else if word == b"nonpurgeable".as_slice() {
        Some(0)
    } else if word == b"unlocked".as_slice() {
        Some(0)
    } else if word == b"unprotected".as_slice() {
        Some(0)
    } else if word == b"nonpreload".as_slice() {
        Some(0)
    } else if word == b"unchanged".as_slice() {
        Some(0)
    } else {
        None
    }
}

/// Returns the attribute that a word states, by its bit.
pub(crate) fn attribute_of(word: &[u8]) -> Option<u8>
    ensures { result ≡ attribute word.now }
{
    if word == b"sysheap".as_slice() {
        Some(Attrs::SYSTEM_HEAP)
    } else if word == b"purgeable".as_slice() {
        Some(Attrs::PURGEABLE)
    } else if word == b"locked".as_slice() {
        Some(Attrs::LOCKED)
    } else if word == b"protected".as_slice() {
        Some(Attrs::PROTECTED)
    } else if word == b"preload".as_slice() {
        Some(Attrs::PRELOAD)
    } else if word == b"changed".as_slice() {
        Some(Attrs::CHANGED)
    } else {
        opposite_of(word)
    }
}

/// Returns the statement of Rez that a word begins, where it is not read.
fn statement_of(word: &[u8]) -> Option<Unread>
    ensures { result ≡ unread_statement word.now }
{
    if word == b"change".as_slice() {
        Some(Unread::Change)
    } else if word == b"delete".as_slice() {
        Some(Unread::Delete)
    } else if word == b"enum".as_slice() {
        Some(Unread::Enum)
    } else if word == b"include".as_slice() {
        Some(Unread::Include)
    } else {
        None
    }
}

/// Returns the directive of Rez that a word begins, where it is not read.
fn directive_of(word: &[u8]) -> Option<Unread>
    ensures { result ≡ unread_directive word.now }
{
    if word == b"#define".as_slice() {
        Some(Unread::Define)
    } else if word == b"#else".as_slice() {
        Some(Unread::Else)
    } else if word == b"#endif".as_slice() {
        Some(Unread::EndIf)
    } else if word == b"#if".as_slice() {
        Some(Unread::If)
    } else if word == b"#ifdef".as_slice() {
        Some(Unread::IfDefined)
    } else if word == b"#ifndef".as_slice() {
        Some(Unread::IfNotDefined)
    } else if word == b"#include".as_slice() {
        Some(Unread::IncludeText)
    } else if word == b"#undef".as_slice() {
        Some(Unread::Undefine)
    } else {
        None
    }
}

fn unread_of(word: &[u8]) -> Option<Unread>
    ensures { result ≡ unread_word word.now }
{
    match statement_of(word) {
        Some(unread) => Some(unread),
        None => directive_of(word),
    }
}

/// Returns what is wrong with a word that begins no statement.
pub(crate) fn no_statement(word: &[u8]) -> FaultKind
    ensures { result ≡ no_statement_of (unread_word word.now) }
{
    match unread_of(word) {
        Some(unread) => FaultKind::NotRead(unread),
        None => FaultKind::NotAStatement,
    }
}
