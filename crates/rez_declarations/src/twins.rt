//! Names and keys that are there twice.

ghost use Rattle.std.specs.Prelude.{◌≡◌, map};
ghost use Rattle.std.specs.List.{list_any};
ghost use Rattle.rez_types.specs.View.{number_of, text_of, case_of};
ghost use Rattle.rez_declarations.specs.Sound as spec;

use rez_types::{Case, NamedNumber, NamedText};

/// Reports whether a name is another one, whatever their case.
pub(crate) fn is_name(a: &[u8], b: &[u8]) -> bool
    ensures { result ≡ spec.is_name a.now b.now }
{
    a.eq_ignore_ascii_case(b)
}

/// Reports whether one of the constants has a name.
fn is_among_numbers(name: &[u8], constants: &[NamedNumber]) -> bool
    ensures { result
        ≡ list_any (spec.is_name name.now) (spec.number_names (map number_of constants.now)) }
{
    constants.iter().any(|n| is_name(name, n.name.as_slice()))
}

/// Reports whether two of the constants have one name.
pub(crate) fn has_twin_numbers(constants: &[NamedNumber]) -> bool
    ensures { result ≡ spec.has_twins (spec.number_names (map number_of constants.now)) }
{
    let mut rest = constants;
    while let [first, more @ ..] = rest {
        if is_among_numbers(first.name.as_slice(), more) {
            return true;
        }
        rest = more;
    }
    false
}

/// Reports whether one of the constants has a name.
fn is_among_texts(name: &[u8], constants: &[NamedText]) -> bool
    ensures { result
        ≡ list_any (spec.is_name name.now) (spec.text_names (map text_of constants.now)) }
{
    constants.iter().any(|n| is_name(name, n.name.as_slice()))
}

/// Reports whether two of the constants have one name.
pub(crate) fn has_twin_texts(constants: &[NamedText]) -> bool
    ensures { result ≡ spec.has_twins (spec.text_names (map text_of constants.now)) }
{
    let mut rest = constants;
    while let [first, more @ ..] = rest {
        if is_among_texts(first.name.as_slice(), more) {
            return true;
        }
        rest = more;
    }
    false
}

/// Reports whether one of the cases has a name.
fn is_among_cases(name: &[u8], cases: &[Case]) -> bool
    ensures { result ≡ list_any (spec.is_name name.now) (spec.case_names (map case_of cases.now)) }
{
    cases.iter().any(|c| is_name(name, c.name.as_slice()))
}

/// Reports whether two of the cases have one name.
pub(crate) fn has_twin_cases(cases: &[Case]) -> bool
    ensures { result ≡ spec.has_twins (spec.case_names (map case_of cases.now)) }
{
    let mut rest = cases;
    while let [first, more @ ..] = rest {
        if is_among_cases(first.name.as_slice(), more) {
            return true;
        }
        rest = more;
    }
    false
}

/// Reports whether one of the cases has a key.
fn is_key_among(pattern: u32, cases: &[Case]) -> bool
    ensures { result ≡ spec.is_key_among pattern (map case_of cases.now) }
{
    cases.iter().any(|c| c.pattern == pattern)
}

/// Reports whether two of the cases have one key.
pub(crate) fn has_twin_keys(cases: &[Case]) -> bool
    ensures { result ≡ spec.has_twin_keys (map case_of cases.now) }
{
    let mut rest = cases;
    while let [first, more @ ..] = rest {
        if is_key_among(first.pattern, more) {
            return true;
        }
        rest = more;
    }
    false
}
