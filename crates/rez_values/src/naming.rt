//! The names of constants and of cases.

ghost use Rattle.std.specs.Prelude.{◌≡◌, map, option_map};
ghost use Rattle.std.specs.List.{position};
ghost use Rattle.rez_types.specs.View.{number_of, text_of, case_of};
ghost use Rattle.rez_values.specs.Stating as spec;
ghost use Rattle.rez_values.specs.Taken.{is_case_named};

use rez_types::{Case, Form, NamedNumber, NamedText};

/// Reports whether a word is a name, whatever the case of either.
fn is_name(word: &[u8], name: &[u8]) -> bool
    ensures { result ≡ spec.is_name word.now name.now }
{
    word.eq_ignore_ascii_case(name)
}

/// Returns the place of the first constant with a name.
fn place_of_number(word: &[u8], constants: &[NamedNumber]) -> Option<usize>
    ensures { result ≡ position (spec.is_number_named word.now) (map number_of constants.now) }
{
    constants
        .iter()
        .position(|n| is_name(word, n.name.as_slice()))
}

/// Returns the place of the first constant with a name.
fn place_of_text(word: &[u8], constants: &[NamedText]) -> Option<usize>
    ensures { result ≡ position (spec.is_text_named word.now) (map text_of constants.now) }
{
    constants
        .iter()
        .position(|t| is_name(word, t.name.as_slice()))
}

/// Returns the place of the first case with a name.
pub fn place_of_case(word: &[u8], cases: &[Case]) -> Option<usize>
    ensures { result ≡ position (is_case_named word.now) (map case_of cases.now) }
{
    cases.iter().position(|c| is_name(word, c.name.as_slice()))
}

/// Returns the number that a word stands for by the constants.
fn constant_named(word: &[u8], constants: &[NamedNumber]) -> Option<u32>
    ensures { result ≡ spec.constant_named word.now (map number_of constants.now) }
{
    let Some(place) = place_of_number(word, constants) else {
        return None;
    };
    match constants.get(place) {
        Some(constant) => Some(constant.pattern),
        None => None,
    }
}

/// Returns the number of `true` and of `false`, where the integer is a boolean.
fn boolean_named(form: Form, word: &[u8]) -> Option<u32>
    ensures { result ≡ spec.boolean_named form word.now }
{
    match form {
        Form::Boolean => {
            if is_name(word, b"true") {
                Some(1)
            } else if is_name(word, b"false") {
                Some(0)
            } else {
                None
            }
        }
        _ => None,
    }
}

/// Returns the number that a word stands for.
pub fn number_named(form: Form, constants: &[NamedNumber], word: &[u8]) -> Option<u32>
    ensures { result ≡ spec.number_named form (map number_of constants.now) word.now }
{
    match constant_named(word, constants) {
        Some(number) => Some(number),
        None => boolean_named(form, word),
    }
}

/// Returns the string that a word stands for.
pub fn text_named<'c>(word: &[u8], constants: &'c [NamedText]) -> Option<&'c [u8]>
    ensures { option_map (λ t. t.now) result
        ≡ spec.text_named word.now (map text_of constants.now) }
{
    let Some(place) = place_of_text(word, constants) else {
        return None;
    };
    match constants.get(place) {
        Some(constant) => Some(constant.text.as_slice()),
        None => None,
    }
}
