//! The tokens of a line.

ghost use Rattle.std.specs.Prelude.{◌≡◌, ◌==◌, not};
ghost use Rattle.std.specs.List.{position};
ghost use Rattle.script_text.specs.Token.{place, is_blank, after_blanks, token_len, may_end};
ghost use Rattle.script_text.specs.Token.{token_at};
ghost use Rattle.script_text.specs.Reading.{Gives};

use crate::fault::FaultKind;
use memchr::memchr2;

fn is_space_or_tab(byte: u8) -> bool
    ensures { result ≡ is_blank byte }
{
    byte == b' ' || byte == b'\t'
}

#[tactic(auto, using(crate::proofs::Searches::first_is))]
fn blank_in(text: &[u8]) -> Option<usize>
    ensures { result ≡ position is_blank text.now }
{
    memchr2(b' ', b'\t', text)
}

fn word_in(text: &[u8]) -> Option<usize>
    ensures { result ≡ position (λ b. not (is_blank b)) text.now }
{
    text.iter().position(|b| !is_space_or_tab(*b))
}

fn quote_in(text: &[u8]) -> Option<usize>
    ensures { result ≡ position (λ b. b == 34) text.now }
{
    text.iter().position(|b| *b == b'"')
}

/// Returns the text without its leading blanks.
#[tactic(auto, unfolding(crate::specs::Token::after_blanks))]
pub fn trim(text: &[u8]) -> &[u8]
    ensures { result.now ≡ after_blanks text.now }
{
    match word_in(text) {
        Some(start) => text.split_at(start).1,
        None => text.split_at(text.len()).1,
    }
}

/// Returns the place of the first blank of a text, or of the text's end.
pub fn first_blank(text: &[u8]) -> usize
    ensures { result ≡ place is_blank text.now }
{
    blank_in(text).unwrap_or(text.len())
}

fn length_of(text: &[u8]) -> usize
    ensures { result ≡ token_len text.now }
{
    match text {
        [] => 0,
        [b'"', rest @ ..] => quote_in(rest).unwrap_or(rest.len()) + 2,
        [b'\'', ..] => 6,
        _ => first_blank(text),
    }
}

fn ends_token(text: &[u8]) -> bool
    ensures { result ≡ may_end text.now }
{
    match text {
        [] => true,
        [first, ..] => is_space_or_tab(*first),
    }
}

/// Returns the token at the front of a text, and the text after it; a bad argument where the token
/// does not end at a blank or at the end of the text.
#[tactic(auto, unfolding(crate::specs::Token::token_at))]
pub fn first_token(text: &[u8]) -> Result<(&[u8], &[u8]), FaultKind>
    ensures { Gives (λ cut. (cut.0.now, cut.1.now)) result (token_at text.now) }
{
    let len = length_of(text);
    if len <= text.len() && ends_token(&text[len..]) {
        Ok(text.split_at(len))
    } else {
        Err(FaultKind::BadArgument)
    }
}
