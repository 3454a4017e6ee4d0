//! The text of a script, in which a line is found that a transcript names.

ghost use Rattle.std.specs.Prelude.{◌≡◌, IfOk};
ghost use Rattle.transcript_words.specs.Source.{source, first_word, after_word, digits_in, line_of};
ghost use Rattle.transcript_words.specs.Source.{written};
ghost use Rattle.transcript_words.specs.View.{view_lines};

use script_text::{first_blank, next_line, number_in, trim};
use std::alloc::{AllocError, Global};

/// The lines of a script, as they were written.
#[derive(Drop)]
pub struct Source<'t> {
    lines: Vec<&'t [u8]>,
}

/// Returns the lines of a script, each without the blanks before its first word.
pub fn source_of(alloc: Global, text: &[u8]) -> Result<Source<'_>, AllocError>
    ensures { IfOk result (λ s. view_lines s ≡ source text.now) }
{
    let mut lines = Vec::new(alloc);
    let mut rest = text;
    while !rest.is_empty() {
        let (line, later) = next_line(rest);
        lines.push(trim(line))?;
        rest = later;
    }
    Ok(Source { lines })
}

/// Returns the first word of a text.
pub fn first_word(text: &[u8]) -> &[u8]
    ensures { result.now ≡ first_word text.now }
{
    text.split_at(first_blank(text)).0
}

/// Returns a text after its first word.
pub fn after_word(text: &[u8]) -> &[u8]
    ensures { result.now ≡ after_word text.now }
{
    text.split_at(first_blank(text)).1
}

/// Returns the digits of the number that a line of a transcript begins with.
fn digits_in(front: &[u8]) -> &[u8]
    ensures { result.now ≡ digits_in front.now }
{
    match front {
        [b'+', digits @ ..] => digits,
        digits => digits,
    }
}

impl Source<'_> {
    /// Returns the line of this number, counted from 1; no bytes where there is none.
    fn line(&self, number: Option<u32>) -> &[u8]
        ensures { result.now ≡ line_of number (view_lines self.now) }
    {
        let Some(number) = number else {
            return &[];
        };
        match self.lines.get((number as usize).saturating_sub(1)) {
            Some(line) => *line,
            None => &[],
        }
    }

    /// Returns the call that a line of a transcript names by its first word, as it was written.
    pub fn written(&self, front: &[u8]) -> &[u8]
        ensures { result.now ≡ written (view_lines self.now) front.now }
    {
        self.line(number_in(digits_in(front), 10, u32::MAX))
    }
}
