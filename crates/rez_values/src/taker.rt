//! A reader of a statement's tokens: what values have in common.

ghost use Rattle.std.specs.Prelude.{◌≡◌, ◌≤◌, ◌<◌, length, Some};
ghost use Rattle.rez_types.specs.Leads.{same};
ghost use Rattle.rez_types.specs.View.{value_of};
ghost use Rattle.rez_values.specs.declared.fault.TakeFault.TheVariants as given;
ghost use Rattle.rez_values.specs.View.{Takes, TakesTo, tokens_of, taking_of};
ghost use Rattle.rez_tokens.specs.View.{lexeme_of};
ghost use Rattle.rez_values.specs.Taking as spec;
ghost use Rattle.rez_values.specs.Taken.{untaken, last_line, closes, begun};

use crate::fault::{TakeFault, ValueFault, ValueFaultAt};
use rez_tokens::{Lexeme, Token};
use rez_types::{Value, Width, power};
use std::alloc::Global;

/// How many values a resource has at most.
const MOST_VALUES: usize = 1_048_576;

/// Where a count of the block stands.
#[derive(Clone, Copy)]
pub(crate) struct CountPlace {
    /// Its place among the values.
    pub place: usize,
    /// Its bits.
    pub width: Width,
}

/// A reader of a statement's tokens.
#[derive(Drop)]
pub(crate) struct Taker<'a> {
    /// The tokens that are still to be read.
    pub tokens: &'a [Token],
    /// The line of the last token of all.
    pub last: usize,
    /// The values so far.
    pub values: Vec<Value>,
    /// The counts of the block so far.
    pub counts: Vec<CountPlace>,
    /// Whether something was stated since the last opening brace.
    pub is_stated: bool,
    pub alloc: Global,
}

/// Returns the line of the last of the tokens; 1 where there is none.
fn last_line(tokens: &[Token]) -> usize
    ensures { result ≡ last_line (tokens_of tokens.now) 1 }
{
    let mut line = 1;
    for token in tokens {
        line = token.line;
    }
    line
}

/// Reports whether the bytes of a fill stand at a token.
fn is_filled(lexeme: &Lexeme) -> bool
    ensures { result ≡ spec.is_filled (lexeme_of lexeme.now) }
{
    match lexeme {
        Lexeme::Filled(_) => true,
        _ => false,
    }
}

/// Returns the tokens after the bytes of fills that stand first.
fn bare(tokens: &[Token]) -> &[Token]
    ensures { tokens_of result.now ≡ spec.bare (tokens_of tokens.now) }
{
    let mut rest = tokens;
    while let [token, after @ ..] = rest {
        if !is_filled(&token.lexeme) {
            break;
        }
        rest = after;
    }
    rest
}

/// Reports whether the first of the tokens is a mark.
fn begins_with(tokens: &[Token], mark: u8) -> bool
    requires { 0 < mark }
    ensures { result ≡ spec.is_mark_in mark (spec.lexeme_at (tokens_of tokens.now)) }
{
    match tokens {
        [
            Token {
                lexeme: Lexeme::Mark(byte),
                ..
            },
            ..
        ] => *byte == mark,
        _ => false,
    }
}

/// Reports whether the first of the tokens is a comma or a semicolon.
fn separates(tokens: &[Token]) -> bool
    ensures { result ≡ spec.is_separator_in (spec.lexeme_at (tokens_of tokens.now)) }
{
    begins_with(tokens, b',') || begins_with(tokens, b';')
}

/// Returns a number's opposite as bits.
fn negated(width: Width, number: u32) -> u32
    ensures { result ≡ spec.negated width.bits number }
{
    let all = power(width.bits);
    (all.saturating_sub(number as u64) % all) as u32
}

impl<'a> Taker<'a> {
    /// Returns a reader before the first of the tokens.
    pub fn new(alloc: Global, tokens: &'a [Token]) -> Taker<'a>
        ensures { taking_of result ≡ untaken (tokens_of tokens.now) }
    {
        Taker {
            tokens,
            last: last_line(tokens),
            values: Vec::new(alloc),
            counts: Vec::new(alloc),
            is_stated: false,
            alloc,
        }
    }

    /// Returns the next token, and those after it.
    pub fn bare(&self) -> &'a [Token]
        ensures { tokens_of result.now ≡ spec.bare (taking_of self.now).tokens }
    {
        bare(self.tokens)
    }

    /// Returns the fault that the tokens can't go on so.
    pub fn fault(&self, kind: ValueFault) -> ValueFaultAt
        ensures line { result.line ≡ spec.line (taking_of self.now) }
        ensures kind { result.kind ≡ kind }
    {
        let line = match self.bare() {
            [token, ..] => token.line,
            _ => self.last,
        };
        ValueFaultAt { line, kind }
    }

    /// Returns the same fault as the reason why no values were taken.
    pub fn refuse(&self, kind: ValueFault) -> TakeFault
        ensures { result
            ≡ given.Wrong (record { line = spec.line (taking_of self.now); kind = kind }) }
    {
        TakeFault::Wrong(self.fault(kind))
    }

    /// Returns the tokens after the next one.
    fn after_next(&self) -> &'a [Token]
        ensures { tokens_of result.now ≡ (spec.passed (taking_of self.now)).tokens }
    {
        match self.bare() {
            [_, rest @ ..] => rest,
            none => none,
        }
    }

    /// Passes over the next token.
    pub fn pass(&mut self)
        ensures { taking_of self.new ≡ spec.passed (taking_of self.old) }
    {
        self.tokens = self.after_next();
    }

    /// Reports whether the next token is a mark.
    pub fn is_mark(&self, mark: u8) -> bool
        requires { 0 < mark }
        ensures { result ≡ spec.is_mark mark (taking_of self.now) }
    {
        begins_with(self.bare(), mark)
    }

    /// Passes over a mark, which has to stand here.
    #[tactic(auto, unfolding(crate::specs::Taking::marked))]
    pub fn take_mark(&mut self, mark: u8, kind: ValueFault) -> Result<(), TakeFault>
        requires { 0 < mark }
        ensures { Takes result (taking_of self.new) (spec.marked mark kind (taking_of self.old)) }
    {
        if !self.is_mark(mark) {
            return Err(self.refuse(kind));
        }
        self.pass();
        Ok(())
    }

    /// Reports whether a comma or a semicolon stands here.
    pub fn is_separator(&self) -> bool
        ensures { result ≡ spec.is_separator (taking_of self.now) }
    {
        separates(self.bare())
    }

    /// Passes over the separator before what is stated, unless that is the first.
    #[tactic(auto, unfolding(crate::specs::Taking::separated))]
    pub fn separate(&mut self, kind: ValueFault) -> Result<(), TakeFault>
        ensures { Takes result (taking_of self.new) (spec.separated kind (taking_of self.old)) }
    {
        if !self.is_stated {
            self.is_stated = true;
            return Ok(());
        }
        if !self.is_separator() {
            return Err(self.refuse(kind));
        }
        self.pass();
        Ok(())
    }

    /// Returns the tokens after a separator that stands after the last that is stated.
    #[tactic(auto, unfolding(crate::specs::Taking::trailed))]
    fn after_trail(&self) -> &'a [Token]
        ensures { tokens_of result.now ≡ (spec.trailed (taking_of self.now)).tokens }
    {
        if self.is_stated && self.is_separator() {
            self.after_next()
        } else {
            self.tokens
        }
    }

    /// Passes over a separator after the last that is stated.
    #[tactic(auto, unfolding(crate::specs::Taking::trailed))]
    pub fn trail(&mut self)
        ensures { taking_of self.new ≡ spec.trailed (taking_of self.old) }
    {
        if self.is_stated && self.is_separator() {
            self.pass();
        }
    }

    /// Passes over the very next token, also where the bytes of a fill stand.
    pub fn pass_one(&mut self)
        ensures { taking_of self.new ≡ spec.past (taking_of self.old) }
    {
        if let [_, rest @ ..] = self.tokens {
            self.tokens = rest;
        }
    }

    /// Passes over the separator before an element, where that is the very next token.
    #[tactic(auto, unfolding(crate::specs::Taken::begun))]
    pub fn begin_element(&mut self)
        ensures { taking_of self.new ≡ begun (taking_of self.old) }
    {
        if self.is_stated && separates(self.tokens) {
            self.pass_one();
            self.is_stated = false;
        }
    }

    /// Reports whether an array closes here, or after a separator.
    #[tactic(auto, unfolding(crate::specs::Taken::closes))]
    pub fn closes(&self) -> bool
        ensures { result ≡ closes (taking_of self.now) }
    {
        begins_with(bare(self.after_trail()), b'}')
    }

    /// Passes over an opening brace.
    #[tactic(auto, unfolding(crate::specs::Taking::opened))]
    pub fn open(&mut self, kind: ValueFault) -> Result<(), TakeFault>
        ensures { Takes result (taking_of self.new) (spec.opened kind (taking_of self.old)) }
    {
        self.take_mark(b'{', kind)?;
        self.is_stated = false;
        Ok(())
    }

    /// Passes over a closing brace.
    #[tactic(auto, unfolding(crate::specs::Taking::closed))]
    pub fn close(&mut self, kind: ValueFault) -> Result<(), TakeFault>
        ensures { Takes result (taking_of self.new) (spec.closed kind (taking_of self.old)) }
    {
        self.trail();
        self.take_mark(b'}', kind)?;
        self.is_stated = true;
        Ok(())
    }

    /// Adds a value.
    #[tactic(auto, unfolding(crate::specs::Taking::put))]
    pub fn put(&mut self, value: Value) -> Result<(), TakeFault>
        ensures { Takes result (taking_of self.new)
            (spec.put (value_of value) (taking_of self.old)) }
    {
        if MOST_VALUES <= self.values.len() {
            return Err(self.refuse(ValueFault::ManyValues));
        }
        self.values.push(value)?;
        Ok(())
    }

    /// Returns the next token, if it is a number.
    fn number(&self) -> Option<u32>
        ensures { result ≡ spec.number_in (spec.lexeme (taking_of self.now)) }
    {
        match self.bare() {
            [
                Token {
                    lexeme: Lexeme::Number(number),
                    ..
                },
                ..
            ] => Some(*number),
            _ => None,
        }
    }

    /// Passes over a number after a minus, and returns its bits.
    fn take_negative(&mut self, width: Width, kind: ValueFault) -> Result<u32, TakeFault>
        ensures { TakesTo same result (taking_of self.new) (spec.negative_by width.bits kind
            (spec.number_in (spec.lexeme (taking_of self.old))) (taking_of self.old)) }
    {
        let Some(number) = self.number() else {
            return Err(self.refuse(kind));
        };
        if power(width.bits - 1) < number as u64 {
            return Err(self.refuse(ValueFault::NumberOutOfRange(width.bits)));
        }
        self.pass();
        Ok(negated(width, number))
    }

    /// Passes over a number without a minus, and returns it.
    fn take_positive(&mut self, width: Width, kind: ValueFault) -> Result<u32, TakeFault>
        ensures { TakesTo same result (taking_of self.new) (spec.positive_by width.bits kind
            (spec.number_in (spec.lexeme (taking_of self.old))) (taking_of self.old)) }
    {
        let Some(number) = self.number() else {
            return Err(self.refuse(kind));
        };
        if power(width.bits) <= number as u64 {
            return Err(self.refuse(ValueFault::NumberOutOfRange(width.bits)));
        }
        self.pass();
        Ok(number)
    }

    /// Passes over a number of so many bits, and returns its bits.
    #[tactic(auto, unfolding(crate::specs::Taking::number))]
    pub fn take_number(&mut self, width: Width, kind: ValueFault) -> Result<u32, TakeFault>
        ensures { TakesTo same result (taking_of self.new)
            (spec.number width.bits kind (taking_of self.old)) }
    {
        if self.is_mark(b'-') {
            self.pass();
            self.take_negative(width, kind)
        } else {
            self.take_positive(width, kind)
        }
    }
}
