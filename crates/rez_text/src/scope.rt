//! Where the text of a statement stands among its braces, quotes and comments.

ghost use Rattle.std.specs.Prelude.{◌≡◌};
ghost use Rattle.rez_text.specs.Scopes as spec;

use crate::ascii::ends_line;
use crate::mode::Quote;

/// Where a text stands among quotes and comments.
#[derive(Clone, Copy)]
pub enum Spot {
    /// Outside of both.
    Plain,
    /// There, after a `/`.
    Slash,
    /// In a comment that `*/` ends.
    Comment,
    /// In such a comment, after a `*`.
    Star,
    /// In a comment that the line's end ends.
    LineComment,
    /// After a `$`, outside of both.
    Dollar,
    /// In a hexadecimal string.
    Hexadecimal,
    /// Between quotes.
    Quoted(Quote),
    /// Between quotes, after a `\`.
    Escaped(Quote),
}

/// Where a text stands among its braces, quotes and comments.
#[derive(Clone, Copy)]
pub struct Scope {
    /// Among quotes and comments.
    pub spot: Spot,
    /// How many braces are open; braces are counted up to 255.
    pub depth: u8,
}

impl Scope {
    /// Before the text of a statement.
    pub const OUTSIDE: Scope = Scope {
        spot: Spot::Plain,
        depth: 0,
    };

    /// After the first brace of a statement.
    pub const INSIDE: Scope = Scope {
        spot: Spot::Plain,
        depth: 1,
    };

    /// Returns the scope at another spot.
    fn at(self, spot: Spot) -> Scope
        ensures { result ≡ spec.at_spot spot self }
    {
        Scope {
            spot,
            depth: self.depth,
        }
    }

    fn plain(self, byte: u8) -> Scope
        ensures { result ≡ spec.plain_step byte self }
    {
        match byte {
            b'{' => Scope {
                spot: Spot::Plain,
                depth: self.depth.saturating_add(1),
            },
            b'}' => Scope {
                spot: Spot::Plain,
                depth: self.depth.saturating_sub(1),
            },
            b'"' => self.at(Spot::Quoted(Quote::Double)),
            b'\'' => self.at(Spot::Quoted(Quote::Single)),
            b'$' => self.at(Spot::Dollar),
            b'/' => self.at(Spot::Slash),
            _ => self.at(Spot::Plain),
        }
    }

    fn slash(self, byte: u8) -> Scope
        ensures { result ≡ spec.slash_step byte self }
    {
        match byte {
            b'*' => self.at(Spot::Comment),
            b'/' => self.at(Spot::LineComment),
            _ => self.plain(byte),
        }
    }

    fn dollar(self, byte: u8) -> Scope
        ensures { result ≡ spec.dollar_step byte self }
    {
        if byte == b'"' {
            self.at(Spot::Hexadecimal)
        } else {
            self.plain(byte)
        }
    }

    fn hexadecimal(self, byte: u8) -> Scope
        ensures { result ≡ spec.hexadecimal_step byte self }
    {
        if byte == b'"' {
            self.at(Spot::Plain)
        } else {
            self
        }
    }

    fn comment(self, byte: u8) -> Scope
        ensures { result ≡ spec.comment_step byte self }
    {
        if byte == b'*' {
            self.at(Spot::Star)
        } else {
            self.at(Spot::Comment)
        }
    }

    fn star(self, byte: u8) -> Scope
        ensures { result ≡ spec.star_step byte self }
    {
        if byte == b'/' {
            self.at(Spot::Plain)
        } else {
            self.comment(byte)
        }
    }

    fn line_comment(self, byte: u8) -> Scope
        ensures { result ≡ spec.line_step byte self }
    {
        if ends_line(byte) {
            self.at(Spot::Plain)
        } else {
            self
        }
    }

    fn quoted(self, quote: Quote, byte: u8) -> Scope
        ensures { result ≡ spec.quoted_step quote byte self }
    {
        if byte == quote.byte() || ends_line(byte) {
            self.at(Spot::Plain)
        } else if byte == b'\\' {
            self.at(Spot::Escaped(quote))
        } else {
            self
        }
    }

    fn escaped(self, quote: Quote, byte: u8) -> Scope
        ensures { result ≡ spec.escaped_step quote byte self }
    {
        if ends_line(byte) {
            self.at(Spot::Plain)
        } else {
            self.at(Spot::Quoted(quote))
        }
    }

    /// Returns the scope after one more byte.
    #[tactic(auto, unfolding(crate::specs::Scopes::scope_step))]
    pub fn step(self, byte: u8) -> Scope
        ensures { result ≡ spec.scope_step byte self }
    {
        match self.spot {
            Spot::Plain => self.plain(byte),
            Spot::Slash => self.slash(byte),
            Spot::Comment => self.comment(byte),
            Spot::Star => self.star(byte),
            Spot::LineComment => self.line_comment(byte),
            Spot::Dollar => self.dollar(byte),
            Spot::Hexadecimal => self.hexadecimal(byte),
            Spot::Quoted(quote) => self.quoted(quote, byte),
            Spot::Escaped(quote) => self.escaped(quote, byte),
        }
    }

    /// Reports whether a brace or a semicolon counts here.
    pub fn is_open(self) -> bool
        ensures { result ≡ spec.is_open self }
    {
        match self.spot {
            Spot::Plain | Spot::Slash | Spot::Dollar => true,
            _ => false,
        }
    }

    /// Reports whether the text ends before a byte: before the closing byte, where it counts at
    /// this depth.
    pub fn ends(self, closing: u8, depth: u8, byte: u8) -> bool
        ensures { result ≡ spec.ends closing depth byte self }
    {
        byte == closing && (self.is_open() && self.depth == depth)
    }
}

/// Reports whether a text does not end on the way from a scope, and the byte that ends it counts
/// after it.
pub fn keeps(closing: u8, depth: u8, scope: Scope, text: &[u8]) -> bool
    ensures { result ≡ spec.keeps closing depth scope text.now }
{
    let mut scope = scope;
    for byte in text {
        if scope.ends(closing, depth, *byte) {
            return false;
        }
        scope = scope.step(*byte);
    }
    scope.is_open() && scope.depth == depth
}

/// Reports whether a text ends with its last byte, and not before.
pub fn ends_last(closing: u8, depth: u8, scope: Scope, text: &[u8]) -> bool
    ensures { result ≡ spec.ends_last closing depth scope text.now }
{
    let mut scope = scope;
    for i in 0..text.len() {
        if scope.ends(closing, depth, text[i]) {
            return i + 1 == text.len();
        }
        scope = scope.step(text[i]);
    }
    false
}
