//! IRIREFs and strings, character by character.
ghost use Rattle.std.specs.Prelude.{◌≡◌, ◌+◌, ◌*◌, ◌<◌, ◌^◌, IsTrue};
ghost use Rattle.std.specs.Char.{digit_value, is_ascii_hexdigit};
ghost use Rattle.query_text.specs.Scanning.{closing, kind_of, is_plain_in, is_letter_in, is_string_escape, third_quote, is_named_in, text_advance, text_accepted, inside, opened, escaped, digits, digit_read};

use crate::kind::TokenKind;
use term_core::is_iri_character;

/// What a text stands between.
#[derive(Clone, Copy, Debug)]
pub enum Enclosure {
    /// `<` and `>`
    Brackets,
    /// Two `"`
    Quotes,
    /// Two `'`
    Apostrophes,
}

/// What has been read of an IRIREF or a string.
#[derive(Clone, Copy, Debug)]
pub enum TextScan {
    /// The first quote.
    Opened(Enclosure),
    /// Whole pieces.
    Inside(Enclosure),
    /// The backslash of a piece.
    Escape(Enclosure),
    /// A piece but for so many digits; those that were read have this value.
    Digits {
        enclosure: Enclosure,
        left: u8,
        value: u32,
    },
    /// Two quotes.
    Empty(Enclosure),
    Closed(Enclosure),
    /// Three quotes.
    Long,
}

impl TextScan {
    /// What has been read with this character; `None` where no token goes on so.
    pub fn advance(self, c: char) -> Option<TextScan>
        ensures { result ≡ text_advance self c }
    {
        match self {
            TextScan::Opened(enclosure) => opened(enclosure, c),
            TextScan::Inside(enclosure) => inside(enclosure, c),
            TextScan::Escape(enclosure) => escaped(enclosure, c),
            TextScan::Digits {
                enclosure,
                left,
                value,
            } => digits(enclosure, left, value, c),
            TextScan::Empty(enclosure) => third_quote(enclosure, c),
            TextScan::Closed(_) | TextScan::Long => None,
        }
    }

    /// The kind of the token that has been read, if it is one.
    pub fn accepted(self) -> Option<TokenKind>
        ensures { result ≡ text_accepted self }
    {
        match self {
            TextScan::Empty(_) => Some(TokenKind::Str),
            TextScan::Closed(enclosure) => Some(kind_of(enclosure)),
            TextScan::Long => Some(TokenKind::Long),
            TextScan::Opened(_)
            | TextScan::Inside(_)
            | TextScan::Escape(_)
            | TextScan::Digits { .. } => None,
        }
    }
}

pub fn closing(enclosure: Enclosure) -> char
    ensures { result ≡ closing enclosure }
{
    match enclosure {
        Enclosure::Brackets => '>',
        Enclosure::Quotes => '"',
        Enclosure::Apostrophes => '\'',
    }
}

fn kind_of(enclosure: Enclosure) -> TokenKind
    ensures { result ≡ kind_of enclosure }
{
    match enclosure {
        Enclosure::Brackets => TokenKind::Iriref,
        Enclosure::Quotes | Enclosure::Apostrophes => TokenKind::Str,
    }
}

fn opened(enclosure: Enclosure, c: char) -> Option<TextScan>
    ensures { result ≡ opened enclosure c }
{
    if c == closing(enclosure) {
        Some(TextScan::Empty(enclosure))
    } else {
        inside(enclosure, c)
    }
}

fn inside(enclosure: Enclosure, c: char) -> Option<TextScan>
    ensures { result ≡ inside enclosure c }
{
    if c == closing(enclosure) {
        Some(TextScan::Closed(enclosure))
    } else if c == '\\' {
        Some(TextScan::Escape(enclosure))
    } else if is_plain(enclosure, c) {
        Some(TextScan::Inside(enclosure))
    } else {
        None
    }
}

/// A character that may stand as itself.
#[tactic(auto, unfolding(crate::specs::Scanning::is_plain_in, nt_text::specs::Escapes::is_plain))]
fn is_plain(enclosure: Enclosure, c: char) -> bool
    ensures { result ≡ is_plain_in enclosure c }
{
    match enclosure {
        Enclosure::Brackets => is_iri_character(c),
        Enclosure::Quotes => !matches!(c, '"' | '\\' | '\n' | '\r'),
        Enclosure::Apostrophes => !matches!(c, '\'' | '\\' | '\n' | '\r'),
    }
}

/// Behind a backslash.
fn escaped(enclosure: Enclosure, c: char) -> Option<TextScan>
    ensures { result ≡ escaped enclosure c }
{
    if c == 'u' {
        Some(TextScan::Digits {
            enclosure,
            left: 4,
            value: 0,
        })
    } else if c == 'U' {
        Some(TextScan::Digits {
            enclosure,
            left: 8,
            value: 0,
        })
    } else if is_letter_of_escape(enclosure, c) {
        Some(TextScan::Inside(enclosure))
    } else {
        None
    }
}

/// `ECHAR`, behind its backslash.
#[tactic(auto, unfolding(nt_text::specs::Escapes::is_letter_of_escape))]
fn is_letter_of_escape(enclosure: Enclosure, c: char) -> bool
    ensures { result ≡ is_letter_in enclosure c }
{
    match enclosure {
        Enclosure::Brackets => false,
        Enclosure::Quotes | Enclosure::Apostrophes => is_string_escape(c),
    }
}

#[tactic(auto, unfolding(nt_text::specs::Escapes::is_letter_of_escape))]
fn is_string_escape(c: char) -> bool
    ensures { result ≡ is_string_escape c }
{
    matches!(c, 't' | 'b' | 'n' | 'r' | 'f' | '"' | '\'' | '\\')
}

/// Another digit of a `UCHAR`.
fn digits(enclosure: Enclosure, left: u8, value: u32, c: char) -> Option<TextScan>
    ensures { result ≡ digits enclosure left value c }
{
    if value <= 0x10FFFF && c.is_ascii_hexdigit() {
        digit_read(enclosure, left, value * 16 + digit_value(c))
    } else {
        None
    }
}

pub fn digit_value(digit: char) -> u32
    requires { IsTrue (is_ascii_hexdigit digit) }
    ensures value { result ≡ digit_value digit }
    ensures small { result < 16 }
{
    match digit.to_digit(16) {
        Some(value) => value,
        None => unreachable!(),
    }
}

/// Behind a digit, where so many were left with it; the digits have this value.
fn digit_read(enclosure: Enclosure, left: u8, value: u32) -> Option<TextScan>
    ensures { result ≡ digit_read enclosure left value }
{
    if left > 1 {
        Some(TextScan::Digits {
            enclosure,
            left: left - 1,
            value,
        })
    } else if is_named(enclosure, value) {
        Some(TextScan::Inside(enclosure))
    } else {
        None
    }
}

/// Whether a `UCHAR` may name the character of this number.
#[tactic(auto, unfolding(crate::specs::Scanning::is_named_in, nt_text::specs::Escapes::is_named))]
fn is_named(enclosure: Enclosure, number: u32) -> bool
    ensures { result ≡ is_named_in enclosure number }
{
    let Some(character) = char::from_u32(number) else {
        return false;
    };
    match enclosure {
        Enclosure::Brackets => is_iri_character(character),
        Enclosure::Quotes | Enclosure::Apostrophes => true,
    }
}

/// The opening of a long string.
fn third_quote(enclosure: Enclosure, c: char) -> Option<TextScan>
    ensures { result ≡ third_quote enclosure c }
{
    if c == closing(enclosure) {
        Some(TextScan::Long)
    } else {
        None
    }
}
