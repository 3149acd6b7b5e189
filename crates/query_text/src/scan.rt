//! The longest token at the front of a text.
ghost use Rattle.std.specs.Prelude.{◌≡◌, ◌≤◌, ℕ, length, Option as Maybe, Some, None};
ghost use Rattle.query_text.specs.Reading.{IsFirst};
ghost use Rattle.query_text.specs.Scanning.{advance, accepted, begin, begin_mark, noted, longest_from};
ghost use Rattle.query_text.specs.declared.scan.Scan.TheVariants.{Start};

use crate::characters::{is_letter, is_lone_symbol};
use crate::kind::TokenKind;
use crate::name_scan::NameScan;
use crate::number_scan::NumberScan;
use crate::tag_scan::TagScan;
use crate::text_scan::{Enclosure, TextScan};
use term_core::is_base_character;

/// What has been read of a token, from its first character on.
#[derive(Clone, Copy, Debug)]
pub enum Scan {
    Start,
    Text(TextScan),
    Tag(TagScan),
    Name(NameScan),
    Number(NumberScan),
    Caret,
    /// A symbol with which no longer token begins.
    Symbol,
}

impl Scan {
    /// What has been read with this character; `None` where no token goes on so.
    fn advance(self, c: char) -> Option<Scan>
        ensures { result ≡ advance self c }
    {
        match self {
            Scan::Start => begin(c),
            Scan::Text(scan) => scan.advance(c).map(Scan::Text),
            Scan::Tag(scan) => scan.advance(c).map(Scan::Tag),
            Scan::Name(scan) => scan.advance(c).map(Scan::Name),
            Scan::Number(scan) => scan.advance(c).map(Scan::Number),
            Scan::Caret => if c == '^' { Some(Scan::Symbol) } else { None },
            Scan::Symbol => None,
        }
    }

    /// The kind of the token that has been read, if it is one.
    fn accepted(self) -> Option<TokenKind>
        ensures { result ≡ accepted self }
    {
        match self {
            Scan::Start => None,
            Scan::Text(scan) => scan.accepted(),
            Scan::Tag(scan) => scan.accepted(),
            Scan::Name(scan) => scan.accepted(),
            Scan::Number(scan) => scan.accepted(),
            Scan::Caret | Scan::Symbol => Some(TokenKind::Symbol),
        }
    }
}

/// The first character of a token.
#[tactic(auto, unfolding(crate::specs::Scanning::begin))]
fn begin(c: char) -> Option<Scan>
    ensures { result ≡ begin c }
{
    if is_letter(c) {
        Some(Scan::Name(NameScan::Word))
    } else if is_base_character(c) {
        Some(Scan::Name(NameScan::Prefix))
    } else if c.is_ascii_digit() {
        Some(Scan::Number(NumberScan::Integer))
    } else {
        begin_mark(c)
    }
}

/// The first character of a token that is no letter and no digit.
#[tactic(auto, unfolding(crate::specs::Scanning::begin_mark))]
fn begin_mark(c: char) -> Option<Scan>
    ensures { result ≡ begin_mark c }
{
    match c {
        '<' => Some(Scan::Text(TextScan::Inside(Enclosure::Brackets))),
        '"' => Some(Scan::Text(TextScan::Opened(Enclosure::Quotes))),
        '\'' => Some(Scan::Text(TextScan::Opened(Enclosure::Apostrophes))),
        '@' => Some(Scan::Tag(TagScan::At)),
        '?' => Some(Scan::Name(NameScan::Mark { question: true })),
        '$' => Some(Scan::Name(NameScan::Mark { question: false })),
        '_' => Some(Scan::Name(NameScan::Underscore)),
        ':' => Some(Scan::Name(NameScan::Colon)),
        '+' => Some(Scan::Number(NumberScan::Sign { plus: true })),
        '-' => Some(Scan::Number(NumberScan::Sign { plus: false })),
        '.' => Some(Scan::Number(NumberScan::Dot { alone: true })),
        '^' => Some(Scan::Caret),
        _ => if is_lone_symbol(c) {
            Some(Scan::Symbol)
        } else {
            None
        },
    }
}

/// The kind and the length of the longest token at the front of the text; `None` where none begins there.
pub fn longest_token(text: &[char]) -> Option<(TokenKind, usize)>
    ensures { IsFirst text.now result }
{
    last_accepted(text)
}

/// The kind that was accepted last, and how many characters were read then.
fn last_accepted(text: &[char]) -> Option<(TokenKind, usize)>
    ensures { result ≡ longest_from None 0 (Some Start) text.now }
{
    let mut scan = Scan::Start;
    let mut longest = None;
    'characters: for at in 0..text.len() {
        longest = noted(longest, scan.accepted(), at);
        let Some(next) = scan.advance(text[at]) else {
            return longest;
        };
        scan = next;
    }
    noted(longest, scan.accepted(), text.len())
}

fn noted(
    longest: Option<(TokenKind, usize)>,
    kind: Option<TokenKind>,
    at: usize,
) -> Option<(TokenKind, usize)>
    ensures { result ≡ noted longest kind at }
{
    match kind {
        Some(kind) => Some((kind, at)),
        None => longest,
    }
}
