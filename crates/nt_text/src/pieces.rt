//! The text of an IRIREF and of a string, with its escapes (RDF 1.1 N-Triples, section 7, ECHAR and UCHAR).
ghost use Rattle.std.specs.Prelude.{◌≡◌, ◌++◌, ◌<◌, IfOk, IfSome, IsTrue, OnOk};
ghost use Rattle.std.specs.Char.{digit_value, is_ascii_hexdigit};
ghost use Rattle.std.specs.Str.{is_utf8};
ghost use Rattle.nt_text.specs.Escapes.{is_plain, is_letter_of_escape, escaped, are_four_digits};
ghost use Rattle.nt_text.specs.Reading.{ReadsFront, part_meaning, piece_at, escape_at, four_at, uchar4_at, uchar8_at, named, text_at, text_of, Makes, IsPlainClass};

use crate::run::{Class, cut_run, is_quoted_byte};
use crate::utf8::text_from;
use base_core::{Text, Want};
use std::alloc::Global;
use term_core::is_iri_character;

/// What a text stands between: an IRI's brackets or a string's quotes.
#[derive(Clone, Copy)]
pub enum Between {
    Brackets,
    Quotes,
}

/// What a piece of a text means.
#[derive(Clone, Copy)]
enum Part {
    Byte(u8),
    Character(char),
}

/// The longest text at the front, as it is written, and the bytes behind it.
pub fn cut_text(bytes: &[u8], between: Between) -> (&[u8], &[u8])
    ensures { text_at between bytes.now ≡ (text_of between result.0.now, result.1.now) }
{
    let mut rest = bytes;
    'pieces: while let Some((_, behind)) = read_piece(rest, between) {
        rest = behind;
    }
    bytes.split_at(bytes.len() - rest.len())
}

/// What a text that was cut means; `None` where that is no UTF-8.
pub fn meaning_of(alloc: Global, raw: &[u8], between: Between) -> Result<Option<Text>, Want>
    ensures { IfOk result (λ text. Makes (λ made. made) text (is_utf8 (text_of between raw.now)) (text_of between raw.now)) }
{
    let (_, escapes) = cut_run(raw, plain_class(between));
    if escapes.is_empty() {
        return text_from(alloc, raw);
    }
    let mut made = Vec::new(alloc);
    put_text(raw, between, &mut made)?;
    text_from(alloc, &made)
}

#[tactic(auto, unfolding(crate::specs::Escapes::is_plain))]
fn plain_class(between: Between) -> Class
    ensures { IsPlainClass between result }
{
    match between {
        Between::Brackets => Class::IriCharacter,
        Between::Quotes => Class::QuotedCharacter,
    }
}

/// Appends what the text means.
fn put_text(raw: &[u8], between: Between, out: &mut Vec<u8>) -> Result<(), Want>
    ensures { OnOk result (out.new.items ≡ out.old.items ++ text_of between raw.now) }
{
    let mut rest = raw;
    'pieces: while let Some((part, behind)) = read_piece(rest, between) {
        put_part(part, out)?;
        rest = behind;
    }
    Ok(())
}

fn put_part(part: Part, out: &mut Vec<u8>) -> Result<(), Want>
    ensures { OnOk result (out.new.items ≡ out.old.items ++ part_meaning part) }
{
    match part {
        Part::Byte(byte) => out.push(byte)?,
        Part::Character(character) => {
            let mut room = [0; 4];
            out.extend_from_slice(character.encode_utf8(&mut room).as_bytes())?;
        }
    }
    Ok(())
}

/// The first piece of a text, and the bytes behind it: in brackets ``[^#x00-#x20<>"{}|^`\] | UCHAR``, and in quotes
/// `[^#x22#x5C#xA#xD] | ECHAR | UCHAR`.
#[tactic(auto, unfolding(crate::specs::Reading::piece_at))]
fn read_piece(bytes: &[u8], between: Between) -> Option<(Part, &[u8])>
    ensures { ReadsFront (λ found. (part_meaning found.0, found.1.now)) result (piece_at between bytes.now) }
{
    let Some((first, behind)) = bytes.split_first() else {
        return None;
    };
    if *first == b'\\' {
        return read_escape(behind, between);
    }
    if is_plain(*first, between) {
        Some((Part::Byte(*first), behind))
    } else {
        None
    }
}

/// What may stand as itself.
#[tactic(auto, unfolding(crate::specs::Escapes::is_plain))]
fn is_plain(byte: u8, between: Between) -> bool
    ensures { result ≡ is_plain between byte }
{
    match between {
        Between::Brackets => is_iri_character(byte as char),
        Between::Quotes => is_quoted_byte(byte),
    }
}

/// An ECHAR or a UCHAR behind its backslash.
#[tactic(auto, unfolding(crate::specs::Reading::escape_at))]
fn read_escape(bytes: &[u8], between: Between) -> Option<(Part, &[u8])>
    ensures { ReadsFront (λ found. (part_meaning found.0, found.1.now)) result (escape_at between bytes.now) }
{
    let Some((letter, behind)) = bytes.split_first() else {
        return None;
    };
    if *letter == b'u' {
        return read_uchar4(behind, between);
    }
    if *letter == b'U' {
        return read_uchar8(behind, between);
    }
    if is_letter_of_escape(*letter, between) {
        Some((Part::Byte(escaped(*letter)), behind))
    } else {
        None
    }
}

/// `ECHAR ::= '\' [tbnrf"'\]`
#[tactic(auto, unfolding(crate::specs::Escapes::is_letter_of_escape))]
fn is_letter_of_escape(letter: u8, between: Between) -> bool
    ensures { result ≡ is_letter_of_escape between letter }
{
    match between {
        Between::Brackets => false,
        Between::Quotes => matches!(
            letter,
            b't' | b'b' | b'n' | b'r' | b'f' | b'"' | b'\'' | b'\\'
        ),
    }
}

/// What the letter of an ECHAR means.
fn escaped(letter: u8) -> u8
    ensures { result ≡ escaped letter }
{
    match letter {
        b't' => b'\t',
        b'b' => 8,
        b'n' => b'\n',
        b'r' => b'\r',
        b'f' => 12,
        _ => letter,
    }
}

/// `UCHAR ::= '\u' HEX HEX HEX HEX`, behind its letter.
#[tactic(auto, unfolding(crate::specs::Reading::uchar4_at))]
fn read_uchar4(bytes: &[u8], between: Between) -> Option<(Part, &[u8])>
    ensures { ReadsFront (λ found. (part_meaning found.0, found.1.now)) result (uchar4_at between bytes.now) }
{
    let (number, behind) = read_four(bytes)?;
    let character = named(number, between)?;
    Some((Part::Character(character), behind))
}

/// `UCHAR ::= '\U' HEX HEX HEX HEX HEX HEX HEX HEX`, behind its letter.
#[tactic(auto, unfolding(crate::specs::Reading::uchar8_at))]
fn read_uchar8(bytes: &[u8], between: Between) -> Option<(Part, &[u8])>
    ensures { ReadsFront (λ found. (part_meaning found.0, found.1.now)) result (uchar8_at between bytes.now) }
{
    let (high, behind) = read_four(bytes)?;
    let (low, behind) = read_four(behind)?;
    let character = named(high * 65536 + low, between)?;
    Some((Part::Character(character), behind))
}

/// The number of four hexadecimal digits, and the bytes behind them.
#[tactic(auto, unfolding(crate::specs::Reading::four_at))]
fn read_four(bytes: &[u8]) -> Option<(u32, &[u8])>
    ensures number { ReadsFront (λ found. (found.0, found.1.now)) result (four_at bytes.now) }
    ensures small { IfSome result (λ found. found.0 < 65536) }
{
    let [a, b, c, d, behind @ ..] = bytes else {
        return None;
    };
    if !are_four_digits(*a, *b, *c, *d) {
        return None;
    }
    let number = ((digit_value(*a) * 16 + digit_value(*b)) * 16 + digit_value(*c)) * 16
        + digit_value(*d);
    Some((number, behind))
}

/// `HEX ::= [0-9] | [A-F] | [a-f]`, four times.
fn are_four_digits(a: u8, b: u8, c: u8, d: u8) -> bool
    ensures { result ≡ are_four_digits a b c d }
{
    a.is_ascii_hexdigit() && b.is_ascii_hexdigit() && c.is_ascii_hexdigit() && d.is_ascii_hexdigit()
}

fn digit_value(digit: u8) -> u32
    requires { IsTrue (is_ascii_hexdigit digit) }
    ensures value { result ≡ digit_value digit }
    ensures small { result < 16 }
{
    match (digit as char).to_digit(16) {
        Some(value) => value,
        None => unreachable!(),
    }
}

/// The character of this number, where a UCHAR may name it.
#[tactic(auto, unfolding(crate::specs::Escapes::is_named))]
fn named(number: u32, between: Between) -> Option<char>
    ensures { ReadsFront (λ c. c) result (named between number) }
{
    let character = char::from_u32(number)?;
    match between {
        Between::Brackets => if is_iri_character(character) {
            Some(character)
        } else {
            None
        },
        Between::Quotes => Some(character),
    }
}
