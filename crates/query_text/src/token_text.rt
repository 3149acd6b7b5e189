//! The texts of tokens, which are made here and once: names, labels, forms, tags and IRIs in UTF-8, with escapes and
//! prefixes resolved.
//!
//! Each text is put together in a `String` of its own. A token that was cut from a text keeps its rule
//! (`specs/Tokens.antt`), and the text that the rule speaks of is then the one made here (`proofs/TokenTexts.antt`).
ghost use Rattle.std.specs.Prelude.{◌≡◌, ◌++◌, IfOk, OnOk, drop, string_bytes};
ghost use Rattle.std.specs.Str.{encode_utf8_all};
ghost use Rattle.nt_text.specs.Escapes.{escaped};
ghost use Rattle.query_text.specs.Building.{name_text, label_text, lower_text, iri_text, string_text, inner_text, base_text, newest, declares, quote_of, gain, gains, next, encoded, named_character, character_read};

use crate::class::{Declaration, same_characters, split_name};
use crate::kind::TokenKind;
use crate::text_scan::{Enclosure, TextScan, closing, digit_value};
use crate::token::Token;
use base_core::{Text, Want};
use std::alloc::Global;
use term_core::is_iri_character;

/// The name of a variable, without its mark.
pub fn name_of(alloc: Global, characters: &[char]) -> Result<Text, Want>
    ensures { IfOk result (λ made. made ≡ name_text characters.now) }
{
    text_of(alloc, behind(characters, 1))
}

/// A label without its `_:`.
pub fn label_of(alloc: Global, characters: &[char]) -> Result<Text, Want>
    ensures { IfOk result (λ made. made ≡ label_text characters.now) }
{
    text_of(alloc, behind(characters, 2))
}

/// A number, as it is written.
pub fn number_of(alloc: Global, characters: &[char]) -> Result<Text, Want>
    ensures { IfOk result (λ made. made ≡ encode_utf8_all characters.now) }
{
    text_of(alloc, characters)
}

/// A tag in lower case, without its `@`.
pub fn tag_of(alloc: Global, characters: &[char]) -> Result<Text, Want>
    ensures { IfOk result (λ made. made ≡ lower_text (drop 1 characters.now)) }
{
    lower_of(alloc, behind(characters, 1))
}

/// A word in lower case.
pub fn lower_of(alloc: Global, characters: &[char]) -> Result<Text, Want>
    ensures { IfOk result (λ made. made ≡ lower_text characters.now) }
{
    let mut text = String::new(alloc);
    'characters: for c in characters {
        text.push(c.to_ascii_lowercase())?;
    }
    Text::of(alloc, text.as_str())
}

/// The form of a string.
pub fn string_of(alloc: Global, characters: &[char]) -> Result<Text, Want>
    ensures { IfOk result (λ made. made ≡ string_text characters.now) }
{
    let mut text = String::new(alloc);
    put_inner(&mut text, quote_of(characters), characters)?;
    Text::of(alloc, text.as_str())
}

/// The IRI that an IRIREF or a prefixed name stands for, behind these declarations.
pub fn iri_of(alloc: Global, declarations: &[Declaration], token: Token) -> Result<Text, Want>
    ensures { IfOk result (λ made. made ≡ iri_text declarations.now token.entry) }
{
    let mut text = String::new(alloc);
    put_iri(&mut text, declarations, token)?;
    Text::of(alloc, text.as_str())
}

fn put_iri(text: &mut String, declarations: &[Declaration], token: Token) -> Result<(), Want>
    ensures { OnOk result (string_bytes text.new ≡ string_bytes text.old ++ iri_text declarations.now token.entry) }
{
    if let TokenKind::PrefixName = token.kind {
        let (prefix, local) = split_name(token.characters);
        put_base(text, newest(declarations, prefix))?;
        return put_characters(text, local);
    }
    put_inner(text, Enclosure::Brackets, token.characters)
}

/// The IRI of a declaration. A prefixed name is read only where its prefix is declared, so that there is one.
fn put_base(text: &mut String, iri: Option<Token>) -> Result<(), Want>
    ensures { OnOk result (string_bytes text.new ≡ string_bytes text.old ++ base_text iri.entry) }
{
    let Some(token) = iri else {
        return Ok(());
    };
    put_inner(text, Enclosure::Brackets, token.characters)
}

/// The IRI of the newest declaration of the prefix, from the newest on. A query that comes here has at most 16 triples,
/// so that this is asked at most 48 times.
fn newest<'a>(declarations: &[Declaration<'a>], prefix: &[char]) -> Option<Token<'a>>
    ensures { result ≡ newest declarations.entry.now prefix.now }
{
    let count = declarations.len();
    'declarations: for newer in 0..count {
        let declaration = declarations[count - 1 - newer];
        if declares(declaration, prefix) {
            return Some(declaration.iri);
        }
    }
    None
}

/// Whether this is a declaration of the prefix.
fn declares(declaration: Declaration, prefix: &[char]) -> bool
    ensures { result ≡ declares declaration.entry prefix.now }
{
    let (name, _) = split_name(declaration.name.characters);
    same_characters(name, prefix)
}

fn text_of(alloc: Global, characters: &[char]) -> Result<Text, Want>
    ensures { IfOk result (λ made. made ≡ encode_utf8_all characters.now) }
{
    let mut text = String::new(alloc);
    put_characters(&mut text, characters)?;
    Text::of(alloc, text.as_str())
}

fn put_characters(text: &mut String, characters: &[char]) -> Result<(), Want>
    ensures { OnOk result (string_bytes text.new ≡ string_bytes text.old ++ encode_utf8_all characters.now) }
{
    'characters: for c in characters {
        text.push(*c)?;
    }
    Ok(())
}

/// The characters behind the first so many.
fn behind(characters: &[char], count: usize) -> &[char]
    ensures { result.now ≡ drop count characters.now }
{
    match characters.get(count..) {
        Some(rest) => rest,
        None => &[],
    }
}

fn quote_of(characters: &[char]) -> Enclosure
    ensures { result ≡ quote_of characters.now }
{
    match characters {
        ['\'', ..] => Enclosure::Apostrophes,
        _ => Enclosure::Quotes,
    }
}

/// What stands behind the opening of an IRIREF or a string and before its closing, with its escapes.
fn put_inner(text: &mut String, enclosure: Enclosure, characters: &[char]) -> Result<(), Want>
    ensures { OnOk result (string_bytes text.new ≡ string_bytes text.old ++ inner_text enclosure characters.now) }
{
    let mut scan = Some(TextScan::Inside(enclosure));
    'characters: for c in behind(characters, 1) {
        put_gain(text, scan, *c)?;
        scan = next(scan, *c);
    }
    Ok(())
}

/// What the text gains by one more character behind what was scanned.
fn put_gain(text: &mut String, scan: Option<TextScan>, c: char) -> Result<(), Want>
    ensures { OnOk result (string_bytes text.new ≡ string_bytes text.old ++ gains scan c) }
{
    let Some(scan) = scan else {
        return Ok(());
    };
    let Some(gained) = gain(scan, c) else {
        return Ok(());
    };
    text.push(gained)?;
    Ok(())
}

fn next(scan: Option<TextScan>, c: char) -> Option<TextScan>
    ensures { result ≡ next scan c }
{
    let Some(scan) = scan else {
        return None;
    };
    scan.advance(c)
}

/// The character that one more gives, `None` within a piece.
fn gain(scan: TextScan, c: char) -> Option<char>
    ensures { result ≡ gain scan c }
{
    match scan {
        TextScan::Inside(enclosure) => if c == closing(enclosure) || c == '\\' {
            None
        } else {
            Some(c)
        },
        TextScan::Escape(_) => if c == 'u' || c == 'U' {
            None
        } else {
            Some(escaped(c))
        },
        TextScan::Digits {
            enclosure,
            left,
            value,
        } => if left > 1 {
            None
        } else {
            character_read(enclosure, value, c)
        },
        TextScan::Opened(_) | TextScan::Empty(_) | TextScan::Closed(_) | TextScan::Long => None,
    }
}

/// `ECHAR`, behind its backslash.
fn escaped(letter: char) -> char
    ensures { result ≡ escaped letter }
{
    match letter {
        't' => '\t',
        'b' => '\u{8}',
        'n' => '\n',
        'r' => '\r',
        'f' => '\u{C}',
        _ => letter,
    }
}

/// The character of a `UCHAR` by its last digit, where the digits before have this value.
fn character_read(enclosure: Enclosure, value: u32, c: char) -> Option<char>
    ensures { result ≡ character_read enclosure value c }
{
    if value <= 0x10FFFF && c.is_ascii_hexdigit() {
        named_character(enclosure, value * 16 + digit_value(c))
    } else {
        None
    }
}

/// The character of this number, where a `UCHAR` may name it.
#[tactic(auto, unfolding(crate::specs::Scanning::is_named_in, nt_text::specs::Escapes::is_named))]
fn named_character(enclosure: Enclosure, number: u32) -> Option<char>
    ensures { result ≡ named_character enclosure number }
{
    let Some(character) = char::from_u32(number) else {
        return None;
    };
    match enclosure {
        Enclosure::Brackets => if is_iri_character(character) {
            Some(character)
        } else {
            None
        },
        Enclosure::Quotes | Enclosure::Apostrophes => Some(character),
    }
}
