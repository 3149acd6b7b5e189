//! Runs of bytes of one class.
ghost use Rattle.std.specs.Prelude.{◌≡◌};
ghost use Rattle.nt_text.specs.declared.pieces.Between.TheVariants.{Quotes};
ghost use Rattle.nt_text.specs.Document.{is_white};
ghost use Rattle.nt_text.specs.Escapes.{is_plain};
ghost use Rattle.nt_text.specs.Reading.{is_of, run, behind_run, is_label_byte, is_tag_byte};

use term_core::{is_iri_character, is_name_character};

/// A class of bytes that stand in a run.
#[derive(Clone, Copy)]
pub enum Class {
    White,
    /// A byte of a character that may stand as itself in an IRIREF.
    IriCharacter,
    /// A byte of a character that may stand as itself in a string.
    QuotedCharacter,
    /// A byte that a label may have, or a part of a character beyond ASCII.
    LabelCharacter,
    /// A letter, a digit or a hyphen.
    TagCharacter,
}

/// The longest run of the class at the front, and the bytes behind it.
pub fn cut_run(bytes: &[u8], class: Class) -> (&[u8], &[u8])
    ensures run { result.0.now ≡ run (is_of class) bytes.now }
    ensures behind { result.1.now ≡ behind_run (is_of class) bytes.now }
{
    for at in 0..bytes.len() {
        if !is_of_class(bytes[at], class) {
            return bytes.split_at(at);
        }
    }
    bytes.split_at(bytes.len())
}

/// Behind the spaces and tabs at the front.
pub fn skip_white(bytes: &[u8]) -> &[u8]
    ensures { result.now ≡ behind_run is_white bytes.now }
{
    let (_, behind) = cut_run(bytes, Class::White);
    behind
}

fn is_of_class(byte: u8, class: Class) -> bool
    ensures { result ≡ is_of class byte }
{
    match class {
        Class::White => byte == b' ' || byte == b'\t',
        Class::IriCharacter => is_iri_character(byte as char),
        Class::QuotedCharacter => is_quoted_byte(byte),
        Class::LabelCharacter => is_label_byte(byte),
        Class::TagCharacter => byte.is_ascii_alphanumeric() || byte == b'-',
    }
}

/// What may stand as itself in a `STRING_LITERAL_QUOTE`: `[^#x22#x5C#xA#xD]`.
#[tactic(auto, unfolding(crate::specs::Escapes::is_plain))]
pub fn is_quoted_byte(byte: u8) -> bool
    ensures { result ≡ is_plain Quotes byte }
{
    !matches!(byte, b'"' | b'\\' | b'\n' | b'\r')
}

/// `PN_CHARS | '.'`, where each byte beyond ASCII counts: the whole is tested later.
#[tactic(auto, unfolding(crate::specs::Reading::is_label_byte))]
fn is_label_byte(byte: u8) -> bool
    ensures { result ≡ is_label_byte byte }
{
    byte >= 128 || is_name_character(byte as char) || byte == b'.'
}
