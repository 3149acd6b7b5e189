//! The classes of characters of a query's tokens (SPARQL 1.1 Query Language, section 19.8).
ghost use Rattle.std.specs.Prelude.{◌≡◌, ◌||◌, ◌==◌};
ghost use Rattle.term_core.specs.Characters.{is_letter, is_digit};
ghost use Rattle.query_text.specs.Characters.{begins_name, continues_variable, continues_name, continues_word, is_white, is_line_end};
ghost use Rattle.query_text.specs.Scanning.{is_lone_symbol};

use term_core::is_base_character;

/// `PN_CHARS_U`, without the colon.
#[tactic(auto, unfolding(crate::specs::Characters::begins_name))]
pub fn begins_name(c: char) -> bool
    ensures { result ≡ begins_name c }
{
    is_base_character(c) || c == '_'
}

/// `PN_CHARS_U | [0-9]`
pub fn begins_variable(c: char) -> bool
    ensures { result ≡ (begins_name c || is_digit c) }
{
    begins_name(c) || c.is_ascii_digit()
}

/// What may stand in `VARNAME` behind its first character.
#[tactic(auto, unfolding(crate::specs::Characters::continues_variable))]
pub fn continues_variable(c: char) -> bool
    ensures { result ≡ continues_variable c }
{
    begins_name(c)
        || c.is_ascii_digit()
        || c == '\u{B7}'
        || matches!(c, '\u{300}'..='\u{36F}' | '\u{203F}'..='\u{2040}')
}

/// `PN_CHARS`
#[tactic(auto, unfolding(crate::specs::Characters::continues_name))]
pub fn continues_name(c: char) -> bool
    ensures { result ≡ continues_name c }
{
    continues_variable(c) || c == '-'
}

pub fn is_letter(c: char) -> bool
    ensures { result ≡ is_letter c }
{
    matches!(c, 'A'..='Z' | 'a'..='z')
}

/// What may stand in a word behind its first letter.
pub fn continues_word(c: char) -> bool
    ensures { result ≡ continues_word c }
{
    is_letter(c) || c.is_ascii_digit() || c == '_'
}

pub fn is_line_end(c: char) -> bool
    ensures { result ≡ is_line_end c }
{
    c == '\n' || c == '\r'
}

/// `WS`
pub fn is_white(c: char) -> bool
    ensures { result ≡ is_white c }
{
    c == ' ' || c == '\t' || is_line_end(c)
}

/// A symbol that begins no longer token.
#[tactic(auto, unfolding(crate::specs::Scanning::is_lone_symbol))]
pub fn is_lone_symbol(c: char) -> bool
    ensures { result ≡ is_lone_symbol c }
{
    matches!(
        c,
        '{' | '}' | ';' | ',' | '*' | '(' | ')' | '[' | ']' | '/' | '|' | '!' | '%' | '\\'
    )
}
