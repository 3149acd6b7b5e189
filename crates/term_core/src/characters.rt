//! The classes of characters that the parts of a term are made of (RDF 1.1 N-Triples, section 7, its grammar).
ghost use Rattle.std.specs.Prelude.{◌≡◌};
ghost use Rattle.term_core.specs.Characters.{is_iri_character, is_base_character, is_start_character, is_name_character};

/// A character that may stand as itself in an `IRIREF`.
#[tactic(auto, unfolding(crate::specs::Characters::is_iri_character))]
pub fn is_iri_character(c: char) -> bool
    ensures { result ≡ is_iri_character c }
{
    match c {
        '\0'..=' ' => false,
        '<' | '>' | '"' | '{' | '}' | '|' | '^' | '`' | '\\' => false,
        _ => true,
    }
}

/// `PN_CHARS_BASE`
#[tactic(auto, unfolding(crate::specs::Characters::is_base_character))]
pub fn is_base_character(c: char) -> bool
    ensures { result ≡ is_base_character c }
{
    matches!(
        c,
        'A'..='Z'
            | 'a'..='z'
            | '\u{C0}'..='\u{D6}'
            | '\u{D8}'..='\u{F6}'
            | '\u{F8}'..='\u{2FF}'
            | '\u{370}'..='\u{37D}'
            | '\u{37F}'..='\u{1FFF}'
            | '\u{200C}'..='\u{200D}'
            | '\u{2070}'..='\u{218F}'
            | '\u{2C00}'..='\u{2FEF}'
            | '\u{3001}'..='\u{D7FF}'
            | '\u{F900}'..='\u{FDCF}'
            | '\u{FDF0}'..='\u{FFFD}'
            | '\u{10000}'..='\u{EFFFF}'
    )
}

/// `PN_CHARS_U` of N-Triples, which has the colon too.
#[tactic(auto, unfolding(crate::specs::Characters::is_start_character))]
pub fn is_start_character(c: char) -> bool
    ensures { result ≡ is_start_character c }
{
    is_base_character(c) || c == '_' || c == ':'
}

/// `PN_CHARS` of N-Triples.
#[tactic(auto, unfolding(crate::specs::Characters::is_name_character))]
pub fn is_name_character(c: char) -> bool
    ensures { result ≡ is_name_character c }
{
    is_start_character(c)
        || c == '-'
        || c.is_ascii_digit()
        || c == '\u{B7}'
        || matches!(c, '\u{300}'..='\u{36F}' | '\u{203F}'..='\u{2040}')
}
