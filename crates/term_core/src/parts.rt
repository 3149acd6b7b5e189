//! Whether a text may be a part of a term: a function for each rule of the grammar (RDF 1.1 N-Triples, section 7).
ghost use Rattle.std.specs.Prelude.{◌≡◌, ◌↔◌, ◌||◌, ◌==◌, IsTrue};
ghost use Rattle.std.specs.List.{list_all};
ghost use Rattle.std.specs.Str.{chars};
ghost use Rattle.term_core.specs.Characters.{is_digit, is_lower_letter, is_start_character, is_name_character};
ghost use Rattle.term_core.specs.Term.{IsIri, IsTag, IsLabel, EndsWithoutDot};
ghost use Rattle.term_core.specs.Decoding.{is_group};

use crate::characters::{is_iri_character, is_name_character, is_start_character};

/// Whether the text may stand between the brackets of an `IRIREF`.
pub fn is_iri(text: &str) -> bool
    ensures { IsTrue result ↔ IsIri text.now }
{
    text.chars().all(is_iri_character)
}

/// Whether the text is a `LANGTAG` in lower case, without its `@`.
pub fn is_tag(text: &str) -> bool
    ensures { IsTrue result ↔ IsTag text.now }
{
    match text.split_once('-') {
        None => is_language(text),
        Some((language, subtags)) => is_language(language) && subtags.split('-').all(is_subtag),
    }
}

fn is_language(text: &str) -> bool
    ensures { result ≡ is_group is_lower_letter text.now }
{
    !text.is_empty() && text.bytes().all(|b| b.is_ascii_lowercase())
}

fn is_subtag(text: &str) -> bool
    ensures { result ≡ is_group (λ b. is_lower_letter b || is_digit b) text.now }
{
    !text.is_empty()
        && text
            .bytes()
            .all(|b| b.is_ascii_lowercase() || b.is_ascii_digit())
}

/// Whether the text is a `BLANK_NODE_LABEL` without its `_:`.
pub fn is_label(text: &str) -> bool
    ensures { IsTrue result ↔ IsLabel text.now }
{
    let mut characters = text.chars();
    let Some(first) = characters.next() else {
        return false;
    };
    begins_label(first) && may_follow(characters.as_str())
}

fn begins_label(c: char) -> bool
    ensures { result ≡ (is_start_character c || is_digit c) }
{
    is_start_character(c) || c.is_ascii_digit()
}

/// Whether the characters may stand behind the first one.
fn may_follow(rest: &str) -> bool
    ensures { IsTrue result ↔ (IsTrue (list_all (λ c. is_name_character c || c == 46) (chars rest.now)) × EndsWithoutDot (chars rest.now)) }
{
    continues_label(rest) && ends_label(rest)
}

fn continues_label(rest: &str) -> bool
    ensures { result ≡ list_all (λ c. is_name_character c || c == 46) (chars rest.now) }
{
    rest.chars().all(|c| is_name_character(c) || c == '.')
}

fn ends_label(rest: &str) -> bool
    ensures { IsTrue result ↔ EndsWithoutDot (chars rest.now) }
{
    !rest.ends_with('.')
}
