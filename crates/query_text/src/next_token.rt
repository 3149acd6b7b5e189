//! The tokens of a text, one after another, so that no part of the text is looked through again and again.
//!
//! A letter begins a word or a prefixed name. Which of them shows only where the characters end that can go on a prefix:
//! in a text as `a.5.a.5.a.5` the longest token at each `a` would be sought up to the end. So such a run is looked
//! through once. Where no colon ends it, each word that begins in it stands alone, and is cut off as such. How much
//! of the text is left behind it is kept from token to token, and `IsQuiet` says what it tells.
ghost use Rattle.std.specs.Prelude.{◌≡◌, ◌&&◌, ◌==◌, ℕ, false, true, not, MatchOption, Some};
ghost use Rattle.query_text.specs.Texts.{BeginsWith, BeginsWithNone};
ghost use Rattle.query_text.specs.Reading.{token_of};
ghost use Rattle.query_text.specs.Ahead.{IsQuiet, begins_with_letter, left_unnamed, in_prefix, word_length};

use crate::characters::{continues_name, continues_word, is_letter};
use crate::kind::TokenKind;
use crate::token::{Token, first_token};

/// The longest token at the front of the text; `None` where none begins there. `quiet` is how much of the text is left
/// behind the characters that were looked through last, and at first the length of the text.
pub fn next_token<'a>(text: &'a [char], quiet: &mut usize) -> Option<Token<'a>>
    requires { IsQuiet quiet.old text.now }
    ensures first { MatchOption result (BeginsWithNone text.now) (λ found. BeginsWith text.now (token_of found) found.behind.now) }
    ensures quiet { IsQuiet quiet.new text.now }
{
    if !begins_with_letter(text) {
        return first_token(text);
    }
    let Some(left) = left_behind(text, *quiet) else {
        return first_token(text);
    };
    *quiet = left;
    Some(first_word(text))
}

fn begins_with_letter(text: &[char]) -> bool
    ensures { result ≡ begins_with_letter text.now }
{
    match text {
        [] => false,
        [first, ..] => is_letter(*first),
    }
}

/// How much of a text that begins with a letter is left behind the characters of a prefix; `None` where a colon ends
/// them, and a prefixed name begins the text.
fn left_behind(text: &[char], quiet: usize) -> Option<usize>
    requires known { IsQuiet quiet text.now }
    requires letter { begins_with_letter text.now ≡ true }
    ensures { result ≡ left_unnamed false text.now }
{
    if quiet < text.len() {
        Some(quiet)
    } else {
        look_through(text)
    }
}

/// The same, where nothing is known.
fn look_through(text: &[char]) -> Option<usize>
    ensures { result ≡ left_unnamed false text.now }
{
    let mut dot = false;
    'characters: for at in 0..text.len() {
        if ends_prefix(dot, text[at]) {
            return None;
        }
        let Some(next) = in_prefix(text[at]) else {
            return Some(text.len() - at);
        };
        dot = next;
    }
    Some(0)
}

/// Whether the character is a colon that ends a prefix: no dot stands before it.
fn ends_prefix(dot: bool, c: char) -> bool
    ensures { result ≡ (c == 58 && not dot) }
{
    c == ':' && !dot
}

/// Whether the character is a dot, where it can go on a prefix.
fn in_prefix(c: char) -> Option<bool>
    ensures { result ≡ in_prefix c }
{
    if c == '.' {
        Some(true)
    } else if continues_name(c) {
        Some(false)
    } else {
        None
    }
}

/// The word at the front of a text that no prefixed name begins.
fn first_word(text: &[char]) -> Token<'_>
    requires letter { begins_with_letter text.now ≡ true }
    requires alone { (left : ℕ) × (left_unnamed false text.now ≡ Some left) }
    ensures { BeginsWith text.now (token_of result) result.behind.now }
{
    let (characters, behind) = text.split_at(word_length(text));
    Token {
        kind: TokenKind::Word,
        characters,
        behind,
    }
}

/// How many characters at the front can stand in a word.
fn word_length(text: &[char]) -> usize
    ensures { result ≡ word_length text.now }
{
    'characters: for at in 0..text.len() {
        if !continues_word(text[at]) {
            return at;
        }
    }
    text.len()
}
