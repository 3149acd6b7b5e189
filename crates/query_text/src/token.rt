//! Cutting a text into tokens.
ghost use Rattle.std.specs.Prelude.{◌≡◌, false, MatchOption};
ghost use Rattle.query_text.specs.Texts.{behind_gap, BeginsWith, BeginsWithNone};
ghost use Rattle.query_text.specs.Reading.{token_of, in_gap};

use crate::characters::{is_line_end, is_white};
use crate::kind::TokenKind;
use crate::scan::longest_token;

/// A token where it stands in a text.
#[derive(Clone, Copy, Debug)]
pub struct Token<'a> {
    pub kind: TokenKind,
    pub characters: &'a [char],
    /// The text behind it.
    pub behind: &'a [char],
}

/// The longest token at the front of the text; `None` where none begins there.
pub fn first_token(text: &[char]) -> Option<Token<'_>>
    ensures { MatchOption result (BeginsWithNone text.now) (λ found. BeginsWith text.now (token_of found) found.behind.now) }
{
    let Some(longest) = longest_token(text) else {
        return None;
    };
    let (characters, behind) = text.split_at(longest.1);
    Some(Token {
        kind: longest.0,
        characters,
        behind,
    })
}

/// Behind white space and comments.
pub fn skip_gap(text: &[char]) -> &[char]
    ensures { result.now ≡ behind_gap false text.now }
{
    let mut in_comment = false;
    'characters: for at in 0..text.len() {
        let Some(next) = in_gap(in_comment, text[at]) else {
            let (_, behind) = text.split_at(at);
            return behind;
        };
        in_comment = next;
    }
    let (_, behind) = text.split_at(text.len());
    behind
}

/// Whether a comment goes on behind this character of white space or of a comment; `None` where it is no such character.
fn in_gap(in_comment: bool, c: char) -> Option<bool>
    ensures { result ≡ in_gap in_comment c }
{
    if in_comment {
        Some(!is_line_end(c))
    } else if is_white(c) {
        Some(false)
    } else if c == '#' {
        Some(true)
    } else {
        None
    }
}
