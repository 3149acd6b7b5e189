//! The place of what is left of a text, in bytes: the text's length less what is left.
ghost use Rattle.std.specs.Prelude.{◌≡◌, ◌+◌, ◌≤◌, ◌++◌, length};
ghost use Rattle.std.specs.Str.{encode_utf8_all};
ghost use Rattle.query_text.specs.Limits.{largest_query};
ghost use Rattle.query_text.specs.Outcomes.{IsPlace};

use crate::token::Token;

/// How many bytes the characters have in UTF-8.
fn width(characters: &[char]) -> usize
    requires { length (encode_utf8_all characters.now) ≤ largest_query }
    ensures { result ≡ length (encode_utf8_all characters.now) }
{
    let mut width = 0;
    'characters: for c in characters {
        width += c.len_utf8();
    }
    width
}

/// The place at which these characters and bad bytes are left of a text of so many bytes.
pub fn place_before(size: usize, rest: &[char], bad: &[u8]) -> u32
    requires short { size ≤ largest_query }
    requires within { length (encode_utf8_all rest.now) + length bad.now ≤ size }
    ensures { IsPlace size rest.now bad.now result }
{
    (size - width(rest) - bad.len()) as u32
}

/// The place at which the token begins, in a text of so many bytes with bad bytes at its end.
pub fn place_of(size: usize, token: &Token, bad: &[u8]) -> u32
    requires short { size ≤ largest_query }
    requires within { length (encode_utf8_all (token.now.characters.now ++ token.now.behind.now)) + length bad.now ≤ size }
    ensures { IsPlace size (token.now.characters.now ++ token.now.behind.now) bad.now result }
{
    place_before(size - width(token.characters), token.behind, bad)
}
