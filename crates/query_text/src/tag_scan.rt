//! Language tags, character by character.
ghost use Rattle.std.specs.Prelude.{◌≡◌};
ghost use Rattle.query_text.specs.Scanning.{tag_advance, tag_accepted, is_tag_character};

use crate::characters::is_letter;
use crate::kind::TokenKind;

/// What has been read of a language tag.
#[derive(Clone, Copy, Debug)]
pub enum TagScan {
    At,
    /// Letters behind the `@`.
    Language,
    /// A hyphen.
    Hyphen,
    /// Letters and digits behind a hyphen.
    Subtag,
}

impl TagScan {
    /// What has been read with this character; `None` where no token goes on so.
    pub fn advance(self, c: char) -> Option<TagScan>
        ensures { result ≡ tag_advance self c }
    {
        match self {
            TagScan::At if is_letter(c) => Some(TagScan::Language),
            TagScan::Language if is_letter(c) => Some(TagScan::Language),
            TagScan::Hyphen if is_tag_character(c) => Some(TagScan::Subtag),
            TagScan::Subtag if is_tag_character(c) => Some(TagScan::Subtag),
            TagScan::Language | TagScan::Subtag if c == '-' => Some(TagScan::Hyphen),
            _ => None,
        }
    }

    /// The kind of the token that has been read, if it is one.
    pub fn accepted(self) -> Option<TokenKind>
        ensures { result ≡ tag_accepted self }
    {
        match self {
            TagScan::Language | TagScan::Subtag => Some(TokenKind::Langtag),
            TagScan::At | TagScan::Hyphen => None,
        }
    }
}

fn is_tag_character(c: char) -> bool
    ensures { result ≡ is_tag_character c }
{
    is_letter(c) || c.is_ascii_digit()
}
