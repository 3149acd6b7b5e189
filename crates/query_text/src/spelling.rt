//! Comparing characters with the words of the grammar, which are ASCII.
ghost use Rattle.std.specs.Prelude.{◌≡◌};
ghost use Rattle.query_text.specs.Parsing.{is_keyword, same_characters};

/// Whether the word is this keyword, which is in upper case, in letters of any case.
pub fn is_keyword(word: &[char], keyword: &[u8]) -> bool
    ensures { result ≡ is_keyword word.now keyword.now }
{
    let mut rest = keyword;
    'letters: for at in 0..word.len() {
        let Some((letter, behind)) = rest.split_first() else {
            return false;
        };
        if word[at].to_ascii_uppercase() != char::from(*letter) {
            return false;
        }
        rest = behind;
    }
    rest.is_empty()
}

/// Whether the characters are this text.
pub fn is_text(characters: &[char], text: &[u8]) -> bool
    ensures { result ≡ same_characters characters.now text.now }
{
    let mut rest = text;
    'characters: for at in 0..characters.len() {
        let Some((letter, behind)) = rest.split_first() else {
            return false;
        };
        if characters[at] != char::from(*letter) {
            return false;
        }
        rest = behind;
    }
    rest.is_empty()
}
