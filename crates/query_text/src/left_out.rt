//! Which word of SPARQL that is left out a token stands for.
ghost use Rattle.std.specs.Prelude.{◌≡◌, ◌↔◌, IsTrue};
ghost use Rattle.bgp_model.specs.Words.{printed};
ghost use Rattle.query_text.specs.Reading.{token_of};
ghost use Rattle.query_text.specs.Refusals.{IsLeftOut, TokenStandsFor, IsWritten, kind_of};

use crate::kind::TokenKind;
use crate::spelling::{is_keyword, is_text};
use crate::token::Token;
use bgp_model::{WORDS, Word};

/// The word that the token stands for, if there is one.
pub fn left_out(token: &Token) -> Option<Word>
    ensures { IsLeftOut (token_of token.now) result }
{
    'words: for word in &WORDS {
        if stands_for(token, *word) {
            return Some(*word);
        }
    }
    None
}

fn stands_for(token: &Token, word: Word) -> bool
    ensures { IsTrue result ↔ TokenStandsFor (token_of token.now) word }
{
    if token.kind != kind_of(word) {
        return false;
    }
    is_written(word, token.characters)
}

/// The kind of the tokens that the word stands for.
fn kind_of(word: Word) -> TokenKind
    ensures { result ≡ kind_of word }
{
    match word {
        Word::Double => TokenKind::Double,
        Word::Long => TokenKind::Long,
        Word::OpeningParenthesis
        | Word::OpeningBracket
        | Word::Slash
        | Word::Bar
        | Word::Caret
        | Word::Exclamation
        | Word::Plus
        | Word::Star
        | Word::Question
        | Word::Percent
        | Word::Backslash
        | Word::OpeningBrace => TokenKind::Symbol,
        _ => TokenKind::Word,
    }
}

/// Whether a token of the word's kind with these characters stands for it.
fn is_written(word: Word, characters: &[char]) -> bool
    ensures { IsTrue result ↔ IsWritten (kind_of word) (printed word) characters.now }
{
    let text = word.text().as_bytes();
    match kind_of(word) {
        TokenKind::Word => is_keyword(characters, text),
        TokenKind::Symbol => is_text(characters, text),
        _ => true,
    }
}
