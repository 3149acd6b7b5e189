//! The words of SPARQL that are left out.
ghost use Rattle.std.specs.Prelude.{◌≡◌, Some};

use std::fmt;

/// A word of SPARQL that is left out: a keyword, a kind of token or a symbol.
#[derive(Clone, Copy, Debug, PartialEq, Eq)]
pub enum Word {
    Base,
    Ask,
    Construct,
    Describe,
    Distinct,
    Reduced,
    From,
    Group,
    Having,
    Order,
    Limit,
    Offset,
    Values,
    Filter,
    Optional,
    Union,
    Minus,
    Graph,
    Service,
    Bind,
    Insert,
    Delete,
    Load,
    Clear,
    Create,
    Drop,
    Copy,
    Move,
    Add,
    With,
    Double,
    Long,
    OpeningParenthesis,
    OpeningBracket,
    Slash,
    Bar,
    Caret,
    Exclamation,
    Plus,
    Star,
    Question,
    Percent,
    Backslash,
    OpeningBrace,
}

/// All words that are left out.
pub const WORDS: [Word; 44] = [
    Word::Base,
    Word::Ask,
    Word::Construct,
    Word::Describe,
    Word::Distinct,
    Word::Reduced,
    Word::From,
    Word::Group,
    Word::Having,
    Word::Order,
    Word::Limit,
    Word::Offset,
    Word::Values,
    Word::Filter,
    Word::Optional,
    Word::Union,
    Word::Minus,
    Word::Graph,
    Word::Service,
    Word::Bind,
    Word::Insert,
    Word::Delete,
    Word::Load,
    Word::Clear,
    Word::Create,
    Word::Drop,
    Word::Copy,
    Word::Move,
    Word::Add,
    Word::With,
    Word::Double,
    Word::Long,
    Word::OpeningParenthesis,
    Word::OpeningBracket,
    Word::Slash,
    Word::Bar,
    Word::Caret,
    Word::Exclamation,
    Word::Plus,
    Word::Star,
    Word::Question,
    Word::Percent,
    Word::Backslash,
    Word::OpeningBrace,
];

impl Word {
    ghost use Rattle.bgp_model.specs.Words.{printed};

    /// The word as it is printed.
    #[tactic(auto, unfolding(crate::specs::Words::printed))]
    pub fn text(self) -> &'static str
        ensures { result.now ≡ printed self }
    {
        match self {
            Word::Base => "BASE",
            Word::Ask => "ASK",
            Word::Construct => "CONSTRUCT",
            Word::Describe => "DESCRIBE",
            Word::Distinct => "DISTINCT",
            Word::Reduced => "REDUCED",
            Word::From => "FROM",
            Word::Group => "GROUP",
            Word::Having => "HAVING",
            Word::Order => "ORDER",
            Word::Limit => "LIMIT",
            Word::Offset => "OFFSET",
            Word::Values => "VALUES",
            Word::Filter => "FILTER",
            Word::Optional => "OPTIONAL",
            Word::Union => "UNION",
            Word::Minus => "MINUS",
            Word::Graph => "GRAPH",
            Word::Service => "SERVICE",
            Word::Bind => "BIND",
            Word::Insert => "INSERT",
            Word::Delete => "DELETE",
            Word::Load => "LOAD",
            Word::Clear => "CLEAR",
            Word::Create => "CREATE",
            Word::Drop => "DROP",
            Word::Copy => "COPY",
            Word::Move => "MOVE",
            Word::Add => "ADD",
            Word::With => "WITH",
            Word::Double => "DOUBLE",
            Word::Long => "LONG",
            Word::OpeningParenthesis => "(",
            Word::OpeningBracket => "[",
            Word::Slash => "/",
            Word::Bar => "|",
            Word::Caret => "^",
            Word::Exclamation => "!",
            Word::Plus => "+",
            Word::Star => "*",
            Word::Question => "?",
            Word::Percent => "%",
            Word::Backslash => "\\",
            Word::OpeningBrace => "{",
        }
    }
}

impl fmt::Display for Word {
    ghost use Rattle.bgp_model.specs.Words.{printed};

    ghost output = { λ word. Some (printed word) };

    fn fmt<W: fmt::Write>(&self, f: &mut fmt::Formatter<W>) -> fmt::Result {
        let text = self.text();
        write!(f, "{text}")
    }
}
