//! Variables, labels, words and prefixed names, character by character.
ghost use Rattle.std.specs.Prelude.{◌≡◌, Some, None, if◌then◌else◌};
ghost use Rattle.query_text.specs.Scanning.{name_advance, name_accepted, label, local, word, prefix_dot, prefix_end, begins_local};

use crate::characters::{begins_variable, continues_name, continues_variable, continues_word};
use crate::kind::TokenKind;

/// What has been read of a name.
#[derive(Clone, Copy, Debug)]
pub enum NameScan {
    /// `?` or `$`
    Mark { question: bool },
    Variable,
    /// `_`
    Underscore,
    /// `_:`
    BlankNode,
    /// A label.
    Label,
    /// A label and dots.
    LabelDot,
    /// A word, which may yet be a prefix.
    Word,
    /// A prefix, which is no word.
    Prefix,
    /// A prefix and dots.
    PrefixDot,
    /// The colon behind the prefix, if there is one.
    Colon,
    /// A local part.
    Local,
    /// A local part and dots.
    LocalDot,
}

impl NameScan {
    /// What has been read with this character; `None` where no token goes on so.
    pub fn advance(self, c: char) -> Option<NameScan>
        ensures { result ≡ name_advance self c }
    {
        match self {
            NameScan::Mark { .. } => only_if(begins_variable(c), NameScan::Variable),
            NameScan::Variable => only_if(continues_variable(c), NameScan::Variable),
            NameScan::Underscore => only_if(c == ':', NameScan::BlankNode),
            NameScan::BlankNode => only_if(begins_variable(c), NameScan::Label),
            NameScan::Label | NameScan::LabelDot => label(c),
            NameScan::Word => word(c),
            NameScan::Prefix => prefix_end(c),
            NameScan::PrefixDot => prefix_dot(c),
            NameScan::Colon => only_if(begins_local(c), NameScan::Local),
            NameScan::Local | NameScan::LocalDot => local(c),
        }
    }

    /// The kind of the token that has been read, if it is one.
    pub fn accepted(self) -> Option<TokenKind>
        ensures { result ≡ name_accepted self }
    {
        match self {
            NameScan::Mark { question } => if question {
                Some(TokenKind::Symbol)
            } else {
                None
            },
            NameScan::Variable => Some(TokenKind::Var),
            NameScan::Label => Some(TokenKind::Label),
            NameScan::Word => Some(TokenKind::Word),
            NameScan::Colon | NameScan::Local => Some(TokenKind::PrefixName),
            NameScan::Underscore
            | NameScan::BlankNode
            | NameScan::LabelDot
            | NameScan::Prefix
            | NameScan::PrefixDot
            | NameScan::LocalDot => None,
        }
    }
}

fn only_if(test: bool, scan: NameScan) -> Option<NameScan>
    ensures { result ≡ (if test then Some scan else None) }
{
    if test { Some(scan) } else { None }
}

fn label(c: char) -> Option<NameScan>
    ensures { result ≡ label c }
{
    if c == '.' {
        Some(NameScan::LabelDot)
    } else {
        only_if(continues_name(c), NameScan::Label)
    }
}

fn word(c: char) -> Option<NameScan>
    ensures { result ≡ word c }
{
    if continues_word(c) {
        Some(NameScan::Word)
    } else {
        prefix_end(c)
    }
}

fn prefix_end(c: char) -> Option<NameScan>
    ensures { result ≡ prefix_end c }
{
    if c == ':' {
        Some(NameScan::Colon)
    } else {
        prefix_dot(c)
    }
}

fn prefix_dot(c: char) -> Option<NameScan>
    ensures { result ≡ prefix_dot c }
{
    if c == '.' {
        Some(NameScan::PrefixDot)
    } else {
        only_if(continues_name(c), NameScan::Prefix)
    }
}

fn begins_local(c: char) -> bool
    ensures { result ≡ begins_local c }
{
    begins_variable(c) || c == ':'
}

fn local(c: char) -> Option<NameScan>
    ensures { result ≡ local c }
{
    if c == '.' {
        Some(NameScan::LocalDot)
    } else {
        only_if(continues_name(c) || c == ':', NameScan::Local)
    }
}
