//! What a token is to the grammar. For a prefixed name this hangs on the prefixes that are declared before it.
//!
//! A text has room for thousands of declarations and of prefixed names. So `Declarations` keeps, beside the declarations
//! in their order, the set of their prefixes (`KnowsPrefixes`), and no list is walked for a name.
ghost use Rattle.std.specs.Prelude.{◌≡◌, [], ◌∷◌, ◌++◌, OnOk};
ghost use Rattle.query_text.specs.Parsing.{class_of, word_class, symbol_class, lone_class, name_class, is_a, prefix_at, local_at, is_declared, same_characters, KnowsPrefixes};

use crate::kind::TokenKind;
use crate::spelling::is_keyword;
use crate::token::Token;
use base_core::Want;
use std::alloc::Global;
use std::collections::BTreeSet;

/// What a token is to the grammar.
#[derive(Clone, Copy, Debug)]
pub enum Class {
    /// The word of `[6] PrefixDecl`.
    PrefixWord,
    /// The word of `[9] SelectClause`.
    SelectWord,
    /// The word of `[17] WhereClause`.
    WhereWord,
    /// The word `a` of `[78] Verb`.
    A,
    /// `[134] BooleanLiteral ::= 'true' | 'false'`
    Boolean,
    /// `[108] Var ::= VAR1 | VAR2`
    Var,
    Iriref,
    /// `[137] PrefixedName ::= PNAME_LN | PNAME_NS`: whether it has no local part, and whether its prefix is declared.
    PrefixName { bare: bool, declared: bool },
    /// `[138] BlankNode ::= BLANK_NODE_LABEL | ANON` (no `ANON`)
    Label,
    Integer,
    Decimal,
    /// `[135] String ::= STRING_LITERAL1 | STRING_LITERAL2 | STRING_LITERAL_LONG1 | STRING_LITERAL_LONG2` (no long ones)
    Str,
    Langtag,
    Star,
    Opening,
    Closing,
    Dot,
    Comma,
    Semicolon,
    /// `^^`
    Carets,
    Other,
}

/// A prefix and the IRI for which it stands: `[6] PrefixDecl ::= 'PREFIX' PNAME_NS IRIREF`.
#[derive(Clone, Copy, Debug)]
pub struct Declaration<'a> {
    pub name: Token<'a>,
    pub iri: Token<'a>,
}

/// The declarations of a query in their order, and the prefixes that they declare.
#[derive(Debug, Drop)]
pub struct Declarations<'a> {
    pub list: Vec<Declaration<'a>>,
    pub prefixes: BTreeSet<&'a [char]>,
}

impl<'a> Declarations<'a> {
    pub fn new(alloc: Global) -> Declarations<'a>
        ensures none { result.list.items ≡ [] }
        ensures knows { KnowsPrefixes result }
    {
        Declarations {
            list: Vec::new(alloc),
            prefixes: BTreeSet::new(alloc),
        }
    }

    /// Adds a declaration behind the others.
    pub fn add(&mut self, declaration: Declaration<'a>) -> Result<(), Want>
        requires { KnowsPrefixes self.old }
        ensures knows { OnOk result (KnowsPrefixes self.new) }
        ensures list { OnOk result (self.new.list.items ≡ self.old.list.items ++ declaration.entry ∷ []) }
    {
        let (prefix, _) = split_name(declaration.name.characters);
        self.prefixes.insert(prefix)?;
        self.list.push(declaration)?;
        Ok(())
    }

    /// Whether the prefix is declared.
    pub fn declares(&self, prefix: &[char]) -> bool
        requires { KnowsPrefixes self.now }
        ensures { result ≡ is_declared self.now.list.items prefix.now }
    {
        self.prefixes.contains(prefix)
    }
}

/// What the token is behind these declarations.
pub fn class_of(declarations: &Declarations, token: Token) -> Class
    requires { KnowsPrefixes declarations.now }
    ensures { result ≡ class_of declarations.now.list.items token.entry }
{
    match token.kind {
        TokenKind::Iriref => Class::Iriref,
        TokenKind::Str => Class::Str,
        TokenKind::Langtag => Class::Langtag,
        TokenKind::Var => Class::Var,
        TokenKind::Label => Class::Label,
        TokenKind::PrefixName => name_class(declarations, token.characters),
        TokenKind::Integer => Class::Integer,
        TokenKind::Decimal => Class::Decimal,
        TokenKind::Double | TokenKind::Long => Class::Other,
        TokenKind::Word => word_class(token.characters),
        TokenKind::Symbol => symbol_class(token.characters),
    }
}

/// `[137] PrefixedName ::= PNAME_LN | PNAME_NS`
fn name_class(declarations: &Declarations, name: &[char]) -> Class
    requires { KnowsPrefixes declarations.now }
    ensures { result ≡ name_class declarations.now.list.items name.now }
{
    let (prefix, local) = split_name(name);
    Class::PrefixName {
        bare: local.is_empty(),
        declared: declarations.declares(prefix),
    }
}

/// A prefixed name before its first colon, and behind it.
pub fn split_name(name: &[char]) -> (&[char], &[char])
    ensures before { result.0.now ≡ prefix_at name.now }
    ensures behind { result.1.now ≡ local_at name.now }
{
    'characters: for at in 0..name.len() {
        if name[at] == ':' {
            let (before, rest) = name.split_at(at);
            let (_, behind) = rest.split_at(1);
            return (before, behind);
        }
    }
    name.split_at(name.len())
}

pub fn same_characters(one: &[char], other: &[char]) -> bool
    ensures { result ≡ same_characters one.now other.now }
{
    one == other
}

/// The words that the rules quote, in letters of any case but for `a`.
#[tactic(auto, unfolding(crate::specs::Parsing::word_class))]
fn word_class(word: &[char]) -> Class
    ensures { result ≡ word_class word.now }
{
    if is_a(word) {
        Class::A
    } else if is_keyword(word, b"PREFIX") {
        Class::PrefixWord
    } else if is_keyword(word, b"SELECT") {
        Class::SelectWord
    } else if is_keyword(word, b"WHERE") {
        Class::WhereWord
    } else if is_keyword(word, b"TRUE") || is_keyword(word, b"FALSE") {
        Class::Boolean
    } else {
        Class::Other
    }
}

#[tactic(auto, unfolding(crate::specs::Parsing::is_a))]
fn is_a(word: &[char]) -> bool
    ensures { result ≡ is_a word.now }
{
    matches!(word, ['a'])
}

/// The marks that the rules quote.
fn symbol_class(symbol: &[char]) -> Class
    ensures { result ≡ symbol_class symbol.now }
{
    match symbol {
        [] => Class::Other,
        [c] => lone_class(*c),
        _ => Class::Carets,
    }
}

#[tactic(auto, unfolding(crate::specs::Parsing::lone_class))]
fn lone_class(c: char) -> Class
    ensures { result ≡ lone_class c }
{
    match c {
        '*' => Class::Star,
        '{' => Class::Opening,
        '}' => Class::Closing,
        '.' => Class::Dot,
        ',' => Class::Comma,
        ';' => Class::Semicolon,
        _ => Class::Other,
    }
}
