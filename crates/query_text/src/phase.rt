//! The machine of the grammar: where in a query reading stands, and what the next token does there.
//!
//! Above each phase's function stand the rules that it serves, as SPARQL 1.1 Query Language, section 19.8, numbers and
//! writes them. Of these this is read:
//! - `[2] Query ::= Prologue ( SelectQuery | ConstructQuery | DescribeQuery | AskQuery ) ValuesClause`, of these the
//!   `SelectQuery`, and no values;
//! - `[7] SelectQuery ::= SelectClause DatasetClause* WhereClause SolutionModifier`, without `DatasetClause` and
//!   `SolutionModifier`;
//! - `[53] GroupGraphPattern ::= '{' ( SubSelect | GroupGraphPatternSub ) '}'`, with one `TriplesBlock` or nothing in it.
//!
//! Paths are left out, so that `TriplesSameSubjectPath` is `TriplesSameSubject`, and so are collections and brackets, so
//! that `GraphNode` is `VarOrTerm`.
ghost use Rattle.std.specs.Prelude.{◌≡◌};
ghost use Rattle.query_text.specs.declared.phase.Position.TheVariants.{Object};
ghost use Rattle.query_text.specs.Parsing.{decide, silent, prologue, prefix_word, prefix_name, select, star, columns, where_word, triples, semicolon, is_iri, node_of, verb_of, first_of_node, behind_string, behind_carets, behind_node, with_verb, separated, after_separator};

use crate::class::{Class, Declaration};
use crate::token::Token;

/// What stands in a position of a triple, by its tokens.
#[derive(Clone, Copy, Debug)]
pub enum Node<'a> {
    Variable(Token<'a>),
    Iri(Token<'a>),
    Label(Token<'a>),
    Integer(Token<'a>),
    Decimal(Token<'a>),
    Boolean(Token<'a>),
    /// The verb `a`.
    Type,
    String(Token<'a>),
    Tagged {
        form: Token<'a>,
        tag: Token<'a>,
    },
    Typed {
        form: Token<'a>,
        datatype: Token<'a>,
    },
}

#[derive(Clone, Copy, Debug)]
pub struct Triple<'a> {
    pub subject: Node<'a>,
    pub predicate: Node<'a>,
    pub object: Node<'a>,
}

/// The position of a node in its triple.
#[derive(Clone, Copy, Debug)]
pub enum Position<'a> {
    Subject,
    Object { subject: Node<'a>, verb: Node<'a> },
}

/// Where in a query reading stands: what was read last of it.
#[derive(Clone, Copy, Debug)]
pub enum Phase<'a> {
    /// Whole declarations.
    Prologue,
    /// `PREFIX`
    Prefix,
    /// `PREFIX` and the prefix.
    PrefixName(Token<'a>),
    /// `SELECT`
    Select,
    /// `*`
    Star,
    /// Some variables.
    Columns,
    /// `WHERE`
    Where,
    /// `{`, or triples and a dot.
    Triples,
    /// A string, which may yet get a tag or a datatype.
    String(Position<'a>, Token<'a>),
    /// A string and `^^`.
    Carets(Position<'a>, Token<'a>),
    /// A whole node.
    Node(Position<'a>, Node<'a>),
    Verb { subject: Node<'a>, verb: Node<'a> },
    /// Triples of this subject, and a semicolon.
    Semicolon(Node<'a>),
    /// `}`
    End,
}

/// What a token adds to the query.
#[derive(Clone, Copy, Debug)]
pub enum Said<'a> {
    Nothing,
    Declaration(Declaration<'a>),
    AllColumns,
    Column(Token<'a>),
    Triple(Triple<'a>),
}

/// What a token does.
#[derive(Clone, Copy, Debug)]
pub struct Move<'a> {
    pub phase: Phase<'a>,
    pub said: Said<'a>,
}

/// What the token does in this phase; `None` where no query goes on with it.
pub fn decide<'a>(phase: Phase<'a>, class: Class, token: Token<'a>) -> Option<Move<'a>>
    ensures { result ≡ decide phase.entry class token.entry }
{
    match phase {
        Phase::Prologue => prologue(class),
        Phase::Prefix => prefix_word(class, token),
        Phase::PrefixName(name) => prefix_name(name, class, token),
        Phase::Select => select(class, token),
        Phase::Star => star(class),
        Phase::Columns => columns(class, token),
        Phase::Where => where_word(class),
        Phase::Triples => triples(class, token),
        Phase::String(position, form) => behind_string(position, form, class, token),
        Phase::Carets(position, form) => behind_carets(position, form, class, token),
        Phase::Node(position, node) => behind_node(position, node, class, token),
        Phase::Verb { subject, verb } => object(subject, verb, class, token),
        Phase::Semicolon(subject) => semicolon(subject, class, token),
        Phase::End => None,
    }
}

fn silent(phase: Phase<'_>) -> Option<Move<'_>>
    ensures { result ≡ silent phase.entry }
{
    Some(Move {
        phase,
        said: Said::Nothing,
    })
}

/// `[4] Prologue ::= ( BaseDecl | PrefixDecl )*`, without `BASE`, and
/// `[9] SelectClause ::= 'SELECT' ( 'DISTINCT' | 'REDUCED' )? ( ( Var | ( '(' Expression 'AS' Var ')' ) )+ | '*' )`, its
/// first word.
fn prologue<'a>(class: Class) -> Option<Move<'a>>
    ensures { result ≡ prologue class }
{
    match class {
        Class::PrefixWord => silent(Phase::Prefix),
        Class::SelectWord => silent(Phase::Select),
        _ => None,
    }
}

/// `[6] PrefixDecl ::= 'PREFIX' PNAME_NS IRIREF`, behind its word.
fn prefix_word(class: Class, token: Token<'_>) -> Option<Move<'_>>
    ensures { result ≡ prefix_word class token.entry }
{
    match class {
        Class::PrefixName { bare: true, .. } => silent(Phase::PrefixName(token)),
        _ => None,
    }
}

/// `[6] PrefixDecl`, behind its `PNAME_NS`.
fn prefix_name<'a>(name: Token<'a>, class: Class, token: Token<'a>) -> Option<Move<'a>>
    ensures { result ≡ prefix_name name.entry class token.entry }
{
    match class {
        Class::Iriref => Some(Move {
            phase: Phase::Prologue,
            said: Said::Declaration(Declaration { name, iri: token }),
        }),
        _ => None,
    }
}

/// `[9] SelectClause` behind its word: `Var+ | '*'`.
fn select(class: Class, token: Token<'_>) -> Option<Move<'_>>
    ensures { result ≡ select class token.entry }
{
    match class {
        Class::Star => Some(Move {
            phase: Phase::Star,
            said: Said::AllColumns,
        }),
        Class::Var => Some(Move {
            phase: Phase::Columns,
            said: Said::Column(token),
        }),
        _ => None,
    }
}

/// `[17] WhereClause ::= 'WHERE'? GroupGraphPattern`
fn star<'a>(class: Class) -> Option<Move<'a>>
    ensures { result ≡ star class }
{
    match class {
        Class::WhereWord => silent(Phase::Where),
        Class::Opening => silent(Phase::Triples),
        _ => None,
    }
}

/// `[9] SelectClause` behind a variable: another one, or `[17] WhereClause`.
fn columns(class: Class, token: Token<'_>) -> Option<Move<'_>>
    ensures { result ≡ columns class token.entry }
{
    match class {
        Class::Var => Some(Move {
            phase: Phase::Columns,
            said: Said::Column(token),
        }),
        _ => star(class),
    }
}

/// `[17] WhereClause` behind its word: the brace of `[53] GroupGraphPattern`.
fn where_word<'a>(class: Class) -> Option<Move<'a>>
    ensures { result ≡ where_word class }
{
    match class {
        Class::Opening => silent(Phase::Triples),
        _ => None,
    }
}

/// `[136] iri ::= IRIREF | PrefixedName`, where the prefix of a `PrefixedName` is declared.
fn is_iri(class: Class) -> bool
    ensures { result ≡ is_iri class }
{
    matches!(
        class,
        Class::Iriref | Class::PrefixName { declared: true, .. }
    )
}

/// `[106] VarOrTerm ::= Var | GraphTerm`, of one token that is no string, with
/// `[109] GraphTerm ::= iri | RDFLiteral | NumericLiteral | BooleanLiteral | BlankNode | NIL` (no `NIL`).
fn node_of(class: Class, token: Token<'_>) -> Option<Node<'_>>
    ensures { result ≡ node_of class token.entry }
{
    match class {
        Class::Var => Some(Node::Variable(token)),
        Class::Iriref | Class::PrefixName { declared: true, .. } => Some(Node::Iri(token)),
        Class::Label => Some(Node::Label(token)),
        Class::Integer => Some(Node::Integer(token)),
        Class::Decimal => Some(Node::Decimal(token)),
        Class::Boolean => Some(Node::Boolean(token)),
        _ => None,
    }
}

/// `[78] Verb ::= VarOrIri | 'a'`, with `[107] VarOrIri ::= Var | iri`.
fn verb_of(class: Class, token: Token<'_>) -> Option<Node<'_>>
    ensures { result ≡ verb_of class token.entry }
{
    match class {
        Class::Var => Some(Node::Variable(token)),
        Class::Iriref | Class::PrefixName { declared: true, .. } => Some(Node::Iri(token)),
        Class::A => Some(Node::Type),
        _ => None,
    }
}

/// The first token of `[106] VarOrTerm`.
fn first_of_node<'a>(position: Position<'a>, class: Class, token: Token<'a>) -> Option<Move<'a>>
    ensures { result ≡ first_of_node position.entry class token.entry }
{
    if let Class::Str = class {
        return silent(Phase::String(position, token));
    }
    let Some(node) = node_of(class, token) else {
        return None;
    };
    silent(Phase::Node(position, node))
}

/// `[55] TriplesBlock ::= TriplesSameSubjectPath ( '.' TriplesBlock? )?`, or nothing, and the brace behind it; the first
/// token of `[75] TriplesSameSubject ::= VarOrTerm PropertyListNotEmpty | TriplesNode PropertyList` (no `TriplesNode`).
fn triples(class: Class, token: Token<'_>) -> Option<Move<'_>>
    ensures { result ≡ triples class token.entry }
{
    if let Class::Closing = class {
        return silent(Phase::End);
    }
    first_of_node(Position::Subject, class, token)
}

/// `[79] ObjectList ::= Object ( ',' Object )*`, the first token of an object: `[80] Object ::= GraphNode`.
fn object<'a>(subject: Node<'a>, verb: Node<'a>, class: Class, token: Token<'a>) -> Option<Move<'a>>
    ensures { result ≡ first_of_node (Object subject.entry verb.entry) class token.entry }
{
    first_of_node(Position::Object { subject, verb }, class, token)
}

/// `[129] RDFLiteral ::= String ( LANGTAG | ( '^^' iri ) )?`, behind its `String`.
fn behind_string<'a>(
    position: Position<'a>,
    form: Token<'a>,
    class: Class,
    token: Token<'a>,
) -> Option<Move<'a>>
    ensures { result ≡ behind_string position.entry form.entry class token.entry }
{
    match class {
        Class::Langtag => silent(Phase::Node(position, Node::Tagged { form, tag: token })),
        Class::Carets => silent(Phase::Carets(position, form)),
        _ => behind_node(position, Node::String(form), class, token),
    }
}

/// `[129] RDFLiteral`, behind its `'^^'`.
fn behind_carets<'a>(
    position: Position<'a>,
    form: Token<'a>,
    class: Class,
    token: Token<'a>,
) -> Option<Move<'a>>
    ensures { result ≡ behind_carets position.entry form.entry class token.entry }
{
    if !is_iri(class) {
        return None;
    }
    silent(Phase::Node(
        position,
        Node::Typed {
            form,
            datatype: token,
        },
    ))
}

/// Behind a whole `[106] VarOrTerm`: a subject has a verb behind it, and an object ends a triple.
fn behind_node<'a>(
    position: Position<'a>,
    node: Node<'a>,
    class: Class,
    token: Token<'a>,
) -> Option<Move<'a>>
    ensures { result ≡ behind_node position.entry node.entry class token.entry }
{
    match position {
        Position::Subject => with_verb(node, class, token),
        Position::Object { subject, verb } => separated(
            Triple {
                subject,
                predicate: verb,
                object: node,
            },
            class,
        ),
    }
}

/// `[77] PropertyListNotEmpty ::= Verb ObjectList ( ';' ( Verb ObjectList )? )*`, its verb.
fn with_verb<'a>(subject: Node<'a>, class: Class, token: Token<'a>) -> Option<Move<'a>>
    ensures { result ≡ with_verb subject.entry class token.entry }
{
    let Some(verb) = verb_of(class, token) else {
        return None;
    };
    silent(Phase::Verb { subject, verb })
}

/// What stands behind a triple, which the token ends.
fn separated(triple: Triple<'_>, class: Class) -> Option<Move<'_>>
    ensures { result ≡ separated triple.entry class }
{
    let Some(phase) = after_separator(triple, class) else {
        return None;
    };
    Some(Move {
        phase,
        said: Said::Triple(triple),
    })
}

/// The `','` of `[79] ObjectList`, the `';'` of `[77] PropertyListNotEmpty`, the `'.'` of `[55] TriplesBlock`, or the
/// `'}'` of `[53] GroupGraphPattern`.
fn after_separator(triple: Triple<'_>, class: Class) -> Option<Phase<'_>>
    ensures { result ≡ after_separator triple.entry class }
{
    match class {
        Class::Comma => Some(Phase::Verb {
            subject: triple.subject,
            verb: triple.predicate,
        }),
        Class::Semicolon => Some(Phase::Semicolon(triple.subject)),
        Class::Dot => Some(Phase::Triples),
        Class::Closing => Some(Phase::End),
        _ => None,
    }
}

/// `[77] PropertyListNotEmpty` behind a `';'`: a verb, or nothing.
fn semicolon<'a>(subject: Node<'a>, class: Class, token: Token<'a>) -> Option<Move<'a>>
    ensures { result ≡ semicolon subject.entry class token.entry }
{
    match class {
        Class::Semicolon => silent(Phase::Semicolon(subject)),
        Class::Dot => silent(Phase::Triples),
        Class::Closing => silent(Phase::End),
        _ => with_verb(subject, class, token),
    }
}
