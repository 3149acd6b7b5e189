//! Reading the tokens of a query, as they are cut off its text.
ghost use Rattle.std.specs.Prelude.{◌≡◌, IfOk, OnOk};
ghost use Rattle.query_text.specs.Parsing.{IsStep, IsParsed, KnowsPrefixes, seen, noted, start};

use crate::class::{Declarations, class_of};
use crate::next_token::next_token;
use crate::phase::{Phase, Said, Triple, decide};
use crate::token::{Token, skip_gap};
use base_core::Want;
use std::alloc::Global;

/// What has been read of a query: `[4] Prologue` is the declarations, `[9] SelectClause` the columns, and
/// `[55] TriplesBlock` the triples.
#[derive(Debug, Drop)]
pub struct Parser<'a> {
    pub phase: Phase<'a>,
    pub declarations: Declarations<'a>,
    /// Whether `*` stands in place of the columns.
    pub all: bool,
    pub columns: Vec<Token<'a>>,
    pub triples: Vec<Triple<'a>>,
}

/// How far a text is a query.
#[derive(Debug, Drop)]
pub enum Parsed<'a> {
    /// With this token no query goes on.
    Refused(Token<'a>),
    /// All tokens are read, and this is left of the text.
    Read(Parser<'a>, &'a [char]),
}

/// Reads the tokens of the text, up to the first with which no query goes on. They are cut off one by one as they are
/// read; `quiet` is what `next_token` keeps from one to the next.
pub fn parse<'a>(alloc: Global, text: &'a [char]) -> Result<Parsed<'a>, Want>
    ensures { IfOk result (IsParsed text.entry.now) }
{
    let mut parser = begin(alloc);
    let mut rest = text;
    let mut quiet = text.len();
    'tokens: while let Some(token) = next_token(skip_gap(rest), &mut quiet) {
        if !take(&mut parser, token)? {
            return Ok(Parsed::Refused(token));
        }
        rest = token.behind;
    }
    Ok(Parsed::Read(parser, skip_gap(rest)))
}

fn begin<'a>(alloc: Global) -> Parser<'a>
    ensures knows { KnowsPrefixes result.declarations }
    ensures nothing { seen result ≡ start }
{
    Parser {
        phase: Phase::Prologue,
        declarations: Declarations::new(alloc),
        all: false,
        columns: Vec::new(alloc),
        triples: Vec::new(alloc),
    }
}

/// Reads one more token, by the rule that its phase serves; `false` where no query goes on with it.
fn take<'a>(parser: &mut Parser<'a>, token: Token<'a>) -> Result<bool, Want>
    requires { KnowsPrefixes parser.old.declarations }
    ensures knows { OnOk result (KnowsPrefixes parser.new.declarations) }
    ensures step { IfOk result (λ went. IsStep (seen parser.old) token.entry went (seen parser.new)) }
{
    let class = class_of(&parser.declarations, token);
    let Some(next) = decide(parser.phase, class, token) else {
        return Ok(false);
    };
    note(parser, next.said)?;
    parser.phase = next.phase;
    Ok(true)
}

/// Keeps what a token adds to the query.
fn note<'a>(parser: &mut Parser<'a>, said: Said<'a>) -> Result<(), Want>
    requires { KnowsPrefixes parser.old.declarations }
    ensures knows { OnOk result (KnowsPrefixes parser.new.declarations) }
    ensures noted { OnOk result (seen parser.new ≡ noted (seen parser.old) said.entry) }
{
    match said {
        Said::Nothing => {}
        Said::Declaration(declaration) => parser.declarations.add(declaration)?,
        Said::AllColumns => parser.all = true,
        Said::Column(column) => parser.columns.push(column)?,
        Said::Triple(triple) => parser.triples.push(triple)?,
    }
    Ok(())
}
