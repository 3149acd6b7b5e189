//! Reading the text of a query.
ghost use Rattle.std.specs.Prelude.{◌≡◌, ◌≤◌, ◌+◌, ◌++◌, ◌&&◌, length, IfOk, IfErr, IsErrAnd, MatchResult};
ghost use Rattle.bgp_model.specs.Solutions.{HasPlaces};
ghost use Rattle.bgp_model.specs.declared.query.Query.{Query as Asked};
ghost use Rattle.query_text.specs.Limits.{largest_query, most_patterns};
ghost use Rattle.query_text.specs.Meaning.{ReadsQuery, HasTerms};
ghost use Rattle.std.specs.List.{AllByRecursion};
ghost use Rattle.query_text.specs.Outcomes.{IsRefusal, is_end, is_whole};
ghost use Rattle.query_text.specs.Parsing.{is_empty};
ghost use Rattle.query_text.specs.Reading.{token_of};
ghost use Rattle.query_text.specs.Refusals.{IsBadText, IsNoMemory, IsNoMemoryOr, IsQueryFault};
ghost use Rattle.std.specs.Str.{encode_utf8_all};

use crate::build::query_of;
use crate::decode::decode;
use crate::fault::QueryFault;
use crate::left_out::left_out;
use crate::limits::MOST_PATTERNS;
use crate::parse::{Parsed, parse};
use crate::phase::Phase;
use crate::place::{place_before, place_of};
use crate::token::Token;
use bgp_model::Query;
use std::alloc::Global;

/// The query that a text says (SPARQL 1.1 Query Language, section 4 and its grammar, with one basic graph pattern):
/// `[1] QueryUnit ::= Query`.
pub fn read_query(alloc: Global, text: &[u8]) -> Result<Query, QueryFault>
    requires { length text.now ≤ largest_query }
    // What is read is what the text says.
    ensures found { IfOk result (ReadsQuery text.now) }
    ensures places { IfOk result HasPlaces }
    ensures terms { IfOk result (λ query. AllByRecursion HasTerms query.patterns) }
    ensures few { IfOk result (λ query. length query.patterns ≤ most_patterns) }
    // A text says nothing else.
    ensures only { (query : Asked) → ReadsQuery text.now query → length query.patterns ≤ most_patterns → MatchResult result (λ found. found ≡ query) IsNoMemory }
    ensures fault { IfErr result (IsQueryFault text.now) }
    // A text at whose place reading stops, or with too many patterns, is refused for that, or memory ran out.
    ensures bad { (fault : QueryFault) → IsBadText text.now fault → IsErrAnd result (IsNoMemoryOr fault) }
{
    let (characters, bad) = decode(alloc, text)?;
    let (parser, rest) = match parse(alloc, &characters)? {
        Parsed::Refused(token) => return Err(refusal(text.len(), &token, bad)),
        Parsed::Read(parser, rest) => (parser, rest),
    };
    if !is_whole(&parser.phase, rest, bad) {
        let place = place_before(text.len(), rest, bad);
        return Err(QueryFault::At { place });
    }
    if parser.triples.len() > MOST_PATTERNS {
        return Err(QueryFault::TooManyPatterns);
    }
    let query = query_of(alloc, &parser)?;
    Ok(query)
}

/// The refusal of a token, in a text of so many bytes with bad bytes at its end.
fn refusal(size: usize, token: &Token, bad: &[u8]) -> QueryFault
    requires short { size ≤ largest_query }
    requires within { length (encode_utf8_all (token.now.characters.now ++ token.now.behind.now)) + length bad.now ≤ size }
    ensures { IsRefusal size (token_of token.now) token.now.behind.now bad.now result }
{
    let place = place_of(size, token, bad);
    match left_out(token) {
        Some(word) => QueryFault::LeftOut { place, word },
        None => QueryFault::At { place },
    }
}

/// Whether a query was read to its closing brace, and nothing is left.
fn is_whole(phase: &Phase, rest: &[char], bad: &[u8]) -> bool
    ensures { result ≡ is_whole phase.now rest.now bad.now }
{
    is_end(phase) && is_nothing(rest, bad)
}

fn is_end(phase: &Phase) -> bool
    ensures { result ≡ is_end phase.now }
{
    matches!(phase, Phase::End)
}

fn is_nothing(rest: &[char], bad: &[u8]) -> bool
    ensures { result ≡ (is_empty rest.now && is_empty bad.now) }
{
    rest.is_empty() && bad.is_empty()
}
