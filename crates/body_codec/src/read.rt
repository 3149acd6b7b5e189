//! The change of a body.
ghost use Rattle.std.specs.Prelude.{◌≡◌, ◌<◌, ◌≤◌, ◌+◌, ◌^◌, ◌++◌, [], ℕ, List as Items, length, IfOk, IfErr, IsErrAnd, MatchResult};
ghost use Rattle.change_model.specs.declared.history.Change.{Change as AnyChange};
ghost use Rattle.change_model.specs.declared.history.Kind.{Kind as AnyKind};
ghost use Rattle.body_codec.specs.Body.{head_and_terms, HasSpelling, IsBodyOf, spelled_total};
ghost use Rattle.body_codec.specs.Faults.{BeginWithTerms, IsFirstBadField, IsNoMemory, IsNoMemoryOrAt, IsBodyFault};
ghost use Rattle.body_codec.specs.Reading.{IsBadBodyAt, AreAllStatements};

use crate::fault::BodyFault;
use crate::field::{FORMAT, MOST_STATEMENTS, kind_of, number_in};
use crate::read_statements::read_statements;
use crate::read_terms::read_terms;
use base_core::List;
use change_model::{Change, Kind};
use std::alloc::Global;
use term_core::{Statement, Term};

/// The change whose body the bytes are.
pub fn read_body(alloc: Global, bytes: &[u8]) -> Result<Change, BodyFault>
    requires { length bytes.now < 2 ^ 32 }
    // What is found has a body, and these bytes are it.
    ensures found { IfOk result (λ change. HasSpelling change × IsBodyOf change bytes.now) }
    // Its terms, once for each time that a statement names one, are short enough together to be copied.
    ensures small { IfOk result (λ change. spelled_total change.statements ≤ 38254432) }
    // They are that of no other change.
    ensures only { (change : AnyChange) → HasSpelling change → IsBodyOf change bytes.now → MatchResult result (λ found. found ≡ change) IsNoMemory }
    ensures fault { IfErr result (IsBodyFault bytes.now) }
    // Bytes with a bad field are refused at it, unless memory runs out before.
    ensures bad { (at : ℕ) → IsFirstBadField bytes.now at → IsErrAnd result (IsNoMemoryOrAt at) }
{
    let head = read_head(bytes)?;
    let terms = read_terms(alloc, head.kind, head.count, head.rest)?;
    let statements = read_rest(alloc, &terms.terms, terms.rest, terms.at)?;
    Ok(Change {
        kind: head.kind,
        statements: List::of(statements),
    })
}

/// The fields in front of the terms, and what is behind them.
#[derive(Clone, Copy)]
struct Head<'a> {
    kind: Kind,
    /// How many terms there are.
    count: u32,
    rest: &'a [u8],
}

fn read_head(bytes: &[u8]) -> Result<Head<'_>, BodyFault>
    ensures found { IfOk result (λ head. bytes.now ≡ head_and_terms head.kind head.count [] ++ head.rest.now) }
    ensures fits { IfOk result (λ head. head.count < 2 ^ 32) }
    ensures fault { IfErr result (IsBadBodyAt bytes.now) }
{
    let Some((format, rest)) = bytes.split_first() else {
        return Err(BodyFault::BadBody { at: 0 });
    };
    if *format != FORMAT {
        return Err(BodyFault::BadBody { at: 0 });
    }
    let Some((byte, rest)) = rest.split_first() else {
        return Err(BodyFault::BadBody { at: 1 });
    };
    let Some(kind) = kind_of(*byte) else {
        return Err(BodyFault::BadBody { at: 1 });
    };
    let Some(count) = number_in(rest) else {
        return Err(BodyFault::BadBody { at: 2 });
    };
    Ok(Head {
        kind,
        count: count.value,
        rest: count.rest,
    })
}

/// The statements over these terms, whose count begins at the offset. They name each of the terms, and nothing follows.
fn read_rest(
    alloc: Global,
    terms: &[Term],
    bytes: &[u8],
    at: u32,
) -> Result<Vec<Statement>, BodyFault>
    requires few { length terms.now < 2 ^ 32 }
    requires fits { at + length bytes.now < 2 ^ 32 }
    ensures small { IfOk result (λ statements. spelled_total statements.items ≤ 38254432) }
    ensures found { IfOk result (λ statements. AreAllStatements terms.now bytes.now statements.items) }
    ensures fault { (body : Items ℕ) (kind : AnyKind) → BeginWithTerms body kind (length terms.now) terms.now bytes.now →
        at ≡ length (head_and_terms kind (length terms.now) terms.now) → IfErr result (IsBadBodyAt body) }
{
    let Some(count) = number_in(bytes) else {
        return Err(BodyFault::BadBody { at });
    };
    if count.value > MOST_STATEMENTS {
        return Err(BodyFault::BadBody { at });
    }
    let read = read_statements(alloc, terms, count.value, count.rest, at + 4)?;
    if read.next < terms.len() {
        return Err(BodyFault::BadBody { at });
    }
    if !read.rest.is_empty() {
        return Err(BodyFault::BadBody { at: read.at });
    }
    Ok(read.statements)
}
