//! The query that the tokens say, once all of them are read.
//!
//! Columns and triples are gone through once, in the order of the text: texts are made of tokens (`token_text.rt`), and
//! names get their places (`naming.rt`).
ghost use Rattle.std.specs.Prelude.{◌≡◌, length, map, IfOk, OnOk};
ghost use Rattle.std.specs.List.{range_with_len};
ghost use Rattle.query_text.specs.Grammar.{Written};
ghost use Rattle.query_text.specs.Meaning.{query_of, selected, from_triples, variables_of_node, labels_of_node};
ghost use Rattle.query_text.specs.Parsing.{seen};
ghost use Rattle.query_text.specs.Saying.{Says};
ghost use Rattle.query_text.specs.Building.{KnowsNames, Stand, with_names, of_triple, node_said, triple_said, columns_said, chosen_or_all, IsSlot, IsPattern, ArePatterns, AreChosen};

use crate::class::Declaration;
use crate::naming::{Names, Scope};
use crate::parse::Parser;
use crate::phase::{Node, Triple};
use crate::token::Token;
use crate::value::value_of;
use base_core::{List, Want};
use bgp_model::{Pattern, Query, Slot};
use std::alloc::Global;

/// The query that was read.
pub fn query_of<'a>(alloc: Global, parser: &Parser<'a>) -> Result<Query, Want>
    // However what was read is written as the grammar has it, this is the query.
    ensures made { IfOk result (λ query. (written : Written) → Says (seen parser.now) written → query ≡ query_of written) }
{
    let mut scope = Scope::new(alloc);
    let chosen = chosen(alloc, &mut scope.variables, parser.all, &parser.columns)?;
    let patterns = patterns_of(
        alloc,
        &mut scope,
        &parser.declarations.list,
        &parser.triples,
    )?;
    let columns = columns_of(alloc, chosen, scope.variables.list.len())?;
    let Ok(labels) = u32::try_from(scope.labels.list.len()) else {
        return Err(Want::NoMemory);
    };
    Ok(Query {
        names: List::of(scope.variables.list),
        labels,
        patterns,
        columns,
    })
}

/// The places of the columns; `None` where `*` stands for all.
fn chosen(
    alloc: Global,
    variables: &mut Names,
    all: bool,
    columns: &[Token],
) -> Result<Option<List<u32>>, Want>
    requires { KnowsNames variables.old.list.items variables.old.places }
    ensures knows { OnOk result (KnowsNames variables.new.list.items variables.new.places) }
    ensures names { OnOk result (variables.new.list.items ≡ with_names variables.old.list.items (selected (columns_said all columns.now))) }
    ensures chosen { IfOk result (AreChosen variables.new.list.items (columns_said all columns.now)) }
{
    if all {
        return Ok(None);
    }
    Ok(Some(List::of(variables.places_of(alloc, columns)?)))
}

/// The columns, where there are so many variables.
fn columns_of(alloc: Global, chosen: Option<List<u32>>, count: usize) -> Result<List<u32>, Want>
    ensures { IfOk result (λ columns. columns ≡ chosen_or_all chosen count) }
{
    match chosen {
        Some(columns) => Ok(columns),
        None => every_place(alloc, count),
    }
}

fn every_place(alloc: Global, count: usize) -> Result<List<u32>, Want>
    ensures { IfOk result (λ all. all ≡ range_with_len 0 count) }
{
    let Ok(end) = u32::try_from(count) else {
        return Err(Want::NoMemory);
    };
    let all: Vec<u32> = (0..end).collect(alloc)?;
    Ok(List::of(all))
}

fn patterns_of(
    alloc: Global,
    scope: &mut Scope,
    declarations: &[Declaration],
    triples: &[Triple],
) -> Result<List<Pattern>, Want>
    requires { Stand scope.old }
    ensures variables { OnOk result (scope.new.variables.list.items
        ≡ with_names scope.old.variables.list.items (from_triples variables_of_node (map (triple_said declarations.now) triples.now))) }
    ensures labels { OnOk result (scope.new.labels.list.items
        ≡ with_names scope.old.labels.list.items (from_triples labels_of_node (map (triple_said declarations.now) triples.now))) }
    ensures patterns { IfOk result (ArePatterns scope.new.variables.list.items scope.new.labels.list.items (map (triple_said declarations.now) triples.now)) }
{
    let mut patterns = Vec::new(alloc);
    'triples: for triple in triples {
        patterns.push(pattern_of(alloc, scope, declarations, *triple)?)?;
    }
    Ok(List::of(patterns))
}

fn pattern_of(
    alloc: Global,
    scope: &mut Scope,
    declarations: &[Declaration],
    triple: Triple,
) -> Result<Pattern, Want>
    requires { Stand scope.old }
    ensures stand { OnOk result (Stand scope.new) }
    ensures variables { OnOk result (scope.new.variables.list.items ≡ with_names scope.old.variables.list.items (of_triple variables_of_node (triple_said declarations.now triple.entry))) }
    ensures labels { OnOk result (scope.new.labels.list.items ≡ with_names scope.old.labels.list.items (of_triple labels_of_node (triple_said declarations.now triple.entry))) }
    ensures pattern { IfOk result (IsPattern scope.new.variables.list.items scope.new.labels.list.items (triple_said declarations.now triple.entry)) }
{
    let subject = slot_of(alloc, scope, declarations, triple.subject)?;
    let predicate = slot_of(alloc, scope, declarations, triple.predicate)?;
    let object = slot_of(alloc, scope, declarations, triple.object)?;
    Ok(Pattern {
        subject,
        predicate,
        object,
    })
}

fn slot_of(
    alloc: Global,
    scope: &mut Scope,
    declarations: &[Declaration],
    node: Node,
) -> Result<Slot, Want>
    requires { Stand scope.old }
    ensures stand { OnOk result (Stand scope.new) }
    ensures variables { OnOk result (scope.new.variables.list.items ≡ with_names scope.old.variables.list.items (variables_of_node (node_said declarations.now node.entry))) }
    ensures labels { OnOk result (scope.new.labels.list.items ≡ with_names scope.old.labels.list.items (labels_of_node (node_said declarations.now node.entry))) }
    ensures slot { IfOk result (IsSlot scope.new.variables.list.items scope.new.labels.list.items (node_said declarations.now node.entry)) }
{
    let value = value_of(alloc, declarations, node)?;
    scope.slot(alloc, value)
}
