//! The rows of one time, in their order.
ghost use Rattle.std.specs.Prelude.{◌≡◌, map, IfOk, OnOk};
ghost use Rattle.std.specs.List.Sorted.{IsPermutation, IsSorted};
ghost use Rattle.base_core.specs.Numbers.{number_bytes};
ghost use Rattle.triple_keys.specs.declared.order.Order.TheVariants.{Spo, Pos, Osp};
ghost use Rattle.base_core.specs.Lists.{Has};
ghost use Rattle.row_core.specs.declared.rows.Row.{Row as AnyRow};
ghost use Rattle.row_core.specs.Rows.{StandInOrder, AreChanges};
ghost use Rattle.change_model.specs.IndexRows.{cell_of};
ghost use Rattle.change_model.specs.EntryRows.{HaveOwnKeys, AreOrdered, key_cmp, term_row, id_row, statement_row};

use crate::history::Kind;
use crate::numbering::NewTerm;
use base_core::Want;
use fed_bytes::Key;
use row_core::{Cell, Row, Rows};
use std::alloc::Global;
use triple_keys::{Ids, Order, compare, key_of};

/// The rows of the terms that have new ids, by their spellings.
pub(crate) fn term_rows(alloc: Global, terms: Vec<NewTerm>, time: u64) -> Result<Rows, Want>
    ensures changes { IfOk result (AreChanges time) }
    ensures ordered { IfOk result (λ made. HaveOwnKeys (map (term_row time) terms.items) → AreOrdered made (map (term_row time) terms.items)) }
{
    let mut rows = Vec::with_capacity(alloc, terms.len())?;
    'terms: for term in terms {
        rows.push(term_row(alloc, term, time)?)?;
    }
    by_key(rows)
}

/// The rows by key. All are kept where each has a key of its own, else one of each key.
fn by_key(mut rows: Vec<Row>) -> Result<Rows, Want>
    ensures order { IfOk result StandInOrder }
    ensures kept { IfOk result (λ made. (row : AnyRow) → Has made row → Has rows.items row) }
    ensures ordered { IfOk result (λ made. HaveOwnKeys rows.items → AreOrdered made rows.items) }
{
    rows.sort_by(|one, other| one.key.cmp(&other.key))?;
    rows.dedup_by(|one, other| one.key.cmp(&other.key).is_eq());
    Ok(Rows::of(rows))
}

fn term_row(alloc: Global, term: NewTerm, time: u64) -> Result<Row, Want>
    ensures { IfOk result (λ row. row ≡ term_row time term) }
{
    let cell = Cell::Value(number_key(alloc, term.id)?);
    Ok(Row {
        key: term.key,
        time,
        cell,
    })
}

/// The rows of the new ids, in the sequence of these.
pub(crate) fn id_rows(alloc: Global, terms: &[NewTerm], time: u64) -> Result<Rows, Want>
    ensures { IfOk result (λ made. made ≡ map (id_row time) terms.now) }
{
    let mut rows = Vec::with_capacity(alloc, terms.len())?;
    'terms: for term in terms {
        rows.push(id_row(alloc, term, time)?)?;
    }
    Ok(Rows::of(rows))
}

fn id_row(alloc: Global, term: &NewTerm, time: u64) -> Result<Row, Want>
    ensures { IfOk result (λ row. row ≡ id_row time term.now) }
{
    let key = number_key(alloc, term.id)?;
    let cell = Cell::Value(term.key.copy(alloc)?);
    Ok(Row { key, time, cell })
}

/// The rows of the statements of a change in the three orders.
#[derive(Drop)]
pub(crate) struct StatementRows {
    pub(crate) spo: Rows,
    pub(crate) pos: Rows,
    pub(crate) osp: Rows,
}

/// The rows of statements with these ids, by their keys in each of the orders.
pub(crate) fn statement_rows(
    alloc: Global,
    kind: Kind,
    statements: Vec<Ids>,
    time: u64,
) -> Result<StatementRows, Want>
    ensures spo { IfOk result (λ made. AreOrdered made.spo (map (statement_row Spo kind time) statements.items)) }
    ensures pos { IfOk result (λ made. AreOrdered made.pos (map (statement_row Pos kind time) statements.items)) }
    ensures osp { IfOk result (λ made. AreOrdered made.osp (map (statement_row Osp kind time) statements.items)) }
{
    let mut ids = statements;
    sort(Order::Spo, &mut ids)?;
    ids.dedup_by(|one, other| compare(Order::Spo, one, other).is_eq());
    let spo = rows_of(alloc, Order::Spo, kind, &ids, time)?;
    sort(Order::Pos, &mut ids)?;
    let pos = rows_of(alloc, Order::Pos, kind, &ids, time)?;
    sort(Order::Osp, &mut ids)?;
    let osp = rows_of(alloc, Order::Osp, kind, &ids, time)?;
    Ok(StatementRows { spo, pos, osp })
}

/// Puts the ids in the sequence of their keys in the order.
fn sort(order: Order, ids: &mut Vec<Ids>) -> Result<(), Want>
    ensures moved { IsPermutation ids.old.items ids.new.items }
    ensures sorted { OnOk result (IsSorted (key_cmp order) ids.new.items) }
{
    ids.sort_by(|one, other| compare(order, one, other))?;
    Ok(())
}

/// The rows of the statements with these ids, in their sequence.
fn rows_of(
    alloc: Global,
    order: Order,
    kind: Kind,
    statements: &[Ids],
    time: u64,
) -> Result<Rows, Want>
    ensures { IfOk result (λ made. made ≡ map (statement_row order kind time) statements.now) }
{
    let mut rows = Vec::with_capacity(alloc, statements.len())?;
    'statements: for ids in statements {
        rows.push(statement_row(alloc, order, kind, ids, time)?)?;
    }
    Ok(Rows::of(rows))
}

fn statement_row(alloc: Global, order: Order, kind: Kind, ids: &Ids, time: u64) -> Result<Row, Want>
    ensures { IfOk result (λ row. row ≡ statement_row order kind time ids.now) }
{
    let key = key_of(alloc, order, *ids)?;
    let cell = cell_of(alloc, kind);
    Ok(Row { key, time, cell })
}

fn cell_of(alloc: Global, kind: Kind) -> Cell
    ensures { result ≡ cell_of kind }
{
    match kind {
        Kind::Add => Cell::Value(Key::from_bytes(Vec::new(alloc))),
        Kind::Remove => Cell::Deleted,
    }
}

fn number_key(alloc: Global, number: u64) -> Result<Key, Want>
    ensures { IfOk result (λ key. key ≡ number_bytes number) }
{
    Key::of(alloc, &number.to_be_bytes())
}
