//! Running a work over the documents that it names.
ghost use Rattle.std.specs.Prelude.{◌≡◌, ◌≤◌, ◌+◌, ℕ, List, length, IfOk, OnOk};
ghost use Rattle.change_model.specs.History.{History};
ghost use Rattle.work_text.specs.Outside.{IsWithin};
ghost use Rattle.bigfed.specs.Documents.{docs_of};
ghost use Rattle.bigfed.specs.Legal.{Legal, Step};
ghost use Rattle.bigfed.specs.Standing.{StoreStandsFor};
ghost use Rattle.nt_text.specs.Limits.{largest_document};

use crate::shelf::Docs;
use crate::store::Store;
use base_core::{List, Text, Want};
use change_model::{Kind, Origin};
use std::alloc::Global;
use work_text::{Command, Doc, Line, Outcome, RunReport, Work};

/// Runs the commands of a work in order, from the empty history on.
pub fn replay(alloc: Global, work: &Work, docs: &Docs) -> Result<RunReport, Want>
    requires few { length work.now.lines ≤ 4096 }
    requires within { (name : List ℕ) → IsWithin largest_document (docs_of docs.now name) }
    ensures legal { IfOk result (λ report. (history : History) × Legal (docs_of docs.now) work.now report history) }
    ensures commits { IfOk result (λ report. length report.origins ≤ length work.now.lines) }
{
    let mut store = Store::new(alloc)?;
    let mut outcomes = Vec::new(alloc);
    let mut place = 1u32;
    for line in work.lines.items() {
        let outcome = run_line(alloc, &mut store, docs, line, place)?;
        outcomes.push(outcome)?;
        place += 1;
    }
    Ok(RunReport {
        opened: 0,
        outcomes: List::of(vec![in alloc; List::of(outcomes)]?),
        origins: store.into_origins(),
    })
}

/// Runs the command at this place in its session.
fn run_line(
    alloc: Global,
    store: &mut Store,
    docs: &Docs,
    line: &Line,
    place: u32,
) -> Result<Outcome, Want>
    requires within { (name : List ℕ) → IsWithin largest_document (docs_of docs.now name) }
    requires standing { (history : History) × StoreStandsFor store.old history }
    ensures step { (history : History) → StoreStandsFor store.old history → IfOk result (λ outcome. (after : History)
        × Step (docs_of docs.now) (record { session = line.now.session; command = place }) line.now.command history outcome after
        × StoreStandsFor store.new after) }
    ensures commits { OnOk result (length store.new.origins ≤ length store.old.origins + 1) }
{
    let origin = Origin {
        session: line.session,
        command: place,
    };
    let missing = Doc::Missing;
    match &line.command {
        Command::Load(name) => {
            let doc = document_in(docs, name, &missing);
            store.change(alloc, Kind::Add, doc, origin)
        }
        Command::Unload(name) => {
            let doc = document_in(docs, name, &missing);
            store.change(alloc, Kind::Remove, doc, origin)
        }
        Command::Query(text) => store.query(alloc, text.items()),
        Command::QueryFile(name) => store.query_document(alloc, document_in(docs, name, &missing)),
    }
}

/// The document of the name, which was asked for: there is none under another.
fn document_in<'a>(docs: &'a Docs, name: &Text, missing: &'a Doc) -> &'a Doc
    requires { missing.now ≡ Doc.Missing }
    ensures { result.now ≡ docs_of docs.now name.now }
{
    match docs.get(name) {
        Some(doc) => doc,
        None => missing,
    }
}
