//! The documents that a work names, over memory forms with ample memory.
ghost use Rattle.std.specs.Prelude.{None};

use super::*;
use base_core::{List, Text};
use std::alloc::Global;
use std::process::Abort;
use std::test::Fail;
use work_text::{Failed, MemoryShelf, MemorySink, Shelf};

const A: &str = "<http://e/a> <http://e/p> <http://e/b> .\n";

const B: &str = "<http://e/b> <http://e/p> <http://e/c> .\n";

const LABEL: &str = "<http://e/a> <http://e/p> <http://e/b> .\n_:x <http://e/p> <http://e/b> .\n";

/// A work under the name `w.txt`, and documents under `a.nt`, `b.nt` and `label.nt`.
fn shelf(
    rt: &(impl Abort + AllocGlobal),
    work: &str,
    fails: Vec<u64>,
) -> Result<MemoryShelf, Fail> {
    let alloc = rt.alloc();
    let names = vec![in alloc;
        Text::of(alloc, "w.txt")?,
        Text::of(alloc, "a.nt")?,
        Text::of(alloc, "b.nt")?,
        Text::of(alloc, "label.nt")?,
    ]?;
    let documents = vec![in alloc;
        bytes(alloc, work)?,
        bytes(alloc, A)?,
        bytes(alloc, B)?,
        bytes(alloc, LABEL)?,
    ]?;
    assert_eq!(rt; names.len(), documents.len());
    Ok(MemoryShelf::make(alloc, List::of(names), List::of(documents), fails)?)
}

fn bytes(alloc: Global, text: &str) -> Result<List<u8>, Fail> {
    Ok(List::of(Vec::from_slice(alloc, text.as_bytes())?))
}

/// Runs the work over a shelf, and compares what is printed and the status.
fn expect<S: Shelf>(
    rt: &(impl Abort + AllocGlobal),
    shelf: &mut S,
    status: u8,
    text: &str,
) -> Result<(), Fail> {
    let alloc = rt.alloc();
    let words = vec![in alloc;
        String::from_str(alloc, "replay")?,
        String::from_str(alloc, "w.txt")?,
    ]?;
    let mut sink = MemorySink::make(alloc, 1000, Vec::new(alloc))?;
    let ended = bigfed(alloc, words.as_slice(), shelf, &mut sink);
    assert_eq!(rt; sink.bytes(), text.as_bytes());
    assert_eq!(rt; ended.code, status, "after {text}");
    Ok(())
}

#[test]
fn what_was_loaded_is_unloaded(rt: HostRuntime) -> Result<(), Fail> {
    let work =
        "bigfed 1\n1 load a.nt\n1 load b.nt\n1 unload a.nt\n1 query SELECT * WHERE { ?s ?p ?o }\n";
    let mut documents = shelf(&rt, work, Vec::new(rt.alloc()))?;
    expect(
        &rt,
        &mut documents,
        0,
        "opened 0\nsession 1\n1 load time 1\n2 load time 2\n3 unload time 3\n4 query time 3 rows 1\n?s\t?p\t?o\n<http://e/b>\t<http://e/p>\t<http://e/c>\nhistory 3\n1 1 1\n2 1 2\n3 1 3\n",
    )
}

#[test]
fn a_label_is_a_node_of_its_change(rt: HostRuntime) -> Result<(), Fail> {
    let work =
        "bigfed 1\n1 load label.nt\n1 load label.nt\n1 query SELECT ?s WHERE { ?s <http://e/p> ?o }\n";
    let mut documents = shelf(&rt, work, Vec::new(rt.alloc()))?;
    expect(
        &rt,
        &mut documents,
        0,
        "opened 0\nsession 1\n1 load time 1\n2 load time 2\n3 query time 2 rows 3\n?s\n<http://e/a>\n_:c1.x\n_:c2.x\nhistory 2\n1 1 1\n2 1 2\n",
    )
}

/// The work and the one document that it unloads take three calls each.
#[test]
fn faults_at_an_unloaded_document_are_counted(rt: HostRuntime) -> Result<(), Fail> {
    let work = "bigfed 1\n1 unload a.nt\n1 unload a.nt\n";
    for call in 1..7u64 {
        let fails = vec![in rt.alloc(); call]?;
        let mut documents = shelf(&rt, work, fails)?;
        expect(&rt, &mut documents, 3, "shelf fault 1\n")?;
    }
    let fails = vec![in rt.alloc(); 7u64]?;
    let mut documents = shelf(&rt, work, fails)?;
    expect(
        &rt,
        &mut documents,
        0,
        "opened 0\nsession 1\n1 unload time 1\n2 unload time 2\nhistory 2\n1 1 1\n2 1 2\n",
    )
}

/// A shelf that notes the names that are asked for.
#[derive(Drop)]
struct NotingShelf {
    documents: MemoryShelf,
    noted: Vec<u8>,
}

impl Shelf for NotingShelf {
    ghost documents = { λ _. None };

    ghost left = { λ _. None };

    ghost fault_count = { λ shelf. ⟦<MemoryShelf as Shelf>⟧.fault_count shelf.documents };

    fn faults(&self) -> u64 {
        self.documents.faults()
    }

    fn fetch(&mut self, name: &Text) -> Result<bool, Failed> {
        let _ = self.noted.extend_from_slice(name.text().as_bytes());
        let _ = self.noted.push(b' ');
        self.documents.fetch(name)
    }

    fn read(&mut self, out: &mut [u8]) -> Result<usize, Failed> {
        self.documents.read(out)
    }
}

#[test]
fn each_document_is_read_once_by_first_naming(rt: HostRuntime) -> Result<(), Fail> {
    let work =
        "bigfed 1\n1 unload b.nt\n1 query SELECT * WHERE { ?s ?p ?o }\n1 load none.nt\n1 load a.nt\n1 load b.nt\n1 unload a.nt\n";
    let mut noting = NotingShelf {
        documents: shelf(&rt, work, Vec::new(rt.alloc()))?,
        noted: Vec::new(rt.alloc()),
    };
    expect(
        &rt,
        &mut noting,
        1,
        "opened 0\nsession 1\n1 unload time 1\n2 query time 1 rows 0\n?s\t?p\t?o\n3 load refused no document\n4 load time 2\n5 load time 3\n6 unload time 4\nhistory 4\n1 1 1\n2 1 4\n3 1 5\n4 1 6\n",
    )?;
    assert_eq!(rt;
        noting.noted.as_slice(),
        b"w.txt b.nt none.nt a.nt ".as_slice()
    );
    Ok(())
}
