//! Reading whole documents from a shelf.
ghost use Rattle.std.specs.Prelude.{◌≡◌, ℕ, ◌+◌, ◌≤◌, ◌<◌, ◌^◌, Option, List as Items, [], IfOk, IfSome, IfNone, IsErrOf, IsTrue, false, vec_len, MatchOption};
ghost use Rattle.base_core.specs.Faults.{HasRisen};
ghost use Rattle.work_text.specs.Outside.{IsDocOf, IsWithin};
ghost use Rattle.bigfed.specs.Documents.{docs_of, AreGathered};
ghost use Rattle.bigfed.specs.Program.{AreDocuments, IsNamed, name_of, size_of, total, with_document, with_lines};
ghost use Rattle.bigfed.specs.Names.{with_name};
ghost use Rattle.bigfed.specs.Reading.{IsPartly, DocumentGoesOn};
ghost use Rattle.bigfed.specs.declared.shelf.ShelfFault.TheVariants.{NoMemory, Failed as Fails};
ghost use Rattle.nt_text.specs.Limits.{largest_document};
ghost use Rattle.bigfed.specs.Limits.{largest_documents};

use base_core::{List, Text, Want};
use std::alloc::{AllocError, AllocFailed, Global};
use std::collections::BTreeMap;
use work_text::{Command, Doc, Failed, Line, Shelf, Work};

/// How many bytes a document may have.
pub const MOST_DOCUMENT_BYTES: usize = 33_554_432;

/// How many bytes the documents of a work may have together.
const MOST_BYTES_TOGETHER: usize = 536_870_912;

/// How many bytes are read at once.
const CHUNK: usize = 65_536;

/// The documents that a work names.
pub type Docs = BTreeMap<Text, Doc>;

/// Why documents could not be read.
#[derive(Clone, Copy, Debug, PartialEq, Eq)]
pub enum ShelfFault {
    NoMemory,
    Failed,
}

impl From<AllocError> for ShelfFault {
    ghost from_gives = { λ _ e. e ≡ NoMemory };

    fn from(_e: AllocError) -> ShelfFault {
        ShelfFault::NoMemory
    }
}

impl<T: Drop> From<AllocFailed<T>> for ShelfFault {
    ghost from_gives = { λ _ e. e ≡ NoMemory };

    fn from(_e: AllocFailed<T>) -> ShelfFault {
        ShelfFault::NoMemory
    }
}

impl From<Want> for ShelfFault {
    ghost from_gives = { λ _ e. e ≡ NoMemory };

    fn from(_e: Want) -> ShelfFault {
        ShelfFault::NoMemory
    }
}

impl From<Failed> for ShelfFault {
    ghost from_gives = { λ _ e. e ≡ Fails };

    fn from(_e: Failed) -> ShelfFault {
        ShelfFault::Failed
    }
}

/// Reads the document of a name, up to `most` bytes.
pub fn read_whole<S: Shelf>(
    alloc: Global,
    shelf: &mut S,
    name: &Text,
    most: usize,
) -> Result<Doc, ShelfFault>
    requires { most < 2 ^ 62 }
    ensures found { IfOk result (IsDocOf (S.documents shelf.old) most name.now) }
    ensures same { S.documents shelf.new ≡ S.documents shelf.old }
    ensures later { S.fault_count shelf.old ≤ S.fault_count shelf.new }
    ensures fault { IsErrOf result ShelfFault.Failed → HasRisen (S.fault_count shelf.old) (S.fault_count shelf.new) }
{
    if !shelf.fetch(name)? {
        return Ok(Doc::Missing);
    }
    let mut buffer = chunk(alloc)?;
    let mut bytes = Vec::new(alloc);
    'chunks: while bytes.len() <= most {
        let more = read_chunk(shelf, &mut buffer, &mut bytes)?;
        if !more {
            return Ok(Doc::Bytes(List::of(bytes)));
        }
    }
    Ok(Doc::TooLarge)
}

/// Room for a chunk.
fn chunk(alloc: Global) -> Result<Vec<u8>, Want>
    ensures { IfOk result (λ buffer. 0 < vec_len buffer) }
{
    let mut buffer = Vec::new(alloc);
    buffer.resize(CHUNK, 0)?;
    Ok(buffer)
}

/// Reads a chunk of the document behind the bytes that were read before, and answers whether it may go on.
fn read_chunk<S: Shelf>(
    shelf: &mut S,
    buffer: &mut Vec<u8>,
    bytes: &mut Vec<u8>,
) -> Result<bool, ShelfFault>
    requires { 0 < vec_len buffer.old }
    ensures read { (told : Option (Items (Items ℕ × Items ℕ))) → (name : Items ℕ) →
        IsPartly told name bytes.old.items (S.left shelf.old) →
        IfOk result (λ more. DocumentGoesOn more told name bytes.new.items (S.left shelf.new)) }
    ensures longer { IfOk result (λ more. IsTrue more → vec_len bytes.old < vec_len bytes.new) }
    ensures stays { IfOk result (λ more. more ≡ false → bytes.new.items ≡ bytes.old.items) }
    ensures room { 0 < vec_len buffer.new }
    ensures same { S.documents shelf.new ≡ S.documents shelf.old }
    ensures later { S.fault_count shelf.old ≤ S.fault_count shelf.new }
    ensures fault { IsErrOf result ShelfFault.Failed → HasRisen (S.fault_count shelf.old) (S.fault_count shelf.new) }
{
    let n = shelf.read(buffer.as_mut_slice())?;
    if n == 0 {
        return Ok(false);
    }
    let (read, _) = buffer.split_at(n);
    bytes.extend_from_slice(read)?;
    Ok(true)
}

/// Reads each document that a work loads or unloads, once, by first naming. It stops where those that were read so far
/// are too large together, and answers `None` then.
pub fn gather<S: Shelf>(
    alloc: Global,
    shelf: &mut S,
    work: &Work,
) -> Result<Option<Docs>, ShelfFault>
    ensures found { IfOk result (λ gathered. IfSome gathered (λ docs. (name : Items ℕ) → IsNamed name work.now.lines →
        IsDocOf (S.documents shelf.old) largest_document name (docs_of docs name))) }
    ensures small { IfOk result (λ gathered. IfSome gathered (λ docs.
        total (docs_of docs) (with_lines [] work.now.lines) ≤ largest_documents)) }
    ensures large { IfOk result (λ gathered. IfNone gathered ((docs : Items ℕ → Doc) × (size : ℕ)
        × AreDocuments (S.documents shelf.old) work.now docs size × (largest_documents < size))) }
    ensures within { IfOk result (λ gathered. IfSome gathered (λ docs.
        (name : Items ℕ) → IsWithin largest_document (docs_of docs name))) }
    ensures same { S.documents shelf.new ≡ S.documents shelf.old }
    ensures later { S.fault_count shelf.old ≤ S.fault_count shelf.new }
    ensures fault { IsErrOf result ShelfFault.Failed → HasRisen (S.fault_count shelf.old) (S.fault_count shelf.new) }
{
    let mut docs = BTreeMap::new(alloc);
    let mut size = 0usize;
    for line in work.lines.items() {
        size += add_line(alloc, shelf, &mut docs, line)?;
        if size > MOST_BYTES_TOGETHER {
            return Ok(None);
        }
    }
    Ok(Some(docs))
}

/// The name of the document that a command needs.
fn document_of(command: &Command) -> Option<&Text>
    ensures { MatchOption result (name_of command.now ≡ None) (λ name. name_of command.now ≡ Some name.now) }
{
    match command {
        Command::Load(name) | Command::Unload(name) | Command::QueryFile(name) => Some(name),
        Command::Query(_) => None,
    }
}

/// Reads the document that a line needs, if it needs one, and answers how many bytes were added.
fn add_line<S: Shelf>(
    alloc: Global,
    shelf: &mut S,
    docs: &mut Docs,
    line: &Line,
) -> Result<usize, ShelfFault>
    ensures gathered { (names : Items (Items ℕ)) → (size : ℕ) → AreGathered (S.documents shelf.old) docs.old names size → IfOk result (λ more.
        AreGathered (S.documents shelf.old) docs.new (with_document names (name_of line.now.command)) (size + more)) }
    ensures few { IfOk result (λ more. more ≤ largest_document) }
    ensures same { S.documents shelf.new ≡ S.documents shelf.old }
    ensures later { S.fault_count shelf.old ≤ S.fault_count shelf.new }
    ensures fault { IsErrOf result ShelfFault.Failed → HasRisen (S.fault_count shelf.old) (S.fault_count shelf.new) }
{
    match document_of(&line.command) {
        Some(name) => add(alloc, shelf, docs, name),
        None => Ok(0),
    }
}

/// Reads the document of this name unless it was read before, and answers how many bytes were added.
fn add<S: Shelf>(
    alloc: Global,
    shelf: &mut S,
    docs: &mut Docs,
    name: &Text,
) -> Result<usize, ShelfFault>
    ensures gathered { (names : Items (Items ℕ)) → (size : ℕ) → AreGathered (S.documents shelf.old) docs.old names size → IfOk result (λ more.
        AreGathered (S.documents shelf.old) docs.new (with_name names name.now) (size + more)) }
    ensures few { IfOk result (λ more. more ≤ largest_document) }
    ensures same { S.documents shelf.new ≡ S.documents shelf.old }
    ensures later { S.fault_count shelf.old ≤ S.fault_count shelf.new }
    ensures fault { IsErrOf result ShelfFault.Failed → HasRisen (S.fault_count shelf.old) (S.fault_count shelf.new) }
{
    if docs.contains_key(name) {
        return Ok(0);
    }
    let doc = read_whole(alloc, shelf, name, MOST_DOCUMENT_BYTES)?;
    let size = size_of(&doc);
    docs.insert(name.copy(alloc)?, doc)?;
    Ok(size)
}

/// How many bytes a document counts for.
fn size_of(doc: &Doc) -> usize
    ensures { result ≡ size_of doc.now }
{
    match doc {
        Doc::Bytes(bytes) => bytes.items().len(),
        Doc::Missing | Doc::TooLarge => 0,
    }
}
