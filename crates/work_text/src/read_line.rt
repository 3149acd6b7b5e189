//! Reading a line of a work.
ghost use Rattle.std.specs.Prelude.{◌≡◌, ◌≢◌, ◌↔◌, ◌++◌, ℕ, List as Bytes, IfOk, IsTrue, MatchOption, codes};
ghost use Rattle.std.specs.List.{list_all};
ghost use Rattle.work_text.specs.Work.{IsName, is_name_byte};
ghost use Rattle.work_text.specs.Verbs.{IsNamedLine};
ghost use Rattle.work_text.specs.WorkReading.{IsReadingOf, IsNameOf};

use crate::work::{Command, Line};
use base_core::{List, Text, Want};
use std::alloc::Global;
use std::str;

/// A document's name has at most so many bytes.
const LONGEST_NAME: usize = 200;

/// Whether the line is the first of a work.
pub fn is_header(line: &[u8]) -> bool
    ensures { IsTrue result ↔ (line.now ≡ codes "bigfed 1") }
{
    line == b"bigfed 1".as_slice()
}

/// The command that stands on a line, where one does.
pub fn line_of(alloc: Global, text: &[u8]) -> Result<Option<Line>, Want>
    ensures { IfOk result (IsReadingOf text.now) }
{
    if let Some(bytes) = behind_load(text) {
        return named_line(alloc, DocumentVerb::Load, bytes);
    }
    if let Some(bytes) = behind_unload(text) {
        return named_line(alloc, DocumentVerb::Unload, bytes);
    }
    if let Some(bytes) = behind_queryfile(text) {
        return named_line(alloc, DocumentVerb::QueryFile, bytes);
    }
    let Some(query) = behind_query(text) else {
        return Ok(None);
    };
    if query.is_empty() {
        return Ok(None);
    }
    let query = List::of(Vec::from_slice(alloc, query)?);
    Ok(Some(of_session_1(Command::Query(query))))
}

/// What is done with a document.
#[derive(Clone, Copy)]
enum DocumentVerb {
    Load,
    Unload,
    QueryFile,
}

impl DocumentVerb {
    ghost use Rattle.work_text.specs.Verbs.{command_with};

    /// The command on the document of this name.
    fn command(self, name: Text) -> Command
        ensures { result ≡ command_with self name }
    {
        match self {
            DocumentVerb::Load => Command::Load(name),
            DocumentVerb::Unload => Command::Unload(name),
            DocumentVerb::QueryFile => Command::QueryFile(name),
        }
    }
}

/// The line with this verb, where the bytes behind it are a document's name.
fn named_line(alloc: Global, verb: DocumentVerb, bytes: &[u8]) -> Result<Option<Line>, Want>
    ensures { IfOk result (IsNamedLine verb bytes.now) }
{
    let Some(name) = name_of(alloc, bytes)? else {
        return Ok(None);
    };
    Ok(Some(of_session_1(verb.command(name))))
}

fn of_session_1(command: Command) -> Line
    ensures { result ≡ record { session = 1; command = command } }
{
    Line {
        session: 1,
        command,
    }
}

fn behind_load(text: &[u8]) -> Option<&[u8]>
    ensures { MatchOption result
        ((rest : Bytes ℕ) → text.now ≢ codes "1 load " ++ rest)
        (λ rest. text.now ≡ codes "1 load " ++ rest.now) }
{
    text.strip_prefix(b"1 load ".as_slice())
}

fn behind_unload(text: &[u8]) -> Option<&[u8]>
    ensures { MatchOption result
        ((rest : Bytes ℕ) → text.now ≢ codes "1 unload " ++ rest)
        (λ rest. text.now ≡ codes "1 unload " ++ rest.now) }
{
    text.strip_prefix(b"1 unload ".as_slice())
}

fn behind_queryfile(text: &[u8]) -> Option<&[u8]>
    ensures { MatchOption result
        ((rest : Bytes ℕ) → text.now ≢ codes "1 queryfile " ++ rest)
        (λ rest. text.now ≡ codes "1 queryfile " ++ rest.now) }
{
    text.strip_prefix(b"1 queryfile ".as_slice())
}

fn behind_query(text: &[u8]) -> Option<&[u8]>
    ensures { MatchOption result
        ((rest : Bytes ℕ) → text.now ≢ codes "1 query " ++ rest)
        (λ rest. text.now ≡ codes "1 query " ++ rest.now) }
{
    text.strip_prefix(b"1 query ".as_slice())
}

/// The bytes as a document's name, where they are one.
fn name_of(alloc: Global, bytes: &[u8]) -> Result<Option<Text>, Want>
    ensures { IfOk result (IsNameOf bytes.now) }
{
    match name_in(bytes) {
        Some(name) => Ok(Some(Text::of(alloc, name)?)),
        None => Ok(None),
    }
}

fn name_in(bytes: &[u8]) -> Option<&str>
    ensures { MatchOption result (¬ IsName bytes.now) (λ name. (name.now ≡ bytes.now) × IsName bytes.now) }
{
    if !is_name(bytes) {
        return None;
    }
    str::from_utf8(bytes).ok()
}

fn is_name(bytes: &[u8]) -> bool
    ensures { IsTrue result ↔ IsName bytes.now }
{
    match bytes.first() {
        None => false,
        Some(first) => *first != b'.' && bytes.len() <= LONGEST_NAME && are_name_bytes(bytes),
    }
}

fn are_name_bytes(bytes: &[u8]) -> bool
    ensures { result ≡ list_all is_name_byte bytes.now }
{
    bytes.iter().all(|b| is_name_byte(*b))
}

fn is_name_byte(b: u8) -> bool
    ensures { result ≡ is_name_byte b }
{
    matches!(b, b'A'..=b'Z' | b'a'..=b'z' | b'0'..=b'9' | b'.' | b'_' | b'-')
}
