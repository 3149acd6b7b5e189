//! The body of a change.
ghost use Rattle.std.specs.Prelude.{◌≡◌, ◌<◌, ◌^◌, ◌++◌, length, map, IfOk, OnOk};
ghost use Rattle.std.specs.List.{flat_map, AllByRecursion};
ghost use Rattle.term_core.specs.Spelling.{spelling};
ghost use Rattle.body_codec.specs.Body.{term_field, statement_field, HasSpelling, IsBodyOf};
ghost use Rattle.body_codec.specs.Writing.{counted, IsShort};

use crate::field::{FORMAT, kind_byte};
use base_core::{Want, put_u32};
use change_model::{Change, Places, Vocabulary, vocabulary_of};
use std::alloc::Global;

/// The body of this change.
pub fn write_body(alloc: Global, change: &Change) -> Result<Vec<u8>, Want>
    requires { HasSpelling change.now }
    ensures { IfOk result (λ bytes. IsBodyOf change.now bytes.items) }
{
    let vocabulary = vocabulary_of(alloc, &change.statements)?;
    let terms = vocabulary.terms.items();
    let places = vocabulary.places.items();
    let mut bytes = Vec::new(alloc);
    bytes.push(FORMAT)?;
    bytes.push(kind_byte(change.kind))?;
    put_u32(terms.len() as u32, &mut bytes)?;
    put_terms(&mut bytes, &vocabulary)?;
    put_u32(places.len() as u32, &mut bytes)?;
    put_statements(&mut bytes, places)?;
    Ok(bytes)
}

/// Appends the terms, each behind the length of its spelling.
fn put_terms(bytes: &mut Vec<u8>, vocabulary: &Vocabulary) -> Result<(), Want>
    requires spelled { vocabulary.now.spellings ≡ map spelling vocabulary.now.terms }
    requires short { AllByRecursion IsShort vocabulary.now.spellings }
    ensures { OnOk result (bytes.new.items ≡ bytes.old.items ++ flat_map term_field vocabulary.now.terms) }
{
    'terms: for spelling in vocabulary.spellings.items() {
        put_spelling(bytes, spelling.bytes())?;
    }
    Ok(())
}

fn put_spelling(bytes: &mut Vec<u8>, spelling: &[u8]) -> Result<(), Want>
    requires { IsShort spelling.now }
    ensures { OnOk result (bytes.new.items ≡ bytes.old.items ++ counted spelling.now) }
{
    put_u32(spelling.len() as u32, bytes)?;
    bytes.extend_from_slice(spelling)?;
    Ok(())
}

/// Appends the statements, each as the places of its terms.
fn put_statements(bytes: &mut Vec<u8>, statements: &[Places]) -> Result<(), Want>
    ensures { OnOk result (bytes.new.items ≡ bytes.old.items ++ flat_map statement_field statements.now) }
{
    'statements: for places in statements {
        put_statement(bytes, places)?;
    }
    Ok(())
}

fn put_statement(bytes: &mut Vec<u8>, places: &Places) -> Result<(), Want>
    ensures { OnOk result (bytes.new.items ≡ bytes.old.items ++ statement_field places.now) }
{
    put_u32(places.subject, bytes)?;
    put_u32(places.predicate, bytes)?;
    put_u32(places.object, bytes)?;
    Ok(())
}
