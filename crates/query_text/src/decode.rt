//! The characters of a text.
ghost use Rattle.std.specs.Prelude.{◌≡◌, ◌++◌, IfOk};
ghost use Rattle.query_text.specs.Reading.{BeginsNoCharacter};
ghost use Rattle.query_text.specs.Texts.{AreCharacters};
ghost use Rattle.std.specs.Str.{chars, IsUtf8};

use base_core::Want;
use std::alloc::Global;
use std::str;

/// The characters of the bytes, up to the first byte that begins none, and the bytes from there on.
pub fn decode(alloc: Global, bytes: &[u8]) -> Result<(Vec<char>, &[u8]), Want>
    ensures { IfOk result (λ found. AreCharacters bytes.now found.0.items found.1.now) }
{
    let (text, bad) = valid_front(bytes);
    let characters = characters_of(alloc, text)?;
    Ok((characters, bad))
}

fn characters_of(alloc: Global, text: &str) -> Result<Vec<char>, Want>
    ensures { IfOk result (λ found. found.items ≡ chars text.now) }
{
    let characters: Vec<char> = text.chars().collect(alloc)?;
    Ok(characters)
}

/// The longest front that is UTF-8, and the bytes behind it.
fn valid_front(bytes: &[u8]) -> (&str, &[u8])
    ensures cut { bytes.now ≡ result.0.now ++ result.1.now }
    ensures utf8 { IsUtf8 result.0.now }
    ensures bad { BeginsNoCharacter result.1.now }
{
    let length = match str::from_utf8(bytes) {
        Ok(text) => return (text, &[]),
        Err(error) => error.valid_up_to(),
    };
    let (front, bad) = bytes.split_at(length);
    match str::from_utf8(front) {
        Ok(text) => (text, bad),
        Err(_) => unreachable!(),
    }
}
